//! The trail.
ghost use Rattle.std.specs.Prelude.{
  ◌≡◌,
  ℕ,
  ◌+◌,
  ◌*◌,
  ◌^◌,
  ◌<◌,
  ◌≤◌,
  ◌⊎◌,
  Some,
  None,
  Contains,
  IfOk,
  IfSome,
  IsSome,
  IsNone,
  ◌↔◌,
  length,
  slice_index,
  slice_index_or,
  slice_get,
};
ghost use Rattle.cdcl_literals.specs.Literals.{variable_of, opposite_of};

use cdcl_literals::{ClauseId, Literal, Variable};
use std::alloc::{AllocError, Global};
use std::marker::Model;

/// The value of a literal on a trail.
#[derive(Debug, Clone, Copy, PartialEq, Eq)]
pub enum Value {
    Open,
    True,
    False,
}

/// The true literals of a search, in the order in which they became true, and where levels begin.
/// Allocates only in `new`. A reason is a clause whose other literals were all false before.
#[derive(Debug, Drop)]
pub struct Trail {
    /// The value of each literal.
    values: Vec<Value>,
    /// Each variable's place on the trail, if it is there.
    places: Vec<u32>,
    /// The true literals; entries past `len` are unspecified.
    literals: Vec<Literal>,
    reasons: Vec<Option<ClauseId>>,
    len: usize,
    /// The length of the trail when each level began; entries past `levels` are unspecified.
    starts: Vec<u32>,
    levels: usize,
    propagated: usize,
}

impl Model for Trail {
    ghost use Rattle.cdcl_trail.specs.Trail as plain;

    ghost Value = { plain.Trail };

    ghost use Rattle.cdcl_trail.specs.helpers.Layout.{trail_of, IsLaidOut};

    ghost view = { trail_of };

    ghost invariant = { IsLaidOut };
}

impl Trail {
    ghost use Rattle.cdcl_trail.specs.Trail.{empty, pushed, decided, cut_to, Is, IsOpen, IsTrail};

    /// The empty trail over `variables` variables.
    pub fn new(alloc: Global, variables: u32) -> Result<Trail, AllocError>
        requires { variables < 2 ^ 31 }
        ensures empty { IfOk result (λ t. t ≡ empty variables) }
        ensures lawful { IfOk result IsTrail }
    {
        let n = variables as usize;
        let values = vec![in alloc; Value::Open; 2 * n]?;
        let places = vec![in alloc; 0; n]?;
        let literals = vec![in alloc; Variable::new(0).positive(); n]?;
        let reasons = vec![in alloc; None; n]?;
        let starts = vec![in alloc; 0; n]?;
        Ok(Trail {
            values,
            places,
            literals,
            reasons,
            len: 0,
            starts,
            levels: 0,
            propagated: 0,
        })
    }

    /// The value of a literal.
    pub fn value(&self, literal: Literal) -> Value
        requires { literal < 2 * self.now.variables }
        ensures { Is self.now literal result }
    {
        self.values[literal.index()]
    }

    /// The number of true literals.
    pub fn len(&self) -> usize
        ensures len { result ≡ length self.now.literals }
        ensures lawful { IsTrail self.now }
    {
        self.len
    }

    /// The literal at a place.
    pub fn literal(&self, place: usize) -> Literal
        requires { place < length self.now.literals }
        ensures { result ≡ slice_index self.now.literals place }
    {
        self.literals[place]
    }

    /// The reason of the literal at a place.
    pub fn reason(&self, place: usize) -> Option<ClauseId>
        requires { place < length self.now.literals }
        ensures { result ≡ slice_index_or self.now.reasons place None }
    {
        self.reasons[place]
    }

    /// The place of a literal or of its opposite, whichever is true.
    pub fn place(&self, literal: Literal) -> usize
        requires within { literal < 2 * self.now.variables }
        requires there { Contains self.now.literals literal ⊎ Contains self.now.literals (opposite_of literal) }
        ensures within { result < length self.now.literals }
        ensures there { variable_of (slice_index self.now.literals result) ≡ variable_of literal }
    {
        self.places[literal.variable().index()] as usize
    }

    /// The number of levels that have begun.
    pub fn levels(&self) -> usize
        ensures { result ≡ length self.now.starts }
    {
        self.levels
    }

    /// Where a level begins.
    pub fn start(&self, level: usize) -> usize
        requires { level < length self.now.starts }
        ensures { result ≡ slice_index self.now.starts level }
    {
        self.starts[level] as usize
    }

    /// The first literal that isn't propagated yet, if any.
    pub fn pending(&self) -> Option<Literal>
        ensures some { IfSome result (λ l. (self.now.propagated < length self.now.literals) × (l ≡ slice_index self.now.literals self.now.propagated)) }
        ensures none { IsNone result → self.now.propagated ≡ length self.now.literals }
    {
        if self.propagated < self.len {
            Some(self.literals[self.propagated])
        } else {
            None
        }
    }

    /// Marks the first pending literal as propagated.
    pub fn advance(&mut self)
        requires { self.old.propagated < length self.old.literals }
        ensures after { self.new ≡ record self.old { propagated = self.old.propagated + 1 } }
        ensures lawful { IsTrail self.new }
    {
        self.propagated += 1;
    }

    /// Makes a literal true, with its reason.
    pub fn imply(&mut self, literal: Literal, reason: ClauseId)
        requires within { literal < 2 * self.old.variables }
        requires open { IsOpen self.old literal }
        ensures after { self.new ≡ pushed self.old literal (Some reason) }
        ensures lawful { IsTrail self.new }
    {
        self.push(literal, Some(reason));
    }

    /// Begins a level with this literal, once all is propagated.
    pub fn decide(&mut self, literal: Literal)
        requires within { literal < 2 * self.old.variables }
        requires open { IsOpen self.old literal }
        requires propagated { self.old.propagated ≡ length self.old.literals }
        ensures after { self.new ≡ decided self.old literal }
        ensures lawful { IsTrail self.new }
    {
        let start = self.len;
        self.push(literal, None);
        self.starts[self.levels] = start as u32;
        self.levels += 1;
    }

    /// Makes a literal true.
    fn push(&mut self, literal: Literal, reason: Option<ClauseId>)
        requires within { literal < 2 * self.old.variables }
        requires open { IsOpen self.old literal }
        ensures after { self.new ≡ pushed self.old literal reason }
        ensures lawful { IsTrail self.new }
    {
        self.values[literal.index()] = Value::True;
        self.values[literal.opposite().index()] = Value::False;
        self.places[literal.variable().index()] = self.len as u32;
        self.literals[self.len] = literal;
        self.reasons[self.len] = reason;
        self.len += 1;
    }

    /// Undoes the levels from this one on.
    pub fn cut(&mut self, level: usize)
        requires { level < length self.old.starts }
        ensures after { self.new ≡ cut_to self.old level }
        ensures lawful { IsTrail self.new }
    {
        let start = self.starts[level] as usize;
        for place in start..self.len {
            let literal = self.literals[place];
            self.values[literal.index()] = Value::Open;
            self.values[literal.opposite().index()] = Value::Open;
        }
        self.len = start;
        self.levels = level;
        self.propagated = start;
    }
}

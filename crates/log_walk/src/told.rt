//! What a thread's path determines: its mutexes, its children and its end.
ghost use Rattle.std.specs.Prelude.{◌≡◌, ◌+◌, ◌<◌, ◌^◌, drop, option_map, length, slice_set, IfOk};
ghost use Rattle.tc_code.specs.Code.{instr_at};
ghost use Rattle.thread_paths.specs.path_walk.Steps.{onward, branched, is_site};
ghost use Rattle.log_walk.specs.Told.{untold, is_create, changed, told_by, told};
ghost use Rattle.log_walk.specs.helpers.Searches.{position_of};

use std::alloc::{AllocError, Global};
use std::marker::Model;
use tc_code::{Code, Instr};
use thread_paths::Path;

/// What a path determines.
#[derive(Drop)]
pub struct Told {
    /// For each mutex, whether the thread holds it.
    pub held: Vec<bool>,
    /// For each thread variable, the number of its child that isn't joined yet, or 0.
    pub children: Vec<usize>,
    /// The functions of the children created, in order.
    pub created: Vec<usize>,
    /// The numbers of the children joined.
    pub joined: Vec<usize>,
    /// The place after the last step.
    pub place: usize,
    /// Whether the last step is at a site.
    pub at_site: bool,
    /// Whether the last step creates a child.
    pub at_create: bool,
}

impl Model for Told {
    ghost use Rattle.log_walk.specs.Told.{Told as PlainTold};

    ghost Value = { PlainTold };

    ghost view = { λ t. record {
      held = t.held.items;
      children = t.children.items;
      created = t.created.items;
      joined = t.joined.items;
      place = t.place;
      at_site = t.at_site;
      at_create = t.at_create;
    } };
}

/// The place of a thread, and the number of outcomes that it has used.
#[derive(Clone, Copy)]
pub struct Position {
    place: usize,
    used: usize,
}

/// The position of a thread after an instruction.
fn onward(instr: &Instr, at: Position, outcomes: &[bool]) -> Option<Position>
    requires { at.place + 1 < 2 ^ 64 }
    ensures { option_map (position_of outcomes.now) result ≡ onward at.place instr.now (drop at.used outcomes.now) }
{
    let next = Position {
        place: at.place + 1,
        used: at.used,
    };
    match instr {
        Instr::Branch { target, .. } => branched(next, *target, outcomes),
        Instr::Goto { target } => Some(Position {
            place: *target as usize,
            used: at.used,
        }),
        _ => Some(next),
    }
}

/// The position after a branch: at the target if the outcome is false.
fn branched(next: Position, target: u32, outcomes: &[bool]) -> Option<Position>
    ensures { option_map (position_of outcomes.now) result ≡ branched next.place target (drop next.used outcomes.now) }
{
    let outcome = *outcomes.get(next.used)?;
    let place = if outcome { next.place } else { target as usize };
    Some(Position {
        place,
        used: next.used + 1,
    })
}

/// Whether an instruction only tests something, and fails if that is false.
fn is_site(instr: &Instr) -> bool
    ensures { result ≡ is_site instr.now }
{
    matches!(
        instr,
        Instr::Inside { .. }
            | Instr::Holds { .. }
            | Instr::Ready { .. }
            | Instr::Assert(_)
            | Instr::Nonzero(_)
            | Instr::InRange(_)
    )
}

/// Whether an instruction creates a child.
fn is_create(instr: &Instr) -> bool
    ensures { result ≡ is_create instr.now }
{
    matches!(instr, Instr::Create { .. })
}

impl Told {
    /// What is determined before the first step of a function: nothing.
    fn new(alloc: Global, code: &Code, function: usize) -> Result<Told, AllocError>
        ensures { IfOk result (λ t. t ≡ untold code.now function) }
    {
        let handles = match code.functions().get(function) {
            Some(func) => func.handles,
            None => 0,
        };
        Ok(Told {
            held: vec![in alloc; false; code.mutexes() as usize]?,
            children: vec![in alloc; 0; handles as usize]?,
            created: Vec::new(alloc),
            joined: Vec::new(alloc),
            place: 0,
            at_site: false,
            at_create: false,
        })
    }

    /// Applies the effect of an instruction on mutexes and children.
    fn change(&mut self, instr: &Instr) -> Result<(), AllocError>
        ensures { IfOk result (λ _. self.new ≡ changed self.old instr.now) }
    {
        match instr {
            Instr::Lock { mutex } | Instr::Wake { mutex, .. } => {
                set(&mut self.held, *mutex, true);
            }
            Instr::Unlock { mutex } | Instr::Sleep { mutex, .. } => {
                set(&mut self.held, *mutex, false);
            }
            Instr::Create {
                handle,
                function,
                ..
            } => {
                self.created.push(*function as usize)?;
                set(&mut self.children, *handle, self.created.len());
            }
            Instr::Join { handle } => {
                let child = match self.children.get(*handle as usize) {
                    Some(child) => *child,
                    None => 0,
                };
                self.joined.push(child)?;
                set(&mut self.children, *handle, 0);
            }
            _ => {}
        }
        Ok(())
    }

    /// Applies an instruction that leads to this place.
    fn apply(&mut self, instr: &Instr, to: usize) -> Result<(), AllocError>
        ensures { IfOk result (λ _. self.new ≡ told_by self.old instr.now to) }
    {
        self.change(instr)?;
        self.place = to;
        self.at_site = is_site(instr);
        self.at_create = is_create(instr);
        Ok(())
    }
}

/// Sets an element, if there is one.
pub fn set<T: Copy>(items: &mut [T], place: u32, item: T)
    ensures { items.new ≡ slice_set items.old place item }
{
    let place = place as usize;
    if place < items.len() {
        items[place] = item;
    }
}

/// What a path through a function determines.
pub fn follow(alloc: Global, code: &Code, function: usize, path: &Path) -> Result<Told, AllocError>
    ensures told { IfOk result (λ t. t ≡ told code.now function path.now) }
    ensures few { IfOk result (λ t. length t.created < 2 ^ 16) }
{
    let outcomes = path.outcomes.as_slice();
    let mut told = Told::new(alloc, code, function)?;
    let mut used = 0;
    for step in 0..path.steps {
        let at = Position {
            place: told.place,
            used,
        };
        let Some(instr) = code.instr(function, at.place) else {
            return Ok(told);
        };
        let Some(next) = onward(instr, at, outcomes) else {
            return Ok(told);
        };
        told.apply(instr, next.place)?;
        used = next.used;
    }
    Ok(told)
}

//! Statements as instructions, each with its line.
ghost use Rattle.std.specs.Prelude.{◌≡◌, [], ◌+◌, ◌-◌, ◌<◌, ◌≤◌, ◌^◌, ◌∷◌, ◌++◌, OnOk, IfOk, length, map, drop, option_map, replicate, slice_set};
ghost use Rattle.tc_code.specs.tc_limits.declared.limits.TheConstants.{PROGRAM_BYTES};
ghost use Rattle.tc_code.specs.declared.instr.Instr.TheVariants as flat;
ghost use Rattle.tc_tree.specs.Seen.{statement_of, block_of, branch_of, otherwise_of};
ghost use Rattle.tc_lower.specs.Statements as spec;
ghost use Rattle.tc_lower.specs.helpers.Seen.{plain_scope};
ghost use Rattle.tc_tree.specs.helpers.Parts.{statements_seen};
ghost use Rattle.tc_lower.specs.helpers.Bodies.{IsWritten, IsBegun, while_of, test_of, body_of, open_branch, jump_place, filled, Below};

use crate::draft::Draft;
use crate::things::{Scope, thing_of};
use crate::value::Writer;
use std::alloc::{AllocError, Global};
use tc_code::{Expr, Func, FuncName, Instr, Lines};
use tc_tree::{Block, Branch, Statement};

/// The code of a body so far.
#[derive(Drop)]
pub(crate) struct Body {
    pub(crate) code: Writer,
    /// The line of each instruction.
    pub(crate) lines: Vec<u32>,
}

/// A test whose branch is still to be written.
#[derive(Drop)]
struct Test {
    condition: Expr,
    /// The place of the branch, which isn't written yet.
    branch: usize,
}

impl Body {
    /// An empty body, whose first `slots` slots are taken.
    pub(crate) fn new(alloc: Global, slots: u32) -> Body
        ensures draft { result.code.draft ≡ [] }
        ensures free { result.code.free ≡ slots }
        ensures lines { result.lines.items ≡ [] }
    {
        Body {
            code: Writer {
                draft: Draft::new(alloc),
                free: slots,
            },
            lines: Vec::new(alloc),
        }
    }

    /// The function of the body, which ends with an exit on this line.
    pub(crate) fn finish(
        self,
        name: FuncName,
        params: u32,
        handles: u32,
        line: u32,
    ) -> Result<Func, AllocError>
        ensures { IfOk result (λ f. f ≡ record {
          name = name;
          params = params;
          ints = self.code.free;
          handles = handles;
          instrs = self.code.draft ++ flat.Exit ∷ [];
          lines = self.lines.items ++ line ∷ [];
        }) }
    {
        let Body { code, mut lines } = self;
        let Writer { mut draft, free } = code;
        draft.push(Instr::Exit)?;
        lines.push(line)?;
        Ok(Func {
            name,
            params,
            ints: free,
            handles,
            instrs: draft.finish(),
            lines: Lines::new(lines),
        })
    }

    /// Writes statements, one after another.
    #[cycle(statements)]
    pub(crate) fn write_all(
        &mut self,
        alloc: Global,
        scope: Scope,
        statements: &[Statement],
    ) -> Result<(), AllocError>
        requires even { length self.old.lines.items ≡ length self.old.code.draft }
        requires room { self.old.code.free ≤ length self.old.code.draft + PROGRAM_BYTES }
        requires fits { length self.old.code.draft + length (spec.all_lowered (plain_scope scope) (length self.old.code.draft) self.old.code.free
            (statements_seen statements.now)).instrs < 2 ^ 18 }
        ensures { OnOk result (IsWritten self.old self.new
            (spec.all_lowered (plain_scope scope.entry) (length self.old.code.draft) self.old.code.free (statements_seen statements.now))) }
    {
        for statement in statements {
            self.write(alloc, scope, statement)?;
        }
        Ok(())
    }

    #[cycle(statements)]
    fn write(
        &mut self,
        alloc: Global,
        scope: Scope,
        statement: &Statement,
    ) -> Result<(), AllocError>
        requires even { length self.old.lines.items ≡ length self.old.code.draft }
        requires room { self.old.code.free ≤ length self.old.code.draft + PROGRAM_BYTES }
        requires fits { length self.old.code.draft + length (spec.lowered (plain_scope scope) (length self.old.code.draft) self.old.code.free (statement_of
            statement.now)).instrs < 2 ^ 18 }
        ensures { OnOk result (IsWritten self.old self.new
            (spec.lowered (plain_scope scope.entry) (length self.old.code.draft) self.old.code.free (statement_of statement.now))) }
    {
        match statement {
            Statement::Assign(name, value) => {
                self.code.assign(alloc, scope, name, value)?;
                self.mark(name.place.line)
            }
            Statement::Store(array, index, value) => {
                self.code.store(alloc, scope, array, index, value)?;
                self.mark(array.place.line)
            }
            Statement::Create(handle, thread, arguments) => {
                self.code
                    .create(alloc, scope, handle, thread, arguments.as_slice())?;
                self.mark(handle.place.line)
            }
            Statement::Modify(local, target, index, update) => {
                self.code
                    .modify(alloc, scope, local, target, index, update)?;
                self.mark(local.place.line)
            }
            Statement::Act(place, action, name) => {
                self.code.act(*action, thing_of(scope, name))?;
                self.mark(place.line)
            }
            Statement::Wait(place, condition, mutex) => {
                self.code
                    .wait(thing_of(scope, condition), thing_of(scope, mutex))?;
                self.mark(place.line)
            }
            Statement::Order(place, barrier) => {
                self.code.order(*barrier)?;
                self.mark(place.line)
            }
            Statement::Assert(place, condition) => {
                self.code.assert(alloc, scope, condition)?;
                self.mark(place.line)
            }
            Statement::While(branch) => self.write_loop(alloc, scope, branch),
            Statement::If(first, others, last) => {
                let mut jumps = Vec::new(alloc);
                let more = goes_on(others.as_slice(), 0, last);
                self.write_branch(alloc, scope, first, more, &mut jumps)?;
                for (i, other) in others.iter().enumerate() {
                    let more = goes_on(others.as_slice(), i + 1, last);
                    self.write_branch(alloc, scope, other, more, &mut jumps)?;
                }
                self.write_last(alloc, scope, last)?;
                self.join(jumps.as_slice());
                Ok(())
            }
        }
    }

    /// Gives this line to the instructions that have none.
    #[tactic(auto, using(crate::proofs::Lists::rows))]
    fn mark(&mut self, line: u32) -> Result<(), AllocError>
        requires { length self.old.lines.items ≤ length self.old.code.draft }
        ensures code { self.new.code ≡ self.old.code }
        ensures lines { OnOk result (self.new.lines.items ≡ self.old.lines.items
            ++ replicate (length self.old.code.draft - length self.old.lines.items) line) }
    {
        self.lines.resize(self.code.draft.len(), line)?;
        Ok(())
    }

    /// A `while`: its test, its body, and the jump back.
    #[cycle(statements)]
    fn write_loop(&mut self, alloc: Global, scope: Scope, branch: &Branch) -> Result<(), AllocError>
        requires even { length self.old.lines.items ≡ length self.old.code.draft }
        requires room { self.old.code.free ≤ length self.old.code.draft + PROGRAM_BYTES }
        requires fits { length self.old.code.draft + length (spec.lowered (plain_scope scope) (length self.old.code.draft) self.old.code.free (while_of
            (branch_of branch.now))).instrs < 2 ^ 18 }
        ensures { OnOk result (IsWritten self.old self.new
            (spec.lowered (plain_scope scope.entry) (length self.old.code.draft) self.old.code.free (while_of (branch_of branch.now)))) }
    {
        let start = self.code.draft.len() as u32;
        let test = self.begin(alloc, scope, branch)?;
        self.write_all(alloc, scope, branch.body.statements.as_slice())?;
        self.code.draft.push(Instr::Goto { target: start })?;
        self.mark(branch.place.line)?;
        self.end(test);
        Ok(())
    }

    /// The `else` at the end of a chain, if there is one.
    #[cycle(statements)]
    fn write_last(
        &mut self,
        alloc: Global,
        scope: Scope,
        last: &Option<Block>,
    ) -> Result<(), AllocError>
        requires even { length self.old.lines.items ≡ length self.old.code.draft }
        requires room { self.old.code.free ≤ length self.old.code.draft + PROGRAM_BYTES }
        requires fits { length self.old.code.draft + length (spec.lowered_otherwise (plain_scope scope) (length self.old.code.draft) self.old.code.free
            (otherwise_of [] (option_map block_of last.now))).instrs < 2 ^ 18 }
        ensures { OnOk result (IsWritten self.old self.new (spec.lowered_otherwise (plain_scope scope.entry) (length self.old.code.draft)
            self.old.code.free (otherwise_of [] (option_map block_of last.now)))) }
    {
        match last {
            Some(block) => self.write_all(alloc, scope, block.statements.as_slice()),
            None => Ok(()),
        }
    }

    /// A test and its body, and, if more follows, room for the jump past that.
    #[cycle(statements)]
    fn write_branch(
        &mut self,
        alloc: Global,
        scope: Scope,
        branch: &Branch,
        more: bool,
        jumps: &mut Vec<usize>,
    ) -> Result<(), AllocError>
        requires even { length self.old.lines.items ≡ length self.old.code.draft }
        requires room { self.old.code.free ≤ length self.old.code.draft + PROGRAM_BYTES }
        requires fits { let b = branch_of branch.now in
            length self.old.code.draft + length (open_branch b.place.line (length self.old.code.draft) (test_of scope self.old b) (body_of scope self.old b)
            more).instrs < 2 ^ 18 }
        ensures written { OnOk result (let b = branch_of branch.now in IsWritten self.old self.new
            (open_branch b.place.line (length self.old.code.draft) (test_of scope.entry self.old b) (body_of scope.entry self.old b) more)) }
        ensures jumps { OnOk result (let b = branch_of branch.now in jumps.new.items ≡ jumps.old.items
            ++ jump_place more (length self.old.code.draft + length (test_of scope.entry self.old b).instrs + 1
            + length (body_of scope.entry self.old b).instrs)) }
    {
        let test = self.begin(alloc, scope, branch)?;
        self.write_all(alloc, scope, branch.body.statements.as_slice())?;
        self.leave_jump(more, jumps)?;
        self.mark(branch.place.line)?;
        self.end(test);
        Ok(())
    }

    /// Leaves room for a jump to the end, if more follows the body.
    fn leave_jump(&mut self, more: bool, jumps: &mut Vec<usize>) -> Result<(), AllocError>
        ensures draft { OnOk result (self.new.code.draft ≡ self.old.code.draft ++ spec.passing more 0) }
        ensures jumps { OnOk result (jumps.new.items ≡ jumps.old.items ++ jump_place more (length self.old.code.draft)) }
        ensures free { self.new.code.free ≡ self.old.code.free }
        ensures lines { self.new.lines ≡ self.old.lines }
    {
        if more {
            jumps.push(self.code.draft.leave_room()?)?;
        }
        Ok(())
    }

    /// Computes the value of a condition, and leaves room for its branch.
    #[tactic(auto, using(crate::proofs::Lists::lined))]
    fn begin(&mut self, alloc: Global, scope: Scope, branch: &Branch) -> Result<Test, AllocError>
        requires even { length self.old.lines.items ≡ length self.old.code.draft }
        requires room { self.old.code.free ≤ length self.old.code.draft + PROGRAM_BYTES }
        requires fits { length self.old.code.draft + length (test_of scope self.old (branch_of branch.now)).instrs < 2 ^ 18 }
        ensures { IfOk result (λ test. IsBegun self.old self.new (test_of scope.entry self.old (branch_of branch.now)) (branch_of branch.now).place.line test) }
    {
        let line = branch.place.line;
        let condition = self.code.evaluate(alloc, scope, &branch.condition)?;
        let room = self.code.draft.leave_room()?;
        self.mark(line)?;
        Ok(Test {
            condition,
            branch: room,
        })
    }

    /// Writes the branch of a test: it leads here.
    fn end(&mut self, test: Test)
        requires room { length self.old.code.draft < 2 ^ 31 }
        requires branch { test.branch < length self.old.code.draft }
        ensures draft { self.new.code.draft
            ≡ slice_set self.old.code.draft test.branch (flat.Branch test.condition (length self.old.code.draft)) }
        ensures lines { self.new.lines.items ≡ self.old.lines.items }
        ensures free { self.new.code.free ≡ self.old.code.free }
    {
        let target = self.code.draft.len() as u32;
        let Test { condition, branch } = test;
        self.code
            .draft
            .put(branch, Instr::Branch { condition, target });
    }

    /// Writes the jumps that lead here.
    fn join(&mut self, jumps: &[usize])
        requires room { length self.old.code.draft < 2 ^ 31 }
        requires jumps { Below (length self.old.code.draft) jumps.now }
        ensures draft { self.new.code.draft ≡ filled (length self.old.code.draft) jumps.now self.old.code.draft }
        ensures lines { self.new.lines.items ≡ self.old.lines.items }
        ensures free { self.new.code.free ≡ self.old.code.free }
    {
        let target = self.code.draft.len() as u32;
        for jump in jumps {
            self.code.draft.put(*jump, Instr::Goto { target });
        }
    }
}

/// Whether anything follows the body of a branch, given how many other branches come first.
#[tactic(auto, using(crate::proofs::Chains::mores))]
fn goes_on(others: &[Branch], before: usize, last: &Option<Block>) -> bool
    ensures { result ≡ spec.goes_on (otherwise_of (map branch_of (drop before others.now)) (option_map block_of last.now)) }
{
    if before < others.len() {
        true
    } else {
        last.is_some()
    }
}

//! Statements without inner statements, as instructions.
ghost use Rattle.std.specs.Prelude.{◌≡◌, ◌++◌, [], ◌∷◌, OnOk, IfOk, length};
ghost use Rattle.tc_lower.specs.Statements as spec;
ghost use Rattle.tc_lower.specs.helpers.Seen.{arguments_by, indexed_by, updating_by, plain_scope, HasRoom, IsAdded};

use crate::things::{Scope, Thing, thing_of};
use crate::value::{Writer, copy};
use int_ops::Update;
use std::alloc::{AllocError, Global};
use tc_code::{Cell, Expr, Exprs, Instr};
use tc_tree::{Action, Barrier, Expression, Name};

impl Writer {
    /// `x = e;`
    #[tactic(auto, using(crate::proofs::Lists::rows))]
    pub(crate) fn assign(
        &mut self,
        alloc: Global,
        scope: Scope,
        name: &Name,
        value: &Expression,
    ) -> Result<(), AllocError>
        requires { HasRoom self.old (spec.assigned (plain_scope scope) (length self.old.draft) self.old.free name.now value.now).instrs }
        ensures { OnOk result (IsAdded self.old self.new (spec.assigned (plain_scope scope.entry) (length self.old.draft) self.old.free name.now
            value.now)) }
    {
        let value = self.evaluate(alloc, scope, value)?;
        match thing_of(scope, name) {
            Some(Thing::Slot(slot)) => self.draft.push(Instr::Set { slot, value }),
            Some(Thing::Cell(cell)) => {
                let cell = Cell::Fixed(cell);
                self.draft.push(Instr::Store { cell, value })
            }
            _ => Ok(()),
        }
    }

    /// `a[i] = e;`
    #[tactic(auto, using(crate::proofs::Lists::rows))]
    pub(crate) fn store(
        &mut self,
        alloc: Global,
        scope: Scope,
        array: &Name,
        index: &Expression,
        value: &Expression,
    ) -> Result<(), AllocError>
        requires { HasRoom self.old (spec.stored (plain_scope scope) (length self.old.draft) self.old.free array.now index.now value.now).instrs }
        ensures { OnOk result (IsAdded self.old self.new (spec.stored (plain_scope scope.entry) (length self.old.draft) self.old.free array.now
            index.now value.now)) }
    {
        let array = thing_of(scope, array);
        let index = self.evaluate(alloc, scope, index)?;
        self.test_index(alloc, array, &index)?;
        let value = self.evaluate(alloc, scope, value)?;
        match array {
            Some(Thing::Array(first, length)) => {
                let cell = Cell::Element {
                    first,
                    length,
                    index,
                };
                self.draft.push(Instr::Store { cell, value })
            }
            _ => Ok(()),
        }
    }

    /// The test that an index is inside its array.
    fn test_index(
        &mut self,
        alloc: Global,
        array: Option<Thing>,
        index: &Expr,
    ) -> Result<(), AllocError>
        ensures draft { OnOk result (self.new.draft ≡ self.old.draft ++ spec.test_of_index array index.now) }
        ensures free { self.new.free ≡ self.old.free }
    {
        match array {
            Some(Thing::Array(_, length)) => {
                let index = copy(alloc, index)?;
                self.draft.push(Instr::Inside { length, index })
            }
            _ => Ok(()),
        }
    }

    /// `h = create f(e, ..);`
    #[tactic(auto, using(crate::proofs::Lists::rows))]
    pub(crate) fn create(
        &mut self,
        alloc: Global,
        scope: Scope,
        handle: &Name,
        thread: &Name,
        arguments: &[Expression],
    ) -> Result<(), AllocError>
        requires { HasRoom self.old (spec.created (plain_scope scope) (length self.old.draft) self.old.free handle.now thread.now arguments.now).instrs }
        ensures { OnOk result (IsAdded self.old self.new (spec.created (plain_scope scope.entry) (length self.old.draft) self.old.free handle.now thread.now
            arguments.now)) }
    {
        let arguments = self.evaluate_all(alloc, scope, arguments)?;
        match (thing_of(scope, handle), thing_of(scope, thread)) {
            (Some(Thing::Handle(handle)), Some(Thing::Function(function, parameters)))
                if parameters == arguments.len() => {
                self.draft.push(Instr::Create {
                    handle,
                    function,
                    arguments: Exprs::new(arguments),
                })
            }
            _ => Ok(()),
        }
    }

    /// The values of arguments, from left to right.
    #[tactic(auto, using(crate::proofs::Lists::rows))]
    fn evaluate_all(
        &mut self,
        alloc: Global,
        scope: Scope,
        arguments: &[Expression],
    ) -> Result<Vec<Expr>, AllocError>
        requires { HasRoom self.old (arguments_by scope self.old arguments.now).instrs }
        ensures values { IfOk result (λ values. values.items ≡ (arguments_by scope.entry self.old arguments.now).values) }
        ensures added { OnOk result (let given = arguments_by scope.entry self.old arguments.now in
            IsAdded self.old self.new (record { instrs = given.instrs; free = given.free })) }
    {
        let mut values = Vec::new(alloc);
        for argument in arguments {
            let value = self.evaluate(alloc, scope, argument)?;
            values.push(value)?;
        }
        Ok(values)
    }

    /// `r = swap(x, e);` and the like.
    #[tactic(auto, using(crate::proofs::Lists::rows))]
    pub(crate) fn modify(
        &mut self,
        alloc: Global,
        scope: Scope,
        local: &Name,
        target: &Name,
        index: &Option<Expression>,
        update: &Update<Expression>,
    ) -> Result<(), AllocError>
        requires { HasRoom self.old (spec.modified (plain_scope scope) (length self.old.draft) self.old.free local.now target.now index.now update.now).instrs }
        ensures { OnOk result (IsAdded self.old self.new (spec.modified (plain_scope scope.entry) (length self.old.draft) self.old.free local.now target.now
            index.now update.now)) }
    {
        let index = self.evaluate_index(alloc, scope, target, index)?;
        let update = self.evaluate_update(alloc, scope, update)?;
        let slot = self.take_slot();
        match (
            thing_of(scope, local),
            cell_of(thing_of(scope, target), index),
        ) {
            (Some(Thing::Slot(local)), Some(cell)) => {
                self.draft.push(Instr::Modify { slot, cell, update })?;
                self.draft.push(Instr::Set {
                    slot: local,
                    value: Expr::slot(slot),
                })
            }
            _ => self.draft.push(Instr::Set {
                slot,
                value: Expr::number(0),
            }),
        }
    }

    /// The value of an update's index, if it has one, and the test that it is inside its array.
    #[tactic(auto, using(crate::proofs::Lists::rows))]
    fn evaluate_index(
        &mut self,
        alloc: Global,
        scope: Scope,
        array: &Name,
        index: &Option<Expression>,
    ) -> Result<Option<Expr>, AllocError>
        requires { HasRoom self.old (indexed_by scope self.old array.now index.now).instrs }
        ensures value { IfOk result (λ value. value ≡ (indexed_by scope.entry self.old array.now index.now).index) }
        ensures added { OnOk result (let given = indexed_by scope.entry self.old array.now index.now in
            IsAdded self.old self.new (record { instrs = given.instrs; free = given.free })) }
    {
        let Some(index) = index else {
            return Ok(None);
        };
        let index = self.evaluate(alloc, scope, index)?;
        self.test_index(alloc, thing_of(scope, array), &index)?;
        Ok(Some(index))
    }

    /// An update over the values of its operands, from left to right.
    #[tactic(auto, using(crate::proofs::Lists::rows))]
    fn evaluate_update(
        &mut self,
        alloc: Global,
        scope: Scope,
        update: &Update<Expression>,
    ) -> Result<Update<Expr>, AllocError>
        requires { HasRoom self.old (updating_by scope self.old update.now).instrs }
        ensures value { IfOk result (λ value. value ≡ (updating_by scope.entry self.old update.now).update) }
        ensures added { OnOk result (let given = updating_by scope.entry self.old update.now in
            IsAdded self.old self.new (record { instrs = given.instrs; free = given.free })) }
    {
        match update {
            Update::Swap(value) => Ok(Update::Swap(self.evaluate(alloc, scope, value)?)),
            Update::Cas(expected, value) => {
                let expected = self.evaluate(alloc, scope, expected)?;
                let value = self.evaluate(alloc, scope, value)?;
                Ok(Update::Cas(expected, value))
            }
            Update::Add(value) => Ok(Update::Add(self.evaluate(alloc, scope, value)?)),
        }
    }

    /// `lock(m);` and the like.
    #[tactic(auto, using(crate::proofs::Lists::rows))]
    pub(crate) fn act(&mut self, action: Action, thing: Option<Thing>) -> Result<(), AllocError>
        requires { HasRoom self.old (spec.action action thing) }
        ensures { OnOk result (IsAdded self.old self.new (record { instrs = spec.action action thing; free = self.old.free })) }
    {
        match (action, thing) {
            (Action::Join, Some(Thing::Handle(handle))) => {
                self.draft.push(Instr::Ready { handle })?;
                self.draft.push(Instr::Join { handle })
            }
            (Action::Lock, Some(Thing::Mutex(mutex))) => self.draft.push(Instr::Lock { mutex }),
            (Action::Unlock, Some(Thing::Mutex(mutex))) => {
                self.draft.push(Instr::Holds { mutex })?;
                self.draft.push(Instr::Unlock { mutex })
            }
            (Action::Signal, Some(Thing::Condition(condition))) => {
                self.draft.push(Instr::Signal { condition })
            }
            (Action::Broadcast, Some(Thing::Condition(condition))) => {
                self.draft.push(Instr::Broadcast { condition })
            }
            _ => Ok(()),
        }
    }

    /// `wait(c, m);`
    #[tactic(auto, using(crate::proofs::Lists::rows))]
    pub(crate) fn wait(
        &mut self,
        condition: Option<Thing>,
        mutex: Option<Thing>,
    ) -> Result<(), AllocError>
        requires { HasRoom self.old (spec.wait condition mutex) }
        ensures { OnOk result (IsAdded self.old self.new (record { instrs = spec.wait condition mutex; free = self.old.free })) }
    {
        match (condition, mutex) {
            (Some(Thing::Condition(condition)), Some(Thing::Mutex(mutex))) => {
                self.draft.push(Instr::Holds { mutex })?;
                self.draft.push(Instr::Sleep { condition, mutex })?;
                self.draft.push(Instr::Wake { condition, mutex })
            }
            _ => Ok(()),
        }
    }

    /// `fence();` or `stbar();`
    #[tactic(auto, using(crate::proofs::Lists::rows))]
    pub(crate) fn order(&mut self, barrier: Barrier) -> Result<(), AllocError>
        requires { HasRoom self.old (spec.barrier barrier ∷ []) }
        ensures { OnOk result (IsAdded self.old self.new (record { instrs = spec.barrier barrier ∷ []; free = self.old.free })) }
    {
        self.draft.push(match barrier {
            Barrier::Fence => Instr::Fence,
            Barrier::Stores => Instr::Stbar,
        })
    }

    /// `assert(e);`
    #[tactic(auto, using(crate::proofs::Lists::rows))]
    pub(crate) fn assert(
        &mut self,
        alloc: Global,
        scope: Scope,
        condition: &Expression,
    ) -> Result<(), AllocError>
        requires { HasRoom self.old (spec.asserted (plain_scope scope) (length self.old.draft) self.old.free condition.now).instrs }
        ensures { OnOk result (IsAdded self.old self.new (spec.asserted (plain_scope scope.entry) (length self.old.draft) self.old.free condition.now)) }
    {
        let condition = self.evaluate(alloc, scope, condition)?;
        self.draft.push(Instr::Assert(condition))
    }
}

/// The cell that an update changes: a global's, or an element of an array.
fn cell_of(thing: Option<Thing>, index: Option<Expr>) -> Option<Cell<Expr>>
    ensures { result ≡ spec.cell_of thing index }
{
    match (thing, index) {
        (Some(Thing::Cell(cell)), None) => Some(Cell::Fixed(cell)),
        (Some(Thing::Array(first, length)), Some(index)) => Some(Cell::Element {
            first,
            length,
            index,
        }),
        _ => None,
    }
}

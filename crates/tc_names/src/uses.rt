//! Uses of names in statements and expressions.
ghost use Rattle.std.specs.Prelude.{◌≡◌, length, map};
ghost use Rattle.int_ops.specs.Updates.{operands_of};
ghost use Rattle.tc_tree.specs.Seen.{statement_of, branch_of};
ghost use Rattle.tc_names.specs.Names.{
  name_fault,
  is_int,
  is_meaning,
  thread_fault,
  expression_fault,
  expressions_fault,
  action_fits,
  target_fault,
  statement_fault,
  statements_fault,
};
ghost use Rattle.tc_tree.specs.helpers.Parts.{statements_seen};
ghost use Rattle.tc_names.specs.helpers.Answers.{Tells, plain_scope, branch_fault, branches_fault};

use crate::fault::NameFault;
use crate::scope::{Meaning, Scope, meaning_of};
use int_ops::Update;
use tc_tree::{Action, Block, Branch, Expression, Name, Node, Statement};

/// Rejects a name with another meaning.
fn check_meaning(scope: Scope, name: &Name, wanted: Meaning) -> Result<(), NameFault>
    ensures { Tells result (name_fault (is_meaning wanted) (plain_scope scope.entry) name.now) }
{
    if meaning_of(scope, name)? == wanted {
        Ok(())
    } else {
        Err(NameFault::Kind(name.place))
    }
}

/// Rejects a name that isn't an int.
fn check_int(scope: Scope, name: &Name) -> Result<(), NameFault>
    ensures { Tells result (name_fault is_int (plain_scope scope.entry) name.now) }
{
    match meaning_of(scope, name)? {
        Meaning::Global | Meaning::Parameter | Meaning::Local => Ok(()),
        _ => Err(NameFault::Kind(name.place)),
    }
}

/// Rejects a name that isn't a thread, or is one with another number of parameters.
fn check_thread(scope: Scope, name: &Name, arguments: usize) -> Result<(), NameFault>
    ensures { Tells result (thread_fault (plain_scope scope.entry) name.now arguments) }
{
    match meaning_of(scope, name)? {
        Meaning::Thread(parameters) if parameters == arguments => Ok(()),
        Meaning::Thread(_) => Err(NameFault::Arguments(name.place)),
        _ => Err(NameFault::Kind(name.place)),
    }
}

fn check_expression(scope: Scope, expression: &Expression) -> Result<(), NameFault>
    ensures { Tells result (expression_fault (plain_scope scope.entry) expression.now) }
{
    match &expression.node {
        Node::Number(_) => Ok(()),
        Node::Variable(name) => check_int(scope, name),
        Node::Element(array, index) => {
            check_meaning(scope, array, Meaning::Array)?;
            check_expression(scope, index)
        }
        Node::Paren(inside) => check_expression(scope, inside),
        Node::Unary(_, operand) => check_expression(scope, operand),
        Node::Binary(_, left, right) => {
            check_expression(scope, left)?;
            check_expression(scope, right)
        }
    }
}

fn check_expressions(scope: Scope, expressions: &[Expression]) -> Result<(), NameFault>
    ensures { Tells result (expressions_fault (plain_scope scope.entry) expressions.now) }
{
    for expression in expressions {
        check_expression(scope, expression)?;
    }
    Ok(())
}

/// What an update changes: a global, or an element of an array.
fn check_target(scope: Scope, name: &Name, index: &Option<Expression>) -> Result<(), NameFault>
    ensures { Tells result (target_fault (plain_scope scope.entry) name.now index.now) }
{
    match index {
        None => check_meaning(scope, name, Meaning::Global),
        Some(index) => {
            check_meaning(scope, name, Meaning::Array)?;
            check_expression(scope, index)
        }
    }
}

fn check_operands(scope: Scope, update: &Update<Expression>) -> Result<(), NameFault>
    ensures { Tells result (expressions_fault (plain_scope scope.entry) (operands_of update.now)) }
{
    match update {
        Update::Swap(value) | Update::Add(value) => check_expression(scope, value)?,
        Update::Cas(expected, value) => {
            check_expression(scope, expected)?;
            check_expression(scope, value)?;
        }
    }
    Ok(())
}

fn check_action(scope: Scope, action: Action, name: &Name) -> Result<(), NameFault>
    ensures { Tells result (name_fault (action_fits action) (plain_scope scope.entry) name.now) }
{
    let wanted = match action {
        Action::Join => Meaning::Handle,
        Action::Lock | Action::Unlock => Meaning::Mutex,
        Action::Signal | Action::Broadcast => Meaning::Condition,
    };
    check_meaning(scope, name, wanted)
}

#[cycle(statements)]
pub(crate) fn check_statements(scope: Scope, statements: &[Statement]) -> Result<(), NameFault>
    ensures { Tells result (statements_fault (plain_scope scope.entry) (statements_seen statements.now)) }
{
    for statement in statements {
        check_statement(scope, statement)?;
    }
    Ok(())
}

#[cycle(statements)]
fn check_statement(scope: Scope, statement: &Statement) -> Result<(), NameFault>
    ensures { Tells result (statement_fault (plain_scope scope.entry) (statement_of statement.now)) }
{
    match statement {
        Statement::Assign(name, value) => {
            check_int(scope, name)?;
            check_expression(scope, value)
        }
        Statement::Store(array, index, value) => {
            check_meaning(scope, array, Meaning::Array)?;
            check_expression(scope, index)?;
            check_expression(scope, value)
        }
        Statement::Create(handle, thread, arguments) => {
            check_meaning(scope, handle, Meaning::Handle)?;
            check_thread(scope, thread, arguments.len())?;
            check_expressions(scope, arguments.as_slice())
        }
        Statement::Modify(local, target, index, update) => {
            check_meaning(scope, local, Meaning::Local)?;
            check_target(scope, target, index)?;
            check_operands(scope, update)
        }
        Statement::Act(_, action, name) => check_action(scope, *action, name),
        Statement::Wait(_, condition, mutex) => {
            check_meaning(scope, condition, Meaning::Condition)?;
            check_meaning(scope, mutex, Meaning::Mutex)
        }
        Statement::Order(_, _) => Ok(()),
        Statement::Assert(_, condition) => check_expression(scope, condition),
        Statement::While(branch) => check_branch(scope, branch),
        Statement::If(branch, others, last) => {
            check_branch(scope, branch)?;
            check_branches(scope, others.as_slice())?;
            match last {
                Some(block) => check_statements(scope, block.statements.as_slice()),
                None => Ok(()),
            }
        }
    }
}

#[cycle(statements)]
fn check_branches(scope: Scope, branches: &[Branch]) -> Result<(), NameFault>
    ensures { Tells result (branches_fault (plain_scope scope.entry) (map branch_of branches.now)) }
{
    for branch in branches {
        check_branch(scope, branch)?;
    }
    Ok(())
}

#[cycle(statements)]
fn check_branch(scope: Scope, branch: &Branch) -> Result<(), NameFault>
    ensures { Tells result (branch_fault (plain_scope scope.entry) (branch_of branch.now)) }
{
    check_expression(scope, &branch.condition)?;
    check_statements(scope, branch.body.statements.as_slice())
}

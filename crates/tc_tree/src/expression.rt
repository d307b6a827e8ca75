//! Expressions.
ghost use Rattle.std.specs.Prelude.{◌≡◌, slice_range, IfOk};
ghost use Rattle.tc_tree.specs.Grammar as plain;

use int_ops::UnOp;
use std::alloc::{AllocError, Global};
use std::marker::Model;
use tc_lexer::Place;

/// A name, known by its span in its text.
#[derive(Clone, Copy, Debug, PartialEq, Eq)]
pub struct Name {
    /// How many bytes of the text come before it.
    pub start: usize,
    /// How many bytes of the text come before its end.
    pub end: usize,
    /// The place of its first byte.
    pub place: Place,
}

impl Name {
    /// The bytes of the name in its text.
    pub fn text<'a>(&self, source: &'a [u8]) -> &'a [u8]
        ensures { result.now ≡ slice_range source.now self.now.start self.now.end }
    {
        let end = self.end.min(source.len());
        &source[self.start.min(end)..end]
    }
}

/// A number with its place in its text.
#[derive(Clone, Copy, Debug, PartialEq, Eq)]
pub struct Number {
    /// Its value, never negative.
    pub value: i32,
    /// The place of its first digit.
    pub place: Place,
}

/// An operator between two operands, as in C.
#[derive(Clone, Copy, Debug, PartialEq, Eq)]
pub enum Operator {
    /// `*`
    Multiply,
    /// `/`
    Divide,
    /// `%`
    Remainder,
    /// `+`
    Add,
    /// `-`
    Subtract,
    /// `<<`
    ShiftLeft,
    /// `>>`
    ShiftRight,
    /// `<`
    Less,
    /// `<=`
    LessOrEqual,
    /// `>`
    Greater,
    /// `>=`
    GreaterOrEqual,
    /// `==`
    Equal,
    /// `!=`
    Unequal,
    /// `&`
    BitAnd,
    /// `^`
    BitXor,
    /// `|`
    BitOr,
    /// `&&`, which skips its right side if the left one is 0
    And,
    /// `||`, which skips its right side if the left one isn't 0
    Or,
}

/// An expression, with its parentheses.
#[cycle(expression)]
#[derive(Debug, Drop)]
pub struct Expression {
    /// What it is.
    pub node: Node,
}

/// What an expression is.
#[cycle(expression)]
#[derive(Debug, Drop)]
pub enum Node {
    /// A number.
    Number(Number),
    /// The value of a variable.
    Variable(Name),
    /// `a[i]`
    Element(Name, Box<Expression>),
    /// `( e )`
    Paren(Box<Expression>),
    /// An operator before its operand.
    Unary(UnOp, Box<Expression>),
    /// An operator between its operands.
    Binary(Operator, Box<Expression>, Box<Expression>),
}

impl Model for Expression {
    ghost use Rattle.tc_tree.specs.Grammar as plain;
    ghost use Rattle.tc_tree.specs.helpers.CodedExpression.{coded_expression};

    ghost Value = { plain.Expression };

    ghost coded = { coded_expression };

    ghost use Rattle.tc_tree.specs.Node.{expression_of};

    ghost view = { λ e. expression_of e.node };

    ghost use Rattle.tc_tree.specs.helpers.Size as nodes;

    ghost size = { nodes.size };

    ghost use Rattle.tc_tree.specs.helpers.Falls.{depth_le-size};

    ghost size_decreases = { λ e h. depth_le-size e.node };
}

impl Expression {
    /// A number.
    pub fn number(number: Number) -> Self
        ensures { result ≡ plain.Number number }
    {
        Expression {
            node: Node::Number(number),
        }
    }

    /// The value of a variable.
    pub fn variable(name: Name) -> Self
        ensures { result ≡ plain.Variable name }
    {
        Expression {
            node: Node::Variable(name),
        }
    }

    /// `a[i]`
    pub fn element(alloc: Global, array: Name, index: Self) -> Result<Self, AllocError>
        ensures { IfOk result (λ e. e ≡ plain.Element array index) }
    {
        let index = Box::new(alloc, index)?;
        Ok(Expression {
            node: Node::Element(array, index),
        })
    }

    /// `( e )`
    pub fn paren(alloc: Global, inside: Self) -> Result<Self, AllocError>
        ensures { IfOk result (λ e. e ≡ plain.Paren inside) }
    {
        let inside = Box::new(alloc, inside)?;
        Ok(Expression {
            node: Node::Paren(inside),
        })
    }

    /// An operator before its operand.
    pub fn unary(alloc: Global, op: UnOp, operand: Self) -> Result<Self, AllocError>
        ensures { IfOk result (λ e. e ≡ plain.Unary op operand) }
    {
        let operand = Box::new(alloc, operand)?;
        Ok(Expression {
            node: Node::Unary(op, operand),
        })
    }

    /// An operator between its operands.
    pub fn binary(alloc: Global, op: Operator, left: Self, right: Self) -> Result<Self, AllocError>
        ensures { IfOk result (λ e. e ≡ plain.Binary op left right) }
    {
        let left = Box::new(alloc, left)?;
        let right = Box::new(alloc, right)?;
        Ok(Expression {
            node: Node::Binary(op, left, right),
        })
    }
}

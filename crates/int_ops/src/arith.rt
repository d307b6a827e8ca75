//! Arithmetic of `int`: 32 bits, two's complement, as in C with wrapping overflow.
//!
//! A test gives 1 if it holds and 0 if it doesn't, as in C.
ghost use Rattle.std.specs.Prelude.{◌≡◌};
ghost use Rattle.int_ops.specs.Arith.{
  plus,
  minus,
  times,
  negated,
  is_zero,
  quotient,
  remainder,
  shifted_left,
  shifted_right,
  bits_inverted,
  bits_and,
  bits_or,
  bits_xor,
  equal,
  unequal,
  less,
  less_or_equal,
};
ghost use Rattle.int_ops.specs.Arith as arithmetic;

/// An operator over one value.
#[derive(Clone, Copy, Debug, PartialEq, Eq, Hash)]
pub enum UnOp {
    /// `-`
    Neg,
    /// `!`, the test for 0
    Not,
    /// `~`
    Inv,
}

/// An operator over two values.
#[derive(Clone, Copy, Debug, PartialEq, Eq, Hash)]
pub enum BinOp {
    /// `+`
    Add,
    /// `-`
    Sub,
    /// `*`
    Mul,
    /// `&`
    And,
    /// `|`
    Or,
    /// `^`
    Xor,
    /// `==`
    Eq,
    /// `!=`
    Ne,
    /// `<`
    Lt,
    /// `<=`
    Le,
    /// `>`, which is `<` with its sides swapped
    Gt,
    /// `>=`, which is `<=` with its sides swapped
    Ge,
    /// `/`
    Div,
    /// `%`
    Rem,
    /// `<<`
    Shl,
    /// `>>`
    Shr,
}

/// `a + b`.
#[tactic(auto, using(std::proofs::lemmas::Int::wraps))]
pub fn add(a: i32, b: i32) -> i32
    ensures { result ≡ plus a b }
{
    a.wrapping_add(b)
}

/// `a - b`.
#[tactic(auto, using(std::proofs::lemmas::Int::wraps))]
pub fn sub(a: i32, b: i32) -> i32
    ensures { result ≡ minus a b }
{
    a.wrapping_sub(b)
}

/// `a * b`.
pub fn mul(a: i32, b: i32) -> i32
    ensures { result ≡ times a b }
{
    a.wrapping_mul(b)
}

/// `-a`.
#[tactic(auto, using(std::proofs::lemmas::Int::wraps))]
pub fn neg(a: i32) -> i32
    ensures { result ≡ negated a }
{
    a.wrapping_neg()
}

/// `!a`, the test for 0.
pub fn not(a: i32) -> i32
    ensures { result ≡ is_zero a }
{
    i32::from(a == 0)
}

/// `~a`.
#[tactic(auto, using(crate::proofs::Bits::bits))]
pub fn inv(a: i32) -> i32
    ensures { result ≡ bits_inverted a }
{
    !a
}

/// `a & b`.
#[tactic(auto, using(crate::proofs::Bits::bits))]
pub fn and(a: i32, b: i32) -> i32
    ensures { result ≡ bits_and a b }
{
    a & b
}

/// `a | b`.
#[tactic(auto, using(crate::proofs::Bits::bits))]
pub fn or(a: i32, b: i32) -> i32
    ensures { result ≡ bits_or a b }
{
    a | b
}

/// `a ^ b`.
#[tactic(auto, using(crate::proofs::Bits::bits))]
pub fn xor(a: i32, b: i32) -> i32
    ensures { result ≡ bits_xor a b }
{
    a ^ b
}

/// `a == b`.
pub fn eq(a: i32, b: i32) -> i32
    ensures { result ≡ equal a b }
{
    i32::from(a == b)
}

/// `a != b`.
pub fn ne(a: i32, b: i32) -> i32
    ensures { result ≡ unequal a b }
{
    i32::from(a != b)
}

/// `a < b`.
pub fn lt(a: i32, b: i32) -> i32
    ensures { result ≡ less a b }
{
    i32::from(a < b)
}

/// `a <= b`.
pub fn le(a: i32, b: i32) -> i32
    ensures { result ≡ less_or_equal a b }
{
    i32::from(a <= b)
}

/// `a / b`, truncated toward zero as in C. The least `int` by -1, undefined in C, is that `int`.
///
/// A divisor of 0 gives 0, so that the function is total. Code tests the divisor first.
#[tactic(auto, using(crate::proofs::Wraps::wraps))]
pub fn div(a: i32, b: i32) -> i32
    ensures { result ≡ quotient a b }
{
    if b == 0 { 0 } else { a.wrapping_div(b) }
}

/// `a % b`, with the sign of `a` as in C. The least `int` modulo -1 is 0.
///
/// A divisor of 0 gives 0, so that the function is total. Code tests the divisor first.
pub fn rem(a: i32, b: i32) -> i32
    ensures { result ≡ remainder a b }
{
    if b == 0 { 0 } else { a.wrapping_rem(b) }
}

/// `<<`; bits that are shifted past the 32nd are lost.
///
/// A distance outside 0 to 31 gives 0, so that the function is total. Code tests it first.
#[tactic(auto, using(crate::proofs::Wraps::wraps))]
pub fn shl(a: i32, distance: i32) -> i32
    ensures { result ≡ shifted_left a distance }
{
    match distance {
        0..=31 => a << distance,
        _ => 0,
    }
}

/// `>>`, which fills the vacated places with the sign bit.
///
/// A distance outside 0 to 31 gives 0, so that the function is total. Code tests it first.
pub fn shr(a: i32, distance: i32) -> i32
    ensures { result ≡ shifted_right a distance }
{
    match distance {
        0..=31 => a >> distance,
        _ => 0,
    }
}

/// The result of the operator on one value.
pub fn unary(op: UnOp, a: i32) -> i32
    ensures { result ≡ arithmetic.unary op a }
{
    match op {
        UnOp::Neg => neg(a),
        UnOp::Not => not(a),
        UnOp::Inv => inv(a),
    }
}

/// The result of the operator on two values.
pub fn binary(op: BinOp, a: i32, b: i32) -> i32
    ensures { result ≡ arithmetic.binary op a b }
{
    match op {
        BinOp::Add => add(a, b),
        BinOp::Sub => sub(a, b),
        BinOp::Mul => mul(a, b),
        BinOp::And => and(a, b),
        BinOp::Or => or(a, b),
        BinOp::Xor => xor(a, b),
        BinOp::Eq => eq(a, b),
        BinOp::Ne => ne(a, b),
        BinOp::Lt => lt(a, b),
        BinOp::Le => le(a, b),
        BinOp::Gt => lt(b, a),
        BinOp::Ge => le(b, a),
        BinOp::Div => div(a, b),
        BinOp::Rem => rem(a, b),
        BinOp::Shl => shl(a, b),
        BinOp::Shr => shr(a, b),
    }
}

//! The parts that requests of instructions are made of.
ghost use Rattle.std.specs.Prelude.{◌≡◌, ◌+◌, ◌<◌, ◌^◌, unsigned_abs};
ghost use Rattle.tc_code.specs.int_ops.Arith.{is_distance};
ghost use Rattle.tc_code.specs.Step as plain;

use tc_base::{Handle, Request};

/// The request of a site: nothing if the test holds.
pub fn site(holds: bool) -> Request
    ensures { result ≡ plain.site holds }
{
    if holds {
        Request::Silent
    } else {
        Request::Fail
    }
}

/// Whether an index is inside an array of this length.
pub fn is_within(length: u32, index: i32) -> bool
    ensures { result ≡ plain.is_within length index }
{
    0 <= index && i64::from(index) < i64::from(length)
}

/// Whether a number is a valid shift distance.
pub fn is_distance(number: i32) -> bool
    ensures { result ≡ is_distance number }
{
    0 <= number && number < 32
}

/// The cell at an index of the array that begins at cell `first`.
pub fn cell_at(first: u32, index: i32) -> u32
    requires { first + unsigned_abs index < 2 ^ 32 }
    ensures { result ≡ plain.cell_at first index }
{
    first + index.unsigned_abs()
}

/// Whether a handle is a child that hasn't been joined.
pub fn can_be_joined(handle: Handle) -> bool
    ensures { result ≡ plain.can_be_joined handle }
{
    matches!(handle, Handle::Child(_))
}

/// The number of a child that hasn't been joined, else 0, which no child has.
pub fn child_number(handle: Handle) -> u32
    ensures { result ≡ plain.child_number handle }
{
    match handle {
        Handle::Child(number) => number,
        Handle::Unset | Handle::Joined(_) => 0,
    }
}

/// Whether a request can be met only after all stores of the thread have drained.
pub fn drains_first(request: Request) -> bool
    ensures { result ≡ plain.drains_first request }
{
    !matches!(
        request,
        Request::Silent | Request::Read(_) | Request::Write(..) | Request::Bar | Request::Fail
    )
}

//! Readers of the fields at a place.
ghost use Rattle.std.specs.Prelude.{◌≡◌, length, IfOk};
ghost use Rattle.path_log.specs.Texts.{is_within};
ghost use Rattle.path_log.specs.Fields as fields;
ghost use Rattle.path_log.specs.Fields.{◌such◌};
ghost use Rattle.path_log.specs.helpers.Reading.{Gives, place, seen};

use crate::cursor::Cursor;
use crate::fault::LogFault;
use byteorder::{BigEndian, ByteOrder};

/// A field of `len` bytes, and the place after it.
pub(crate) fn field<'a>(len: usize, cursor: Cursor<'a>) -> Result<(&'a [u8], Cursor<'a>), LogFault>
    ensures gives { Gives (λ x. (x.0.now, place x.1)) result (fields.field len (place cursor.entry)) }
    ensures len { IfOk result (λ x. length x.0.now ≡ len) }
{
    let Some((bytes, rest)) = cursor.rest.split_at_checked(len) else {
        return Err(LogFault::Form(cursor.at));
    };
    let at = cursor.at + len;
    Ok((bytes, Cursor { at, rest }))
}

/// A number of one byte.
pub(crate) fn byte<'a>(cursor: Cursor<'a>) -> Result<(u8, Cursor<'a>), LogFault>
    ensures { Gives seen result (fields.byte (place cursor.entry)) }
{
    let (bytes, cursor) = field(1, cursor)?;
    Ok((bytes[0], cursor))
}

/// A number of two bytes, high byte first.
pub(crate) fn two<'a>(cursor: Cursor<'a>) -> Result<(u16, Cursor<'a>), LogFault>
    ensures { Gives seen result (fields.two (place cursor.entry)) }
{
    let (bytes, cursor) = field(2, cursor)?;
    Ok((BigEndian::read_u16(bytes), cursor))
}

/// A number of one byte, from `low` to `high`.
pub(crate) fn byte_within<'a>(
    low: u8,
    high: u8,
    cursor: Cursor<'a>,
) -> Result<(u8, Cursor<'a>), LogFault>
    ensures { Gives seen result ((fields.byte such is_within low high) (place cursor.entry)) }
{
    let (number, next) = byte(cursor)?;
    if low <= number && number <= high {
        Ok((number, next))
    } else {
        Err(LogFault::Form(cursor.at))
    }
}

/// A number of two bytes, from `low` to `high`.
pub(crate) fn two_within<'a>(
    low: u16,
    high: u16,
    cursor: Cursor<'a>,
) -> Result<(u16, Cursor<'a>), LogFault>
    ensures { Gives seen result ((fields.two such is_within low high) (place cursor.entry)) }
{
    let (number, next) = two(cursor)?;
    if low <= number && number <= high {
        Ok((number, next))
    } else {
        Err(LogFault::Form(cursor.at))
    }
}

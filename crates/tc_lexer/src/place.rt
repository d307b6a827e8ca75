//! Places in a text.
ghost use Rattle.std.specs.Prelude.{◌≡◌, ◌+◌, ◌<◌, ◌^◌, length};
ghost use Rattle.tc_lexer.specs.Places.{place_after};
ghost use Rattle.tc_lexer.specs.helpers.Reading.{place_from, next_place};

/// A place in a text: a line and a column, both from 1, the column in bytes.
#[derive(Clone, Copy, Debug, PartialEq, Eq, PartialOrd, Ord)]
pub struct Place {
    /// The line, from 1.
    pub line: u32,
    /// The column in bytes, from 1.
    pub col: u32,
}

/// The place right after these bytes, which begin a text.
pub fn place_after(bytes: &[u8]) -> Place
    requires { length bytes.now + 1 < 2 ^ 32 }
    ensures { result ≡ place_after bytes.now }
{
    place_from(Place { line: 1, col: 1 }, bytes)
}

/// The place right after these bytes, given the place before them.
pub(crate) fn place_from(place: Place, bytes: &[u8]) -> Place
    requires line { place.line + length bytes.now < 2 ^ 32 }
    requires col { place.col + length bytes.now < 2 ^ 32 }
    ensures { result ≡ place_from place bytes.now }
{
    let mut place = place;
    for b in bytes {
        place = next_place(place, *b);
    }
    place
}

/// The place right after a byte, given the byte's own place.
fn next_place(place: Place, byte: u8) -> Place
    requires line { place.line + 1 < 2 ^ 32 }
    requires col { place.col + 1 < 2 ^ 32 }
    ensures { result ≡ next_place place byte }
{
    if byte == b'\n' {
        Place {
            line: place.line + 1,
            col: 1,
        }
    } else {
        Place {
            line: place.line,
            col: place.col + 1,
        }
    }
}

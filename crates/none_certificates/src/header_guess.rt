//! The header that some bytes may be.
ghost use Rattle.std.specs.Prelude.{◌≡◌, option_map, IfSome, IsTrue};
ghost use Rattle.none_certificates.specs.Certificates.{is_header};
ghost use Rattle.none_certificates.specs.helpers.Guess.{model_at, kind_at, header_by, header_guess};

use crate::Header;
use crate::guess::after;
use log_walk::{Bounds, Kind};
use memory_models::Model;
use tc_decimal::number_at;

/// The memory model whose name is at the front, and what is behind it and a space.
fn model_at(bytes: &[u8]) -> Option<(Model, &[u8])>
    ensures { option_map (λ x. (x.0, x.1.now)) result ≡ model_at bytes.now }
{
    let (letter, rest) = bytes.split_first()?;
    match *letter {
        b's' => Some((Model::Sc, after(rest, 2))),
        b't' => Some((Model::Tso, after(rest, 3))),
        b'p' => Some((Model::Pso, after(rest, 3))),
        _ => None,
    }
}

/// The kind whose word is at the front, and what is behind it and a space.
fn kind_at(bytes: &[u8]) -> Option<(Kind, &[u8])>
    ensures { option_map (λ x. (x.0, x.1.now)) result ≡ kind_at bytes.now }
{
    let (letter, rest) = bytes.split_first()?;
    match *letter {
        b'f' => Some((Kind::Failure, after(rest, 7))),
        b'd' => Some((Kind::Deadlock, after(rest, 8))),
        _ => None,
    }
}

/// The header of this model and kind, from the bytes that begin with its number.
fn header_by(model: Model, kind: Kind, bytes: &[u8]) -> Option<Header>
    ensures header { result ≡ header_by model kind bytes.now }
    ensures form { IfSome result (λ h. IsTrue (is_header h)) }
{
    let (most, rest) = number_at(0, 65_535, bytes)?;
    let bounds = Bounds {
        kind,
        most: most as u16,
    };
    Some(Header {
        model,
        bounds,
        whole: rest.len() == 6,
    })
}

/// The header that some bytes may be; no other has this text.
pub fn header_guess(bytes: &[u8]) -> Option<Header>
    ensures header { result ≡ header_guess bytes.now }
    ensures form { IfSome result (λ h. IsTrue (is_header h)) }
{
    let (model, rest) = model_at(after(bytes, 12))?;
    let (kind, rest) = kind_at(rest)?;
    header_by(model, kind, rest)
}

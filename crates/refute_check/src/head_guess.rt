//! The header that some bytes may be.
ghost use Rattle.std.specs.Prelude.{◌≡◌, ◌<◌, IfSome, IsTrue, drop};
ghost use Rattle.refute_check.specs.helpers.Guess.{small_number, switches_in, head_by, head_guess};
ghost use Rattle.refute_check.specs.Texts.{is_head};

use crate::Head;
use memory_models::Model;

/// The bytes without the first ones.
fn after(bytes: &[u8], count: usize) -> &[u8]
    ensures { result.now ≡ drop count bytes.now }
{
    if count <= bytes.len() {
        &bytes[count..]
    } else {
        &[]
    }
}

/// The number of some digits, modulo 256.
fn small_number(digits: &[u8]) -> u8
    ensures { result ≡ small_number digits.now }
{
    let mut number = 0u32;
    for digit in digits {
        number = (number * 10 + u32::from(*digit % 16)) % 256;
    }
    number as u8
}

/// The number of switches after the header's model: ` switches ` and a number, or no bytes.
fn switches_in(bytes: &[u8]) -> Option<u8>
    ensures { result ≡ switches_in bytes.now }
{
    if bytes.is_empty() {
        return None;
    }
    Some(small_number(after(bytes, 10)))
}

/// The header, from its model's first letter and the bytes from there on.
fn head_by(letter: u8, bytes: &[u8]) -> Option<Head>
    ensures { result ≡ head_by letter bytes.now }
{
    let (model, word) = match letter {
        b's' => (Model::Sc, 2),
        b't' => (Model::Tso, 3),
        b'p' => (Model::Pso, 3),
        _ => return None,
    };
    Some(Head {
        model,
        switches: switches_in(after(bytes, word)),
    })
}

/// The header that some bytes may be; no other header has this text.
pub fn head_guess(bytes: &[u8]) -> Option<Head>
    ensures head { result ≡ head_guess bytes.now }
    ensures form { IfSome result (λ h. IsTrue (is_head h)) }
{
    let rest = after(bytes, 18);
    let letter = rest.first()?;
    head_by(*letter, rest)
}

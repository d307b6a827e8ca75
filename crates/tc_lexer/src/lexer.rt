//! From a text to its tokens.
ghost use Rattle.std.specs.Prelude.{◌≡◌, ◌≢◌, ◌<◌, ◌≤◌, ◌^◌, length, IfOk, IfErr};
ghost use Rattle.tc_lexer.specs.declared.fault.LexFault.TheVariants as lex_fault;
ghost use Rattle.tc_limits.specs.declared.limits.TheConstants.{PROGRAM_BYTES};
ghost use Rattle.tc_lexer.specs.Text.{AreTokens, IsFault, fault_at, begins_with_digit};

use crate::Place;
use crate::fault::LexFault;
use crate::piece::piece_at;
use crate::place::place_from;
use crate::token::Token;
use crate::tokens::Tokens;
use std::alloc::Global;

/// The tokens of a program's text, in language 4, which has all keywords and signs.
///
/// A text has either one list of tokens or one fault, so only one answer is right, except that
/// memory may run out. The time grows linearly with the text.
pub fn lex(alloc: Global, text: &[u8]) -> Result<Tokens, LexFault>
    requires { length text.now ≤ PROGRAM_BYTES }
    ensures found { IfOk result (λ tokens. AreTokens 4 text.now tokens) }
    ensures refused { IfErr result (λ fault. fault ≢ lex_fault.Memory → IsFault 4 text.now fault) }
{
    let mut tokens = Vec::new(alloc);
    let mut place = Place { line: 1, col: 1 };
    let mut start = 0;
    while start < text.len() {
        let rest = &text[start..];
        let Some(piece) = piece_at(rest) else {
            return Err(fault_at(place, rest));
        };
        let end = start + piece.len;
        if let Some(kind) = piece.kind {
            let token = Token {
                kind,
                start,
                end,
                place,
            };
            tokens.push(token).map_err(|_| LexFault::Memory)?;
        }
        place = place_from(place, &rest[..piece.len]);
        start = end;
    }
    Ok(Tokens::from_vec(tokens))
}

/// The fault at this place, where the rest of the text begins with no piece.
fn fault_at(place: Place, rest: &[u8]) -> LexFault
    ensures { result ≡ fault_at place rest.now }
{
    if rest.starts_with(b"/*") {
        LexFault::OpenComment(place)
    } else if begins_with_digit(rest) {
        LexFault::Number(place)
    } else {
        LexFault::BadByte(place)
    }
}

fn begins_with_digit(text: &[u8]) -> bool
    ensures { result ≡ begins_with_digit text.now }
{
    matches!(text, [first, ..] if first.is_ascii_digit())
}

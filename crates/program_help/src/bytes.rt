//! Bytes that begin no token.

use std::str;
use tc_lexer::LexFault;

const NO_TEXT: &str = "this is not text: is it the right file?";

const PLAIN: &str = "outside comments a program has only ASCII letters, digits and signs";

/// What to write in place of bytes that begin no token.
pub(crate) fn bytes_hint(fault: &LexFault, rest: &[u8]) -> Option<&'static str> {
    match fault {
        LexFault::BadByte(_) => byte_hint(rest),
        LexFault::Number(_) => number_hint(rest),
        LexFault::OpenComment(_) => Some("no `*/` closes this comment"),
        LexFault::Memory => None,
    }
}

/// What to write in place of the byte at the front.
fn byte_hint(rest: &[u8]) -> Option<&'static str> {
    if rest.starts_with(b"\xef\xbb\xbf") {
        return Some("this is a byte order mark: save the text without it");
    }
    if rest.starts_with(b"#include") {
        return Some("there is nothing to include: leave the line out");
    }
    if rest.starts_with(b"::") {
        return Some("there are no name spaces and no methods");
    }
    let first = *rest.first()?;
    match first {
        b'#' => Some(
            "there are no macros: leave the line out, and write numbers where they are used",
        ),
        b'\'' => Some("there are no character literals: write the number, such as 97 for an a"),
        b'"' => Some(
            "there are no strings, and a program prints nothing: store what you want to see, or `assert` it",
        ),
        b'.' => Some(
            "there are no fields, methods or fractions: use variables and arrays of `int`",
        ),
        b'?' => Some("there is no `? :`: write `if (..) { .. } else { .. }`"),
        b':' => Some("there are no labels and no `? :`"),
        b'\\' => Some("no `\\` is needed at the end of a line"),
        0x80..=0xff => Some(PLAIN),
        0..=8 | 14..=31 => Some(NO_TEXT),
        11 | 12 => Some("only spaces, tabs, carriage returns and line feeds part tokens"),
        _ => None,
    }
}

/// What to write in place of the letters and digits at the front.
fn number_hint(rest: &[u8]) -> Option<&'static str> {
    let digits = rest.iter().take_while(|byte| byte.is_ascii_digit()).count();
    match rest {
        [b'0', b'x' | b'X' | b'b' | b'B', ..] => Some("write numbers in decimal"),
        [b'0', b'0'..=b'9', ..] => Some("write the number without leading zeros"),
        _ => match rest.get(digits) {
            Some(b'u' | b'U' | b'l' | b'L') => Some("write the number without a suffix"),
            Some(byte) if is_letter(*byte) => Some(
                "a name begins with a letter or `_`, and a number has only digits",
            ),
            _ => Some("numbers go up to 2147483647; write -2147483648 as `-2147483647 - 1`"),
        },
    }
}

fn is_letter(byte: u8) -> bool {
    byte.is_ascii_alphabetic() || byte == b'_'
}

/// Says of which other kind a file is, by its first bytes.
pub(crate) fn kind_of_file(text: &[u8]) -> Option<&'static str> {
    if text.starts_with(b"CLPL") {
        return Some("this is a log, not a program");
    }
    if text.starts_with(b"clap-schedule ") {
        return Some("this is a schedule, not a program");
    }
    if text.starts_with(b"clap-refutation ") {
        return Some("this is a refutation, not a program");
    }
    if text.starts_with(b"p cnf ") {
        return Some("this is a list of clauses, not a program");
    }
    None
}

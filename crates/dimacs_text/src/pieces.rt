//! Pieces of bytes.
ghost use Rattle.std.specs.Prelude.{◌≡◌, ◌≤◌, suc, length, take, drop};
ghost use Rattle.std.specs.List.{prefix_len, suffix_len};
ghost use Rattle.std.specs.Str.Lines.{strip_carriage_return};
ghost use Rattle.dimacs_text.specs.Answers as answers;
ghost use Rattle.dimacs_text.specs.helpers.Pieces.{piece_len, first_piece, behind_first};

/// The first line of a text, and the bytes after its end.
pub(crate) fn next_line(text: &[u8]) -> (&[u8], &[u8])
    ensures first { result.0.now ≡ first_piece answers.is_line_feed text.now }
    ensures behind { result.1.now ≡ behind_first answers.is_line_feed text.now }
{
    cut(text, line_len(text))
}

/// The bytes before the first blank of a line, and those after it.
pub(crate) fn next_part(line: &[u8]) -> (&[u8], &[u8])
    ensures first { result.0.now ≡ first_piece answers.is_blank line.now }
    ensures behind { result.1.now ≡ behind_first answers.is_blank line.now }
{
    cut(line, part_len(line))
}

fn line_len(text: &[u8]) -> usize
    ensures len { result ≡ piece_len answers.is_line_feed text.now }
    ensures within { result ≤ length text.now }
{
    text.iter().take_while(|b| **b != b'\n').count()
}

fn part_len(line: &[u8]) -> usize
    ensures len { result ≡ piece_len answers.is_blank line.now }
    ensures within { result ≤ length line.now }
{
    line.iter().take_while(|b| !is_blank(**b)).count()
}

/// The first `len` bytes, and the bytes after the next one.
fn cut(bytes: &[u8], len: usize) -> (&[u8], &[u8])
    requires { len ≤ length bytes.now }
    ensures first { result.0.now ≡ take len bytes.now }
    ensures behind { result.1.now ≡ drop (suc len) bytes.now }
{
    let (first, rest) = bytes.split_at(len);
    match rest {
        [_, behind @ ..] => (first, behind),
        [] => (first, rest),
    }
}

fn is_blank(b: u8) -> bool
    ensures { result ≡ answers.is_blank b }
{
    b == b' ' || b == b'\t'
}

/// A line without a trailing carriage return and blanks.
pub(crate) fn trimmed(line: &[u8]) -> &[u8]
    ensures { result.now ≡ answers.trimmed line.now }
{
    without_blanks(without_return(line))
}

fn without_return(line: &[u8]) -> &[u8]
    ensures { result.now ≡ strip_carriage_return line.now }
{
    match line {
        [front @ .., b'\r'] => front,
        _ => line,
    }
}

fn without_blanks(line: &[u8]) -> &[u8]
    ensures { result.now ≡ answers.without_blanks line.now }
{
    &line[..line.len() - blanks_len(line)]
}

/// The number of trailing blanks.
fn blanks_len(line: &[u8]) -> usize
    ensures len { result ≡ suffix_len answers.is_blank line.now }
    ensures within { result ≤ length line.now }
{
    line.iter().rev().take_while(|b| is_blank(**b)).count()
}

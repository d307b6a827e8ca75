//! Tokens that people write from habit.

use crate::foreign::foreign_hint;
use crate::source::Source;
use next_tokens::Stuck;
use tc_lexer::{Keyword, Sign, TokenKind};

const MAIN: &str = "`main` has no type and no parentheses: write `main { .. }`";

const FUNCTION: &str =
    "there are no functions: declare `thread NAME(int x) { .. }`, and start it by `t = create NAME(1);`";

const ONE_MORE: &str = "there is no `++`: write `x = x + 1;`";

const ONE_LESS: &str = "there is no `--`: write `x = x - 1;`";

const UPDATE: &str = "there is no `+=` or the like: write `x = x + 2;`";

const POINTER: &str = "there are no pointers and no fields: use variables and arrays of `int`";

const ADDRESS: &str = "there are no addresses: write the name without `&`";

const ONE_NAME: &str = "declare one name at a time: `int a; int b;`";

const NO_VALUE: &str =
    "a declaration in a body has no value: write `int x;`, and `x = 1;` after the declarations";

const HANDLE_VALUE: &str =
    "a declaration in a body has no value: write `tid t;`, and `t = create f(1);` after the declarations";

const NO_FIRST: &str = "a mutex or a condition has no first value";

const MUTEX_ARRAY: &str =
    "there are no arrays of mutexes or conditions: declare each under its own name";

const HANDLE_ARRAY: &str = "there are no arrays of tids: declare each under its own name";

const LOCAL_ARRAY: &str = "arrays are global: declare it before the threads";

const LENGTH: &str = "the length of an array is a number";

const ARRAY_VALUE: &str = "an array has no first values: each element begins as 0";

const FIRST_VALUE: &str =
    "a global begins as a number, with or without `-`: compute anything else in main";

const CAS: &str =
    "`cas` gives the old value: write `r = cas(x, old, new);`, where r is an int of the body";

const SWAP: &str =
    "`swap` gives the old value: write `r = swap(x, new);`, where r is an int of the body";

const ADD: &str =
    "`add` gives the old value: write `r = add(x, e);`, where r is an int of the body";

const CREATE: &str = "`create` gives a tid: declare `tid t;`, and write `t = create f(1);`";

const COMPARE: &str = "`=` stores, `==` compares";

const CHAIN: &str = "an assignment has no value: write two statements";

/// Tokens, each row with a hint what to write instead. `@` marks the token with which no program
/// goes on; `NAME` is any name, and `_` any token.
static HABITS: [(&str, &str); 77] = [
    ("int @main", MAIN),
    ("main @(", MAIN),
    ("int NAME @(", FUNCTION),
    ("@+ +", ONE_MORE),
    ("+ @+", ONE_MORE),
    ("@- -", ONE_LESS),
    ("- - @;", ONE_LESS),
    ("- - @)", ONE_LESS),
    ("- - @]", ONE_LESS),
    ("@+ =", UPDATE),
    ("@- =", UPDATE),
    ("@* =", UPDATE),
    ("@/ =", UPDATE),
    ("@% =", UPDATE),
    ("@& =", UPDATE),
    ("@| =", UPDATE),
    ("@^ =", UPDATE),
    ("@<< =", UPDATE),
    ("@>> =", UPDATE),
    ("- @>", POINTER),
    ("@- >", POINTER),
    ("int @*", POINTER),
    ("@* NAME", POINTER),
    ("@&", ADDRESS),
    ("int NAME @,", ONE_NAME),
    ("int NAME = _ @,", ONE_NAME),
    ("tid NAME @,", "declare one name at a time: `tid a; tid b;`"),
    (
        "mutex NAME @,",
        "declare one name at a time: `mutex a; mutex b;`",
    ),
    (
        "cond NAME @,",
        "declare one name at a time: `cond a; cond b;`",
    ),
    ("int NAME @=", NO_VALUE),
    ("tid NAME @=", HANDLE_VALUE),
    ("mutex NAME @=", NO_FIRST),
    ("cond NAME @=", NO_FIRST),
    ("mutex NAME @[", MUTEX_ARRAY),
    ("cond NAME @[", MUTEX_ARRAY),
    ("tid NAME @[", HANDLE_ARRAY),
    ("int NAME @[", LOCAL_ARRAY),
    ("int NAME [ @_", LENGTH),
    ("int NAME [ _ @_", LENGTH),
    ("int NAME [ _ ] @=", ARRAY_VALUE),
    ("] @[", "an array has one index: write `a[i * n + j]`"),
    ("int NAME = @_", FIRST_VALUE),
    ("int NAME = _ @_", FIRST_VALUE),
    ("int NAME = - _ @_", FIRST_VALUE),
    ("lock ( NAME @[", MUTEX_ARRAY),
    ("unlock ( NAME @[", MUTEX_ARRAY),
    ("signal ( NAME @[", MUTEX_ARRAY),
    ("broadcast ( NAME @[", MUTEX_ARRAY),
    ("join ( NAME @[", HANDLE_ARRAY),
    (
        "wait ( NAME @)",
        "`wait` takes a condition and the mutex that is held: `wait(c, m);`",
    ),
    (
        "] = @cas",
        "`cas` gives its value to an int of the body: write `r = cas(x, old, new);`, then `a[i] = r;`",
    ),
    (
        "] = @swap",
        "`swap` gives its value to an int of the body: write `r = swap(x, new);`, then `a[i] = r;`",
    ),
    (
        "] = add @(",
        "`add` gives its value to an int of the body: write `r = add(x, e);`, then `a[i] = r;`",
    ),
    ("] = @create", HANDLE_ARRAY),
    ("@cas", CAS),
    ("@swap", SWAP),
    ("add @(", ADD),
    ("@create", CREATE),
    ("( NAME @=", COMPARE),
    ("&& NAME @=", COMPARE),
    ("|| NAME @=", COMPARE),
    ("NAME @==", COMPARE),
    ("= NAME @=", CHAIN),
    ("thread NAME ( @NAME", "write `int NAME` for a parameter"),
    (
        "thread NAME ( @mutex",
        "a parameter is an int: mutexes and conditions are global",
    ),
    (
        "thread NAME ( @tid",
        "a parameter is an int: a tid is known only in its own body",
    ),
    (", @NAME", "write `int NAME` for each parameter"),
    (
        "thread NAME @{",
        "a thread has parentheses, even without parameters: `thread f() { .. }`",
    ),
    ("thread @main", MAIN),
    (
        "else @_",
        "put what follows `else` in braces, even one statement, or write another `if`",
    ),
    ("} @;", "no `;` follows a closing brace"),
    ("; @;", "there is no empty statement"),
    ("{ @;", "there is no empty statement"),
    ("@else", "an `else` follows the closing brace of its `if`"),
    (
        "@{",
        "braces go only around the body of a thread, of main, or of an `if`, `else` or `while`",
    ),
    (
        "@thread",
        "threads come after the globals and before main, which is last",
    ),
    ("NAME @(", FUNCTION),
];

/// Whether the tokens around this number match a habit.
fn is_at(source: Source, number: usize, habit: &str) -> bool {
    let Some(marked) = habit.split(' ').position(|word| word.starts_with("@")) else {
        return false;
    };
    let Some(first) = number.checked_sub(marked) else {
        return false;
    };
    for (i, word) in habit.split(' ').enumerate() {
        let word = word.strip_prefix("@").unwrap_or(word);
        if !is_word(source, first.saturating_add(i), word) {
            return false;
        }
    }
    true
}

/// Whether the token with this number matches this word of a habit.
fn is_word(source: Source, number: usize, word: &str) -> bool {
    match word {
        "_" => number < source.tokens.len(),
        "NAME" => source.is_name(number),
        _ => source.word(number) == word,
    }
}

/// What to write in place of the tokens around the first with which no program goes on.
pub(crate) fn syntax_hint(source: Source, stuck: &Stuck) -> Option<&'static str> {
    let number = stuck.place;
    foreign_hint(source.word(number))
        .or(foreign_hint(source.before(number, 1)))
        .or(line_hint(source, stuck))
        .or(declaration_hint(source, stuck))
        .or(brace_hint(source, stuck))
        .or(habit_hint(source, number))
        .or(end_hint(source, stuck))
}

/// The first habit that fits.
fn habit_hint(source: Source, number: usize) -> Option<&'static str> {
    HABITS
        .iter()
        .find(|row| is_at(source, number, row.0))
        .map(|row| row.1)
}

/// Whether a token of this kind is possible there.
fn has(stuck: &Stuck, kind: TokenKind) -> bool {
    stuck.kinds.as_slice().contains(&kind)
}

/// Asks for a semicolon that may be missing at the end of the line before.
fn line_hint(source: Source, stuck: &Stuck) -> Option<&'static str> {
    let is_missing = has(stuck, TokenKind::Sign(Sign::Semicolon))
        && source.begins_line(stuck.place);
    if is_missing {
        Some("is a `;` missing at the end of the line before?")
    } else {
        None
    }
}

/// Says where a declaration belongs, if one is in the wrong place.
fn declaration_hint(source: Source, stuck: &Stuck) -> Option<&'static str> {
    let word = source.word(stuck.place);
    let is_in_body = has(stuck, TokenKind::Keyword(Keyword::If));
    let is_outside = has(stuck, TokenKind::Keyword(Keyword::Main));
    if word == "tid" && is_outside {
        return Some("declare a tid in the body that creates the thread");
    }
    if word == "int" || word == "tid" {
        if is_in_body {
            return Some("declarations come first in the body of a thread or of main");
        }
    }
    if word == "mutex" || word == "cond" {
        if is_in_body {
            return Some("mutexes and conditions are global: declare them before the threads");
        }
    }
    if is_outside && (word == "int" || word == "mutex" || word == "cond") {
        return Some("globals come before the threads");
    }
    None
}

/// Asks for braces around a body.
fn brace_hint(source: Source, stuck: &Stuck) -> Option<&'static str> {
    let wants_brace = stuck.kinds.len() == 1 && has(stuck, TokenKind::Sign(Sign::OpenBrace));
    if !wants_brace || source.before(stuck.place, 1) != ")" {
        return None;
    }
    if source.word(stuck.place) == ";" {
        Some("put the body in braces: an empty one is `{ }`")
    } else {
        Some("put the body in braces, even one statement: `if (x) { y = 1; }`")
    }
}

/// Says what is missing, or too much, at the end of the text.
fn end_hint(source: Source, stuck: &Stuck) -> Option<&'static str> {
    if stuck.may_end {
        return Some("main comes last: nothing follows its closing brace");
    }
    if stuck.place < source.tokens.len() {
        return None;
    }
    if has(stuck, TokenKind::Keyword(Keyword::Main)) {
        Some("a program ends with `main { .. }`")
    } else if has(stuck, TokenKind::Sign(Sign::CloseBrace)) {
        Some("is a closing brace missing?")
    } else {
        None
    }
}

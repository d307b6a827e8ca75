//! Words that other languages have.

const ONE_TYPE: &str = "`int` is the only type of variables: 32 bits, signed";

const NO_JUMP: &str = "nothing jumps out of a loop: let the condition of the `while` end it";

const NO_WORD: &str = "there is no such word: leave it out";

const NO_RECORD: &str = "there are no types of your own: use variables and arrays of `int`";

const NO_HEAP: &str =
    "there is no heap and there are no pointers: declare a global, or an array with a fixed length";

const NO_PRINT: &str = "a program prints nothing: store what you want to see, or `assert` it";

const NO_TRUTH: &str = "there is no such name: write 1 for true, and 0 for false";

const ATOMIC: &str =
    "each load and each store of an `int` is atomic; `swap`, `cas`, `add`, `fence()` and `stbar()` do the rest";

/// Words that people write from habit, or the beginnings of some with a `*` after them, and what to
/// write instead.
static WORDS: [(&str, &str); 57] = [
    (
        "for",
        "there is no `for`: write `i = 0; while (i < n) { .. i = i + 1; }`",
    ),
    (
        "do",
        "there is no `do`: write the body before the `while` too, or keep a flag that says whether to go on",
    ),
    (
        "return",
        "there is no `return`: a thread ends at its closing brace, and leaves its result in a global",
    ),
    ("break", NO_JUMP),
    (
        "continue",
        "there is no `continue`: put the rest of the loop under an `if`",
    ),
    ("goto", NO_JUMP),
    (
        "switch",
        "there is no `switch`: write `if (..) { .. } else if (..) { .. }`",
    ),
    (
        "case",
        "there is no `switch`: write `if (..) { .. } else if (..) { .. }`",
    ),
    (
        "volatile",
        "there is no `volatile`: each read of a global is one load, and each assignment to it one store",
    ),
    ("const", NO_WORD),
    ("static", NO_WORD),
    ("extern", NO_WORD),
    ("inline", NO_WORD),
    ("register", NO_WORD),
    ("auto", ONE_TYPE),
    ("unsigned", ONE_TYPE),
    ("signed", ONE_TYPE),
    ("long", ONE_TYPE),
    ("short", ONE_TYPE),
    ("char", ONE_TYPE),
    ("float", ONE_TYPE),
    ("double", ONE_TYPE),
    ("bool", ONE_TYPE),
    ("_Bool", ONE_TYPE),
    ("size_t", ONE_TYPE),
    ("uint*", ONE_TYPE),
    ("int8_t", ONE_TYPE),
    ("int16_t", ONE_TYPE),
    ("int32_t", ONE_TYPE),
    ("int64_t", ONE_TYPE),
    (
        "void",
        "there is no `void`: write `thread NAME(int x) { .. }` for a thread, and `main { .. }`",
    ),
    ("struct", NO_RECORD),
    ("union", NO_RECORD),
    ("enum", NO_RECORD),
    ("typedef", NO_RECORD),
    ("class", NO_RECORD),
    ("malloc", NO_HEAP),
    ("free", NO_HEAP),
    ("sizeof", NO_HEAP),
    ("NULL", NO_TRUTH),
    ("true", NO_TRUTH),
    ("false", NO_TRUTH),
    ("printf", NO_PRINT),
    ("puts", NO_PRINT),
    (
        "atomic_load*",
        "a read of a global is an atomic load: write its name",
    ),
    (
        "atomic_store*",
        "an assignment to a global is an atomic store: write `x = e;`",
    ),
    (
        "atomic_exchange*",
        "write `r = swap(x, e);`, where r is an int of the body",
    ),
    (
        "atomic_compare_exchange*",
        "write `r = cas(x, old, new);`, where r is an int of the body",
    ),
    (
        "atomic_fetch_add*",
        "write `r = add(x, e);`, where r is an int of the body",
    ),
    ("atomic_thread_fence", "write `fence();`"),
    ("atomic_*", ATOMIC),
    ("_Atomic", ATOMIC),
    (
        "pthread_mutex_*",
        "declare `mutex m;`, and write `lock(m);` and `unlock(m);`",
    ),
    (
        "pthread_cond_*",
        "declare `cond c;`, and write `wait(c, m);`, `signal(c);` and `broadcast(c);`",
    ),
    (
        "pthread_*",
        "declare `tid t;`, and write `t = create f(..);` and `join(t);`",
    ),
    (
        "usleep",
        "threads may switch anywhere, so waiting changes nothing: leave it out",
    ),
    (
        "sched_yield",
        "threads may switch anywhere, so waiting changes nothing: leave it out",
    ),
];

/// Whether a word is this one, or, if this one ends with `*`, begins as it does.
fn is_word(word: &str, foreign: &str) -> bool {
    match foreign.strip_suffix("*") {
        Some(front) => word.starts_with(front),
        None => word == foreign,
    }
}

/// What to write in place of a word that other languages have.
pub(crate) fn foreign_hint(word: &str) -> Option<&'static str> {
    WORDS
        .iter()
        .find(|row| is_word(word, row.0))
        .map(|row| row.1)
}

//! The effect of each move on memory and on other threads, with its words.

use int_ops::{Update, updated};
use show_deeds::Deed;
use tc_base::Request;

/// The effect of a move: its kind, and the numbers of what it touches.
#[derive(Clone, Copy)]
pub struct Effect {
    /// `load`, `store`, `issue` of a store that then waits in a buffer, `drain`, `fence`, `stbar`,
    /// `lock`, `unlock`, `sleep`, `wake`, `signal`, `broadcast`, `create`, `join`, `exit` or `fail`;
    /// empty for a step that asks for nothing. An exchange that puts a value is a store, any other
    /// a load.
    pub kind: &'static str,
    /// Its words, with the name of each part that differs in braces. A step that asks for nothing,
    /// or fails, has those of its instruction.
    pub(crate) words: &'static str,
    pub cell: Option<u32>,
    pub mutex: Option<u32>,
    pub condition: Option<u32>,
    /// The number of the child that it joins.
    pub child: Option<u32>,
    /// The value that it takes, if any.
    pub took: Option<i32>,
    /// The value that it puts, if any.
    pub put: Option<i32>,
}

impl Effect {
    /// The effect of a deed, given whether stores wait in buffers.
    pub(crate) fn of(deed: &Deed, buffered: bool) -> Effect {
        match deed {
            Deed::Did(step) => Effect::asked(step.asks, step.took, buffered),
            Deed::Drained(stored) => {
                let store = Request::Write(stored.cell, stored.value);
                Effect {
                    kind: "drain",
                    words: "{cell} = {put} reaches memory",
                    ..Effect::asked(store, 0, buffered)
                }
            }
        }
    }

    /// The effect of a step that asks this and takes this value.
    pub fn asked(asks: Request, took: i32, buffered: bool) -> Effect {
        let put = put_by(asks, took);
        let (kind, words) = match asks {
            Request::Silent => ("", ""),
            Request::Fail => ("fail", ""),
            Request::Read(_) => ("load", "{cell}: took {took}{own}"),
            Request::Write(_, _) if buffered => {
                ("issue", "store {cell} = {put}, waits in its buffer")
            }
            Request::Write(_, _) => ("store", "{cell} = {put}"),
            Request::Exchange(_, update) if put.is_none() => ("load", update_words(update)),
            Request::Exchange(_, update) => ("store", update_words(update)),
            Request::Bar => ("stbar", "stbar"),
            Request::OrderStores => ("fence", "fence"),
            Request::Acquire(_) => ("lock", "lock {mutex}"),
            Request::Release(_) => ("unlock", "unlock {mutex}"),
            Request::BeginWait(_, _) => ("sleep", "sleeps on {condition}, unlock {mutex}"),
            Request::EndWait(_, _) => ("wake", "is awake from {condition}{waker}, lock {mutex}"),
            Request::WakeOne(_) => ("signal", "signal {condition}: {woken}"),
            Request::WakeAll(_) => ("broadcast", "broadcast {condition}: {woken}"),
            Request::Start(_) => ("create", "creates {created}"),
            Request::Await(_) => ("join", "joins {thread}.{child}"),
            Request::Finish => ("exit", "exits"),
        };
        Effect {
            kind,
            words,
            cell: cell_of(asks),
            mutex: mutex_of(asks),
            condition: condition_of(asks),
            child: child_of(asks),
            took: taken_by(asks, took),
            put,
        }
    }
}

/// The words of an update, which puts nothing if it is a compare-and-exchange that took another
/// value than the expected one.
fn update_words(update: Update<i32>) -> &'static str {
    match update {
        Update::Swap(_) => "swap {cell}: took {took}, put {put}",
        Update::Cas(_, _) => "cas {cell}: took {took}, put {put}",
        Update::Add(_) => "add {cell}: took {took}, put {put}",
    }
}

/// The value that a step puts which takes this one.
fn put_by(asks: Request, took: i32) -> Option<i32> {
    match asks {
        Request::Write(_, put) => Some(put),
        Request::Exchange(_, Update::Cas(expected, _)) if took != expected => None,
        Request::Exchange(_, update) => Some(updated(update, took)),
        _ => None,
    }
}

/// The value that a step takes, if it takes one.
fn taken_by(asks: Request, took: i32) -> Option<i32> {
    match asks {
        Request::Read(_) | Request::Exchange(_, _) => Some(took),
        _ => None,
    }
}

/// The cell of a request.
fn cell_of(asks: Request) -> Option<u32> {
    match asks {
        Request::Read(cell) | Request::Write(cell, _) | Request::Exchange(cell, _) => Some(cell),
        _ => None,
    }
}

/// The mutex of a request.
fn mutex_of(asks: Request) -> Option<u32> {
    match asks {
        Request::Acquire(mutex)
        | Request::Release(mutex)
        | Request::BeginWait(_, mutex)
        | Request::EndWait(_, mutex) => Some(mutex),
        _ => None,
    }
}

/// The condition of a request.
fn condition_of(asks: Request) -> Option<u32> {
    match asks {
        Request::BeginWait(condition, _)
        | Request::EndWait(condition, _)
        | Request::WakeOne(condition)
        | Request::WakeAll(condition) => Some(condition),
        _ => None,
    }
}

/// The number of the child that a request waits for.
fn child_of(asks: Request) -> Option<u32> {
    match asks {
        Request::Await(child) => Some(child),
        _ => None,
    }
}

//! The logs of given threads.
ghost use Rattle.std.specs.Prelude.{◌≡◌, nat_lt};
ghost use Rattle.certified_logs.specs.Logs.{ends_of, end_at, first_end};

use find_failures::is_new;
use log_walk::Kind;
use run_log::ThreadPath;
use tc_base::Failing;

/// How many logs these threads have.
pub(crate) fn ends_of(kind: Kind, threads: &[ThreadPath]) -> usize
    ensures { result ≡ ends_of kind threads.now }
{
    match kind {
        Kind::Failure => threads.len(),
        Kind::Deadlock => 1,
    }
}

/// The end of the log of this index.
pub(crate) fn end_at(kind: Kind, index: usize) -> Failing
    ensures { result ≡ end_at kind index }
{
    match kind {
        Kind::Failure => Failing::Thread(index),
        Kind::Deadlock => Failing::Deadlock,
    }
}

/// Whether these threads have a log of this index.
pub(crate) fn has_more(kind: Kind, threads: &[ThreadPath], index: usize) -> bool
    ensures { result ≡ nat_lt index (ends_of kind threads.now) }
{
    index < ends_of(kind, threads)
}

/// The index of the first of their logs that wasn't gone through with fewer outcomes.
pub(crate) fn first_end(level: u16, kind: Kind, threads: &[ThreadPath]) -> usize
    ensures { result ≡ first_end level kind threads.now }
{
    if is_new(level, threads) {
        0
    } else {
        ends_of(kind, threads)
    }
}

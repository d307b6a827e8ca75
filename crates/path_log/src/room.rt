//! Which logs have a text.
ghost use Rattle.std.specs.Prelude.{◌≡◌, ◌^◌, ◌&&◌, nat_le, nat_lt, length, is_some};
ghost use Rattle.std.specs.List.{list_all};
ghost use Rattle.path_log.specs.Texts.{is_of_format, has_ending, is_thread, is_within};

use run_log::{Log, ThreadPath};
use tc_base::Failing;

/// Whether a log has a text: at most 255 threads, names and outcomes that fit, and a digest if no
/// thread failed.
pub fn has_text(log: &Log) -> bool
    ensures { result ≡ (is_of_format log.now.log && has_ending (is_some log.now.digest) log.now.log.failing) }
{
    log.threads().len() <= 255
        && have_room(log.threads())
        && (log.digest().is_some() || log.failing() != Failing::Deadlock)
}

/// Whether each of these paths fits in a text.
fn have_room(threads: &[ThreadPath]) -> bool
    ensures { result ≡ list_all is_thread threads.now }
{
    threads.iter().all(|thread| has_room(thread))
}

/// Whether a path fits in a text.
fn has_room(thread: &ThreadPath) -> bool
    ensures { result ≡ is_thread thread.now }
{
    name_has_room(thread.name().children()) && counts_have_room(thread.steps(), thread.outcomes())
}

/// Whether a name fits in a text: at most 255 creates, numbered 1 to 255.
fn name_has_room(children: &[u32]) -> bool
    ensures { result ≡ (nat_le (length children.now) 255 && list_all (is_within 1 255) children.now) }
{
    children.len() <= 255 && are_children(children)
}

fn are_children(children: &[u32]) -> bool
    ensures { result ≡ list_all (is_within 1 255) children.now }
{
    children.iter().all(|child| 1 <= *child && *child <= 255)
}

/// Whether the outcome count fits in two bytes; the step count does by its type.
fn counts_have_room(steps: u16, outcomes: &[bool]) -> bool
    ensures { result ≡ (nat_lt steps (2 ^ 16) && nat_lt (length outcomes.now) (2 ^ 16)) }
{
    outcomes.len() < 65_536
}

//! The thread of a name.
ghost use Rattle.std.specs.Prelude.{◌≡◌, option_map};
ghost use Rattle.std.specs.FinMap as fin;

use store_buffers::MemoryModel;
use tc_base::ThreadName;
use tc_machine::State;
use tc_threads::Thread;

/// The thread of a name, if there is one.
pub(crate) fn thread_of<'a, M: MemoryModel>(
    state: &'a State<M>,
    name: &ThreadName,
) -> Option<&'a Thread<M>>
    ensures { option_map (λ t. t.now) result ≡ fin.get state.now.threads name.now }
{
    for (other, thread) in state.entries() {
        if other == name {
            return Some(thread);
        }
    }
    None
}

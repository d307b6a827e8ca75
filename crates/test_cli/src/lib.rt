//! The program over a shelf and a sink that never fail. `test_product` calls it once.
#![tactic(auto)]

ghost use Rattle.std.specs.Prelude.{◌≡◌, ◌≢◌, ◌≤◌, map, string_bytes, Some, IsSomeAnd};
ghost use Rattle.test_shelves.specs.Mem.{sure_shelf_tells, sure_sink_tells};
ghost use Rattle.clap_debug_cli.specs.command_frame.Inputs.{no_limit};
ghost use Rattle.clap_debug_cli.specs.clap_debug_words.Calls.{call_of};
ghost use Rattle.clap_debug_cli.specs.Call.{Answers, Does, IfTold};
ghost use Rattle.test_cli.specs.Reads.{ReadsEntire};

use clap_debug_cli::clap_debug;
use std::alloc::Global;
use test_shelves::mem::{SureShelf, SureSink};

/// The top call over a shelf and a sink that never fail. The only device fault is a fetch of more
/// bytes than can be counted; everything else is as in the program.
pub fn clap_debug_surely(
    alloc: Global,
    words: &[String],
    shelf: &mut SureShelf,
    sink: &mut SureSink,
) -> u8
    ensures call { Does (call_of (map string_bytes words.now)) (sure_shelf_tells shelf.old) (sure_shelf_tells shelf.new) result
        (sure_sink_tells sink.old) (sure_sink_tells sink.new) }
    ensures answers { IfTold (map string_bytes words.now) (Some shelf.old.held) (λ call files. Answers call files
        (record { status = result; held = Some shelf.new.held; before = sure_sink_tells sink.old; after = sure_sink_tells sink.new })) }
    // A fetch of any length fails if it has more bytes than can be counted.
    ensures read_fault { result ≡ 7 → IsSomeAnd (call_of (map string_bytes words.now))
        (λ call. ReadsEntire call × (no_limit ≤ shelf.new.taken)) }
    ensures no_write_fault { result ≢ 8 }
{
    clap_debug(alloc, words, shelf, sink)
}

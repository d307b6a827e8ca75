//! `migrate PROGRAM LOG OUT`: a log in format 2, with the digest of its program.
#![tactic(auto)]

ghost use Rattle.std.specs.Prelude.{◌≡◌, ◌≤◌, ℕ, List, Some, IfSome, length};
ghost use Rattle.sha2.specs.Sha256.{sha256};
ghost use Rattle.run_log.specs.Logs.{StoredLog};
ghost use Rattle.kept_logs.specs.path_log.Texts.{IsLog};
ghost use Rattle.tc_record.specs.Logged.{most_log_bytes};
ghost use Rattle.kept_logs.specs.Digests.{with_digest};
ghost use Rattle.command_frame.specs.Run.{Runs};
ghost use Rattle.migrate_command.specs.Answers.{MigrateAnswers};
ghost use Rattle.migrate_command.specs.Meanings.{migrate_of};
ghost use Rattle.migrate_command.specs.Migrated.{IsMigrated};
ghost use Rattle.migrate_command.specs.Meanings.{plain_migrate};

mod command;
mod excess;
mod migrate;

pub use command::Migrate;
use command_frame::run;
pub use migrate::Migration;
use std::alloc::Global;
use tc_io::{Shelf, Sink};

/// Keeps a log in format 2, with the digest of its program.
pub fn migrate_log<H: Shelf, K: Sink>(
    alloc: Global,
    migrate: &Migrate<'_>,
    shelf: &mut H,
    sink: &mut K,
) -> u8
    ensures runs { Runs (migrate_of (plain_migrate migrate.now)) (H.tells shelf.old) (H.tells shelf.new) result (K.tells sink.old) (K.tells sink.new) }
    ensures answers { IfSome (H.tells shelf.old).held (λ files. MigrateAnswers (plain_migrate migrate.now) files
        (record { status = result; held = (H.tells shelf.new).held; before = K.tells sink.old; after = K.tells sink.new })) }
{
    run(alloc, migrate, shelf, sink)
}

/// `migrate` keeps the log with the program's digest; its model, ending and paths are read back.
pub fn migrating_keeps_the_log()
    ensures kept { (program log text : List ℕ) (run : StoredLog) → IsMigrated program log text → IsLog log run → IsLog text (with_digest program run.log) }
    ensures again { (program log text : List ℕ) (run again : StoredLog) → IsMigrated program log text → IsLog log run → IsLog text again
        → again ≡ with_digest program run.log }
    // A log that has the digest stays as it is.
    ensures whole { (program log text : List ℕ) (run : StoredLog) → IsMigrated program log text → IsLog log run → run.digest ≡ Some (sha256 program)
        → text ≡ log }
    // The text isn't too long for a log's: it has at most half of the bytes that a log may have.
    ensures short { (program log text : List ℕ) → IsMigrated program log text → length text ≤ most_log_bytes }
{}

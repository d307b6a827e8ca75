//! Logs.
ghost use Rattle.std.specs.Prelude.{◌≡◌, IsTrue, Some, option_map};
ghost use Rattle.run_log.specs.Logs.{failing_of, first_deeper, is_digest, is_log};

use memory_models::Model as MemoryModel;
use std::marker::Model;
use tc_base::{Failing, ThreadName};

/// The path of a thread: the outcomes of its branches, and how many instructions it executed.
#[derive(Debug, Drop)]
pub struct ThreadPath {
    name: ThreadName,
    steps: u16,
    outcomes: Vec<bool>,
}

impl Model for ThreadPath {
    ghost use Rattle.tc_base.specs.Paths.{ThreadPath as PlainPath};

    ghost Value = { PlainPath };

    ghost view = { λ t. record { name = t.name; path = record { outcomes = t.outcomes.items; steps = t.steps } } };
}

impl ThreadPath {
    /// The path of the thread with this name.
    pub fn new(name: ThreadName, steps: u16, outcomes: Vec<bool>) -> ThreadPath
        ensures { result ≡ record { name = name; path = record { outcomes = outcomes.items; steps = steps } } }
    {
        ThreadPath {
            name,
            steps,
            outcomes,
        }
    }

    /// The thread.
    pub fn name(&self) -> &ThreadName
        ensures { result.now ≡ self.now.name }
    {
        &self.name
    }

    /// How many instructions the thread executed, counting one that failed.
    pub fn steps(&self) -> u16
        ensures { result ≡ self.now.path.steps }
    {
        self.steps
    }

    /// The outcomes of its branches, in order.
    pub fn outcomes(&self) -> &[bool]
        ensures { result.now ≡ self.now.path.outcomes }
    {
        self.outcomes.as_slice()
    }
}

/// The path of each thread of a run, ordered by name, and how the run ended: a thread failed, or
/// there was a deadlock.
///
/// The names are distinct. There is at least one path, and a thread that failed has one. A log of
/// format 2 has the digest of the program that ran.
#[derive(Debug, Drop)]
pub struct Log {
    digest: Option<[u8; 32]>,
    model: MemoryModel,
    failing: Failing,
    threads: Vec<ThreadPath>,
}

impl Model for Log {
    ghost use Rattle.std.specs.Prelude.{IsTrue};
    ghost use Rattle.run_log.specs.Logs.{StoredLog, is_log};

    ghost Value = { StoredLog };

    ghost view = { λ l. record { digest = l.digest; log = record { model = l.model; failing = l.failing; threads = l.threads.items } } };

    ghost invariant = { λ l. IsTrue (is_log (record { model = l.model; failing = l.failing; threads = l.threads.items })) };
}

impl Log {
    /// The log of a run with these paths and this end.
    pub fn new(
        digest: Option<[u8; 32]>,
        model: MemoryModel,
        failing: Failing,
        threads: Vec<ThreadPath>,
    ) -> Log
        requires { IsTrue (is_log (record { model = model; failing = failing; threads = threads.items })) }
        ensures { result ≡ record { digest = digest; log = record { model = model; failing = failing; threads = threads.items } } }
    {
        Log {
            digest,
            model,
            failing,
            threads,
        }
    }

    /// The same log with the digest of its program.
    pub fn with_digest(self, digest: &[u8; 32]) -> Log
        ensures log { result ≡ record { digest = Some digest.now; log = self.log } }
        ensures is_log { IsTrue (is_log self.log) }
        ensures is_digest { IsTrue (is_digest digest.now) }
    {
        Log::new(Some(*digest), self.model, self.failing, self.threads)
    }

    /// The digest of the program, if the log has it.
    pub fn digest(&self) -> Option<&[u8; 32]>
        ensures { option_map (λ d. d.now) result ≡ self.now.digest }
    {
        self.digest.as_ref()
    }

    /// The memory model under which the log was recorded.
    pub fn model(&self) -> MemoryModel
        ensures { result ≡ self.now.log.model }
    {
        self.model
    }

    /// How the run ended.
    pub fn failing(&self) -> Failing
        ensures ending { result ≡ self.now.log.failing }
        ensures is_log { IsTrue (is_log self.now.log) }
    {
        self.failing
    }

    /// The paths, in the order of their names.
    pub fn threads(&self) -> &[ThreadPath]
        ensures threads { result.now ≡ self.now.log.threads }
        ensures is_log { IsTrue (is_log self.now.log) }
    {
        self.threads.as_slice()
    }

    /// The depth of the first thread that is deeper than this, if any.
    pub fn first_deeper(&self, depth: usize) -> Option<usize>
        ensures { result ≡ first_deeper depth self.now.log.threads }
    {
        self.threads
            .iter()
            .map(|thread| thread.name().children().len())
            .find(|found| *found > depth)
    }

    /// The thread that failed, if one did.
    pub fn failing_name(&self) -> Option<&ThreadName>
        ensures { option_map (λ n. n.now) result ≡ failing_of self.now.log }
    {
        match self.failing {
            Failing::Thread(index) => Some(self.threads[index].name()),
            Failing::Deadlock => None,
        }
    }
}

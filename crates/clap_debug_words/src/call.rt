//! The call that words ask for.
ghost use Rattle.std.specs.Prelude.{◌≤◌};
ghost use Rattle.tc_limits.specs.declared.limits.TheConstants.{BUDGET};
ghost use Rattle.clap_debug_words.specs.declared.call.TheConstants.{WORKERS};

use memory_models::Model;

/// The most workers of a workload.
pub const WORKERS: u32 = 12;

/// The number of workers of a workload.
#[derive(Clone, Copy)]
pub struct Workers {
    pub count: u32,
    ghost some: { 1 ≤ count },
    ghost few: { count ≤ WORKERS },
}

/// The number of conflicts that a search may have.
#[derive(Clone, Copy)]
pub struct Budget {
    pub conflicts: u32,
    ghost some: { 1 ≤ conflicts },
    ghost room: { conflicts ≤ BUDGET },
}

/// A command, with the names of its files, and the values of its options, if they are written.
#[derive(Clone, Copy)]
pub enum Call<'a> {
    List {
        program: &'a str,
    },
    Replay {
        program: &'a str,
        log: &'a str,
        schedule: &'a str,
    },
    Record {
        program: &'a str,
        log: &'a str,
        model: Option<Model>,
        seed: Option<u64>,
        steps: Option<u32>,
    },
    Migrate {
        program: &'a str,
        log: &'a str,
        out: &'a str,
    },
    Solve {
        program: &'a str,
        log: &'a str,
        out: &'a str,
        model: Option<Model>,
        budget: Option<Budget>,
        least: Option<&'a str>,
    },
    Check {
        program: &'a str,
        log: &'a str,
        refutation: &'a str,
    },
    Workload {
        workers: Workers,
        seed: u64,
    },
    Cnf {
        program: &'a str,
        log: &'a str,
        out: &'a str,
        model: Option<Model>,
    },
    Import {
        program: &'a str,
        log: &'a str,
        answer: &'a str,
        out: &'a str,
        model: Option<Model>,
    },
    Why {
        program: &'a str,
        log: &'a str,
        refutation: &'a str,
    },
}

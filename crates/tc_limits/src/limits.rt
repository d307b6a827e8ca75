//! The limits of a debugging session. A file or a run past its limit is refused.

/// Bytes of a program's text.
pub const PROGRAM_BYTES: u64 = 65_536;
/// Bytes of a log.
pub const LOG_BYTES: u64 = 4_194_304;
/// Bytes of a schedule.
pub const SCHEDULE_BYTES: u64 = 67_108_864;
/// Brackets of a program that are open at the same time.
pub const BRACKETS: usize = 64;
/// Tokens of a program in a row without `;`, `{` or `}`.
pub const STRETCH: usize = 512;
/// Memory cells of a program.
pub const CELLS: usize = 1_024;
/// Mutexes of a program.
pub const MUTEXES: usize = 64;
/// Conditions of a program.
pub const CONDITIONS: usize = 64;
/// Threads of a run, main included.
pub const THREADS: usize = 16;
/// Creates on the way from main to a thread.
pub const DEPTH: usize = 8;
/// Steps of a thread.
pub const STEPS: u32 = 65_535;
/// Events of the logged paths.
pub const EVENTS: usize = 256;
/// Operators that the logged paths execute.
pub const OPERATORS: usize = 4_096;
/// Conflicts of a search.
pub const BUDGET: u32 = 10_000_000;
/// Moves of a recorded run, drains included.
pub const MOVES: u32 = 1_000_000;

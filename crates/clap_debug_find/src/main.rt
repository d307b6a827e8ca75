//! The program that searches for failures: its words, the files of the system and standard output.
#![tactic(auto)]

use clap_debug_find_cli::clap_debug_find;
use std::env::{self, Env};
use std::io::{self, ErrorKind};
use std::process::ExitCode;
use tc_io::files::{FileShelf, StdSink};

/// The status if there is no memory for the words.
const NO_MEMORY: u8 = 9;

/// The words. If one of them isn't text there are none, which is answered with the usage.
fn words_of(rt: &(impl Env + AllocGlobal)) -> io::Result<Vec<String>> {
    match env::args(rt) {
        Ok(words) => Ok(words.collect(rt.alloc())?),
        Err(fault) if fault.kind() == ErrorKind::InvalidData => Ok(Vec::new(rt.alloc())),
        Err(fault) => Err(fault),
    }
}

fn main(rt: HostRuntime) -> ExitCode {
    let Ok(words) = words_of(&rt) else {
        return ExitCode::from(NO_MEMORY);
    };
    let mut shelf = FileShelf::new(&rt);
    let mut sink = StdSink::new(rt.stdout());
    ExitCode::from(clap_debug_find(rt.alloc(), &words, &mut shelf, &mut sink))
}

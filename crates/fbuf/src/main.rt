//! `fbuf` replies to scripts over the sets of futures_buffered, or runs threads that wake the slots of
//! one set.
//!
//! [`fbuf_program::program_words`] is the program as a function of its words.
#![tactic(auto)]

use fbuf_program::program_words::run_words;
use fbuf_program::watched::Watched;
use std::env;
use std::process::ExitCode;

fn main(rt: HostRuntime) -> ExitCode {
    let words = env::args(&rt);
    let mut input = Watched::new(rt.stdin());
    let mut output = Watched::new(rt.stdout());
    let status = run_words(&rt, words, &mut input, &mut output, &mut rt.stderr());
    ExitCode::from(status)
}

//! Goes through files of tests: each line is a call of a set, a queue, a join, a merge or an adaptor, with the reply
//! that is wanted.
//!
//! The words of the command line name the files. Each reply that differs is printed, with file, line and test, and
//! after them a line of counts for each file. The status is 1 if a reply differs, otherwise 3 if a request for memory
//! that a call made was refused, otherwise 0; and 4 if a file could not be gone through.
#![tactic(auto)]

use calls_lines::kinds::AllTypes;
use calls_world::line::parse_lines;
use calls_world::lines::run_lines;
use calls_world::memory::twice;
use calls_world::report::Report;
use calls_world::session::{Session, new_session};
use calls_world::words::spread;
use std::alloc::{AllocError, AllocGlobal, Global};
use std::env::{Args, Env};
use std::fs::Files;
use std::process::ExitCode;
use std::random::RandomSource;
use std::{env, fs, io};

// The first difference goes to the error stream as well. The exit status of the file.
fn print_report<R: Print + Eprint>(rt: &R, report: &mut Report) -> io::Result<u8> {
    report.append_counts();
    if report.has_failed() {
        return Err(io::Error::from(AllocError));
    }
    print!(rt; "{}", report.text.string)?;
    eprint!(rt; "{}", report.first.string)?;
    Ok(report.status())
}

fn run_file<R>(rt: &R, session: &mut Session, file: &str) -> io::Result<u8>
where
    R: Files + Print + Eprint + AllocGlobal,
{
    session.report.begin_file(file);
    let text = twice(|| fs::read_to_string(rt, file))?;
    let text = spread(rt.alloc(), text.as_str())?;
    let lines = parse_lines(rt.alloc(), text.as_str())?;
    run_lines::<AllTypes>(session, lines.as_slice());
    print_report(rt, &mut session.report)
}

// A reply that differs tells more than a call to which memory was refused.
fn worse(status: u8, next: u8) -> u8 {
    if status == 1 || next == 0 {
        status
    } else {
        next
    }
}

// Goes through each file in a session of its own. Behind the word `counted` what calls ask for is counted.
fn run_files<R>(rt: &R, words: Args<Global>) -> io::Result<u8>
where
    R: Files + Print + Eprint + RandomSource + AllocGlobal,
{
    let mut status = 0u8;
    let mut is_counted = false;
    for word in words.skip(1) {
        if word.as_str() == "counted" {
            is_counted = true;
        } else {
            let mut session = new_session(rt, is_counted)?;
            status = worse(status, run_file(rt, &mut session, word.as_str())?);
        }
    }
    Ok(status)
}

fn run<R>(rt: &R) -> io::Result<u8>
where
    R: Env + Files + Print + Eprint + RandomSource + AllocGlobal,
{
    run_files(rt, twice(|| env::args(rt))?)
}

fn main(rt: HostRuntime) -> ExitCode {
    match run(&rt) {
        Ok(status) => ExitCode::from(status),
        Err(error) => {
            let _written = eprintln!(rt; "calls: {error}");
            ExitCode::from(4)
        }
    }
}

//! Ginseng: checks C programs, prints their effects, runs them with their threads, and repeats runs from their journals.
//!
//! `dsu_main` of `top_call` does all that the program does, over files and outputs that are handed in; its contract is what the
//! program promises. `main` makes the words, the files of the file system and the standard streams, calls it on a thread with a
//! large stack, and ends with its status.
#![tactic(auto)]

use dsu_io::{StdFiles, StdSink, Text};
use dsu_report::{FaultLine, write_fault};
use std::process::ExitCode;
use std::thread::{Builder, Promise};
use std::{env, io};
use top_call::dsu_main;

/// The stack of the thread that does the work. It is address space until it is used.
const STACK_BYTES: usize = 1 << 30;

/// All that is known of the status that a thread gives is that it is one.
#[derive(Drop)]
struct AnyStatus;

impl Promise<u8> for AnyStatus {
    ghost kept_by = { λ _ _. Unit {0} };
}

/// The words after the program's name. Words that aren't text fit no command.
fn words_of(rt: &HostRuntime) -> Result<Vec<Text>, FaultLine> {
    let Ok(given) = env::args(rt) else {
        return Err(FaultLine::Usage);
    };
    let mut words = Vec::new(rt.alloc());
    for word in given.skip(1) {
        if words.push(Text::from(word)).is_err() {
            return Err(FaultLine::Memory);
        }
    }
    Ok(words)
}

/// Runs the top call over the real files and streams.
fn call(rt: &HostRuntime) -> u8 {
    let mut err = StdSink::new(rt.stderr());
    let words = match words_of(rt) {
        Ok(words) => words,
        Err(fault) => {
            let _ = write_fault("", fault, &mut err);
            return fault.status();
        }
    };
    let mut files = StdFiles::new(rt, rt.alloc());
    let out = StdSink::new(rt.stdout());
    dsu_main(rt.alloc(), &words, &mut files, out, &mut err).status
}

fn main(rt: HostRuntime) -> ExitCode {
    let builder = Builder::new().stack_size(STACK_BYTES);
    let status = match builder.spawn_with(&rt, AnyStatus, move || call(&rt)) {
        Ok(thread) => thread.join(&rt),
        Err(refused) => (refused.value)(),
    };
    ExitCode::from(status)
}

//! Transcripts of calls of the program over files and outputs in memory. They show what no clause says: the exact bytes of
//! many calls, and that the calls succeed with ample memory.
//!
//! The words name files of cases. The transcript of such a file has each of its lines as it is, and after each call what the
//! call came to. `| ` begins the lines of standard output and `! ` those of standard error; a last line without a newline is
//! followed by `\ no newline`. `= ` begins what the call handed back: the status, the ending, how many answers there are to
//! offers with the version in force, and how many events were made, for few of them which. A run whose journal was printed
//! is replayed: `replayed` says that the replay printed, reported and handed back the same. Where such a journal is long, its
//! length is shown in its place.
//!
//! | Line of a file of cases | Meaning |
//! |---|---|
//! | `# TITLE` | a section begins, without files |
//! | an empty line, or `// TEXT` | for the reader alone |
//! | `text NAME TEXT` | the file NAME has this text, without a newline |
//! | `file NAME` | the file NAME is empty |
//! | four blanks and TEXT | the newest file gets this line |
//! | `repeat NAME TIMES OTHER` | the file NAME gets as many copies of the file OTHER; each `@` becomes the number of its copy, from 0 |
//! | `pad NAME BYTES` | the file NAME gets blanks at its end until it has so many bytes |
//! | `fail reads N`, `fail prints N`, `fail reports N` | in the next call the Nth read of a file, or write on standard output or on standard error, fails |
//! | `room BYTES` | in the next call standard output has room for so many bytes |
//! | `$ ginseng WORDS` | a call. Of a run with `--journal` standard error is the file `run.j` from then on |
//!
//! Read in this order: `cases` (the lines), `stage` (the files of a call, and what fails in it), `calls`, `page` (what is
//! shown of a call), `replays`, `fault`.
#![tactic(auto)]

mod calls;
mod cases;
mod fault;
mod page;
mod replays;
mod stage;

use crate::cases::transcribe;
use dsu_io::{StdSink, put};
use std::process::ExitCode;
use std::thread::{Builder, Promise};
use std::{env, fs};

/// The stack of the thread that does the work. It is address space until it is used.
const STACK_BYTES: usize = 1 << 30;

/// The status where a line of a file of cases is wrong.
const WRONG: u8 = 1;

/// The status where a file of cases couldn't be read, or a transcript couldn't be printed.
const FAILED: u8 = 2;

/// All that is known of the status that a thread gives is that it is one.
#[derive(Drop)]
struct AnyStatus;

impl Promise<u8> for AnyStatus {
    ghost kept_by = { λ _ _. Unit {0} };
}

/// Prints the transcript of a file of cases. If a line is wrong, the transcript ends with it, and standard error says why.
fn print_transcript(rt: &HostRuntime, name: &str) -> u8 {
    let Ok(cases) = fs::read_to_string(rt, name) else {
        return FAILED;
    };
    let mut page = Vec::new(rt.alloc());
    let end = transcribe(rt.alloc(), cases.as_str(), &mut page);
    let mut out = StdSink::new(rt.stdout());
    if put(&mut out, &page).is_err() {
        return FAILED;
    }
    match end {
        Ok(()) => 0,
        Err((line, fault)) => {
            let words = fault.words();
            let _ = eprintln!(rt; "{name}: line {line}: {words}");
            WRONG
        }
    }
}

/// Prints the transcripts of the files of cases that the words name, up to the first that fails.
fn print_transcripts(rt: &HostRuntime) -> u8 {
    let Ok(names) = env::args(rt) else {
        return FAILED;
    };
    for name in names.skip(1) {
        let status = print_transcript(rt, name.as_str());
        if status != 0 {
            return status;
        }
    }
    0
}

fn main(rt: HostRuntime) -> ExitCode {
    let builder = Builder::new().stack_size(STACK_BYTES);
    let status = match builder.spawn_with(&rt, AnyStatus, move || print_transcripts(&rt)) {
        Ok(thread) => thread.join(&rt),
        Err(refused) => (refused.value)(),
    };
    ExitCode::from(status)
}

//! llreve: a regression verifier for integer C functions.
//!
//! `main` makes the real files and sinks; `llreve_alone` in `alone.rt` does all the rest, and its
//! contract is what the program promises. `specs/Leads.antt` says when each outcome comes,
//! `specs/Written.antt` what is written then, and `specs/Answers.antt` what each status says of the
//! two files.
#![tactic(auto)]

// From words and files to an outcome.
mod alone;
mod judge;

// The outcome told.
mod status;
mod tell;
#[cfg(test)]
mod tests;

use alone::llreve_alone;
use re_base::{HostFiles, HostOut};
use status::NO_MEMORY;
use std::alloc::AllocError;
use std::env;
use std::io::ErrorKind;
use std::process::ExitCode;

// The words behind the program's name. One that is no UTF-8 makes the arguments fail as a whole:
// like no words, they are no command line.
fn words(rt: &HostRuntime) -> Result<Vec<String>, AllocError> {
    let mut words = Vec::new(rt.alloc());
    match env::args(rt) {
        Ok(arguments) => {
            for word in arguments.skip(1) {
                words.push(word)?;
            }
        }
        Err(error) if error.kind() == ErrorKind::OutOfMemory => return Err(AllocError),
        Err(_) => {}
    }
    Ok(words)
}

fn main(rt: HostRuntime) -> ExitCode {
    let Ok(words) = words(&rt) else {
        return ExitCode::from(NO_MEMORY);
    };
    let mut files = HostFiles::new(&rt);
    let mut out = HostOut::new(rt.stdout());
    let mut err = HostOut::new(rt.stderr());
    ExitCode::from(llreve_alone(rt.alloc(), &words, &mut files, &mut out, &mut err))
}

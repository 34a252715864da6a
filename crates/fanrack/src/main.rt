// Checks the set-up list on standard input, and tells what it holds or its fault.
#![tactic(auto)]

use setup::LONGEST;
use std::io::Read;
use std::process::ExitCode;
use std::{env, io};
use summary::summarize;

// Ends the program with status 1. What there is to say has been printed before.
struct Failed;

impl From<io::Error> for Failed {
    fn from(_error: io::Error) -> Failed {
        Failed
    }
}

// The list, or of too long a list one byte more than a list may have: the rest is left unread.
fn read_list(rt: &HostRuntime) -> io::Result<Vec<u8>> {
    let mut list = Vec::new(rt.alloc());
    // A cast: there is no conversion of a `usize` that always fits.
    let mut input = rt.stdin().take(LONGEST as u64 + 1);
    input.read_to_end(&mut list)?;
    Ok(list)
}

fn tell(rt: &HostRuntime) -> Result<(), Failed> {
    if env::args(rt)?.len() > 1 {
        eprintln!(rt; "usage: fanrack < LIST")?;
        return Err(Failed);
    }
    let list = match read_list(rt) {
        Ok(list) => list,
        Err(error) => {
            eprintln!(rt; "fanrack: standard input: {error}")?;
            return Err(Failed);
        }
    };
    match summarize(&list) {
        Ok(summary) => {
            println!(rt; "{summary}")?;
            Ok(())
        }
        Err(fault) => {
            println!(rt; "{fault}")?;
            Err(Failed)
        }
    }
}

fn main(rt: HostRuntime) -> ExitCode {
    match tell(&rt) {
        Ok(()) => ExitCode::SUCCESS,
        Err(Failed) => ExitCode::FAILURE,
    }
}

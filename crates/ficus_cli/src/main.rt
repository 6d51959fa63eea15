//! The program `ficus`: it hands the system's words, standard input, standard output and disks to the library.
#![tactic(auto)]

mod disks;
mod ending;
mod member;
mod run;
#[cfg(test)]
mod tests;

use disks::{Disks, disks_for};
use ending::{end, status_without_call};
use ficus_member::place_of;
use ficus_outside::{StdSink, StdSource};
use ficus_top::Status;
use member::{kept_at, run_member};
use run::run;
use std::io::ErrorKind;
use std::process::ExitCode;
use std::{env, io};

fn main(rt: HostRuntime) -> ExitCode {
    let status = match run_words(rt) {
        Ok(status) => status,
        Err(error) => status_without_call(error.kind()),
    };
    end(rt.alloc(), &status, &mut rt.stderr())
}

// Runs the program with the system's words, over the volume that they name, or over one in memory.
fn run_words(rt: HostRuntime) -> io::Result<Status> {
    let alloc = rt.alloc();
    let words = env::args(&rt)?.collect(alloc)?;
    let input = &mut StdSource::new(&rt);
    let output = &mut StdSink::new(&rt);
    let place = place_of(alloc, &words).map_err(|_| ErrorKind::OutOfMemory)?;
    if let Some(place) = place {
        let mut kept = kept_at(rt, alloc, &place).map_err(|_| ErrorKind::OutOfMemory)?;
        return Ok(run_member(alloc, &words, input, output, &mut kept));
    }
    let disks = disks_for(rt, alloc, &words).map_err(|_| ErrorKind::OutOfMemory)?;
    let status = match disks {
        Disks::InFolder(mut disks) => run(alloc, &words, input, output, &mut disks),
        Disks::InMemory(mut disks) => run(alloc, &words, input, output, &mut disks),
    };
    Ok(status)
}

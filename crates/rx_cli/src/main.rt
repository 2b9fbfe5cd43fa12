//! `rexx run FILE` runs an Open Object Rexx program, and `rexx check FILE` tells whether a source is one; both end with a status.
//!
//! The objects of the outside are made here, and everything else is done by the one call of `rexx_call`.
#![tactic(auto)]

use rx_ports::{DirShelf, FreeGate, StdErr, StdOut, StdSource};
use rx_top::rexx_call;
use std::alloc::Global;
use std::process::ExitCode;
use std::rt::Env;
use std::{env, io};

/// The status for want of memory.
const NO_MEMORY: u8 = 247;

// The words behind the program's own name, or want of memory. Where one of them is no text they are no request, so none is
// given.
fn read_args(rt: &(impl Env + AllocGlobal), alloc: Global) -> io::Result<Vec<Vec<u8>>> {
    let mut words = Vec::new(alloc);
    match env::args(rt) {
        Ok(args) => {
            for arg in args.skip(1) {
                words.push(arg.into_bytes())?;
            }
            Ok(words)
        }
        Err(error) if error.kind() == io::ErrorKind::OutOfMemory => Err(error),
        Err(_) => Ok(words),
    }
}

fn main(rt: HostRuntime) -> ExitCode {
    let alloc = rt.alloc();
    let Ok(words) = read_args(&rt, alloc) else {
        return ExitCode::from(NO_MEMORY);
    };
    let ended = rexx_call(
        &rt,
        alloc,
        words,
        DirShelf::new(&rt),
        StdSource::new(rt.stdin()),
        StdOut::new(rt.stdout()),
        StdErr::new(rt.stderr()),
        &FreeGate {},
    );
    ExitCode::from(ended.status)
}

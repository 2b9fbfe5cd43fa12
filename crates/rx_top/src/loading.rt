// The program of a file.
ghost use Rattle.std.specs.Prelude.{◌≡◌};
ghost use Rattle.rx_ports.specs.Causes.{HasCause};
ghost use Rattle.rx_top.specs.Loading.{InstallsIfFound, IsLoaded, IsRead};

use rx_clause_tree::Package;
use rx_machine::first_unbuilt;
use rx_packages::{SourceRefused, parse_package, program_laws};
use rx_ports::{Fetched, Shelf};
use std::alloc::Global;

/// What a program's file gives.
#[derive(Drop)]
pub enum Loaded {
    Found(Package),
    /// It is a program, and at this line is the first clause that doesn't run yet.
    Unbuilt(u32),
    Refused(SourceRefused),
    ShelfFault,
}

/// How much of a file is asked for: a byte more than the longest source.
pub const ASKED: usize = 4_194_305;

// The program that a source is.
fn read_program(alloc: Global, source: &[u8]) -> Loaded
    ensures read { IsRead source.now result }
    ensures installs { InstallsIfFound result }
{
    program_laws();
    match parse_package(alloc, source) {
        Ok(program) => match first_unbuilt(&program) {
            None => Loaded::Found(program),
            Some(line) => Loaded::Unbuilt(line),
        },
        Err(refused) => Loaded::Refused(refused),
    }
}

/// The program of a file, if its source is one that runs.
pub fn load<F: Shelf>(alloc: Global, shelf: &mut F, name: &[u8]) -> Loaded
    ensures loaded { IsLoaded (F.files shelf.old) name.now result }
    ensures installs { InstallsIfFound result }
    ensures kept { F.files shelf.new ≡ F.files shelf.old }
    ensures cause { HasCause (F.faults shelf.old) (F.faults shelf.new) (result ≡ Loaded.ShelfFault) }
{
    match shelf.fetch(alloc, name, ASKED) {
        Fetched::Bytes(source) => read_program(alloc, source.as_slice()),
        Fetched::Failed => Loaded::ShelfFault,
        Fetched::NoMemory => Loaded::Refused(SourceRefused::OutOfMemory),
    }
}

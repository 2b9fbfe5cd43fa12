// The program of a source.
ghost use Rattle.std.specs.Prelude.{◌≡◌, ◌≤◌, ◌<◌, ◌^◌, length, IfOk, IfErr, OnOk};
ghost use Rattle.rx_classes.specs.Installing.{CanInstall};
ghost use Rattle.rx_install.specs.Installation.{IsInstallationOrder};
ghost use Rattle.rx_directives.specs.Packages as spec;
ghost use Rattle.rx_packages.specs.Programs.{AreSound, IsProgram, IsWritten};
ghost use Rattle.rx_packages.specs.Refusals.{IsNoProgram, IsRefused, IsStopped, NoneInstall};

use crate::conditions::{repeated_routine, stray_clause, stray_directive};
use crate::installing::install;
use crate::method_clauses::in_clauses;
use crate::reading::{Written, bad, read_source};
use crate::refused::SourceRefused;
use crate::source::split_lines;
use rx_clause_tree::{Body, Package};
use rx_directives::{Directive, bodies_of, classes_of, routines_of};
use rx_scan::LONGEST_SOURCE;
use rx_tree::ClassDef;
use sqlite_items::Items;
use std::alloc::Global;

// Something stands where it may not, or twice.
const MISPLACED: u8 = 99;

// Tries whether methods stand in classes, clauses of methods in methods, and whether no two routines have one name.
#[tactic(auto, using(crate::proofs::SoundLemmas::unsound))]
fn try_places(
    alloc: Global,
    source: &[u8],
    main: &Body,
    directives: &[Directive],
) -> Result<(), SourceRefused>
    requires short { length source.now < 2 ^ 31 }
    ensures ok { OnOk result (AreSound main.now directives.now) }
    ensures err { IfErr result (IsStopped source.now (AreSound main.now directives.now → ⊥)) }
{
    if let Some(line) = in_clauses(main.clauses.as_slice()) {
        return Err(bad(source, line, MISPLACED));
    }
    if let Some(line) = stray_directive(directives) {
        return Err(bad(source, line, MISPLACED));
    }
    if let Some(line) = stray_clause(directives) {
        return Err(bad(source, line, MISPLACED));
    }
    match repeated_routine(alloc, directives) {
        Ok(None) => Ok(()),
        Ok(Some(line)) => Err(bad(source, line, MISPLACED)),
        Err(_) => Err(SourceRefused::OutOfMemory),
    }
}

// The classes that directives make, in the order of their installation; or why they can't be installed.
#[tactic(auto, using(crate::proofs::ProgramLemmas::making))]
fn installed(
    alloc: Global,
    source: &[u8],
    directives: &[Directive],
) -> Result<Items<ClassDef>, SourceRefused>
    requires short { length source.now ≤ LONGEST_SOURCE }
    requires few { length directives.now ≤ LONGEST_SOURCE }
    ensures order { IfOk result (IsInstallationOrder (spec.classes_of 0 directives.now)) }
    ensures can { IfOk result CanInstall }
    ensures err { IfErr result (IsStopped source.now (NoneInstall (spec.classes_of 0 directives.now))) }
{
    let classes = match classes_of(alloc, directives) {
        Ok(classes) => classes,
        Err(_) => return Err(SourceRefused::OutOfMemory),
    };
    install(alloc, source, classes)
}

// The program of a main body and directives that stand where they may; or why it is none.
#[tactic(auto, using(crate::proofs::ProgramLemmas::making))]
fn make(
    alloc: Global,
    source: &[u8],
    main: Body,
    directives: Items<Directive>,
) -> Result<Package, SourceRefused>
    requires is { IsWritten source.now main directives }
    requires sound { AreSound main directives }
    ensures ok { IfOk result (IsProgram source.now) }
    ensures err { IfErr result (IsStopped source.now (IsNoProgram source.now)) }
{
    let classes = match installed(alloc, source, directives.as_slice()) {
        Ok(classes) => classes,
        Err(refused) => return Err(refused),
    };
    let routines = routines_of(alloc, directives.as_slice())?;
    let bodies = bodies_of(alloc, directives)?;
    let lines = split_lines(alloc, source)?;
    Ok(Package {
        main,
        bodies,
        classes,
        routines,
        lines,
    })
}

// The program of what stands in a source; or why it is none.
fn make_sound(alloc: Global, source: &[u8], written: Written) -> Result<Package, SourceRefused>
    requires is { IsWritten source.now written.main written.directives }
    ensures ok { IfOk result (IsProgram source.now) }
    ensures err { IfErr result (IsStopped source.now (IsNoProgram source.now)) }
{
    let (main, directives) = written.into_parts();
    match try_places(alloc, source, &main, directives.as_slice()) {
        Ok(()) => make(alloc, source, main, directives),
        Err(refused) => Err(refused),
    }
}

/// The program that a source is; or why it is none. The refusals are tried in this order: its length, its tokens, how deep
/// brackets stand in one another, its clauses and directives in their order, where clauses and directives may stand, names
/// that stand twice, and the installation of its classes.
pub fn parse_package(alloc: Global, source: &[u8]) -> Result<Package, SourceRefused>
    ensures program { IfOk result (IsProgram source.now) }
    ensures refused { IfErr result (IsRefused source.now) }
{
    let written = match read_source(alloc, source) {
        Ok(written) => written,
        Err(refused) => return Err(refused),
    };
    match make_sound(alloc, source, written) {
        Ok(program) => Ok(program),
        Err(refused) => Err(refused),
    }
}

// The top call, on one thread.
ghost use Rattle.std.specs.Prelude.{◌≡◌, ℕ, List, IfOk, map};
ghost use Rattle.rx_top.specs.Conclusions.{Fulfils, IsConclusion, RunsFile};
ghost use Rattle.rx_top.specs.Ports.{Shrinks, ports, supplies};
ghost use Rattle.rx_top.specs.Headline.{IsAnswer, ByStatus};

use crate::checking::check_file;
use crate::conclusion::Conclusion;
use crate::loading::{Loaded, load};
use crate::playing::play;
use crate::refusing::{tell_bad, tell_refused};
use crate::telling::tell;
use crate::words::{Request, WordsRefused, read_words};
use rx_ports::{Accepted, Shelf, Sink, Source};
use rx_tree::{OutOfMemory, Text};
use std::alloc::Global;

/// The number by which a clause is told that doesn't run yet.
const UNBUILT: u8 = 3;

/// What a call gives back.
pub struct Ended<F, I, O, E> {
    /// The exit status.
    pub status: u8,
    /// How many steps were taken.
    pub steps: u64,
    /// The activities that took the steps, in order.
    pub schedule: Vec<u32>,
    pub shelf: F,
    pub input: I,
    pub out: O,
    pub err: E,
}

impl<F: Drop, I: Drop, O: Drop, E: Drop> Drop for Ended<F, I, O, E> {
    fn drop(self) {
        let Ended {
            status: _,
            steps: _,
            schedule: _,
            shelf: _,
            input: _,
            out: _,
            err: _,
        } = self;
    }
}

// Runs the program of a file with this argument for so many steps at most, or wants memory.
fn run_file<F: Shelf, I: Source>(
    alloc: Global,
    shelf: &mut F,
    input: &mut I,
    name: &[u8],
    steps: u64,
    argument: Option<Text>,
) -> Result<Conclusion, OutOfMemory>
    ensures conclusion { IfOk result (RunsFile name.now steps argument
        (supplies (F.files shelf.old) (F.faults shelf.old) (I.left input.old) (I.faults input.old))
        (supplies (F.files shelf.new) (F.faults shelf.new) (I.left input.new) (I.faults input.new))) }
    ensures files { F.files shelf.new ≡ F.files shelf.old }
    ensures shrinks { Shrinks (I.left input.old) (I.left input.new) }
{
    match load(alloc, shelf, name) {
        Loaded::Found(program) => play(alloc, program, argument, steps, input),
        Loaded::Unbuilt(line) => tell_bad(alloc, line, UNBUILT),
        Loaded::Refused(refused) => tell_refused(alloc, refused),
        Loaded::ShelfFault => Conclusion::refused(alloc, 244, b"REX244 shelf\n"),
    }
}

// Does what a request asks for, or wants memory.
fn fulfil<F: Shelf, I: Source>(
    alloc: Global,
    asks: Request,
    shelf: &mut F,
    input: &mut I,
) -> Result<Conclusion, OutOfMemory>
    ensures conclusion { IfOk result (Fulfils asks
        (supplies (F.files shelf.old) (F.faults shelf.old) (I.left input.old) (I.faults input.old))
        (supplies (F.files shelf.new) (F.faults shelf.new) (I.left input.new) (I.faults input.new))) }
    ensures files { F.files shelf.new ≡ F.files shelf.old }
    ensures shrinks { Shrinks (I.left input.old) (I.left input.new) }
{
    match asks {
        Request::Run {
            workers: _,
            steps,
            schedule: _,
            program,
            arg,
        } => run_file(alloc, shelf, input, program.as_slice(), steps, arg),
        Request::Check { program } => check_file(alloc, shelf, program.as_slice()),
    }
}

// What the words come to, or want of memory.
fn answer<F: Shelf, I: Source>(
    alloc: Global,
    words: &[Vec<u8>],
    shelf: &mut F,
    input: &mut I,
) -> Result<Conclusion, OutOfMemory>
    ensures conclusion { IfOk result (IsConclusion (map (λ word. word.items) words.now)
        (supplies (F.files shelf.old) (F.faults shelf.old) (I.left input.old) (I.faults input.old))
        (supplies (F.files shelf.new) (F.faults shelf.new) (I.left input.new) (I.faults input.new))) }
    ensures files { F.files shelf.new ≡ F.files shelf.old }
    ensures shrinks { Shrinks (I.left input.old) (I.left input.new) }
{
    match read_words(alloc, words) {
        Ok(asks) => fulfil(alloc, asks, shelf, input),
        Err(WordsRefused::NotARequest) => Conclusion::refused(alloc, 243, b"REX243 words\n"),
        Err(WordsRefused::OutOfMemory) => Err(OutOfMemory),
    }
}

// What the words come to.
fn conclude<F: Shelf, I: Source>(
    alloc: Global,
    words: &[Vec<u8>],
    shelf: &mut F,
    input: &mut I,
) -> Conclusion
    ensures conclusion { IsConclusion (map (λ word. word.items) words.now)
        (supplies (F.files shelf.old) (F.faults shelf.old) (I.left input.old) (I.faults input.old))
        (supplies (F.files shelf.new) (F.faults shelf.new) (I.left input.new) (I.faults input.new)) result }
    ensures files { F.files shelf.new ≡ F.files shelf.old }
    ensures shrinks { Shrinks (I.left input.old) (I.left input.new) }
{
    match answer(alloc, words, shelf, input) {
        Ok(told) => told,
        Err(_) => Conclusion::silent(alloc, 247),
    }
}

/// Does what the words ask for, on one thread: runs a program or checks a source, or refuses, and tells what came of it.
///
/// The headline for runs without workers is its contract: `answer` says what is told and given back, and why; `by_status`
/// says the same by the status.
pub fn rexx_plain<F: Shelf, I: Source, O: Sink, E: Sink>(
    alloc: Global,
    words: Vec<Vec<u8>>,
    shelf: F,
    input: I,
    out: O,
    err: E,
) -> Ended<F, I, O, E>
    ensures answer { IsAnswer (map (λ word. word.items) words.items)
        (ports (F.files shelf) (F.faults shelf) (I.left input) (I.faults input) (O.held out) (O.faults out) (E.held err) (E.faults err))
        (ports (F.files result.shelf) (F.faults result.shelf) (I.left result.input) (I.faults result.input) (O.held result.out) (O.faults result.out) (E.held result.err) (E.faults result.err))
        result.status result.steps result.schedule.items }
    ensures by_status { ByStatus (map (λ word. word.items) words.items)
        (ports (F.files shelf) (F.faults shelf) (I.left input) (I.faults input) (O.held out) (O.faults out) (E.held err) (E.faults err))
        (ports (F.files result.shelf) (F.faults result.shelf) (I.left result.input) (I.faults result.input) (O.held result.out) (O.faults result.out) (E.held result.err) (E.faults result.err))
        result.status result.steps result.schedule.items }
    ensures files { F.files result.shelf ≡ F.files shelf }
    ensures input { Shrinks (I.left input) (I.left result.input) }
{
    let mut shelf = shelf;
    let mut out = out;
    let mut err = err;
    let mut input = input;
    let told = conclude(alloc, words.as_slice(), &mut shelf, &mut input);
    let status = match tell(
        &mut out,
        &mut err,
        told.output.as_slice(),
        told.report.as_slice(),
    ) {
        Accepted::All => told.status,
        Accepted::Failed => 246,
        Accepted::NoMemory => 247,
    };
    Ended {
        status,
        steps: told.steps,
        schedule: told.into_schedule(),
        shelf,
        input,
        out,
        err,
    }
}

// The top call.
ghost use Rattle.std.specs.Prelude.{◌≡◌, ℕ, List, map};
ghost use Rattle.rx_top.specs.Ports.{Shrinks, ports};
ghost use Rattle.rx_top.specs.Headline.{IsAnswer, ByStatus};

use crate::top::{Ended, rexx_plain};
use rx_ports::{Gate, Shelf, Sink, Source};
use std::alloc::Global;
use std::sync::Wait;
use std::thread::Threads;

/// Does what the words ask for: runs a program or checks a source, or refuses, and tells what came of it. It is all that the
/// program does.
///
/// The words are those behind the program's own name. `out` gets what the program says, and `err` the report. No request
/// asks for workers yet, so nothing is computed beside this thread, and `gate` isn't called.
///
/// Its contract is the headline: `answer` says what is told and given back, and why; `by_status` says the same by the
/// status.
pub fn rexx_call<
    R: Threads + Wait + Sync,
    F: Shelf,
    I: Source + Send,
    O: Sink + Send,
    E: Sink + Send,
    G: Gate + Sync,
>(
    _rt: &R,
    alloc: Global,
    words: Vec<Vec<u8>>,
    shelf: F,
    input: I,
    out: O,
    err: E,
    _gate: &G,
) -> Ended<F, I, O, E>
    ensures answer { IsAnswer (map (λ word. word.items) words.items)
        (ports (F.files shelf) (F.faults shelf) (I.left input) (I.faults input) (O.held out) (O.faults out) (E.held err) (E.faults err))
        (ports (F.files result.shelf) (F.faults result.shelf) (I.left result.input) (I.faults result.input) (O.held result.out) (O.faults result.out) (E.held result.err) (E.faults result.err))
        result.status result.steps result.schedule.items }
    ensures by_status { ByStatus (map (λ word. word.items) words.items)
        (ports (F.files shelf) (F.faults shelf) (I.left input) (I.faults input) (O.held out) (O.faults out) (E.held err) (E.faults err))
        (ports (F.files result.shelf) (F.faults result.shelf) (I.left result.input) (I.faults result.input) (O.held result.out) (O.faults result.out) (E.held result.err) (E.faults result.err))
        result.status result.steps result.schedule.items }
    ensures files { F.files result.shelf ≡ F.files shelf }
    ensures input { Shrinks (I.left input) (I.left result.input) }
{
    rexx_plain(alloc, words, shelf, input, out, err)
}

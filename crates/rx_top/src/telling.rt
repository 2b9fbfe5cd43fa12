// What a call tells on standard output and standard error.
ghost use Rattle.std.specs.Prelude.{◌≡◌, ◌≤◌, ℕ, List, Option};
ghost use Rattle.rx_ports.specs.Causes.{HasCause};
ghost use Rattle.rx_ports.specs.Sinks.{Puts};
ghost use Rattle.rx_top.specs.Telling.{TellsBoth};

use rx_ports::{Accepted, Sink};

// Writes a piece, an empty one not at all.
fn put_piece<S: Sink>(sink: &mut S, bytes: &[u8]) -> Accepted
    ensures bytes { Puts (S.held sink.old) (S.held sink.new) bytes.now result }
    ensures cause { HasCause (S.faults sink.old) (S.faults sink.new) (result ≡ Accepted.Failed) }
{
    if bytes.is_empty() {
        return Accepted::All;
    }
    sink.put(bytes)
}

/// Writes the output, and then the report. Where a sink doesn't accept all of it, nothing more is written.
pub fn tell<O: Sink, E: Sink>(out: &mut O, err: &mut E, output: &[u8], report: &[u8]) -> Accepted
    ensures { TellsBoth (O.held out.old) (O.held out.new) (O.faults out.old) (O.faults out.new)
        (E.held err.old) (E.held err.new) (E.faults err.old) (E.faults err.new) output.now report.now result }
{
    match put_piece(out, output) {
        Accepted::All => put_piece(err, report),
        Accepted::Failed => Accepted::Failed,
        Accepted::NoMemory => Accepted::NoMemory,
    }
}

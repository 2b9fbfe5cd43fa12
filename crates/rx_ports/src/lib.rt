//! What a run reaches of the outside: files, an input, two outputs and a gate.
//!
//! Each is a trait that says what its calls mean. An object may tell what it holds, and then its
//! calls say what they did to that, or tell nothing, as a file or a standard stream does. Each
//! counts its faults: the count never falls, and where a call answers `Failed` it has risen, or
//! stands at 18446744073709551615, the last value that it has. Want of memory is `NoMemory` and
//! is no fault.
//!
//! `MemShelf`, `MemSink`, `SureSource` and `SureSink` are in memory: they tell all that they hold,
//! and fail where they are told to, or never. `DirShelf`, `StdSource`, `StdOut` and `StdErr` reach
//! the files and the standard streams, and tell nothing of what those hold.
#![tactic(auto)]

mod adapters;
mod gate;
mod memory;
mod shelf;
mod sink;
mod source;

pub use adapters::folder::DirShelf;
pub use adapters::streams::{StdErr, StdOut, StdSource};
pub use gate::{FreeGate, Gate};
pub use memory::scripted_shelf::MemShelf;
pub use memory::scripted_sink::MemSink;
pub use memory::sure::{SureSink, SureSource};
pub use shelf::{Fetched, Shelf, Stored};
pub use sink::{Accepted, Sink};
pub use source::{Source, Taken};

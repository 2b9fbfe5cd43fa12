//! The classes of a package: their search order, and the method of a message.
//!
//! Classes are defined one after the other, each after its superclass and the mixins that it inherits. Objects 2 to 8 are the
//! native classes; the package's follow from 9.
#![tactic(auto)]

mod class;
mod method;
mod native;
mod table;

pub use method::{DefineRefused, MethodId, Sought};
pub use rx_tree::{ClassDef, MethodDef, OutOfMemory, Scope, Text};
pub use table::ClassTable;

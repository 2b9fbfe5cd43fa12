//! Which program a source is.
#![tactic(auto)]

mod checking;
mod conditions;
mod installing;
mod laws;
mod method_clauses;
mod program;
mod reading;
mod refused;
mod source;

pub use checking::{Checked, check_source};
pub use laws::program_laws;
pub use program::parse_package;
pub use refused::SourceRefused;

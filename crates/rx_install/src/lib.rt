//! In which order the classes of a package are installed: each after its superclass and the mixins that it inherits.
#![tactic(auto)]

mod installation;
mod installed;
mod laws;
mod refused;
mod waiting;

pub use installation::installation_order;
pub use laws::installation_laws;
pub use refused::InstallRefused;
pub use rx_tree::{ClassDef, OutOfMemory};

// Files and standard streams, whose contents no contract tells.
pub(crate) mod folder;
pub(crate) mod streams;
mod transfers;

//! Tests of the interpreter and of its parts: what no clause says of whole calls, and each public call that allocates once
//! with ample memory, since a body that always wants memory meets every contract.
#![tactic(auto)]

#[cfg(test)]
mod activities;
#[cfg(test)]
mod adapters;
#[cfg(test)]
mod calls;
#[cfg(test)]
mod inputs;
#[cfg(test)]
mod memory;
#[cfg(test)]
mod outside;
#[cfg(test)]
mod parts;
#[cfg(test)]
mod sources;

//! Tests of the scanner and of the texts below it: the longest sources, and calls with ample memory.
#![tactic(auto)]

#[cfg(test)]
mod long;
#[cfg(test)]
mod texts;

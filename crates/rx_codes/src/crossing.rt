//! A program may be sent to another thread, and shared with it: the call here compiles for its type alone.

use crate::program::Program;

fn crosses_threads<T: Send + Sync>(_value: &T) {}

/// A program may be sent and shared.
pub fn program_crosses(program: &Program) {
    crosses_threads(program);
}

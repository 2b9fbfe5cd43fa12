//! What a run keeps may be sent to another thread, and shared with it: each call here compiles for its type alone.

use crate::clause::{Body, Clause};
use crate::instruction::Trap;
use crate::package::Package;
use crate::simple::Simple;
use crate::template::Template;

fn crosses_threads<T: Send + Sync>(_value: &T) {}

/// A trap may be sent and shared.
pub fn trap_crosses(trap: &Trap) {
    crosses_threads(trap);
}

/// A template may be sent and shared.
pub fn template_crosses(template: &Template) {
    crosses_threads(template);
}

/// A clause that holds no other clause may be sent and shared.
pub fn simple_crosses(simple: &Simple) {
    crosses_threads(simple);
}

/// A clause may be sent and shared.
pub fn clause_crosses(clause: &Clause) {
    crosses_threads(clause);
}

/// A body may be sent and shared.
pub fn body_crosses(body: &Body) {
    crosses_threads(body);
}

/// A package may be sent and shared.
pub fn package_crosses(program: &Package) {
    crosses_threads(program);
}

//! What a call reads may be sent to another thread, and shared with it: the call here compiles for its type alone.

use crate::facts::Facts;

fn crosses_threads<T: Send + Sync>(_value: &T) {}

/// Facts may be sent and shared.
pub fn facts_cross(facts: &Facts) {
    crosses_threads(facts);
}

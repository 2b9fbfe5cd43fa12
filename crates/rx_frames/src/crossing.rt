//! What a run keeps may be sent to another thread, and shared with it: each call here compiles for its type alone.

use crate::frame::Frame;
use crate::stacks::Stacks;

fn crosses_threads<T: Send + Sync>(_value: &T) {}

/// A frame may be sent and shared.
pub fn frame_crosses(frame: &Frame) {
    crosses_threads(frame);
}

/// The frames of all activities may be sent and shared.
pub fn stacks_cross(stacks: &Stacks) {
    crosses_threads(stacks);
}

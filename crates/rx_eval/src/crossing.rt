//! Jobs and answers may be sent to another thread, and shared with it: each call here compiles for its type alone.

use crate::facts::Body;
use crate::job::{Answer, Job};
use std::sync::Arc;

fn crosses_threads<T: Send + Sync>(_value: &T) {}

/// What is fixed for a body may be sent and shared.
pub fn body_crosses(body: &Arc<Body>) {
    crosses_threads(body);
}

/// A job may be sent and shared.
pub fn job_crosses(job: &Job) {
    crosses_threads(job);
}

/// An answer may be sent and shared.
pub fn answer_crosses(answer: &Answer) {
    crosses_threads(answer);
}

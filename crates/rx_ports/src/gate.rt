// A gate, which a worker passes between jobs.

/// What a worker passes before it computes a job.
pub trait Gate {
    /// Called by the worker of this number after it has unlocked the session and before it
    /// computes the job that it claimed. It may wait, and it changes nothing that a run can see.
    fn computing(&self, worker: u32);
}

/// A gate that lets every worker through at once.
#[derive(Clone, Copy, Debug, Default, PartialEq, Eq)]
pub struct FreeGate {}

impl Gate for FreeGate {
    fn computing(&self, _worker: u32) {}
}

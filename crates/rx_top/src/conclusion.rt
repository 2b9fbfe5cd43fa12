// What a call has to tell.
ghost use Rattle.std.specs.Prelude.{◌≡◌, ℕ, List, [], IfOk};
ghost use Rattle.rx_top.specs.Conclusions.{RanNothing};

use rx_tree::OutOfMemory;
use std::alloc::Global;

/// What a call has to tell: the status that it ends with, the steps and the schedule that it gives back, and the bytes
/// for standard output and standard error.
pub struct Conclusion {
    pub status: u8,
    pub steps: u64,
    pub schedule: Vec<u32>,
    pub output: Vec<u8>,
    pub report: Vec<u8>,
}

impl Drop for Conclusion {
    fn drop(self) {
        let Conclusion {
            status: _,
            steps: _,
            schedule: _,
            output: _,
            report: _,
        } = self;
    }
}

impl Conclusion {
    /// That nothing was run, with status 0 and a line for the output, or want of memory.
    pub fn fine(alloc: Global, line: &[u8]) -> Result<Conclusion, OutOfMemory>
        ensures { IfOk result (RanNothing 0 line.now []) }
    {
        let output = Vec::from_slice(alloc, line)?;
        Ok(Conclusion {
            status: 0,
            steps: 0,
            schedule: Vec::new(alloc),
            output,
            report: Vec::new(alloc),
        })
    }

    /// That nothing was run, with a status and a line for the report, or want of memory.
    pub fn refused(alloc: Global, status: u8, line: &[u8]) -> Result<Conclusion, OutOfMemory>
        ensures { IfOk result (RanNothing status [] line.now) }
    {
        let report = Vec::from_slice(alloc, line)?;
        Ok(Conclusion {
            status,
            steps: 0,
            schedule: Vec::new(alloc),
            output: Vec::new(alloc),
            report,
        })
    }

    /// That nothing was run, with a status alone.
    pub fn silent(alloc: Global, status: u8) -> Conclusion
        ensures { RanNothing status [] [] result }
    {
        Conclusion {
            status,
            steps: 0,
            schedule: Vec::new(alloc),
            output: Vec::new(alloc),
            report: Vec::new(alloc),
        }
    }

    /// The schedule, where nothing else is wanted any more.
    pub fn into_schedule(self) -> Vec<u32>
        ensures { result.items ≡ self.schedule.items }
    {
        let Conclusion {
            status: _,
            steps: _,
            schedule,
            output: _,
            report: _,
        } = self;
        schedule
    }
}

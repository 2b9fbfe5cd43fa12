// A whole run of a program.
ghost use Rattle.std.specs.Prelude.{◌≡◌, ◌<◌, IfOk};
ghost use Rattle.rx_top.specs.Loading.{Installs};
ghost use Rattle.rx_top.specs.Ports.{Shrinks};
ghost use Rattle.rx_top.specs.Running.{HasEnded};
ghost use Rattle.rx_top.specs.Runs.{IsCourseTold, IsPlayed};

use crate::conclusion::Conclusion;
use crate::report::{report_of, report_unfed};
use crate::running::{Course, run_serial};
use rx_clause_tree::Package;
use rx_kernel::Kernel;
use rx_ports::Source;
use rx_tree::{OutOfMemory, Steps, Text};
use std::alloc::Global;
use std::marker::Brand;
use std::sync::ledger::{Blank, Ledger};

/// The status of a run that wanted a line of input which couldn't be read.
const UNFED: u8 = 245;

// What there is to tell of a run that came to this, or want of memory.
fn tell_course(alloc: Global, kernel: Kernel, course: Course) -> Result<Conclusion, OutOfMemory>
    requires ended { HasEnded kernel course }
    ensures { IfOk result (IsCourseTold kernel course) }
{
    match course {
        Course::Ended(schedule) => {
            let report = report_of(alloc, &kernel)?;
            Ok(Conclusion {
                status: kernel.status(),
                steps: kernel.steps(),
                schedule,
                output: kernel.into_output(),
                report,
            })
        }
        Course::Starved(schedule) => {
            let report = report_unfed(alloc, &kernel)?;
            Ok(Conclusion {
                status: UNFED,
                steps: kernel.steps(),
                schedule,
                output: kernel.into_output(),
                report,
            })
        }
    }
}

// Runs a program to its end, with a ledger for the count of looks.
fn play_with<L: Ledger, I: Source>(
    alloc: Global,
    blank: Blank,
    program: Package,
    argument: Option<Text>,
    budget: u64,
    input: &mut I,
) -> Result<Conclusion, OutOfMemory>
    requires installs { Installs program }
    requires name { blank.name ≡ L.name }
    requires parts { blank.parts ≡ L.parts }
    requires some { 0 < blank.parts }
    ensures played { IfOk result (IsPlayed program argument budget (I.left input.old) (I.faults input.old) (I.left input.new) (I.faults input.new)) }
    ensures shrinks { Shrinks (I.left input.old) (I.left input.new) }
{
    let mut kernel = Kernel::begin(alloc, program, argument, budget)?;
    let course = run_serial(alloc, &mut kernel, input, &mut Steps::<L>::new(blank))?;
    tell_course(alloc, kernel, course)
}

/// Runs a program with this argument to its end, or until a line of the input that it wants can't be read, and gives what there is to
/// tell of it; or want of memory.
pub fn play<I: Source>(
    alloc: Global,
    program: Package,
    argument: Option<Text>,
    budget: u64,
    input: &mut I,
) -> Result<Conclusion, OutOfMemory>
    requires installs { Installs program }
    ensures played { IfOk result (IsPlayed program argument budget (I.left input.old) (I.faults input.old) (I.left input.new) (I.faults input.new)) }
    ensures shrinks { Shrinks (I.left input.old) (I.left input.new) }
{
    play_with::<Brand, I>(alloc, Blank::new(1), program, argument, budget, input)
}

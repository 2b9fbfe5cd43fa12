// The first state of a run.
ghost use Rattle.std.specs.Prelude.{◌≡◌, ◌+◌, ◌≤◌, [], ◌∷◌, false, length, None, IfOk};
ghost use Rattle.rx_classes.specs.Installing.{CanInstall};
ghost use Rattle.rx_classes.specs.Natives.{message_class};
ghost use Rattle.rx_heap.specs.Objects.{first_objects, most_objects};
ghost use Rattle.rx_frames.specs.Activities.{waiting};
ghost use Rattle.rx_frames.specs.Frames.{beginning, frame_with};
ghost use Rattle.rx_machine.specs.Opening.{main_arguments, opening};
ghost use Rattle.rx_kernel.specs.States.{world_of};

use crate::lines::Lines;
use crate::main_end::MainEnd;
use crate::state::State;
use rx_codes::{Program, class_table};
use rx_frames::{Frame, Stacks, Wait};
use rx_heap::Heap;
use rx_pools::Pools;
use rx_sends::Parts;
use rx_tree::{ClassDef, FrameKind, OutOfMemory, Shared, Text, Value};
use sqlite_items::Items;
use std::alloc::Global;

/// The number of the last native class.
const MESSAGE: u32 = 8;

// The main program has the argument, if there is one.
fn main_arguments(
    alloc: Global,
    argument: &Option<Text>,
) -> Result<Shared<Option<Value>>, OutOfMemory>
    ensures { IfOk result (λ arguments. arguments ≡ main_arguments argument.now) }
{
    let mut arguments = Items::new(alloc);
    if let Some(text) = argument {
        arguments.push(Some(Value::Str(text.share()?)))?;
    }
    Shared::new(alloc, arguments)
}

// The frame of the main program.
fn main_frame(
    alloc: Global,
    program: &Program,
    argument: &Option<Text>,
) -> Result<Frame, OutOfMemory>
    ensures { IfOk result (λ frame. frame ≡ frame_with beginning FrameKind.Main (length program.now.bodies) None (main_arguments argument.now)) }
{
    let arguments = main_arguments(alloc, argument)?;
    let body = program.main_number();
    Ok(Frame::new(alloc, FrameKind::Main, body, None, arguments))
}

// One activity, which runs the main program.
fn first_stacks(alloc: Global, frame: Frame) -> Result<Stacks, OutOfMemory>
    ensures { IfOk result (λ stacks. stacks ≡ waiting Wait.Nothing (frame ∷ []) ∷ []) }
{
    let mut stacks = Stacks::new(alloc);
    let Ok(a) = stacks.begin() else {
        return Err(OutOfMemory);
    };
    match stacks.push(a, frame) {
        Ok(()) => Ok(stacks),
        Err(_) => Err(OutOfMemory),
    }
}

// The objects before any is made: `.nil` and the classes.
fn first_objects(alloc: Global, classes: &[ClassDef]) -> Result<Heap, OutOfMemory>
    requires few { message_class + length classes.now ≤ most_objects }
    ensures { IfOk result (λ heap. heap ≡ first_objects (message_class + length classes.now)) }
{
    Heap::new(alloc, MESSAGE + classes.len() as u32)
}

impl State {
    /// The first state of a program, which has this argument, and no input yet; or want of memory.
    pub fn begin(
        alloc: Global,
        program: Program,
        argument: Option<Text>,
        budget: u64,
    ) -> Result<State, OutOfMemory>
        requires classes { CanInstall program.classes }
        requires few { message_class + length program.classes ≤ most_objects }
        ensures opening { IfOk result (λ state. world_of state ≡ opening program argument [] false budget) }
        ensures closed { IfOk result (λ state. state.closed ≡ false) }
    {
        let frame = main_frame(alloc, &program, &argument)?;
        let parts = Parts {
            stacks: first_stacks(alloc, frame)?,
            heap: first_objects(alloc, program.classes())?,
            classes: class_table(alloc, program.classes())?,
            pools: Pools::new(alloc),
        };
        Ok(State {
            program,
            argument,
            budget,
            parts,
            queue: Lines::new(alloc),
            lines: Lines::new(alloc),
            ended: false,
            output: Vec::new(alloc),
            notes: Vec::new(alloc),
            steps: 0,
            main: MainEnd::NoValue,
            closed: false,
        })
    }
}

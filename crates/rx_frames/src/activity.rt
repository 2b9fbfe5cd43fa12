// Activities.
ghost use Rattle.std.specs.Prelude.{◌≡◌, ◌+◌, ◌<◌, ◌≤◌, ◌-◌, ◌↔◌, [], ◌∷◌, length, drop, slice_get, slice_set, IsTrue, OnErr, OnOk};
ghost use Rattle.std.specs.Bool.{OnFalse};
ghost use Rattle.std.specs.Option.{option_copied};
ghost use Rattle.std.specs.Borrow.{sem};
ghost use Rattle.rx_frames.specs.Activities.{ShareAll, asked, first_of, seen, waiting, with_frames, with_top_changed, with_value_below};
ghost use Rattle.rx_frames.specs.Frames.{with_answer};
ghost use Rattle.rx_frames.specs.Runs.{AreRuns, IsRun};

use crate::frame::Frame;
use crate::parts::Own;
use rx_tree::{Derived, OutOfMemory, Value};
use std::alloc::Global;
use std::marker::Model;

/// What an activity waits for. The numbers are those of Messages.
#[derive(Clone, Copy, Debug, PartialEq, Eq)]
pub enum Wait {
    Nothing,
    /// Its first step sends this Message's message.
    First(u32),
    /// This Message isn't complete.
    Message(u32),
    /// The guard of its top frame.
    Guard,
    /// It isn't live yet; once it is, its first step sends this Message's message.
    NotLive(u32),
}

/// What is to be seen of an activity.
#[derive(Clone, Copy, Debug, PartialEq, Eq)]
pub enum Look {
    /// It isn't live: it has ended, or hasn't begun.
    Ended,
    /// It waits for nothing.
    Runs,
    /// Its top frame asks for the pool of this number.
    Asks(u32),
    /// It waits for this Message to be complete.
    Message(u32),
    /// It waits at a guard.
    Guard,
}

/// An activity: its frames, and what it waits for. Contracts see it as the machine's, with the top frame first.
///
/// Beside each of the lowest frames stands how many from it downward share all variables of their callers, so that who looks
/// for a variable passes over these at once. Frames that may have been changed since aren't counted, until a further one is
/// pushed.
pub struct Activity {
    // The top last.
    frames: Vec<Frame>,
    runs: Vec<u32>,
    wait: Wait,
}

impl Drop for Activity {
    fn drop(self) {
        let Activity {
            frames: _,
            runs: _,
            wait: _,
        } = self;
    }
}

impl Model for Activity {
    ghost use Rattle.std.specs.Prelude.{reverse};
    ghost use Rattle.rx_frames.specs.declared.position.Position.{Position};
    ghost use Rattle.rx_frames.specs.Activities.{Activity as Recorded, waiting};
    ghost use Rattle.rx_frames.specs.Runs.{IsKept};

    ghost Value = { Recorded Position };

    ghost view = { λ a. waiting a.wait (reverse a.frames.items) };

    ghost invariant = { λ a. IsKept a.runs.items a.frames.items };
}

// Whether a frame shares all variables of its caller, and how many beneath it do so.
fn run_at(frames: &[Frame], runs: &[u32], place: usize) -> u32
    requires few { length frames.now ≤ 1000 }
    requires counted { AreRuns runs.now frames.now }
    requires next { place ≡ length runs.now }
    requires within { place < length frames.now }
    ensures within { result ≤ place + 1 }
    ensures shared { IsRun frames.now place result }
{
    if !frames[place].shares() {
        return 0;
    }
    match runs.last() {
        Some(run) => run + 1,
        None => 1,
    }
}

// Counts the runs of all frames.
fn count_runs(frames: &[Frame], runs: &mut Vec<u32>) -> Result<(), OutOfMemory>
    requires few { length frames.now ≤ 1000 }
    requires counted { AreRuns runs.old.items frames.now }
    ensures { AreRuns runs.new.items frames.now }
{
    for place in runs.len()..frames.len() {
        let run = run_at(frames, runs.as_slice(), place);
        runs.push(run)?;
    }
    Ok(())
}

impl Activity {
    ghost use Rattle.rx_frames.specs.ActivityLends.{lends_frame_of};

    /// The most frames.
    pub const MOST: usize = 1000;

    /// It has no frame, and waits for nothing.
    pub fn new(alloc: Global) -> Activity
        ensures { result ≡ waiting Wait.Nothing [] }
    {
        Activity {
            frames: Vec::new(alloc),
            runs: Vec::new(alloc),
            wait: Wait::Nothing,
        }
    }

    /// How many frames it has.
    pub fn height(&self) -> u32
        ensures { result ≡ length self.now.frames }
    {
        self.frames.len() as u32
    }

    /// Whether it has 1,000 frames.
    pub fn is_deep(&self) -> bool
        ensures deep { IsTrue result ↔ (length self.now.frames ≡ Self.MOST) }
        ensures room { OnFalse result (length self.now.frames < Self.MOST) }
    {
        self.frames.len() == Self::MOST
    }

    /// Puts a frame on top, or wants memory.
    pub fn push(&mut self, frame: Frame) -> Result<(), OutOfMemory>
        requires { length self.old.frames < Self.MOST }
        ensures ok { OnOk result (self.new ≡ with_frames (frame ∷ self.old.frames) self.old) }
        ensures err { OnErr result (self.new ≡ self.old) }
    {
        count_runs(self.frames.as_slice(), &mut self.runs)?;
        self.frames.push(frame)?;
        Ok(())
    }

    /// Takes the top frame away.
    pub fn pop(&mut self) -> Option<Frame>
        ensures frame { result ≡ slice_get self.old.frames 0 }
        ensures rest { self.new ≡ with_frames (drop 1 self.old.frames) self.old }
    {
        let top = self.frames.pop();
        self.runs.truncate(self.frames.len());
        top
    }

    /// The frame that stands so many beneath the top.
    pub fn frame(&self, down: u32) -> Option<&Frame>
        ensures { option_copied result ≡ slice_get self.now.frames down }
    {
        let place = self.frames.len().checked_sub(down as usize + 1)?;
        self.frames.get(place)
    }

    /// The frame that stands so many beneath the top, to be changed.
    pub fn frame_mut(&mut self, down: u32) -> &mut Frame
        requires { down < length self.old.frames }
        ensures* writes_back { sem 𝓛 (lends_frame_of self.entry down result) }
        ensures frame { slice_get self.old.frames down ≡ Some result.now }
    {
        let place = self.frames.len() - 1 - down as usize;
        self.runs.truncate(place);
        &mut self.frames[place]
    }

    /// Gives a name a value or none in the variables of the frame that stands so many beneath the top, if there is one; or
    /// wants memory.
    pub fn set_value(
        &mut self,
        down: u32,
        name: &Derived,
        value: Option<Value>,
    ) -> Result<(), OutOfMemory>
        ensures ok { OnOk result (self.new ≡ with_value_below down name.now value self.old) }
        ensures err { OnErr result (self.new ≡ self.old) }
    {
        let Some(place) = self.frames.len().checked_sub(down as usize + 1) else {
            return Ok(());
        };
        self.frames[place].set_value(name, value)?;
        Ok(())
    }

    /// The answer of the call that its top frame awaits, if it has one, has come: a value or none.
    pub fn answer(&mut self, answer: Option<Value>)
        ensures { self.new ≡ with_top_changed (with_answer answer) self.old }
    {
        if let Some(place) = self.frames.len().checked_sub(1) {
            self.frames[place].answer(answer);
        }
    }

    /// A number of frames, from the one that stands so many beneath the top on, that share all variables of their callers.
    pub fn shared(&self, down: u32) -> u32
        ensures within { result ≤ length self.now.frames - down }
        ensures shared { ShareAll (drop down self.now.frames) result }
    {
        let Some(place) = self.frames.len().checked_sub(down as usize + 1) else {
            return 0;
        };
        match self.runs.get(place) {
            Some(run) => *run,
            None => 0,
        }
    }

    /// It waits so.
    pub fn wait(&mut self, wait: Wait)
        ensures { self.new ≡ waiting wait self.old.frames }
    {
        self.wait = wait;
    }

    // The pool that its top frame asks for.
    fn asked(&self) -> Option<Own>
        ensures { result ≡ asked self.now.frames }
    {
        let top = self.frames.last()?;
        top.asked()
    }

    /// What is to be seen of it.
    pub fn look(&self) -> Look
        ensures { result ≡ seen self.now }
    {
        if let Wait::NotLive(_) = self.wait {
            return Look::Ended;
        }
        if let Some(own) = self.asked() {
            return Look::Asks(own.pool);
        }
        match self.wait {
            Wait::Nothing if self.frames.is_empty() => Look::Ended,
            Wait::Nothing | Wait::First(_) | Wait::NotLive(_) => Look::Runs,
            Wait::Message(message) => Look::Message(message),
            Wait::Guard => Look::Guard,
        }
    }

    /// The Message that it waits to send, or will send once it is live.
    pub fn first_message(&self) -> Option<u32>
        ensures { result ≡ first_of self.now.wait }
    {
        match self.wait {
            Wait::First(message) | Wait::NotLive(message) => Some(message),
            Wait::Nothing | Wait::Message(_) | Wait::Guard => None,
        }
    }
}

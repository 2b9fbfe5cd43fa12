// The frames of all activities.
ghost use Rattle.std.specs.Prelude.{◌≡◌, ◌+◌, ◌-◌, ◌<◌, ◌≤◌, ◌++◌, ◌↔◌, [], ◌∷◌, length, drop, slice_get, IfOk, IsTrue, OnErr, OnOk, Ok, Err};
ghost use Rattle.std.specs.Option.{option_copied, option_copied_mut};
ghost use Rattle.std.specs.Borrow.{sem};
ghost use Rattle.rx_frames.specs.Frames.{with_answer};
ghost use Rattle.rx_frames.specs.Activities.{IsBegun, ShareAll, activity_at, first_message, frames_at, seen_of, waiting, with_change_at, with_frames, with_top_changed, with_value_below};

use crate::activity::{Activity, Look, Wait};
use crate::frame::Frame;
use rx_tree::{Derived, OutOfMemory, Steps, Value};
use std::alloc::Global;
use std::marker::Model;
use std::sync::ledger::Ledger;

/// Why a frame isn't pushed.
#[derive(Clone, Copy, Debug, PartialEq, Eq)]
pub enum PushRefused {
    /// The activity has 1,000 frames.
    Deep,
    OutOfMemory,
}

/// Why an activity isn't begun.
#[derive(Clone, Copy, Debug, PartialEq, Eq)]
pub enum BeginRefused {
    /// There are 65,536 activities.
    Full,
    OutOfMemory,
}

/// The frames of all activities, and what each waits for. Activities have numbers from 1, in the order in which they were
/// begun. Contracts see the list of them.
pub struct Stacks {
    alloc: Global,
    activities: Vec<Activity>,
}

impl Drop for Stacks {
    fn drop(self) {
        let Stacks {
            alloc: _,
            activities: _,
        } = self;
    }
}

impl Model for Stacks {
    ghost use Rattle.std.specs.Prelude.{List, ◌≤◌, length};
    ghost use Rattle.rx_frames.specs.declared.position.Position.{Position};
    ghost use Rattle.rx_frames.specs.Activities.{Activity as Recorded};

    ghost Value = { List (Recorded Position) };

    ghost view = { λ s. s.activities.items };

    ghost invariant = { λ s. length s.activities.items ≤ 65536 };
}

impl Stacks {
    ghost use Rattle.rx_frames.specs.StackLends.{lends_frame, lends_frame_there};

    /// The most activities.
    pub const MOST: usize = 65_536;

    /// The most frames of an activity.
    pub const DEEPEST: usize = Activity::MOST;

    /// No activity was begun.
    pub fn new(alloc: Global) -> Stacks
        ensures { result ≡ [] }
    {
        Stacks {
            alloc,
            activities: Vec::new(alloc),
        }
    }

    /// How many activities were begun.
    pub fn count(&self) -> u32
        ensures { result ≡ length self.now }
    {
        self.activities.len() as u32
    }

    /// Whether 65,536 activities were begun.
    pub fn is_full(&self) -> bool
        ensures full { IsTrue result ↔ (length self.now ≡ Self.MOST) }
    {
        self.activities.len() == Self::MOST
    }

    /// Begins an activity, and tells its number. It has no frame, and waits for nothing. It is `Full` where 65,536 were begun.
    pub fn begin(&mut self) -> Result<u32, BeginRefused>
        ensures number { IfOk result (λ number. number ≡ length self.old + 1) }
        ensures ok { OnOk result (self.new ≡ self.old ++ waiting Wait.Nothing [] ∷ []) }
        ensures full { (result ≡ Err BeginRefused.Full) ↔ (length self.old ≡ Self.MOST) }
        ensures err { OnErr result (self.new ≡ self.old) }
    {
        if self.is_full() {
            return Err(BeginRefused::Full);
        }
        match self.activities.push(Activity::new(self.alloc)) {
            Ok(_) => Ok(self.activities.len() as u32),
            Err(_) => Err(BeginRefused::OutOfMemory),
        }
    }

    /// How many frames an activity has.
    pub fn height(&self, a: u32) -> u32
        requires begun { IsBegun self.now a }
        ensures height { result ≡ length (frames_at self.now a) }
    {
        self.activities[a as usize - 1].height()
    }

    /// Puts a frame on top of an activity's. It is `Deep` where there are 1,000.
    pub fn push(&mut self, a: u32, frame: Frame) -> Result<(), PushRefused>
        requires begun { IsBegun self.old a }
        ensures ok { OnOk result
            (self.new ≡ with_change_at self.old a (with_frames (frame ∷ frames_at self.old a))) }
        ensures deep { (result ≡ Err PushRefused.Deep) ↔ (length (frames_at self.old a) ≡ Self.DEEPEST) }
        ensures err { OnErr result (self.new ≡ self.old) }
    {
        let activity = &mut self.activities[a as usize - 1];
        if activity.is_deep() {
            return Err(PushRefused::Deep);
        }
        match activity.push(frame) {
            Ok(()) => Ok(()),
            Err(OutOfMemory) => Err(PushRefused::OutOfMemory),
        }
    }

    /// Takes the top frame of an activity away, if it has one.
    pub fn pop(&mut self, a: u32) -> Option<Frame>
        requires begun { IsBegun self.old a }
        ensures frame { result ≡ slice_get (frames_at self.old a) 0 }
        ensures rest { self.new ≡ with_change_at self.old a (with_frames (drop 1 (frames_at self.old a))) }
    {
        self.activities[a as usize - 1].pop()
    }

    /// The top frame of an activity, if it has one.
    pub fn top(&self, a: u32) -> Option<&Frame>
        requires begun { IsBegun self.now a }
        ensures frame { option_copied result ≡ slice_get (frames_at self.now a) 0 }
    {
        self.lower(a, 0)
    }

    /// The top frame of an activity, if it has one, to be changed.
    pub fn top_mut(&mut self, a: u32) -> Option<&mut Frame>
        requires begun { IsBegun self.old a }
        ensures* writes_back { sem 𝓛 (lends_frame self.entry a 0 result) }
        ensures frame { option_copied_mut result ≡ slice_get (frames_at self.old a) 0 }
    {
        self.lower_mut(a, 0)
    }

    /// The frame that stands so many beneath the top of an activity, if there is one.
    pub fn lower(&self, a: u32, down: u32) -> Option<&Frame>
        requires begun { IsBegun self.now a }
        ensures frame { option_copied result ≡ slice_get (frames_at self.now a) down }
    {
        self.activities[a as usize - 1].frame(down)
    }

    /// The frame that stands so many beneath the top of an activity, if there is one, to be changed.
    pub fn lower_mut(&mut self, a: u32, down: u32) -> Option<&mut Frame>
        requires begun { IsBegun self.old a }
        ensures* writes_back { sem 𝓛 (lends_frame self.entry a down result) }
        ensures frame { option_copied_mut result ≡ slice_get (frames_at self.old a) down }
    {
        if down >= self.height(a) {
            return None;
        }
        Some(self.frame_mut(a, down))
    }

    fn frame_mut(&mut self, a: u32, down: u32) -> &mut Frame
        requires begun { IsBegun self.old a }
        requires within { down < length (frames_at self.old a) }
        ensures* writes_back { sem 𝓛 (lends_frame_there self.entry a down result) }
        ensures frame { slice_get (frames_at self.old a) down ≡ Some result.now }
    {
        self.activities[a as usize - 1].frame_mut(down)
    }

    /// Gives a name a value or none in the variables of the frame that stands so many beneath the top of an activity, if there
    /// is one, wherever the name lives; or wants memory.
    pub fn set_value(
        &mut self,
        a: u32,
        down: u32,
        name: &Derived,
        value: Option<Value>,
    ) -> Result<(), OutOfMemory>
        requires begun { IsBegun self.old a }
        ensures ok { OnOk result (self.new ≡ with_change_at self.old a (with_value_below down name.now value)) }
        ensures err { OnErr result (self.new ≡ self.old) }
    {
        self.activities[a as usize - 1].set_value(down, name, value)
    }

    /// The answer of the call that the top frame of an activity awaits, if it has one, has come: a value or none.
    pub fn answer(&mut self, a: u32, answer: Option<Value>)
        requires begun { IsBegun self.old a }
        ensures { self.new ≡ with_change_at self.old a (with_top_changed (with_answer answer)) }
    {
        self.activities[a as usize - 1].answer(answer);
    }

    /// A number of frames, from the one that stands so many beneath the top of an activity on, that share all variables of
    /// their callers, so that no name lives in them. It takes a time that doesn't grow with it.
    pub fn shared(&self, a: u32, down: u32) -> u32
        requires begun { IsBegun self.now a }
        ensures within { result ≤ length (frames_at self.now a) - down }
        ensures shared { ShareAll (drop down (frames_at self.now a)) result }
    {
        self.activities[a as usize - 1].shared(down)
    }

    /// An activity waits so.
    pub fn wait(&mut self, a: u32, wait: Wait)
        requires begun { IsBegun self.old a }
        ensures { self.new ≡ with_change_at self.old a (λ activity. waiting wait activity.frames) }
    {
        self.activities[a as usize - 1].wait(wait);
    }

    /// What is to be seen of an activity. It counts that it was called.
    pub fn look<L: Ledger>(&self, a: u32, steps: &mut Steps<L>) -> Look
        requires begun { IsBegun self.now a }
        ensures seen { result ≡ seen_of (activity_at self.now a) }
        ensures counted { steps.new ≡ steps.old + 1 }
    {
        steps.tick();
        self.activities[a as usize - 1].look()
    }

    /// The Message that an activity waits to send, or will send once it is live.
    pub fn first_message(&self, a: u32) -> Option<u32>
        requires begun { IsBegun self.now a }
        ensures message { result ≡ first_message (activity_at self.now a) }
    {
        self.activities[a as usize - 1].first_message()
    }
}

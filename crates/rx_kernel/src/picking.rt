// Which activities may take a step, and which is next in a circle.
ghost use Rattle.std.specs.Prelude.{◌≡◌, ◌+◌, ◌==◌, ◌&&◌, drop, not, slice_get};
ghost use Rattle.rx_frames.specs.Activities.{IsBegun, frames_at};
ghost use Rattle.rx_machine.specs.Enabled.{enabled, holder_from, holds, least_from, robin};
ghost use Rattle.rx_kernel.specs.Picking.{may_step_by, reserves, reserves_if};
ghost use Rattle.rx_kernel.specs.States.{world_of};

use crate::looking::look;
use crate::state::State;
use rx_frames::{Frame, Look, Stacks};

// Whether a frame reserves the pool of a number.
fn reserves(frame: &Frame, pool: u32) -> bool
    ensures { result ≡ reserves pool frame.now }
{
    if !frame.reserves() {
        return false;
    }
    match frame.own() {
        Some(own) => pool == own.pool,
        None => false,
    }
}

// Whether the frame that stands so many beneath the top of an activity reserves the pool of a number.
fn reserves_at(stacks: &Stacks, a: u32, down: u32, pool: u32) -> bool
    requires { IsBegun stacks.now a }
    ensures { result ≡ reserves_if pool (slice_get (frames_at stacks.now a) down) }
{
    match stacks.lower(a, down) {
        Some(frame) => reserves(frame, pool),
        None => false,
    }
}

impl State {
    // Whether an activity holds a pool: one of its frames reserves it.
    fn holds(&self, a: u32, pool: u32) -> bool
        requires begun { IsBegun self.now.parts.stacks a }
        ensures { result ≡ holds (frames_at (world_of self.now).activities a) pool }
    {
        for down in 0..self.parts.stacks.height(a) {
            if reserves_at(&self.parts.stacks, a, down, pool) {
                return true;
            }
        }
        false
    }

    // Whether an activity is another than `a` and holds a pool.
    fn is_other_holder(&self, number: u32, a: u32, pool: u32) -> bool
        requires begun { IsBegun self.now.parts.stacks number }
        ensures { result ≡ not (number == a) && holds (frames_at (world_of self.now).activities number) pool }
    {
        number != a && self.holds(number, pool)
    }

    /// The first other activity than this one that holds a pool.
    pub(crate) fn holder(&self, a: u32, pool: u32) -> Option<u32>
        ensures { result ≡ holder_from 1 (world_of self.now).activities a pool }
    {
        for place in 0..self.parts.stacks.count() {
            let number = place + 1;
            if self.is_other_holder(number, a, pool) {
                return Some(number);
            }
        }
        None
    }

    // Whether an activity may take a step, of which this is seen.
    fn may_step_by(&self, a: u32, seen: Look) -> bool
        ensures { result ≡ may_step_by (world_of self.now) a seen }
    {
        match seen {
            Look::Ended => false,
            Look::Asks(pool) => self.holder(a, pool).is_none(),
            Look::Runs | Look::Message(_) | Look::Guard => true,
        }
    }

    // Whether an activity may take a step.
    fn may_step(&self, a: u32) -> bool
        requires begun { IsBegun self.now.parts.stacks a }
        ensures { result ≡ enabled (world_of self.now) a }
    {
        self.may_step_by(a, look(&self.parts.stacks, a))
    }

    /// The least number of an activity that may take a step, behind so many.
    pub(crate) fn least_behind(&self, last: u32) -> Option<u32>
        ensures { result ≡ least_from (world_of self.now) (last + 1) (drop last (world_of self.now).activities) }
    {
        for place in last..self.parts.stacks.count() {
            let number = place + 1;
            if self.may_step(number) {
                return Some(number);
            }
        }
        None
    }

    /// Whether the activity of this number may take a step. No activity has the number 0. It takes no memory.
    pub fn is_enabled(&self, a: u32) -> bool
        ensures { result ≡ enabled (world_of self.now) a }
    {
        if a == 0 {
            return false;
        }
        if a > self.parts.stacks.count() {
            return false;
        }
        self.may_step(a)
    }

    /// The next enabled activity in a circle, after the one of this number; 0 where none was picked yet. It takes no memory.
    pub fn next_enabled(&self, after: u32) -> Option<u32>
        ensures { result ≡ robin (world_of self.now) after }
    {
        let above = self.least_behind(after);
        match above {
            Some(number) => Some(number),
            None => self.least_behind(0),
        }
    }
}

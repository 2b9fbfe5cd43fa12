// How a run stands: whether it goes on, or how it has ended.
ghost use Rattle.std.specs.Prelude.{◌≡◌};
ghost use Rattle.rx_frames.specs.Activities.{IsBegun, activity_at};
ghost use Rattle.rx_machine.specs.End.{any_live, end, end_among};
ghost use Rattle.rx_machine.specs.World.{World};
ghost use Rattle.rx_kernel.specs.Picking.{is_live_if};
ghost use Rattle.rx_kernel.specs.States.{world_of};

use crate::looking::look;
use crate::state::State;
use rx_frames::Look;
use rx_machine::End;

// How a world stands, by whether an activity is live, the least that is enabled, and the steps.
fn end_of(live: bool, least: Option<u32>, steps: u64, budget: u64) -> End
    ensures { (w : World) → w.steps ≡ steps → w.budget ≡ budget → result ≡ end_among w live least }
{
    if !live {
        return End::Finished;
    }
    match least {
        None => End::Stuck,
        Some(_) => {
            if budget <= steps {
                End::Spent
            } else {
                End::Going
            }
        }
    }
}

impl State {
    // Whether an activity is live.
    fn is_live(&self, a: u32) -> bool
        requires begun { IsBegun self.now.parts.stacks a }
        ensures { result ≡ is_live_if (activity_at (world_of self.now).activities a) }
    {
        match look(&self.parts.stacks, a) {
            Look::Ended => false,
            Look::Runs | Look::Asks(_) | Look::Message(_) | Look::Guard => true,
        }
    }

    // Whether some activity is live.
    fn is_any_live(&self) -> bool
        ensures { result ≡ any_live (world_of self.now).activities }
    {
        for place in 0..self.parts.stacks.count() {
            if self.is_live(place + 1) {
                return true;
            }
        }
        false
    }

    /// Whether the run goes on, or how it has ended. It takes no memory.
    pub fn end(&self) -> End
        ensures { result ≡ end (world_of self.now) }
    {
        let live = self.is_any_live();
        let least = self.least_behind(0);
        end_of(live, least, self.steps, self.budget)
    }
}

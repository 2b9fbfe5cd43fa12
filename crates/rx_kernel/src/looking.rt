// What is to be seen of activities between steps.
ghost use Rattle.std.specs.Prelude.{◌≡◌, ◌<◌};
ghost use Rattle.rx_frames.specs.Activities.{IsBegun, activity_at, seen_of};

use rx_frames::{Look, Stacks};
use rx_tree::Steps;
use std::marker::Brand;
use std::sync::ledger::{Blank, Ledger};

fn look_with<L: Ledger>(stacks: &Stacks, a: u32, blank: Blank) -> Look
    requires begun { IsBegun stacks.now a }
    requires name { blank.name ≡ L.name }
    requires parts { blank.parts ≡ L.parts }
    requires some { 0 < blank.parts }
    ensures { result ≡ seen_of (activity_at stacks.now a) }
{
    stacks.look(a, &mut Steps::<L>::new(blank))
}

/// What is to be seen of an activity between steps, with a count of looks that nobody reads. It takes no memory.
pub(crate) fn look(stacks: &Stacks, a: u32) -> Look
    requires { IsBegun stacks.now a }
    ensures { result ≡ seen_of (activity_at stacks.now a) }
{
    look_with::<Brand>(stacks, a, Blank::new(1))
}

// Where a name lives.
ghost use Rattle.std.specs.Prelude.{◌≡◌, ◌<◌, length, slice_get, Some};
ghost use Rattle.std.specs.Option.{option_map};
ghost use Rattle.rx_vars.specs.Variables.{home as place_of};
ghost use Rattle.rx_frames.specs.Activities.{IsBegun, frames_at};
ghost use Rattle.rx_names.specs.Homes.{home, variables_at};

use rx_frames::Stacks;
use rx_tree::{Derived, Place};

/// Where a name lives.
#[derive(Clone, Copy, Debug, PartialEq, Eq)]
pub enum Home {
    /// In the frame that stands so many beneath the top.
    Frame(u32),
    /// In the pool of this number.
    Pool(u32),
}

// The place of a name in the frame that stands so many beneath the top.
fn place(stacks: &Stacks, a: u32, down: u32, name: &Derived) -> Place
    requires begun { IsBegun stacks.now a }
    requires within { down < length (frames_at stacks.now a) }
    ensures { option_map (λ frame. place_of frame.variables name.now) (slice_get (frames_at stacks.now a) down) ≡ Some result }
{
    let frame = stacks.lower(a, down).unwrap();
    frame.variables().place(name)
}

/// Where a name of an activity's top frame lives.
pub fn home_of(stacks: &Stacks, a: u32, name: &Derived) -> Home
    requires begun { IsBegun stacks.now a }
    ensures { result ≡ home (variables_at stacks.now a) name.now }
{
    let height = stacks.height(a);
    let mut down = 0;
    while down < height {
        match place(stacks, a, down, name) {
            Place::Here => return Home::Frame(down),
            Place::Pool(pool) => return Home::Pool(pool),
            Place::Below => {}
        }
        down += 1;
        down += stacks.shared(a, down);
    }
    Home::Frame(height)
}

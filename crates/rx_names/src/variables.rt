// Values of names where they live.
ghost use Rattle.std.specs.Prelude.{◌≡◌, IfOk, OnErr, OnOk, Some};
ghost use Rattle.std.specs.Option.{option_copied};
ghost use Rattle.rx_pools.specs.Pools.{IsGiven, cell_in, watched_name, with_value};
ghost use Rattle.rx_frames.specs.Activities.{IsBegun};
ghost use Rattle.rx_names.specs.Homes.{IsCellGiven, activities_with, cell_of, home, pools_with, value, variables_at};

use crate::home::{Home, home_of};
use rx_frames::Stacks;
use rx_pools::Pools;
use rx_tree::{Derived, OutOfMemory, Value};

/// The value that a name of an activity's top frame has where it lives, if it has one: its own, or else for a compound its
/// stem's.
pub fn value<'s>(stacks: &'s Stacks, pools: &'s Pools, a: u32, name: &Derived) -> Option<&'s Value>
    requires begun { IsBegun stacks.now a }
    ensures value { option_copied result ≡ value (variables_at stacks.now a) pools.now name.now }
{
    match home_of(stacks, a, name) {
        Home::Frame(down) => stacks.lower(a, down)?.variables().get(name),
        Home::Pool(pool) if pool < pools.count() => pools.get(pool, name),
        Home::Pool(_) => None,
    }
}

// Gives a name of a pool a value or none.
fn change(
    pools: &mut Pools,
    pool: u32,
    name: &Derived,
    value: Option<Value>,
) -> Result<u64, OutOfMemory>
    requires given { IsGiven pools.old pool (watched_name name.now) }
    ensures cell { IfOk result (λ cell. Some cell ≡ cell_in pools.old pool (watched_name name.now)) }
    ensures ok { OnOk result (pools.new ≡ with_value pools.old pool name.now value) }
    ensures err { OnErr result (pools.new ≡ pools.old) }
{
    match value {
        Some(value) => pools.set(pool, name, value),
        None => pools.drop_name(pool, name),
    }
}

/// Gives a name of an activity's top frame a value or none where it lives, a stem with all its compounds, or wants memory. It
/// tells the cell that was touched where the name lives in a pool; there the name's cell was given out, and was changed less
/// than 2 ^ 63 times.
pub fn set(
    stacks: &mut Stacks,
    pools: &mut Pools,
    a: u32,
    name: &Derived,
    value: Option<Value>,
) -> Result<Option<u64>, OutOfMemory>
    requires begun { IsBegun stacks.old a }
    requires given { IsCellGiven (variables_at stacks.old a) pools.old name.now }
    ensures cell { IfOk result
        (λ cell. cell ≡ cell_of pools.old (home (variables_at stacks.old a) name.now) name.now) }
    ensures frames { OnOk result
        (stacks.new ≡ activities_with stacks.old a (home (variables_at stacks.old a) name.now) name.now value) }
    ensures pools { OnOk result
        (pools.new ≡ pools_with pools.old (home (variables_at stacks.old a) name.now) name.now value) }
    ensures frames_kept { OnErr result (stacks.new ≡ stacks.old) }
    ensures pools_kept { OnErr result (pools.new ≡ pools.old) }
{
    match home_of(stacks, a, name) {
        Home::Frame(down) => {
            stacks.set_value(a, down, name, value)?;
            Ok(None)
        }
        Home::Pool(pool) => Ok(Some(change(pools, pool, name, value)?)),
    }
}

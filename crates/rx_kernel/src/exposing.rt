// Names that are exposed.
ghost use Rattle.std.specs.Prelude.{◌≡◌, [], ◌∷◌, OnErr, OnOk};
ghost use Rattle.rx_frames.specs.Activities.{IsBegun, with_change_at, with_top_changed};
ghost use Rattle.rx_machine.specs.Assigning.{expose_from};
ghost use Rattle.rx_kernel.specs.Exposing.{exposing};
ghost use Rattle.rx_kernel.specs.States.{world_of};
ghost use Rattle.rx_kernel.specs.Steps.{Comes, after_assigning};

use crate::state::State;
use rx_frames::Stacks;
use rx_names::{NamesRefused, derive};
use rx_pools::watched_name;
use rx_tree::{Derived, Name, OutOfMemory, Place};
use std::alloc::Global;

// A name of an activity's top frame lives in a pool, or memory is wanted.
fn expose_on_top(stacks: &mut Stacks, a: u32, name: &Derived, pool: u32) -> Result<(), OutOfMemory>
    requires begun { IsBegun stacks.old a }
    ensures ok { OnOk result (stacks.new ≡ with_change_at stacks.old a (with_top_changed (exposing name.now pool))) }
    ensures err { OnErr result (stacks.new ≡ stacks.old) }
{
    match stacks.top_mut(a) {
        Some(frame) => frame.variables_mut().expose(name, Place::Pool(pool)),
        None => Ok(()),
    }
}

impl State {
    // A name of an activity's top frame lives in a pool, and has a cell there.
    fn expose(&mut self, alloc: Global, a: u32, pool: u32, name: &Name) -> Result<(), NamesRefused>
        requires begun { IsBegun self.old.parts.stacks a }
        ensures comes { Comes result (world_of self.new) (expose_from (world_of self.old) a pool (name.now ∷ [])) }
        ensures begun { IsBegun self.new.parts.stacks a }
    {
        let name = derive(alloc, &self.parts.stacks, &self.parts.pools, a, name)?;
        // It never comes: the pool of a frame was made before the frame was.
        if pool >= self.parts.pools.count() {
            return Err(NamesRefused::OutOfMemory);
        }
        expose_on_top(&mut self.parts.stacks, a, &name, pool)?;
        self.parts.pools.cell(pool, watched_name(&name))?;
        Ok(())
    }

    // These names live in a pool, in order.
    fn expose_all(
        &mut self,
        alloc: Global,
        a: u32,
        pool: u32,
        names: &[Name],
    ) -> Result<(), NamesRefused>
        requires begun { IsBegun self.old.parts.stacks a }
        ensures comes { Comes result (world_of self.new) (expose_from (world_of self.old) a pool names.now) }
        ensures begun { IsBegun self.new.parts.stacks a }
    {
        for name in names {
            self.expose(alloc, a, pool, name)?;
        }
        Ok(())
    }

    /// These names of an activity's top frame live in a pool, in order, and have cells there. Error 5 is raised at a name that
    /// is too long.
    pub(crate) fn exposes(
        &mut self,
        alloc: Global,
        a: u32,
        line: u32,
        pool: u32,
        names: &[Name],
    ) -> Result<(), OutOfMemory>
        requires begun { IsBegun self.old.parts.stacks a }
        ensures { OnOk result
            (world_of self.new ≡ after_assigning a line (expose_from (world_of self.old) a pool names.now)) }
    {
        let done = self.expose_all(alloc, a, pool, names);
        self.after_assigning(a, line, done)
    }
}

// The installation of classes, one after the other.
ghost use Rattle.std.specs.Prelude.{◌≡◌, [], map, Some, IfErr, IfOk, OnOk};
ghost use Rattle.std.specs.Option.{option_copied};
ghost use Rattle.rx_install.specs.Installation.{IsCaused, IsInstallationOrder};
ghost use Rattle.rx_install.specs.States.{Goes, IsFirst, IsLookedAt, IsOutcome, IsPending, IsSettled, IsSound, SameClasses, Steps, from_place, left_of};

use crate::installed::Installed;
use crate::refused::InstallRefused;
use crate::waiting::{Waiter, Waiting};
use rx_tree::{ClassDef, OutOfMemory};
use sqlite_items::Items;
use std::alloc::Global;
use std::collections::BTreeSet;

// The classes of a package while they are installed.
struct Installation {
    installed: Installed,
    // The classes that are left, each at its place.
    left: Vec<Option<ClassDef>>,
    // The places of those that are left whose superclass and mixins are there.
    ready: BTreeSet<usize>,
    // The others, each with the first name that isn't there.
    waiting: Waiting,
}

impl Drop for Installation {
    fn drop(self) {
        let Installation {
            installed: _,
            left: _,
            ready: _,
            waiting: _,
        } = self;
    }
}

// The classes at their places.
fn all_left(
    alloc: Global,
    mut classes: Items<ClassDef>,
) -> Result<Vec<Option<ClassDef>>, OutOfMemory>
    ensures { IfOk result (λ left. left.items ≡ map Some classes) }
{
    let mut left = Vec::with_capacity(alloc, classes.len())?;
    while let Some(class) = classes.pop() {
        left.push(Some(class))?;
    }
    left.reverse();
    Ok(left)
}

// The first class that is left.
fn first_left(left: &[Option<ClassDef>]) -> Option<&ClassDef>
    ensures { IsFirst (option_copied result) (left_of left.now) }
{
    for place in left {
        if let Some(class) = place {
            return Some(class);
        }
    }
    None
}

impl Installation {
    // Puts a class that is left to those that are ready, or to those that wait for a name.
    fn look_at(&mut self, waiter: Waiter) -> Result<(), OutOfMemory>
        requires { IsPending self.old waiter }
        ensures { OnOk result (IsLookedAt self.old self.new waiter) }
    {
        let class = self.left[waiter.place].as_ref().unwrap();
        match self.installed.first_missing(class, waiter.there) {
            Some((there, name)) => {
                let place = waiter.place;
                self.waiting.add(name.bytes(), Waiter { place, there })?;
            }
            None => {
                self.ready.insert(waiter.place)?;
            }
        }
        Ok(())
    }

    // Looks at these classes, which are all that are still to be looked at.
    fn look_at_all(&mut self, waiters: &[Waiter]) -> Result<(), OutOfMemory>
        requires { IsSound self.old (from_place 0 waiters.now) }
        ensures settled { OnOk result (IsSettled self.new) }
        ensures same { OnOk result (SameClasses self.old self.new) }
    {
        for waiter in waiters {
            self.look_at(*waiter)?;
        }
        Ok(())
    }

    // Installs the next class, if one is ready, and gives those that waited for its name.
    fn install_ready(&mut self) -> Result<Option<Items<Waiter>>, OutOfMemory>
        requires { IsSettled self.old }
        ensures { IfOk result (Steps self.old self.new) }
    {
        let Some(place) = self.ready.pop_first() else {
            return Ok(None);
        };
        let class = self.left[place].take().unwrap();
        let woken = self.waiting.take(class.name.bytes());
        self.installed.push(class)?;
        Ok(Some(woken))
    }

    // Installs the next class, if one is ready, and tells whether there was one.
    fn install_next(&mut self) -> Result<bool, OutOfMemory>
        requires { IsSettled self.old }
        ensures { IfOk result (Goes self.old self.new) }
    {
        let Some(woken) = self.install_ready()? else {
            return Ok(false);
        };
        self.look_at_all(woken.as_slice())?;
        Ok(true)
    }

    // All classes are left, and each was looked at.
    fn begin(alloc: Global, classes: Items<ClassDef>) -> Result<Installation, OutOfMemory>
        ensures settled { IfOk result IsSettled }
        ensures installed { IfOk result (λ state. state.installed ≡ []) }
        ensures left { IfOk result (λ state. left_of state.left.items ≡ classes) }
    {
        let left = all_left(alloc, classes)?;
        let count = left.len();
        let mut state = Installation {
            installed: Installed::new(alloc),
            left,
            ready: BTreeSet::new(alloc),
            waiting: Waiting::new(alloc),
        };
        for place in 0..count {
            state.look_at(Waiter { place, there: 0 })?;
        }
        Ok(state)
    }

    // The classes in their order, where none is left.
    fn finish(self) -> Result<Items<ClassDef>, InstallRefused>
        ensures { IsOutcome self result }
    {
        if let Some(class) = first_left(self.left.as_slice()) {
            return Err(InstallRefused::NoOrder { line: class.line });
        }
        let Installation {
            installed,
            left: _,
            ready: _,
            waiting: _,
        } = self;
        Ok(installed.into_classes())
    }
}

/// The classes of a package in their installation order: the next one is always the first in directive order, of those that
/// aren't installed, whose superclass and mixins are there. The native classes are there from the beginning.
///
/// `classes` stand in directive order. They are moved, not copied. Where there is no such order, since classes are in a loop or
/// name one that is missing, it refuses with the line of the first class that can't be installed; else only for want of memory.
/// The time is that of two look-ups for each name.
pub fn installation_order(
    alloc: Global,
    classes: Items<ClassDef>,
) -> Result<Items<ClassDef>, InstallRefused>
    ensures order { IfOk result (IsInstallationOrder classes) }
    ensures refused { IfErr result (IsCaused classes) }
{
    let mut state = Installation::begin(alloc, classes)?;
    while state.install_next()? {}
    state.finish()
}

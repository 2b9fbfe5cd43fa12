// The search order of a class.
ghost use Rattle.std.specs.Prelude.{◌≡◌, ◌++◌, IfOk, OnOk, reverse};
ghost use Rattle.rx_classes.specs.Classes.{IsClass, superclasses};
ghost use Rattle.rx_classes.specs.Orders.{order};

use super::ClassTable;
use indexmap::IndexSet;
use rx_tree::OutOfMemory;

/// What is left to do of the way through the superclasses of a class.
#[derive(Clone, Copy)]
pub enum Visit {
    /// To go through the superclasses of a class, and then to leave it.
    Enter(u32),
    /// To put a class in front of those that were left before.
    Leave(u32),
}

impl ClassTable {
    ghost use Rattle.rx_classes.specs.Visits.{entering};

    // Leaves a class to be left, and before that its superclasses to be entered, the last one first.
    fn enter(&self, class: u32, left: &mut Vec<Visit>) -> Result<(), OutOfMemory>
        ensures { OnOk result (left.new.items ≡ left.old.items ++ entering class (superclasses self.now class)) }
    {
        left.push(Visit::Leave(class))?;
        for superclass in self.superclasses(class) {
            left.push(Visit::Enter(*superclass))?;
        }
        Ok(())
    }

    // The classes of a class's order, the last first.
    fn reached(&self, class: u32) -> Result<IndexSet<u32>, OutOfMemory>
        requires { IsClass self.now class }
        ensures { IfOk result (λ reached. reverse reached.keys ≡ order self.now class) }
    {
        let mut reached = IndexSet::new(self.alloc);
        let mut left = Vec::new(self.alloc);
        left.push(Visit::Enter(class))?;
        while let Some(visit) = left.pop() {
            match visit {
                Visit::Enter(class) => {
                    if !reached.contains(&class) {
                        self.enter(class, &mut left)?;
                    }
                }
                Visit::Leave(class) => {
                    reached.insert(class)?;
                }
            }
        }
        Ok(reached)
    }

    /// The search order of a class, or want of memory: the class, and then the orders of its superclasses from left to right,
    /// where a class that occurs twice stays at its last place. It takes a time in proportion to its length and to the
    /// number of superclasses that the classes in it have.
    pub fn order(&self, class: u32) -> Result<Vec<u32>, OutOfMemory>
        requires { IsClass self.now class }
        ensures order { IfOk result (λ found. found.items ≡ order self.now class) }
    {
        let reached = self.reached(class)?;
        let mut order = Vec::from_slice(self.alloc, reached.as_slice())?;
        order.reverse();
        Ok(order)
    }
}

// Lists that several owners share.
ghost use Rattle.std.specs.Prelude.{◌≡◌, IfOk};

use crate::text::OutOfMemory;
use sqlite_items::Items;
use std::alloc::Global;
use std::marker::Model;
use std::sync::Arc;

/// A list that several owners share and none changes. Contracts see its items.
pub struct Shared<T> {
    items: Arc<Items<T>>,
}

impl<T: Drop> Drop for Shared<T> {
    fn drop(self) {
        let Shared { items: _ } = self;
    }
}

impl<T> Model for Shared<T> {
    ghost use Rattle.std.specs.Prelude.{List};
    ghost use Rattle.std.specs.Arc.{arc_value};
    ghost use Rattle.std.specs.Coded.{coded_list};

    ghost Value = { List T };

    ghost coded = { coded_list T.code };

    ghost view = { λ s. arc_value s.items };
}

impl<T: Drop> Shared<T> {
    /// The list with one owner, or want of memory.
    pub fn new(alloc: Global, items: Items<T>) -> Result<Shared<T>, OutOfMemory>
        ensures items { IfOk result (λ shared. shared ≡ items) }
    {
        let items = Arc::new(alloc, items)?;
        Ok(Shared { items })
    }

    /// A further owner of the same list, or want of memory.
    pub fn share(&self) -> Result<Shared<T>, OutOfMemory>
        ensures same { IfOk result (λ shared. shared ≡ self.now) }
    {
        let items = Arc::try_clone(&self.items)?;
        Ok(Shared { items })
    }

    /// The items.
    pub fn as_slice(&self) -> &[T]
        ensures { result.now ≡ self.now }
    {
        self.items.as_slice()
    }
}

// What DO and LOOP begin with.
ghost use Rattle.std.specs.Prelude.{◌≡◌, IfOk};

use rx_tree::{Expr, Name, OutOfMemory};
use sqlite_items::Items;
use std::alloc::Global;

/// What bounds a controlled loop.
pub enum Bound {
    /// `TO e`: the last value.
    To(Expr),
    /// `BY e`: what is added at each turn.
    By(Expr),
    /// `FOR e`: how many turns there are at most.
    For(Expr),
}

impl Drop for Bound {
    fn drop(self) {
        match self {
            Bound::To(_) => {}
            Bound::By(_) => {}
            Bound::For(_) => {}
        }
    }
}

impl Bound {
    /// An equal bound, or want of memory.
    pub fn share(&self, alloc: Global) -> Result<Bound, OutOfMemory>
        ensures same { IfOk result (λ bound. bound ≡ self.now) }
    {
        match self {
            Bound::To(expr) => Ok(Bound::To(expr.share(alloc)?)),
            Bound::By(expr) => Ok(Bound::By(expr.share(alloc)?)),
            Bound::For(expr) => Ok(Bound::For(expr.share(alloc)?)),
        }
    }

    /// Equal bounds, or want of memory.
    pub fn share_all(alloc: Global, bounds: &[Bound]) -> Result<Items<Bound>, OutOfMemory>
        ensures same { IfOk result (λ shared. shared ≡ bounds.now) }
    {
        let mut shared = Items::new(alloc);
        for bound in bounds {
            let bound = bound.share(alloc)?;
            shared.push(bound)?;
        }
        Ok(shared)
    }
}

/// What repeats a loop.
pub enum Header {
    /// Nothing ends it.
    Forever,
    /// It has so many turns.
    Times(Expr),
    /// A variable runs from a first value, within the bounds in the written order.
    Counts(Name, Expr, Items<Bound>),
    /// A variable takes the items of a collection.
    Over(Name, Expr),
}

impl Drop for Header {
    fn drop(self) {
        match self {
            Header::Forever => {}
            Header::Times(_) => {}
            Header::Counts(_, _, _) => {}
            Header::Over(_, _) => {}
        }
    }
}

impl Header {
    /// An equal header, or want of memory.
    pub fn share(&self, alloc: Global) -> Result<Header, OutOfMemory>
        ensures same { IfOk result (λ header. header ≡ self.now) }
    {
        match self {
            Header::Forever => Ok(Header::Forever),
            Header::Times(expr) => Ok(Header::Times(expr.share(alloc)?)),
            Header::Counts(name, first, bounds) => {
                let name = name.share(alloc)?;
                let first = first.share(alloc)?;
                let bounds = Bound::share_all(alloc, bounds.as_slice())?;
                Ok(Header::Counts(name, first, bounds))
            }
            Header::Over(name, expr) => {
                let name = name.share(alloc)?;
                Ok(Header::Over(name, expr.share(alloc)?))
            }
        }
    }
}

/// What is tested at each turn of a loop.
pub enum Test {
    /// Nothing.
    Never,
    /// `WHILE e`, before the turn.
    While(Expr),
    /// `UNTIL e`, behind the turn.
    Until(Expr),
}

impl Drop for Test {
    fn drop(self) {
        match self {
            Test::Never => {}
            Test::While(_) => {}
            Test::Until(_) => {}
        }
    }
}

impl Test {
    /// An equal test, or want of memory.
    pub fn share(&self, alloc: Global) -> Result<Test, OutOfMemory>
        ensures same { IfOk result (λ test. test ≡ self.now) }
    {
        match self {
            Test::Never => Ok(Test::Never),
            Test::While(expr) => Ok(Test::While(expr.share(alloc)?)),
            Test::Until(expr) => Ok(Test::Until(expr.share(alloc)?)),
        }
    }
}

// The names of variables, as they are written and once their tails are known, and the places where they live.
ghost use Rattle.std.specs.Prelude.{◌≡◌, IfOk};

use crate::text::{OutOfMemory, Text};
use sqlite_items::Items;
use std::alloc::Global;

/// A part of the tail of a compound symbol, between two periods.
#[derive(Drop)]
pub enum Part {
    /// It stands for itself.
    Fixed(Text),
    /// It names a simple variable, whose value takes its place.
    Of(Text),
}

impl Part {
    /// An equal part, or want of memory.
    pub fn share(&self) -> Result<Part, OutOfMemory>
        ensures same { IfOk result (λ part. part ≡ self.now) }
    {
        match self {
            Part::Fixed(text) => Ok(Part::Fixed(text.share()?)),
            Part::Of(name) => Ok(Part::Of(name.share()?)),
        }
    }

    /// Equal parts, or want of memory.
    pub fn share_all(alloc: Global, parts: &[Part]) -> Result<Items<Part>, OutOfMemory>
        ensures same { IfOk result (λ shared. shared ≡ parts.now) }
    {
        let mut shared = Items::new(alloc);
        for part in parts {
            shared.push(part.share()?)?;
        }
        Ok(shared)
    }
}

/// A variable's name as it is written. Letters are in upper case.
#[derive(Drop)]
pub enum Name {
    /// A simple variable.
    Simple(Text),
    /// A stem, with its period.
    Stem(Text),
    /// A compound variable: its stem with the period, and the parts of its tail.
    Compound(Text, Items<Part>),
}

impl Name {
    /// An equal name, or want of memory.
    pub fn share(&self, alloc: Global) -> Result<Name, OutOfMemory>
        ensures same { IfOk result (λ name. name ≡ self.now) }
    {
        match self {
            Name::Simple(name) => Ok(Name::Simple(name.share()?)),
            Name::Stem(stem) => Ok(Name::Stem(stem.share()?)),
            Name::Compound(stem, tail) => {
                let stem = stem.share()?;
                Ok(Name::Compound(stem, Part::share_all(alloc, tail.as_slice())?))
            }
        }
    }
}

/// A variable's name whose tail parts are replaced by their values. Letters are in upper case.
#[derive(Drop)]
pub enum Derived {
    /// A simple variable.
    Simple(Text),
    /// A stem, with its period.
    Stem(Text),
    /// A compound variable: its stem, and its tail.
    Compound(Text, Text),
}

/// Where a frame's variable lives.
#[derive(Clone, Copy, Debug, PartialEq, Eq)]
pub enum Place {
    /// In the frame.
    Here,
    /// In the frame beneath, its caller's.
    Below,
    /// In a pool of an object and a scope, by the pool's number from 0.
    Pool(u32),
}

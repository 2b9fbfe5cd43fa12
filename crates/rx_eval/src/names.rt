// Names, each with a number.
ghost use Rattle.std.specs.Prelude.{◌≡◌, [], ◌∷◌, Some, IfOk, IfSome, OnOk};
ghost use Rattle.std.specs.Bool.{OnTrue};
ghost use Rattle.rx_tree.specs.declared.name.Name.TheVariants.{Simple};
ghost use Rattle.rx_eval.specs.Names.{class_names, tail_names, tail_of, with_tail};
ghost use Rattle.rx_eval.specs.Numbers.{AreNumbers, IsNumber, Keeps, NumbersMore};

use crate::reading::is_environment;
use rx_tree::{Name, OutOfMemory, Part, Text};
use rx_vars::Table;
use sqlite_items::Items;
use std::alloc::Global;
use std::marker::Model;

/// Names. The number of one is its place among them. Contracts see them in their order.
pub(crate) struct Names {
    alloc: Global,
    names: Items<Name>,
    /// The number of a name under the bytes with which it is written.
    numbers: Table<usize>,
}

impl Drop for Names {
    fn drop(self) {
        let Names {
            alloc: _,
            names: _,
            numbers: _,
        } = self;
    }
}

impl Model for Names {
    ghost use Rattle.std.specs.Prelude.{List};
    ghost use Rattle.rx_tree.specs.declared.name.Name.{Name};

    ghost Value = { List Name };

    ghost view = { λ n. n.names };
}

fn is_same_part(a: &Part, b: &Part) -> bool
    ensures { OnTrue result (a.now ≡ b.now) }
{
    match (a, b) {
        (Part::Fixed(a), Part::Fixed(b)) | (Part::Of(a), Part::Of(b)) => a.bytes() == b.bytes(),
        _ => false,
    }
}

fn are_same_parts(a: &[Part], b: &[Part]) -> bool
    ensures { OnTrue result (a.now ≡ b.now) }
{
    let mut left = a;
    let mut right = b;
    loop {
        match (left, right) {
            ([], []) => return true,
            ([first, rest @ ..], [other, others @ ..]) => {
                if !is_same_part(first, other) {
                    return false;
                }
                left = rest;
                right = others;
            }
            _ => return false,
        }
    }
}

fn is_same(a: &Name, b: &Name) -> bool
    ensures { OnTrue result (a.now ≡ b.now) }
{
    match (a, b) {
        (Name::Simple(a), Name::Simple(b)) | (Name::Stem(a), Name::Stem(b)) => {
            a.bytes() == b.bytes()
        }
        (Name::Compound(a, parts), Name::Compound(b, others)) => {
            a.bytes() == b.bytes() && are_same_parts(parts.as_slice(), others.as_slice())
        }
        _ => false,
    }
}

// The bytes with which a name is written.
fn written(alloc: Global, name: &Name) -> Result<Vec<u8>, OutOfMemory> {
    match name {
        Name::Simple(text) | Name::Stem(text) => Ok(Vec::from_slice(alloc, text.bytes())?),
        Name::Compound(stem, parts) => {
            let mut bytes = Vec::from_slice(alloc, stem.bytes())?;
            for part in parts.as_slice() {
                let (Part::Fixed(text) | Part::Of(text)) = part;
                bytes.extend_from_slice(text.bytes())?;
                bytes.push(b'.')?;
            }
            Ok(bytes)
        }
    }
}

impl Names {
    /// No names.
    pub(crate) fn new(alloc: Global) -> Names
        ensures { result ≡ [] }
    {
        Names {
            alloc,
            names: Items::new(alloc),
            numbers: Table::new(alloc),
        }
    }

    /// The names.
    pub(crate) fn as_slice(&self) -> &[Name]
        ensures { result.now ≡ self.now }
    {
        self.names.as_slice()
    }

    // The number of a name that stands under these bytes, if one does.
    fn known(&self, bytes: &[u8], name: &Name) -> Option<usize>
        ensures { IfSome result (IsNumber self.now name.now) }
    {
        let number = *self.numbers.get(bytes)?;
        let other = self.names.get(number)?;
        if is_same(other, name) {
            Some(number)
        } else {
            None
        }
    }

    /// The number of a name, which is a new one if the name isn't there.
    pub(crate) fn number(&mut self, name: &Name) -> Result<usize, OutOfMemory>
        ensures is { IfOk result (IsNumber self.new name.now) }
        ensures keeps { Keeps self.old self.new }
    {
        let bytes = written(self.alloc, name)?;
        if let Some(number) = self.known(bytes.as_slice(), name) {
            return Ok(number);
        }
        let number = self.names.len();
        self.names.push(name.share(self.alloc)?)?;
        self.numbers.insert(bytes.as_slice(), number)?;
        Ok(number)
    }

    // The number of a simple variable.
    fn simple(&mut self, name: &Text) -> Result<usize, OutOfMemory>
        ensures is { IfOk result (IsNumber self.new (Simple name.now)) }
        ensures keeps { Keeps self.old self.new }
    {
        let name = Name::Simple(name.share()?);
        self.number(&name)
    }

    // Puts the number of the variable of a part at the end, if it names one.
    fn number_part(&mut self, part: &Part, numbers: &mut Items<usize>) -> Result<(), OutOfMemory>
        ensures are { OnOk result (NumbersMore self.old self.new (tail_names (part.now ∷ [])) numbers.old numbers.new) }
        ensures keeps { Keeps self.old self.new }
    {
        if let Part::Of(name) = part {
            numbers.push(self.simple(name)?)?;
        }
        Ok(())
    }

    // The numbers of the variables in a tail.
    fn number_tail(&mut self, parts: &[Part]) -> Result<Items<usize>, OutOfMemory>
        ensures are { IfOk result (AreNumbers self.new (tail_names parts.now)) }
        ensures keeps { Keeps self.old self.new }
    {
        let mut numbers = Items::new(self.alloc);
        for part in parts {
            self.number_part(part, &mut numbers)?;
        }
        Ok(numbers)
    }

    // The numbers of the variables in the tail of a name.
    fn tail_of(&mut self, name: &Name) -> Result<Items<usize>, OutOfMemory>
        ensures are { IfOk result (AreNumbers self.new (tail_of name.now)) }
        ensures keeps { Keeps self.old self.new }
    {
        match name {
            Name::Compound(_, parts) => self.number_tail(parts.as_slice()),
            Name::Simple(_) | Name::Stem(_) => Ok(Items::new(self.alloc)),
        }
    }

    /// The numbers of the names that a name reads.
    pub(crate) fn with_tail(&mut self, name: &Name) -> Result<Items<usize>, OutOfMemory>
        ensures are { IfOk result (AreNumbers self.new (with_tail name.now)) }
        ensures keeps { Keeps self.old self.new }
    {
        let mut numbers = self.tail_of(name)?;
        numbers.push(self.number(name)?)?;
        Ok(numbers)
    }

    /// The numbers of the names that the symbol of a class reads.
    pub(crate) fn class(&mut self, name: &Text) -> Result<Items<usize>, OutOfMemory>
        ensures are { IfOk result (AreNumbers self.new (class_names (Some name.now))) }
        ensures keeps { Keeps self.old self.new }
    {
        let mut numbers = Items::new(self.alloc);
        if !is_environment(name) {
            numbers.push(self.simple(name)?)?;
        }
        Ok(numbers)
    }
}

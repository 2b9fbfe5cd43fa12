// Instructions with the numbers of the names that they read.
ghost use Rattle.std.specs.Prelude.{◌≡◌, List, [], ◌∷◌, ◌++◌, drop, IfOk, OnOk};
ghost use Rattle.rx_tree.specs.declared.name.Name.{Name};
ghost use Rattle.rx_eval.specs.Names.{Lists, names_in, names_read};
ghost use Rattle.rx_eval.specs.Numbers.{AreNumbers, IsNumber, Keeps};

use crate::code::Instr;
use crate::names::Names;
use rx_tree::{Name, OutOfMemory};
use sqlite_items::{Items, at as item_at};
use std::alloc::Global;
use std::marker::Model;

/// Instructions, a table of the names that they read, and the numbers of these. Contracts see the instructions.
pub(crate) struct Listing {
    alloc: Global,
    instrs: Items<Instr>,
    names: Names,
    numbers: Items<Items<usize>>,
}

impl Drop for Listing {
    fn drop(self) {
        let Listing {
            alloc: _,
            instrs: _,
            names: _,
            numbers: _,
        } = self;
    }
}

impl Model for Listing {
    ghost use Rattle.std.specs.Prelude.{List};
    ghost use Rattle.rx_eval.specs.declared.code.Instr.{Instr};
    ghost use Rattle.rx_eval.specs.Numbers.{AreNumbered};

    ghost Value = { List Instr };

    ghost view = { λ l. l.instrs };

    ghost invariant = { λ l. AreNumbered l.names l.instrs l.numbers };
}

// The numbers of the names that an instruction reads.
fn numbers_of(alloc: Global, names: &mut Names, instr: &Instr) -> Result<Items<usize>, OutOfMemory>
    ensures are { IfOk result (AreNumbers names.new (names_read instr.now)) }
    ensures keeps { Keeps names.old names.new }
{
    match instr {
        Instr::Name(name) => names.with_tail(name),
        Instr::Send(sending) => match &sending.class {
            Some(class) => names.class(&class.name),
            None => Ok(Items::new(alloc)),
        },
        _ => Ok(Items::new(alloc)),
    }
}

// Puts the name of a number at the end.
fn push_name(
    alloc: Global,
    names: &Names,
    number: usize,
    found: &mut Items<Name>,
) -> Result<(), OutOfMemory>
    ensures { OnOk result ((name : Name) → IsNumber names.now name number → found.new ≡ found.old ++ name ∷ []) }
{
    if let Some(name) = item_at(names.as_slice(), number) {
        found.push(name.share(alloc)?)?;
    }
    Ok(())
}

// Puts the names of some numbers at the end.
fn push_names(
    alloc: Global,
    names: &Names,
    numbers: &[usize],
    found: &mut Items<Name>,
) -> Result<(), OutOfMemory>
    ensures { OnOk result ((wanted : List Name) → AreNumbers names.now wanted numbers.now → found.new ≡ found.old ++ wanted) }
{
    for number in numbers {
        push_name(alloc, names, *number, found)?;
    }
    Ok(())
}

impl Listing {
    /// No instructions.
    pub(crate) fn new(alloc: Global) -> Listing
        ensures { result ≡ [] }
    {
        Listing {
            alloc,
            instrs: Items::new(alloc),
            names: Names::new(alloc),
            numbers: Items::new(alloc),
        }
    }

    /// Puts an instruction at the end. After want of memory no instruction may be left.
    pub(crate) fn push(&mut self, instr: Instr) -> Result<(), OutOfMemory>
        ensures ok { OnOk result (self.new ≡ self.old ++ instr ∷ []) }
    {
        let own = numbers_of(self.alloc, &mut self.names, &instr)?;
        self.numbers.push(own)?;
        if self.instrs.push(instr).is_err() {
            self.instrs = Items::new(self.alloc);
            self.numbers = Items::new(self.alloc);
            return Err(OutOfMemory);
        }
        Ok(())
    }

    /// The instructions.
    pub(crate) fn as_slice(&self) -> &[Instr]
        ensures { result.now ≡ self.now }
    {
        self.instrs.as_slice()
    }

    /// The names that the instructions read.
    pub(crate) fn names(&self) -> &[Name]
        ensures { Lists result.now self.now }
    {
        self.names.as_slice()
    }

    /// The numbers of the names that the instruction at a place reads: their places among the names.
    pub(crate) fn numbers(&self, place: usize) -> &[usize] {
        match self.numbers.get(place) {
            Some(numbers) => numbers.as_slice(),
            None => &[],
        }
    }
    /// The names that the instructions from a place on read.
    pub(crate) fn names_from(&self, place: usize) -> Result<Items<Name>, OutOfMemory>
        ensures { IfOk result (λ names. names ≡ names_in (drop place self.now)) }
    {
        let numbers = self.numbers.as_slice();
        let mut found = Items::new(self.alloc);
        let mut at = place;
        while let Some(own) = item_at(numbers, at) {
            push_names(self.alloc, &self.names, own.as_slice(), &mut found)?;
            at += 1;
        }
        Ok(found)
    }
}

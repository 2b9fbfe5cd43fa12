// The table of the classes, and what it tells of them.
ghost use Rattle.std.specs.Prelude.{◌≡◌, ◌≤◌, [], length, map, nat_le, IfOk, IfSome, IsTrue, option_map};
ghost use Rattle.std.specs.Option.{option_copied};
ghost use Rattle.std.specs.List.{list_all};
ghost use Rattle.rx_classes.specs.Installing.{CanInstall};
ghost use Rattle.rx_classes.specs.Classes.{IsClass, class_at, class_name, class_named, is_mixin, parent_of, superclasses};

use crate::class::Class;
use crate::native::{FIRST_CLASS, NATIVE_NAMES, OBJECT, native_named};
use rx_tree::{OutOfMemory, Text};
use rx_vars::Table;
use sqlite_items::{Items, at};
use std::alloc::Global;
use std::marker::Model;

mod defining;
mod finding;
mod ordering;

/// The classes of a package, in the order in which they were defined. Contracts see the list of them.
///
/// The native classes have the numbers 2 to 8, and the package's follow from 9. A look-up of a class or of one of its own
/// methods takes a time that doesn't grow with their number, and what is kept takes memory in proportion to the classes as
/// they are written.
pub struct ClassTable {
    alloc: Global,
    native_names: Items<Text>,
    classes: Vec<Class>,
    // The numbers of the package's classes by their names.
    numbers: Table<u32>,
}

impl Drop for ClassTable {
    fn drop(self) {
        let ClassTable {
            alloc: _,
            native_names: _,
            classes: _,
            numbers: _,
        } = self;
    }
}

impl Model for ClassTable {
    ghost use Rattle.std.specs.Prelude.{List};
    ghost use Rattle.rx_tree.specs.declared.class.ClassDef.{ClassDef as OfClass};
    ghost use Rattle.rx_classes.specs.Kept.{IsKept, defs_of};

    ghost Value = { List OfClass };

    ghost view = { λ t. defs_of t.classes.items };

    ghost invariant = { λ t. IsKept t.native_names t.classes.items t.numbers };
}

// Texts of some names.
fn texts(alloc: Global, names: &[&[u8]]) -> Result<Items<Text>, OutOfMemory>
    requires { IsTrue (list_all (λ name. nat_le (length name.now) Text.LONGEST) names.now) }
    ensures { IfOk result (λ texts. texts ≡ map (λ name. name.now) names.now) }
{
    let mut texts = Items::new(alloc);
    for name in names {
        texts.push(Text::from_slice(alloc, name)?)?;
    }
    Ok(texts)
}

impl ClassTable {
    ghost use Rattle.rx_classes.specs.Kept.{IsLinked};

    /// The most classes of a package, so that the number of each is a `u32`.
    pub const MOST: usize = 4_294_967_286;

    /// The native classes alone, or want of memory.
    pub fn new(alloc: Global) -> Result<ClassTable, OutOfMemory>
        ensures { IfOk result (λ table. table ≡ []) }
    {
        Ok(ClassTable {
            alloc,
            native_names: texts(alloc, &NATIVE_NAMES)?,
            classes: Vec::new(alloc),
            numbers: Table::new(alloc),
        })
    }

    /// How many classes the package has so far.
    pub fn count(&self) -> usize
        ensures count { result ≡ length self.now }
        ensures few { result ≤ Self.MOST }
    {
        self.classes.len()
    }

    // What is kept of the class of a number, where it is one of the package.
    fn kept(&self, class: u32) -> Option<&Class>
        ensures def { option_map (λ kept. kept.def) (option_copied result) ≡ class_at self.now class }
        ensures linked { IfSome result (λ kept. IsLinked self.now class kept.now) }
        ensures installed { CanInstall self.now }
    {
        let classes = self.classes.as_slice();
        if class < FIRST_CLASS {
            return None;
        }
        at(classes, (class - FIRST_CLASS) as usize)
    }

    /// The name of a class.
    pub fn name(&self, class: u32) -> &Text
        requires { IsClass self.now class }
        ensures name { result.now ≡ class_name self.now class }
    {
        match self.kept(class) {
            Some(kept) => &kept.def.name,
            None => self.native_names.get((class - OBJECT) as usize).unwrap(),
        }
    }

    /// The superclass of a class. Only Object has none.
    pub fn parent(&self, class: u32) -> Option<u32>
        requires { IsClass self.now class }
        ensures parent { result ≡ parent_of self.now class }
    {
        match self.kept(class) {
            Some(kept) => Some(kept.parent),
            None if class > OBJECT => Some(OBJECT),
            None => None,
        }
    }

    /// The class of a name, in upper case, if there is one.
    pub fn class_named(&self, name: &[u8]) -> Option<u32>
        ensures number { result ≡ class_named self.now name.now }
    {
        match native_named(name) {
            Some(class) => Some(class),
            None => self.numbers.get(name).copied(),
        }
    }

    /// Whether a class is a mixin.
    pub fn is_mixin(&self, class: u32) -> bool
        ensures { result ≡ is_mixin self.now class }
    {
        match self.kept(class) {
            Some(kept) => kept.def.mixin,
            None => false,
        }
    }

    // The immediate superclasses of a class, from left to right.
    fn superclasses(&self, class: u32) -> &[u32]
        ensures { result.now ≡ superclasses self.now class }
    {
        match self.kept(class) {
            Some(kept) => kept.superclasses.as_slice(),
            None if class > OBJECT => &[OBJECT],
            None => &[],
        }
    }
}

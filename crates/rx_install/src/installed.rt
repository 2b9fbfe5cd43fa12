// Classes that are installed.
ghost use Rattle.std.specs.Prelude.{◌≡◌, ◌≤◌, ◌∷◌, ◌++◌, [], length, slice_get, is_some, None, Some, MatchOption, OnErr, OnOk};
ghost use Rattle.std.specs.List.{list_any};
ghost use Rattle.std.specs.Str.{bytes_eq};
ghost use Rattle.rx_classes.specs.Classes.{class_named, native_named};
ghost use Rattle.rx_classes.specs.Installing.{missing_name};
ghost use Rattle.rx_install.specs.Waiting.{IsWaiting, first_missing, names_of};

use rx_tree::{ClassDef, OutOfMemory, Text};
use rx_vars::Table;
use sqlite_items::Items;
use std::alloc::Global;
use std::marker::Model;

// The names of the native classes.
const NATIVE_NAMES: [&[u8]; 7] = [
    b"OBJECT",
    b"CLASS",
    b"STRING",
    b"ARRAY",
    b"QUEUE",
    b"DIRECTORY",
    b"MESSAGE",
];

fn is_among(names: &[&[u8]], name: &[u8]) -> bool
    ensures { result ≡ list_any (λ other. bytes_eq name.now other.now) names.now }
{
    names.iter().any(|other| name == *other)
}

fn is_native(name: &[u8]) -> bool
    ensures { result ≡ is_some (native_named name.now) }
{
    is_among(&NATIVE_NAMES, name)
}

// One of the names that a class needs: the superclass's, and then those of the mixins.
fn name_at(class: &ClassDef, at: usize) -> &Text
    requires { at ≤ length class.now.inherits }
    ensures { slice_get (names_of class.now) at ≡ Some result.now }
{
    if at == 0 {
        return &class.parent;
    }
    &class.inherits.as_slice()[at - 1]
}

/// Classes in the order in which they are installed, with a table of their names. Contracts see the classes.
pub struct Installed {
    classes: Items<ClassDef>,
    names: Table<bool>,
}

impl Drop for Installed {
    fn drop(self) {
        let Installed {
            classes: _,
            names: _,
        } = self;
    }
}

impl Model for Installed {
    ghost use Rattle.std.specs.Prelude.{List};
    ghost use Rattle.rx_tree.specs.declared.class.ClassDef.{ClassDef as Def};
    ghost use Rattle.rx_install.specs.Waiting.{AreNamed};

    ghost Value = { List Def };

    ghost view = { λ i. i.classes };

    ghost invariant = { λ i. AreNamed i.classes i.names };
}

impl Installed {
    /// No class is installed but the native ones.
    pub fn new(alloc: Global) -> Installed
        ensures { result ≡ [] }
    {
        Installed {
            classes: Items::new(alloc),
            names: Table::new(alloc),
        }
    }

    // Whether a class of this name is there.
    fn has(&self, name: &[u8]) -> bool
        ensures { result ≡ is_some (class_named self.now name.now) }
    {
        is_native(name) || self.names.get(name).is_some()
    }

    /// The place and the text of the first name that isn't there, of the superclass and the mixins that a class names. The
    /// first `there` of these names are.
    pub fn first_missing<'c>(&self, class: &'c ClassDef, there: usize) -> Option<(usize, &'c Text)>
        requires { first_missing self.now class.now there ≡ None }
        ensures { MatchOption result (missing_name self.now class.now ≡ None)
            (λ found. IsWaiting self.now class.now found.0 found.1.now) }
    {
        for at in there..class.inherits.as_slice().len() + 1 {
            let name = name_at(class, at);
            if !self.has(name.bytes()) {
                return Some((at, name));
            }
        }
        None
    }

    /// Installs one more class behind the others, or wants memory.
    pub fn push(&mut self, class: ClassDef) -> Result<(), OutOfMemory>
        ensures ok { OnOk result (self.new ≡ self.old ++ class ∷ []) }
        ensures err { OnErr result (self.new ≡ self.old) }
    {
        let name = class.name.share()?;
        self.classes.push(class)?;
        let named = self.names.insert(name.bytes(), true);
        if named.is_err() {
            let _ = self.classes.pop();
        }
        named
    }

    /// The classes.
    pub fn into_classes(self) -> Items<ClassDef>
        ensures { result ≡ self }
    {
        let Installed { classes, names: _ } = self;
        classes
    }
}

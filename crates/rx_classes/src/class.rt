// What is kept of a class.
ghost use Rattle.std.specs.Prelude.{◌≡◌, None, [], IfErr, IfOk, OnOk, option_map};
ghost use Rattle.rx_vars.specs.Tables.{look_up};
ghost use Rattle.rx_classes.specs.Kept.{IsCaused, IsGathered, side_of, with_method};
ghost use Rattle.rx_classes.specs.Installing.{repeated_method};

use crate::method::{DefineRefused, MethodId};
use rx_tree::{ClassDef, MethodDef, OutOfMemory};
use rx_vars::Table;
use sqlite_items::Items;
use std::alloc::Global;

/// The methods of a class by their names, of each side.
pub struct Methods {
    pub of_instances: Table<MethodId>,
    pub of_class: Table<MethodId>,
}

impl Drop for Methods {
    fn drop(self) {
        let Methods {
            of_instances: _,
            of_class: _,
        } = self;
    }
}

impl Methods {
    // There is no method.
    fn new(alloc: Global) -> Methods
        ensures { IsGathered [] result }
    {
        Methods {
            of_instances: Table::new(alloc),
            of_class: Table::new(alloc),
        }
    }

    // The methods of a side.
    fn side(&self, class_side: bool) -> &Table<MethodId>
        ensures { result.now ≡ side_of self.now class_side }
    {
        if class_side {
            &self.of_class
        } else {
            &self.of_instances
        }
    }

    /// The method of a side and a name, if there is one.
    pub fn get(&self, class_side: bool, name: &[u8]) -> Option<MethodId>
        ensures { result ≡ look_up (side_of self.now class_side) name.now }
    {
        self.side(class_side).get(name).copied()
    }

    // Adds a method whose name its side doesn't have, or wants memory.
    fn add(&mut self, def: &MethodDef) -> Result<(), OutOfMemory>
        ensures { OnOk result (self.new ≡ with_method self.old def.now) }
    {
        let method = MethodId::Body {
            body: def.body,
            private: def.private,
            guarded: def.guarded,
        };
        if def.class_side {
            self.of_class.insert(def.name.bytes(), method)
        } else {
            self.of_instances.insert(def.name.bytes(), method)
        }
    }

    /// The methods that are defined so, or the refusal of the first whose name its side has already.
    pub fn gather(alloc: Global, defs: &[MethodDef]) -> Result<Methods, DefineRefused>
        ensures gathered { IfOk result (λ methods. IsGathered defs.now methods) }
        ensures once { OnOk result (repeated_method [] defs.now ≡ None) }
        ensures twice { IfErr result (λ e. IsCaused (option_map DefineRefused.Twice (repeated_method [] defs.now)) e) }
    {
        let mut methods = Methods::new(alloc);
        for def in defs {
            if methods.get(def.class_side, def.name.bytes()).is_some() {
                return Err(DefineRefused::Twice(def.name.share()?));
            }
            methods.add(def)?;
        }
        Ok(methods)
    }
}

/// A class of the package, and what was found when it was defined.
pub struct Class {
    pub def: ClassDef,
    pub parent: u32,
    /// Its immediate superclasses, from left to right.
    pub superclasses: Items<u32>,
    /// Its first superclass that is no mixin.
    pub base: u32,
    /// How many superclasses stand above it on the way from superclass to superclass.
    pub depth: u32,
    /// One of these that stands further up, so that the way is short.
    pub above: u32,
    pub methods: Methods,
}

impl Drop for Class {
    fn drop(self) {
        let Class {
            def: _,
            parent: _,
            superclasses: _,
            base: _,
            depth: _,
            above: _,
            methods: _,
        } = self;
    }
}

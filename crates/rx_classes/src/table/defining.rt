// How a class is defined.
ghost use Rattle.std.specs.Prelude.{◌≡◌, ◌<◌, ◌+◌, ◌++◌, ◌∷◌, [], false, None, Some, length, find, is_none, not, IfErr, IfOk, OnErr, OnOk};
ghost use Rattle.std.specs.List.{filter_map};
ghost use Rattle.std.specs.Option.{option_copied};
ghost use Rattle.rx_classes.specs.Natives.{first_class};
ghost use Rattle.rx_classes.specs.Classes.{IsClass, class_named, is_mixin};
ghost use Rattle.rx_classes.specs.Orders.{base_of, has, order};
ghost use Rattle.rx_classes.specs.Installing.{CanInstall, has_base, is_closed, names_mixin, no_mixin_name, refusal};

use super::ClassTable;
use crate::class::{Class, Methods};
use crate::method::DefineRefused;
use crate::native::{CLASS, FIRST_CLASS, MESSAGE, OBJECT, STRING};
use rx_tree::{ClassDef, OutOfMemory, Text};
use sqlite_items::Items;

// Where a class stands on the way from superclass to superclass: how many are above it, and one of these.
#[derive(Clone, Copy)]
struct Way {
    depth: u32,
    above: u32,
}

// Whether no class may have this superclass.
fn is_closed(class: u32) -> bool
    ensures { result ≡ is_closed class }
{
    class == STRING || class == MESSAGE || class == CLASS
}

impl ClassTable {
    ghost use Rattle.rx_classes.specs.Kept.{IsAbove, IsCaused, IsGathered, IsLinked};

    // The first of some names that no class has.
    fn unknown_name<'n>(&self, names: &'n [Text]) -> Option<&'n Text>
        ensures { option_copied result ≡ find (λ name. is_none (class_named self.now name)) names.now }
    {
        names
            .iter()
            .find(|name| self.class_named(name.bytes()).is_none())
    }

    // Whether this is the name of a mixin.
    fn names_mixin(&self, name: &Text) -> bool
        ensures { result ≡ names_mixin self.now name.now }
    {
        match self.class_named(name.bytes()) {
            Some(class) => self.is_mixin(class),
            None => false,
        }
    }

    // The first name of a class that a class inherits and that is no mixin.
    fn no_mixin_name<'d>(&self, def: &'d ClassDef) -> Option<&'d Text>
        ensures { option_copied result ≡ no_mixin_name self.now def.now }
    {
        def.inherits
            .as_slice()
            .iter()
            .find(|name| !self.names_mixin(name))
    }

    // The base class of a mixin: its first superclass that is none.
    fn base(&self, class: u32) -> u32
        requires { IsClass self.now class }
        ensures base { result ≡ base_of self.now class }
        ensures plain { is_mixin self.now result ≡ false }
        ensures class { IsClass self.now result }
        ensures installed { CanInstall self.now }
    {
        match self.kept(class) {
            Some(kept) => kept.base,
            None => OBJECT,
        }
    }

    // Whether a class that is no mixin is in the order of another one: then it stands above that one, or is it.
    fn is_above(&self, above: u32, class: u32) -> bool
        requires above { IsClass self.now above }
        requires plain { is_mixin self.now above ≡ false }
        requires class { IsClass self.now class }
        requires installed { CanInstall self.now }
        ensures { result ≡ has (order self.now class) above }
    {
        let mut next = class;
        while next > above {
            match self.kept(next) {
                Some(kept) if kept.above >= above => next = kept.above,
                Some(kept) => next = kept.parent,
                None => next = OBJECT,
            }
        }
        next == above
    }

    // Whether the base class of the mixin of a name is in the order of a class.
    fn has_base(&self, class: u32, name: &Text) -> bool
        requires { IsClass self.now class }
        ensures { result ≡ has_base self.now (order self.now class) name.now }
    {
        match self.class_named(name.bytes()) {
            Some(mixin) => self.is_above(self.base(mixin), class),
            None => false,
        }
    }

    // The first of the names of some mixins whose base class isn't in the order of a class.
    fn baseless_name<'n>(&self, class: u32, names: &'n [Text]) -> Option<&'n Text>
        requires { IsClass self.now class }
        ensures { option_copied result ≡ find (λ name. not (has_base self.now (order self.now class) name)) names.now }
    {
        names.iter().find(|name| !self.has_base(class, name))
    }

    // The superclass and the methods of a class that can be defined, or its refusal.
    fn admit(&self, def: &ClassDef) -> Result<(u32, Methods), DefineRefused>
        ensures fits { OnOk result (refusal self.now def.now ≡ None) }
        ensures parent { IfOk result (λ admitted. class_named self.now def.now.parent ≡ Some admitted.0) }
        ensures methods { IfOk result (λ admitted. IsGathered def.now.methods admitted.1) }
        ensures cause { IfErr result (λ refused. IsCaused (refusal self.now def.now) refused) }
    {
        let Some(parent) = self.class_named(def.parent.bytes()) else {
            return Err(DefineRefused::NoSuchClass(def.parent.share()?));
        };
        if let Some(name) = self.unknown_name(def.inherits.as_slice()) {
            return Err(DefineRefused::NoSuchClass(name.share()?));
        }
        if let Some(name) = self.no_mixin_name(def) {
            return Err(DefineRefused::NotAMixin(name.share()?));
        }
        if let Some(name) = self.baseless_name(parent, def.inherits.as_slice()) {
            return Err(DefineRefused::BaseMissing(name.share()?));
        }
        if self.class_named(def.name.bytes()).is_some() {
            return Err(DefineRefused::Twice(def.name.share()?));
        }
        let methods = match Methods::gather(self.alloc, def.methods.as_slice()) {
            Ok(methods) => methods,
            Err(refused) => return Err(refused),
        };
        if is_closed(parent) {
            return Err(DefineRefused::Closed(def.parent.share()?));
        }
        Ok((parent, methods))
    }

    // Where a class stands.
    fn way(&self, class: u32) -> Way
        requires { IsClass self.now class }
        ensures above { IsAbove self.now result.above class }
        ensures class { IsClass self.now result.above }
    {
        match self.kept(class) {
            Some(kept) => Way {
                depth: kept.depth,
                above: kept.above,
            },
            None if class > OBJECT => Way {
                depth: 1,
                above: OBJECT,
            },
            None => Way {
                depth: 0,
                above: OBJECT,
            },
        }
    }

    // Where a class stands whose superclass this is. Of each two steps of one length upward, the next one is as long as both,
    // so the way to a class above takes few of them.
    fn way_below(&self, parent: u32) -> Way
        requires { IsClass self.now parent }
        ensures { IsAbove self.now result.above parent }
    {
        let near = self.way(parent);
        let middle = self.way(near.above);
        let far = self.way(middle.above);
        let even = u64::from(near.depth) + u64::from(far.depth) == 2 * u64::from(middle.depth);
        Way {
            depth: near.depth.saturating_add(1),
            above: if even { middle.above } else { parent },
        }
    }

    // The numbers of a class's superclass and of the mixins of these names.
    fn numbers_of(&self, parent: u32, names: &[Text]) -> Result<Items<u32>, OutOfMemory>
        ensures { IfOk result (λ numbers. numbers ≡ parent ∷ filter_map (class_named self.now) names.now) }
    {
        let mut numbers = Items::new(self.alloc);
        numbers.push(parent)?;
        for name in names {
            if let Some(number) = self.class_named(name.bytes()) {
                numbers.push(number)?;
            }
        }
        Ok(numbers)
    }

    // A class with what is kept of it.
    fn link(&self, def: ClassDef, parent: u32, methods: Methods) -> Result<Class, OutOfMemory>
        requires parent { class_named self.now def.parent ≡ Some parent }
        requires methods { IsGathered def.methods methods }
        ensures def { IfOk result (λ class. class.def ≡ def) }
        ensures linked { IfOk result (λ class. IsLinked (self.now ++ def ∷ []) (first_class + length self.now) class) }
    {
        let superclasses = self.numbers_of(parent, def.inherits.as_slice())?;
        let base = if self.is_mixin(parent) {
            self.base(parent)
        } else {
            parent
        };
        let Way { depth, above } = self.way_below(parent);
        Ok(Class {
            def,
            parent,
            superclasses,
            base,
            depth,
            above,
            methods,
        })
    }

    // Adds a class, and gives its number.
    fn add(&mut self, class: Class) -> Result<u32, OutOfMemory>
        requires room { length self.old < Self.MOST }
        requires fits { refusal self.old class.def ≡ None }
        requires linked { IsLinked (self.old ++ class.def ∷ []) (first_class + length self.old) class }
        ensures number { IfOk result (λ number. number ≡ first_class + length self.old) }
        ensures defined { OnOk result (self.new ≡ self.old ++ class.def ∷ []) }
        ensures err { OnErr result (self.new ≡ self.old) }
    {
        let number = FIRST_CLASS + self.classes.len() as u32;
        self.classes.reserve(1)?;
        self.numbers.insert(class.def.name.bytes(), number)?;
        self.classes.push(class)?;
        Ok(number)
    }

    /// Defines a class behind those that are there, and gives its number; or refuses it, and then nothing changes. The
    /// refusals are tried in their order: that a name leads to no class, that a class inherits what is no mixin, or a mixin
    /// whose base class it doesn't have, that a name is there already, and that the superclass is closed.
    pub fn define(&mut self, class: ClassDef) -> Result<u32, DefineRefused>
        requires room { length self.old < Self.MOST }
        ensures number { IfOk result (λ number. number ≡ first_class + length self.old) }
        ensures fits { OnOk result (refusal self.old class ≡ None) }
        ensures defined { OnOk result (self.new ≡ self.old ++ class ∷ []) }
        ensures cause { IfErr result (λ refused. IsCaused (refusal self.old class) refused) }
        ensures err { OnErr result (self.new ≡ self.old) }
    {
        let (parent, methods) = match self.admit(&class) {
            Ok(admitted) => admitted,
            Err(refused) => return Err(refused),
        };
        let class = self.link(class, parent, methods)?;
        let number = self.add(class)?;
        Ok(number)
    }
}

// Classes and methods, as directives define them.
use crate::text::Text;
use sqlite_items::Items;

/// A class with its side: where a method stands, and whose variables a frame of it exposes.
#[derive(Clone, Copy, Debug, PartialEq, Eq)]
pub struct Scope {
    /// The object number of the class.
    pub class: u32,
    /// Whether it is the class's own side, not that of its instances.
    pub class_side: bool,
}

/// A method of a class.
pub struct MethodDef {
    /// The name, in upper case.
    pub name: Text,
    /// The number of its body.
    pub body: u32,
    pub class_side: bool,
    pub private: bool,
    /// Whether its frame asks for the pool of its object and scope.
    pub guarded: bool,
}

impl Drop for MethodDef {
    fn drop(self) {
        let MethodDef {
            name: _,
            body: _,
            class_side: _,
            private: _,
            guarded: _,
        } = self;
    }
}

/// A class of a source.
pub struct ClassDef {
    /// The name, in upper case.
    pub name: Text,
    /// The line of its directive, from 1.
    pub line: u32,
    /// The name of its superclass.
    pub parent: Text,
    pub mixin: bool,
    /// The names of the mixins that it inherits, in the written order.
    pub inherits: Items<Text>,
    pub methods: Items<MethodDef>,
}

impl Drop for ClassDef {
    fn drop(self) {
        let ClassDef {
            name: _,
            line: _,
            parent: _,
            mixin: _,
            inherits: _,
            methods: _,
        } = self;
    }
}

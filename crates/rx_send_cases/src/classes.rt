// Lines that define classes.
use crate::line::{Line, text_of};
use rx_classes::{ClassDef, MethodDef};
use rx_tree::OutOfMemory;
use sqlite_items::Items;
use std::alloc::Global;

// What the next word of a class's line is.
#[derive(Clone, Copy)]
enum Next {
    /// A word that says what follows, or that the class is a mixin.
    Word,
    /// The name of the superclass.
    Parent,
    /// The name of a mixin that it inherits.
    Mixin,
}

/// The class that a line defines, without its methods.
pub fn class_of(alloc: Global, line: &Line) -> Result<ClassDef, OutOfMemory> {
    let mut def = ClassDef {
        name: text_of(alloc, line.bytes(1))?,
        line: 1,
        parent: text_of(alloc, b"OBJECT")?,
        mixin: false,
        inherits: Items::new(alloc),
        methods: Items::new(alloc),
    };
    let mut next = Next::Word;
    for place in 2..line.count() {
        match (next, line.bytes(place)) {
            (Next::Word, b"mixin") => def.mixin = true,
            (Next::Word, b"of") => next = Next::Parent,
            (Next::Word, b"inherits") => next = Next::Mixin,
            (Next::Word, _) => {}
            (Next::Parent, name) => {
                def.parent = text_of(alloc, name)?;
                next = Next::Word;
            }
            (Next::Mixin, name) => def.inherits.push(text_of(alloc, name)?)?,
        }
    }
    Ok(def)
}

/// The method that a line defines.
pub fn method_of(alloc: Global, line: &Line) -> Result<MethodDef, OutOfMemory> {
    Ok(MethodDef {
        name: text_of(alloc, line.bytes(1))?,
        body: line.number(3),
        class_side: line.has(4, b"class"),
        private: line.has(4, b"private"),
        guarded: !line.has(4, b"unguarded"),
    })
}

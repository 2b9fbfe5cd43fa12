// Packages.
use crate::clause::Body;
use rx_tree::{ClassDef, Text};
use sqlite_items::Items;

/// A program: what a source means.
pub struct Package {
    /// The clauses before the first directive.
    pub main: Body,
    /// The bodies of methods and routines in directive order, the one that gets an attribute before the one that sets it.
    /// Their numbers are their places here, from 0; the main body has the number after the last one.
    pub bodies: Items<Body>,
    /// The classes, in the order in which they are installed.
    pub classes: Items<ClassDef>,
    /// The routines in directive order, each a name and the number of its body.
    pub routines: Items<(Text, u32)>,
    /// The lines of the source, without the bytes that end them.
    pub lines: Items<Text>,
}

impl Drop for Package {
    fn drop(self) {
        let Package {
            main: _,
            bodies: _,
            classes: _,
            routines: _,
            lines: _,
        } = self;
    }
}

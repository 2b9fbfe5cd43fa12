//! Tells of the calls of the table of classes in its standard input, a line each, what comes of them.
//!
//! A line is the name of a call and its arguments, with blanks between them. An empty line and one that begins with `#` are
//! headings, and told as they stand.
//!
//! - `classes` begins with the native classes alone. `define NAME PARENT WORD ..` defines a class: `mixin` makes it one, `+M`
//!   inherits the mixin M, `M` is a method of its instances, `.M` one of its own side, and `-M` a private one. The bodies of
//!   methods are numbered from 0 over all classes. `chain COUNT PARENT` defines so many classes, each the superclass of the
//!   next, and `chain COUNT PARENT M` the same where each inherits the mixin M. Their names are C1, C2 and so on.
//! - `order CLASS`, `name CLASS`, `parent CLASS`, `named NAME`, `find CLASS SIDE NAME` and `from CLASS SIDE CLASS NAME` look
//!   up; a side is `class` or `instance`.
#![tactic(auto)]

mod classes;
mod line;

use crate::classes::ClassCases;
use crate::line::Line;
use rx_tree::OutOfMemory;
use std::alloc::{AllocError, Global};
use std::io;

// Want of memory, as the library tells it.
fn wanting(_error: OutOfMemory) -> AllocError {
    AllocError
}

// What a line of the input comes to.
fn tell(alloc: Global, classes: &mut ClassCases, text: &str) -> Result<String, AllocError> {
    if text.is_empty() || text.starts_with('#') {
        return String::from_str(alloc, text);
    }
    let line = Line::read(alloc, text)?;
    match classes.tell(alloc, &line).map_err(wanting)? {
        Some(told) => Ok(told),
        None => String::from_str(alloc, "no such call"),
    }
}

fn main(rt: HostRuntime) -> io::Result<()> {
    let mut classes = ClassCases::new(rt.alloc()).map_err(wanting)?;
    for line in rt.lines(rt.alloc()) {
        let told = tell(rt.alloc(), &mut classes, line?.as_str())?;
        println!(rt; "{told}")?;
    }
    Ok(())
}

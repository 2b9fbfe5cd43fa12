//! Tells of the messages in its standard input, a line each, what the native methods answer.
//!
//! A line is the name of a call and its arguments, with blanks between them. An empty line and one that begins with `#` are
//! headings, and told as they stand. A value is `$N`, the object of that number; `-`, an argument that is left out; `''`, the
//! empty string; or else a string, in which `\x20` is a blank.
//!
//! - `classes` begins with the native classes alone. `define NAME PARENT WORD ..` defines a class: `mixin` makes it one, `+M`
//!   inherits the mixin M, and another word is a method of its instances. `objects` begins with `.nil` and the classes.
//! - `digits N` sets DIGITS.
//! - `send RECEIVER NAME ARGUMENT ..` sends a message. `unknown` is told where no method is found, `package` where a method of
//!   the package is, and `not built` for those of Message. `repeat COUNT RECEIVER NAME ARGUMENT ..` sends it so often, and tells
//!   the last answer.
//! - `message OBJECT` tells what a Message sends, and `class OBJECT` the number of an object's class. `count` tells how many
//!   objects there are.
#![tactic(auto)]

mod fitting;
mod line;
mod objects;
mod told;

use crate::line::Line;
use crate::objects::NativeCases;
use rx_tree::OutOfMemory;
use std::alloc::{AllocError, Global};
use std::io;

// Want of memory, as the library tells it.
fn wanting(_error: OutOfMemory) -> AllocError {
    AllocError
}

// What a line of the input comes to.
fn tell(alloc: Global, objects: &mut NativeCases, text: &str) -> Result<String, AllocError> {
    if text.is_empty() || text.starts_with('#') {
        return String::from_str(alloc, text);
    }
    let line = Line::read(alloc, text)?;
    match objects.tell(alloc, &line).map_err(wanting)? {
        Some(told) => Ok(told),
        None => String::from_str(alloc, "no such call"),
    }
}

fn main(rt: HostRuntime) -> io::Result<()> {
    let mut objects = NativeCases::new(rt.alloc()).map_err(wanting)?;
    for line in rt.lines(rt.alloc()) {
        let told = tell(rt.alloc(), &mut objects, line?.as_str())?;
        println!(rt; "{told}")?;
    }
    Ok(())
}

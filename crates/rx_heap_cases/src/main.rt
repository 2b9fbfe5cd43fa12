//! Tells of the calls on objects in its standard input, a line each, what comes of them.
//!
//! A line is the name of a call and its arguments, with blanks between them. An empty line and one that begins with `#` are
//! headings, and told as they stand. A value is `$N`, the object of that number, or else a string.
//!
//! - `objects CLASSES` begins with `.nil` and the classes up to that number. `make CLASS KIND` makes an object of that class;
//!   a kind is `plain`, `class`, `array`, `queue`, `directory` or `message`. `count` tells how many objects there are.
//! - `class OBJECT` and `kind OBJECT` tell of any object.
//! - Of an Array `put OBJECT INDEX VALUE`, `at OBJECT INDEX`, `remove OBJECT INDEX`, `items OBJECT`, `size OBJECT` and
//!   `resize OBJECT SIZE`.
//! - Of a Queue `add OBJECT VALUE`, `push OBJECT VALUE`, `pull OBJECT`, `at OBJECT PLACE` and `items OBJECT`.
//! - Of a Directory `put OBJECT NAME VALUE`, `at OBJECT NAME`, `remove OBJECT NAME`, `entry OBJECT PLACE` and `items OBJECT`.
//! - Of a Message `message OBJECT`, and what changes the row: `target OBJECT VALUE`, `name OBJECT NAME`, `argument OBJECT VALUE`,
//!   `use OBJECT`, `give OBJECT VALUE`, `fail OBJECT NUMBER` and `notify OBJECT ACTIVITY`.
#![tactic(auto)]

mod line;
mod objects;
mod rows;
mod told;

use crate::line::Line;
use crate::objects::HeapCases;
use rx_heap::OutOfMemory;
use std::alloc::{AllocError, Global};
use std::io;

// Want of memory, as the library tells it.
fn wanting(_error: OutOfMemory) -> AllocError {
    AllocError
}

// What a line of the input comes to.
fn tell(alloc: Global, objects: &mut HeapCases, text: &str) -> Result<String, AllocError> {
    if text.is_empty() || text.starts_with('#') {
        return String::from_str(alloc, text);
    }
    let line = Line::read(alloc, text)?;
    match objects.tell(alloc, &line).map_err(wanting)? {
        Some(told) => Ok(told),
        None => String::from_str(alloc, "no such call"),
    }
}

fn main(rt: HostRuntime) -> io::Result<()> {
    let mut objects = HeapCases::new(rt.alloc()).map_err(wanting)?;
    for line in rt.lines(rt.alloc()) {
        let told = tell(rt.alloc(), &mut objects, line?.as_str())?;
        println!(rt; "{told}")?;
    }
    Ok(())
}

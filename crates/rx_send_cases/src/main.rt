//! Tells of the classes and messages in its standard input, a line each, what comes of them.
//!
//! A line is the name of a call and its arguments, with blanks between them. An empty line and
//! one that begins with `--` are headings, and told as they stand. A value is a string between
//! double quotes, `#N`, the object of that number, or `-`, an argument that is omitted. In
//! words and strings `\x20` is a blank, `\x22` a quote, and `\\` a backslash.
//!
//! - `classes` begins with the native classes alone. `class NAME` begins a class; behind the
//!   name `mixin` makes it one, `of PARENT` tells its superclass, and `inherits A B ..`, at the
//!   end, its mixins. `method NAME body N` is a method of it, and `class`, `private` and
//!   `unguarded` behind that tell how it is defined. The class is defined by the first line
//!   that is none of a method, and what comes of it is told in front of that line.
//!   `order CLASS` tells a class's search order.
//! - `run` makes `.nil` and the objects of the classes, and begins activity 1 with the frame of
//!   a main program.
//! - `send A RECEIVER NAME ARGUMENT ..` sends a message, and `forward` does it by FORWARD.
//!   `above CLASS` behind the name, with a class's name or `#N`, is where the search begins.
//!   `many A RECEIVER NAME N` sends a message with so many arguments, all of them omitted.
//!   `first A` sends the first message of an activity, as its Message tells it. Of a message that
//!   is done, `gives VALUE` or `gives none` tells the answer where the frame on top awaited one and
//!   has it then, and `done` stands where that isn't so.
//! - `end A` takes the top frame of an activity away, and does nothing else. `frame A KIND`
//!   pushes another one, `main`, `routine` or `internal`. `digits A N` sets DIGITS of the top
//!   frame, and `trap A CONDITION ..` its traps, of `nomethod`, `novalue`, `syntax` or a name.
//!   `wait A HOW #N` sets what the activity waits for: `first`, `message`, `guard`, `later`, or
//!   nothing.
//! - `await A HOW` sets how the top frame awaits an answer: `dropped`, `anything`, `message`,
//!   `function` or `string`. By another word, or without one, it has met no call. A frame that a
//!   line pushes awaits anything. Before `send`, `many` and `forward` send a message, the frame on
//!   top awaits an answer once more, as it did the one before, or anything where it has met no
//!   call. Only where `await A never` was the last that was said for that frame, it has met no
//!   call and stays so. `first` leaves the frame on top as it is.
//! - `fill frames A N`, `fill objects N` and `fill activities N` make so many of these, or as
//!   many as there is room for, and tell how many there are then. `count` tells how many
//!   objects, activities and pools there are.
//! - `show` tells of all activities with their frames, of the objects that are no classes, and
//!   of the pools. `show A` tells of an activity with its top frame. That a frame asks for its
//!   pool is told of the top one, with what the activity waits for. Of a frame that has met a call
//!   `awaits HOW` is told, or `answered HOW VALUE` once the answer is there, `none` for no value.
#![tactic(auto)]

mod activities;
mod cases;
mod classes;
mod fitting;
mod frames;
mod line;
mod never;
mod objects;
mod told;

use crate::cases::SendCases;
use rx_tree::OutOfMemory;
use std::alloc::AllocError;
use std::io;

// Want of memory, as the library tells it.
fn wanting(_error: OutOfMemory) -> AllocError {
    AllocError
}

fn main(rt: HostRuntime) -> io::Result<()> {
    let mut cases = SendCases::new(rt.alloc()).map_err(wanting)?;
    for line in rt.lines(rt.alloc()) {
        let told = cases.tell(rt.alloc(), line?.as_str()).map_err(wanting)?;
        print!(rt; "{told}")?;
    }
    Ok(())
}

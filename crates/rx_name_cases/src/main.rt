//! Tells of the calls of templates, variables, pools, frames and their names in its standard input, a line each, what comes
//! of them.
//!
//! A line is the name of a call and its arguments, with a blank between each two. A text stands between double quotes. In
//! texts `\n`, `\r`, `\t` and `\\` are one byte, as in the language that this is written in, and `\xFF` is the byte of that
//! number. A variable's name is `X` for a simple one, `A.` for a stem, and `A.|TAIL` for a compound. An empty line and one that
//! begins with `#` are headings, and told as they stand.
//!
//! - `parse TEXT PART ..` cuts a text by a template: `1` is a target, `.` a period, `"x"` a string, and `=1`, `+1` and `-1`
//!   are positions.
//! - `vars alone` and `vars shared` begin with new variables; `set NAME TEXT`, `drop NAME`, `get NAME`, `expose NAME PLACE` and
//!   `place NAME` are calls on these, where a place is `here`, `below` or a pool's number. `fill STEM COUNT` sets so many
//!   compounds, whose tails are 1, 2 and so on.
//! - `pools` begins with no pools; `pool OBJECT CLASS SIDE`, where a side is `class` or `instance`, `owner POOL`,
//!   `cell POOL NAME`, `put POOL NAME TEXT`, `take POOL NAME`, `look POOL NAME` and `changes CELL` are calls on these. `put` and
//!   `take` ask for the cell first.
//! - `stacks` begins with no activity and no pool of theirs. `begin COUNT` begins so many activities, and tells the last one's
//!   number. The others are calls on an activity and its top frame: `push A KIND COUNT`, where a kind is `main`, `method`,
//!   `routine` or `internal`, `pop A` and `height A`; `alone A` gives the frame variables of its own, as PROCEDURE does;
//!   `own A OBJECT CLASS` gives it an object, and tells the pool; `show A NAME PLACE` exposes a name, where a place is `below`
//!   or a pool's number; `assign A NAME TEXT`, `refer A NAME OBJECT`, `long A NAME LENGTH` and `clear A NAME` give a name a
//!   text, an object, a text of so many letters, or no value where it lives, and ask for its cell first; `read A NAME`,
//!   `lives A NAME`, and `name A SYMBOL`, which tells the name that a symbol stands for. `asks A` and `takes A` say whether the
//!   frame asks for its pool; `waits A HOW MESSAGE`, where how is `nothing`, `first`, `message`, `guard` or `later`, `seen A`
//!   and `first A`.
#![tactic(auto)]

mod line;
mod names;
mod pools;
mod stacks;
mod templates;
mod variables;

use crate::line::Line;
use crate::names::StackCases;
use crate::pools::PoolCases;
use crate::variables::VariableCases;
use std::alloc::{AllocError, Global};
use std::io;

// All that the calls change.
struct Cases {
    variables: VariableCases,
    pools: PoolCases,
    stacks: StackCases,
}

impl Drop for Cases {
    fn drop(self) {
        let Cases {
            variables: _,
            pools: _,
            stacks: _,
        } = self;
    }
}

impl Cases {
    // What a line of the input comes to: the first family of calls that knows it tells.
    fn tell(&mut self, alloc: Global, text: &str) -> Result<String, AllocError> {
        if text.is_empty() || text.starts_with('#') {
            return String::from_str(alloc, text);
        }
        let line = Line::read(alloc, text)?;
        if line.is_call(b"parse") {
            return templates::tell(alloc, &line);
        }
        if let Some(told) = self.variables.tell(alloc, &line)? {
            return Ok(told);
        }
        if let Some(told) = self.pools.tell(alloc, &line)? {
            return Ok(told);
        }
        if let Some(told) = self.stacks.tell(alloc, &line)? {
            return Ok(told);
        }
        String::from_str(alloc, "no such call")
    }
}

fn main(rt: HostRuntime) -> io::Result<()> {
    let mut cases = Cases {
        variables: VariableCases::new(rt.alloc()),
        pools: PoolCases::new(rt.alloc()),
        stacks: StackCases::new(rt.alloc()),
    };
    for line in rt.lines(rt.alloc()) {
        let told = cases.tell(rt.alloc(), line?.as_str())?;
        println!(rt; "{told}")?;
    }
    Ok(())
}

// Calls of the names in frames.
ghost use Rattle.std.specs.Prelude.{◌≡◌, ◌<◌, length};
ghost use Rattle.rx_frames.specs.Activities.{IsBegun};
ghost use Rattle.rx_names.specs.Homes.{IsCellGiven, variables_at};

use crate::line::{Line, Name, quoted, text_of, told_value, value_of, wanting};
use crate::pools::{small, watched};
use crate::stacks;
use crate::stacks::{expose, is_begun};
use rx_frames::Stacks;
use rx_names::{Home, NamesRefused, derive, home_of, set, value};
use rx_pools::Pools;
use rx_tree::{Derived, Name as Symbol, Part, Place, Value};
use sqlite_items::Items;
use std::alloc::{AllocError, Global};

/// The activities that calls are made on, and the pools in which names of theirs live.
pub struct StackCases {
    stacks: Stacks,
    pools: Pools,
}

impl Drop for StackCases {
    fn drop(self) {
        let StackCases {
            stacks: _,
            pools: _,
        } = self;
    }
}

// The calls of names.
const CALLS: [&[u8]; 8] = [
    b"show", b"assign", b"refer", b"long", b"clear", b"read", b"lives", b"name",
];

// A part of a tail that is written so: one that begins with a digit, or is empty, stands for itself.
fn part_of(alloc: Global, piece: &[u8]) -> Result<Part, AllocError> {
    let text = text_of(alloc, piece)?;
    match piece.first() {
        None | Some(b'0'..=b'9') => Ok(Part::Fixed(text)),
        Some(_) => Ok(Part::Of(text)),
    }
}

// The symbol of a variable that is written so.
fn symbol_of(alloc: Global, bytes: &[u8]) -> Result<Symbol, AllocError> {
    let Some(at) = bytes.iter().position(|byte| *byte == b'.') else {
        return Ok(Symbol::Simple(text_of(alloc, bytes)?));
    };
    let stem = text_of(alloc, &bytes[..at + 1])?;
    let tail = &bytes[at + 1..];
    if tail.is_empty() {
        return Ok(Symbol::Stem(stem));
    }
    let mut parts = Items::new(alloc);
    for piece in tail.split(|byte| *byte == b'.') {
        parts.push(part_of(alloc, piece)?)?;
    }
    Ok(Symbol::Compound(stem, parts))
}

fn told_name(alloc: Global, name: &Derived) -> Result<String, AllocError> {
    match name {
        Derived::Simple(text) => quoted(alloc, text.bytes()),
        Derived::Stem(stem) => quoted(alloc, stem.bytes()),
        Derived::Compound(stem, tail) => {
            let stem = quoted(alloc, stem.bytes())?;
            let tail = quoted(alloc, tail.bytes())?;
            format!(in alloc; "{stem} {tail}")
        }
    }
}

fn told_home(alloc: Global, home: Home) -> Result<String, AllocError> {
    match home {
        Home::Frame(down) => format!(in alloc; "frame {down}"),
        Home::Pool(pool) => format!(in alloc; "pool {pool}"),
    }
}

fn told_set(alloc: Global, cell: Option<u64>) -> Result<String, AllocError> {
    match cell {
        Some(cell) => format!(in alloc; "cell {cell}"),
        None => String::from_str(alloc, "done"),
    }
}

impl StackCases {
    /// There is no activity, and no pool.
    pub fn new(alloc: Global) -> StackCases {
        StackCases {
            stacks: Stacks::new(alloc),
            pools: Pools::new(alloc),
        }
    }

    // The name that a symbol stands for.
    fn derive(&self, alloc: Global, a: u32, symbol: &[u8]) -> Result<String, AllocError>
        requires { IsBegun self.now.stacks a }
    {
        let symbol = symbol_of(alloc, symbol)?;
        match derive(alloc, &self.stacks, &self.pools, a, &symbol) {
            Ok(name) => told_name(alloc, &name),
            Err(NamesRefused::Long) => String::from_str(alloc, "long"),
            Err(NamesRefused::OutOfMemory) => Err(AllocError),
        }
    }

    // What a call that only reads comes to.
    fn look(&self, alloc: Global, a: u32, line: &Line) -> Result<Option<String>, AllocError>
        requires { IsBegun self.now.stacks a }
    {
        let name = line.name(alloc, 2)?;
        match line.bytes(0) {
            b"read" => {
                let value = value(&self.stacks, &self.pools, a, &name.derived);
                Ok(Some(told_value(alloc, value)?))
            }
            b"lives" => {
                let home = home_of(&self.stacks, a, &name.derived);
                Ok(Some(told_home(alloc, home)?))
            }
            b"name" => Ok(Some(self.derive(alloc, a, line.bytes(2))?)),
            _ => Ok(None),
        }
    }

    // Gives a name a value or none where it lives, and tells its cell. In a pool the cell is given out first.
    fn change(
        &mut self,
        alloc: Global,
        a: u32,
        name: &Derived,
        value: Option<Value>,
    ) -> Result<String, AllocError>
        requires { IsBegun self.old.stacks a }
    {
        match home_of(&self.stacks, a, name) {
            Home::Frame(_) => {
                let cell = set(&mut self.stacks, &mut self.pools, a, name, value);
                told_set(alloc, cell.map_err(wanting)?)
            }
            Home::Pool(pool) => {
                if pool >= self.pools.count() {
                    return String::from_str(alloc, "no such pool");
                }
                let cell = self.pools.cell(pool, watched(name)).map_err(wanting)?;
                if self.pools.changes(cell) >= 1 << 63 {
                    return String::from_str(alloc, "no such change");
                }
                let cell = set(&mut self.stacks, &mut self.pools, a, name, value);
                told_set(alloc, cell.map_err(wanting)?)
            }
        }
    }

    // Exposes a name at the place that a call tells.
    fn show(&mut self, alloc: Global, a: u32, line: &Line) -> Result<String, AllocError>
        requires { IsBegun self.old.stacks a }
    {
        let name = line.name(alloc, 2)?;
        let place = match line.bytes(3) {
            b"below" => Place::Below,
            _ => Place::Pool(small(line.number(3))),
        };
        expose(&mut self.stacks, a, &name.derived, place)?;
        String::from_str(alloc, "done")
    }

    // What a call of a name that changes something comes to.
    fn assign(&mut self, alloc: Global, a: u32, line: &Line) -> Result<Option<String>, AllocError>
        requires { IsBegun self.old.stacks a }
    {
        let name = line.name(alloc, 2)?;
        let value = match line.bytes(0) {
            b"show" => return Ok(Some(self.show(alloc, a, line)?)),
            b"assign" => Some(value_of(alloc, line.bytes(3))?),
            b"refer" => Some(Value::Ref(small(line.number(3)))),
            b"long" => Some(long_value(alloc, line.number(3))?),
            b"clear" => None,
            _ => return self.look(alloc, a, line),
        };
        Ok(Some(self.change(alloc, a, &name.derived, value)?))
    }

    /// What a call of frames, and of the names in them, comes to.
    pub fn tell(&mut self, alloc: Global, line: &Line) -> Result<Option<String>, AllocError> {
        if line.is_call(b"stacks") {
            *self = StackCases::new(alloc);
            return Ok(Some(String::from_str(alloc, "done")?));
        }
        if line.is_call(b"begin") {
            let told = stacks::begin(alloc, &mut self.stacks, line.number(1))?;
            return Ok(Some(told));
        }
        let a = small(line.number(1));
        if !is_begun(&self.stacks, a) {
            return Ok(None);
        }
        if CALLS.iter().any(|name| line.is_call(name)) {
            return self.assign(alloc, a, line);
        }
        stacks::tell(alloc, &mut self.stacks, &mut self.pools, a, line)
    }
}

// A text of so many letters.
fn long_value(alloc: Global, count: u64) -> Result<Value, AllocError> {
    let mut bytes = Vec::new(alloc);
    bytes.resize(count.min(16_777_216) as usize, b'x')?;
    value_of(alloc, bytes.as_slice())
}

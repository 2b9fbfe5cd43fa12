// Calls of pools.
ghost use Rattle.std.specs.Prelude.{◌≡◌, ◌<◌, length};
ghost use Rattle.rx_pools.specs.Pools.{watched_name};

use crate::line::{Line, Name, told_value, value_of, wanting};
use rx_pools::Pools;
use rx_tree::{Derived, Scope, Text, Value};
use std::alloc::{AllocError, Global};

/// The pools that calls are made on.
pub struct PoolCases {
    pools: Pools,
}

impl Drop for PoolCases {
    fn drop(self) {
        let PoolCases { pools: _ } = self;
    }
}

/// The name under which a variable is watched.
pub fn watched(name: &Derived) -> &Text
    ensures { result.now ≡ watched_name name.now }
{
    match name {
        Derived::Simple(name) => name,
        Derived::Stem(stem) => stem,
        Derived::Compound(stem, _) => stem,
    }
}

/// A number that fits in 32 bits; a greater one is the greatest of these.
pub fn small(number: u64) -> u32 {
    number.min(u64::from(u32::MAX)) as u32
}

// The cell of a name in a pool that is there.
fn cell(alloc: Global, pools: &mut Pools, pool: u32, name: &Name) -> Result<u64, AllocError>
    requires { pool < length pools.old.pools }
{
    pools.cell(pool, watched(&name.derived)).map_err(wanting)
}

// Gives a name of a pool that is there a value or none, and tells its cell.
fn change(
    alloc: Global,
    pools: &mut Pools,
    pool: u32,
    name: &Derived,
    value: Option<Value>,
) -> Result<u64, AllocError>
    requires { pool < length pools.old.pools }
{
    let cell = pools.cell(pool, watched(name)).map_err(wanting)?;
    if pools.changes(cell) >= 1 << 63 {
        return Ok(cell);
    }
    match value {
        Some(value) => pools.set(pool, name, value).map_err(wanting),
        None => pools.drop_name(pool, name).map_err(wanting),
    }
}

// Gives a name of a pool that is there this text as its value.
fn put(
    alloc: Global,
    pools: &mut Pools,
    pool: u32,
    name: &Name,
    bytes: &[u8],
) -> Result<u64, AllocError>
    requires { pool < length pools.old.pools }
{
    let value = value_of(alloc, bytes)?;
    change(alloc, pools, pool, &name.derived, Some(value))
}

fn told_owner(alloc: Global, owner: (u32, Scope)) -> Result<String, AllocError> {
    let (object, scope) = owner;
    let side = if scope.class_side {
        "class"
    } else {
        "instance"
    };
    format!(in alloc; "object {object} class {} {side}", scope.class)
}

impl PoolCases {
    /// There is no pool.
    pub fn new(alloc: Global) -> PoolCases {
        PoolCases {
            pools: Pools::new(alloc),
        }
    }

    fn pool(&mut self, alloc: Global, line: &Line) -> Result<String, AllocError> {
        let scope = Scope {
            class: small(line.number(2)),
            class_side: line.bytes(3) == b"class".as_slice(),
        };
        let object = small(line.number(1));
        let number = self.pools.pool_of(object, scope).map_err(wanting)?;
        format!(in alloc; "{number}")
    }

    // The cell that a call on a name of a pool gives.
    fn cell(&mut self, alloc: Global, line: &Line, pool: u32) -> Result<Option<u64>, AllocError>
        requires { pool < length self.old.pools.pools }
    {
        let name = line.name(alloc, 2)?;
        match line.bytes(0) {
            b"cell" => Ok(Some(cell(alloc, &mut self.pools, pool, &name)?)),
            b"put" => Ok(Some(put(alloc, &mut self.pools, pool, &name, line.bytes(3))?)),
            b"take" => Ok(Some(change(alloc, &mut self.pools, pool, &name.derived, None)?)),
            _ => Ok(None),
        }
    }

    fn look(&self, alloc: Global, line: &Line, pool: u32) -> Result<String, AllocError>
        requires { pool < length self.now.pools.pools }
    {
        let name = line.name(alloc, 2)?;
        told_value(alloc, self.pools.get(pool, &name.derived))
    }

    // What a call on a pool comes to.
    fn on_pool(&mut self, alloc: Global, line: &Line) -> Result<Option<String>, AllocError> {
        let pool = small(line.number(1));
        if pool >= self.pools.count() {
            return Ok(None);
        }
        if line.is_call(b"owner") {
            return Ok(Some(told_owner(alloc, self.pools.owner(pool))?));
        }
        if line.is_call(b"look") {
            return Ok(Some(self.look(alloc, line, pool)?));
        }
        match self.cell(alloc, line, pool)? {
            Some(number) => Ok(Some(format!(in alloc; "cell {number}")?)),
            None => Ok(None),
        }
    }

    /// What a call of pools comes to.
    pub fn tell(&mut self, alloc: Global, line: &Line) -> Result<Option<String>, AllocError> {
        if line.is_call(b"pools") {
            self.pools = Pools::new(alloc);
            return Ok(Some(String::from_str(alloc, "done")?));
        }
        if line.is_call(b"pool") {
            return Ok(Some(self.pool(alloc, line)?));
        }
        if line.is_call(b"changes") {
            let changes = self.pools.changes(line.number(1));
            return Ok(Some(format!(in alloc; "{changes}")?));
        }
        self.on_pool(alloc, line)
    }
}

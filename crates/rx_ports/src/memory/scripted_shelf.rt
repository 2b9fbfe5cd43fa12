// Files in memory that fail where they are told to.
ghost use Rattle.std.specs.Prelude.{◌≡◌, ◌≢◌, ◌↔◌, ◌⊎◌, ℕ, List, None, Some, OnOk, OnErr};
ghost use Rattle.rx_ports.specs.Causes.{HasCause, FailsNext};
ghost use Rattle.rx_ports.specs.Shelves.{Fetches, HasFile, KeepsOthers};
ghost use Rattle.rx_ports.specs.MemoryShelves.{entries_of, file_in, place_in, with_file, bytes_behind, shelf_after_fetch, shelf_after_store};

use crate::{Fetched, Shelf, Stored};
use std::alloc::{AllocError, Global};
use std::marker::Model;

/// Files in memory, which can be told to fail. In contracts they are the record `ShelfState`.
pub struct MemShelf {
    files: Vec<(Vec<u8>, Vec<u8>)>,
    fail: Vec<u64>,
    calls: u64,
    faults: u64,
}

impl Drop for MemShelf {
    fn drop(self) {
        let MemShelf {
            files: _,
            fail: _,
            calls: _,
            faults: _,
        } = self;
    }
}

impl Model for MemShelf {
    ghost use Rattle.rx_ports.specs.MemoryShelves.{ShelfState, entries_of};

    ghost Value = { ShelfState };

    ghost view = { λ s. record {
      entries = entries_of s.files.items;
      fail = s.fail.items;
      calls = s.calls;
      faults = s.faults;
    } };
}

// The place of the first entry of a name, or how many entries there are where it has none.
fn place(files: &[(Vec<u8>, Vec<u8>)], name: &[u8]) -> usize
    ensures { result ≡ place_in (entries_of files.now) name.now }
{
    for (i, (held, _)) in files.iter().enumerate() {
        if held.as_slice() == name {
            return i;
        }
    }
    files.len()
}

// The bytes of the first entry of a name.
fn find<'a>(files: &'a [(Vec<u8>, Vec<u8>)], name: &[u8]) -> Option<&'a [u8]>
    ensures { bytes_behind result ≡ file_in (entries_of files.now) name.now }
{
    for (held, bytes) in files {
        if held.as_slice() == name {
            return Some(bytes.as_slice());
        }
    }
    None
}

// The first bytes of a name, which is a fault where there is none.
fn front(alloc: Global, files: &[(Vec<u8>, Vec<u8>)], name: &[u8], most: usize) -> Fetched
    ensures bytes { Fetches (Some (file_in (entries_of files.now))) name.now most result }
    ensures failed { (result ≡ Fetched.Failed) ↔ (file_in (entries_of files.now) name.now ≡ None) }
{
    let Some(bytes) = find(files, name) else {
        return Fetched::Failed;
    };
    match Vec::from_slice(alloc, &bytes[..most.min(bytes.len())]) {
        Ok(front) => Fetched::Bytes(front),
        Err(_) => Fetched::NoMemory,
    }
}

// Gives the name these bytes.
fn put_file(
    alloc: Global,
    files: &mut Vec<(Vec<u8>, Vec<u8>)>,
    name: &[u8],
    bytes: &[u8],
) -> Result<(), AllocError>
    ensures done { OnOk result (entries_of files.new.items ≡
        with_file (entries_of files.old.items) name.now bytes.now) }
    ensures unchanged { OnErr result (entries_of files.new.items ≡ entries_of files.old.items) }
{
    let copy = bytes.to_vec(alloc)?;
    let at = place(files.as_slice(), name);
    if at < files.len() {
        files[at].1 = copy;
        return Ok(());
    }
    let held = name.to_vec(alloc)?;
    files.push((held, copy))?;
    Ok(())
}

impl MemShelf {
    /// A shelf of these names and their bytes. Where a name stands more than once, its first entry
    /// counts. `fail` has the numbers of the calls that are to fail, of `fetch` and `store`
    /// together, counted from 1.
    pub fn new(files: Vec<(Vec<u8>, Vec<u8>)>, fail: Vec<u64>) -> Self
        ensures entries { result.entries ≡ entries_of files.items }
        ensures fail { result.fail ≡ fail.items }
        ensures calls { result.calls ≡ 0 }
        ensures faults { result.faults ≡ 0 }
    {
        MemShelf {
            files,
            fail,
            calls: 0,
            faults: 0,
        }
    }

    /// The bytes of a name, or `None` where the shelf doesn't have it.
    pub fn file(&self, name: &[u8]) -> Option<&[u8]>
        ensures { bytes_behind result ≡ file_in self.now.entries name.now }
    {
        find(self.files.as_slice(), name)
    }
}

impl Shelf for MemShelf {
    ghost files = { λ s. Some (file_in s.entries) };

    ghost faults = { λ s. s.faults };

    /// The first `most` bytes of the name. It fails at a missing name, where it is told to, and
    /// nowhere else.
    fn fetch(&mut self, alloc: Global, name: &[u8], most: usize) -> Fetched
        ensures bytes { Fetches (Some (file_in self.old.entries)) name.now most result }
        ensures kept { self.new.entries ≡ self.old.entries }
        ensures cause { HasCause self.old.faults self.new.faults (result ≡ Fetched.Failed) }

        // When it fails, and what becomes of the shelf.
        ensures failed { (result ≡ Fetched.Failed) ↔
            (FailsNext self.old.fail self.old.calls ⊎ (file_in self.old.entries name.now ≡ None)) }
        ensures after { self.new ≡ shelf_after_fetch self.old result }
    {
        self.calls = self.calls.saturating_add(1);
        if self.fail.contains(&self.calls) {
            self.faults = self.faults.saturating_add(1);
            return Fetched::Failed;
        }
        let answer = front(alloc, self.files.as_slice(), name, most);
        if matches!(&answer, Fetched::Failed) {
            self.faults = self.faults.saturating_add(1);
        }
        answer
    }

    /// Makes the name have just these bytes. It fails where it is told to and nowhere else, and
    /// changes no file then.
    fn store(&mut self, alloc: Global, name: &[u8], bytes: &[u8]) -> Stored
        ensures done { result ≡ Stored.Done → file_in self.new.entries name.now ≡ Some bytes.now }
        ensures others { (other : List ℕ) → other ≢ name.now →
            file_in self.new.entries other ≡ file_in self.old.entries other }
        ensures cause { HasCause self.old.faults self.new.faults (result ≡ Stored.Failed) }

        // When it fails, and what becomes of the shelf.
        ensures failed { (result ≡ Stored.Failed) ↔ FailsNext self.old.fail self.old.calls }
        ensures after { self.new ≡ shelf_after_store self.old name.now bytes.now result }
    {
        self.calls = self.calls.saturating_add(1);
        if self.fail.contains(&self.calls) {
            self.faults = self.faults.saturating_add(1);
            return Stored::Failed;
        }
        match put_file(alloc, &mut self.files, name, bytes) {
            Ok(()) => Stored::Done,
            Err(_) => Stored::NoMemory,
        }
    }
}

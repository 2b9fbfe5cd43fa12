// Files by their paths.
ghost use Rattle.std.specs.Prelude.{◌≡◌, ◌≢◌, None, IsUtf8};
ghost use Rattle.rx_ports.specs.Causes.{HasCause};
ghost use Rattle.rx_ports.specs.Shelves.{Fetches};

use super::transfers::{is_out_of_memory, read_front, write_whole};
use crate::{Accepted, Fetched, Shelf, Stored};
use std::alloc::Global;
use std::fs::{File, OpenFile};
use std::io::ErrorKind;
use std::marker::Model;
use std::rt::Files;
use std::{fs, io, str};

/// The files that the program can reach. A name is a path in UTF-8, absolute or from the working
/// directory on. It tells nothing of what the files hold. In contracts it is its count of faults.
pub struct DirShelf<R> {
    rt: R,
    faults: u64,
}

impl<R: Drop> Drop for DirShelf<R> {
    fn drop(self) {
        let DirShelf { rt: _, faults: _ } = self;
    }
}

impl<R> Model for DirShelf<R> {
    ghost use Rattle.std.specs.Prelude.{ℕ};

    ghost Value = { ℕ };

    ghost view = { λ s. s.faults };
}

impl<R> DirShelf<R> {
    /// The files that this runtime reaches.
    pub fn new(rt: R) -> Self
        ensures { result ≡ 0 }
    {
        DirShelf { rt, faults: 0 }
    }
}

impl<R: Files> Shelf for DirShelf<R> {
    ghost files = { λ _. None };

    ghost faults = { λ s. s };

    /// The first `most` bytes of a file. It is a fault where the name is not UTF-8, where there is
    /// no such file, where it is a folder, and where it can't be read.
    fn fetch(&mut self, alloc: Global, name: &[u8], most: usize) -> Fetched
        ensures bytes { Fetches None name.now most result }
        ensures cause { HasCause self.old self.new (result ≡ Fetched.Failed) }
        ensures quiet { result ≢ Fetched.Failed → self.new ≡ self.old }
        ensures not_utf8 { ¬ (IsUtf8 name.now) → result ≡ Fetched.Failed }
    {
        let answer = match str::from_utf8(name) {
            Ok(path) => fetch_path(&self.rt, alloc, path, most),
            Err(_) => Fetched::Failed,
        };
        if matches!(&answer, Fetched::Failed) {
            self.faults = self.faults.saturating_add(1);
        }
        answer
    }

    /// Makes a file have just these bytes. They are written to a new file beside it, named as it is
    /// with `.0.new` or another number after that, which then takes its place. So an older file is
    /// whole at every moment, and after a fault it is as it was. The new file has the permissions
    /// of any new file, and takes the place of a symbolic link too. A path that leads to a device
    /// or a pipe is written to directly. It is a fault where the name is not UTF-8 and where a step
    /// fails.
    fn store(&mut self, alloc: Global, name: &[u8], bytes: &[u8]) -> Stored
        ensures cause { HasCause self.old self.new (result ≡ Stored.Failed) }
        ensures quiet { result ≢ Stored.Failed → self.new ≡ self.old }
        ensures not_utf8 { ¬ (IsUtf8 name.now) → result ≡ Stored.Failed }
    {
        let answer = match str::from_utf8(name) {
            Ok(path) => store_path(&self.rt, alloc, path, bytes),
            Err(_) => Stored::Failed,
        };
        if answer == Stored::Failed {
            self.faults = self.faults.saturating_add(1);
        }
        answer
    }
}

// How many names are tried for a new file beside another.
const TRIES: u32 = 100;

// The first bytes of the file at a path.
fn fetch_path<R: Files>(rt: &R, alloc: Global, path: &str, most: usize) -> Fetched
    ensures { Fetches None path.now most result }
{
    match fs::open(rt, path) {
        Ok(mut file) => read_front(alloc, &mut file, most),
        Err(error) => {
            if is_out_of_memory(&error) {
                Fetched::NoMemory
            } else {
                Fetched::Failed
            }
        }
    }
}

// Makes the file at a path have these bytes, or sends them to the device or the pipe there.
fn store_path<R: Files>(rt: &R, alloc: Global, path: &str, bytes: &[u8]) -> Stored {
    match fs::metadata(rt, path) {
        Ok(found) if !found.is_file() => match fs::create(rt, path) {
            Ok(mut file) => stored(write_whole(&mut file, bytes)),
            Err(error) => refused(&error),
        },
        _ => replace(rt, alloc, path, bytes),
    }
}

// Writes the bytes to a file of a new name beside a path, and moves it there.
fn replace<R: Files>(rt: &R, alloc: Global, path: &str, bytes: &[u8]) -> Stored {
    for number in 0..TRIES {
        let Ok(beside) = format!(in alloc; "{path}.{number}.new") else {
            return Stored::NoMemory;
        };
        match File::create_new(rt, beside.as_str()) {
            Ok(file) => return fill_and_move(rt, file, beside.as_str(), path, bytes),
            Err(error) => {
                if error.kind() != ErrorKind::AlreadyExists {
                    return refused(&error);
                }
            }
        }
    }
    Stored::Failed
}

// Fills a new file and moves it to a path, or removes it where a step fails.
fn fill_and_move<R: Files>(
    rt: &R,
    mut file: R::File,
    beside: &str,
    path: &str,
    bytes: &[u8],
) -> Stored {
    let mut answer = stored(write_whole(&mut file, bytes));
    if answer == Stored::Done {
        answer = match move_there(rt, &file, beside, path) {
            Ok(()) => Stored::Done,
            Err(error) => refused(&error),
        };
    }
    if answer != Stored::Done {
        let _ = fs::remove_file(rt, beside);
    }
    answer
}

// Moves a new file to a path once its bytes are on the disk.
fn move_there<R: Files>(rt: &R, file: &R::File, beside: &str, path: &str) -> io::Result<()> {
    file.sync_all()?;
    fs::rename(rt, beside, path)
}

// What a write that ended so is as a store.
fn stored(written: Accepted) -> Stored {
    match written {
        Accepted::All => Stored::Done,
        Accepted::Failed => Stored::Failed,
        Accepted::NoMemory => Stored::NoMemory,
    }
}

// What a store that met this error is.
fn refused(error: &io::Error) -> Stored {
    if is_out_of_memory(error) {
        Stored::NoMemory
    } else {
        Stored::Failed
    }
}

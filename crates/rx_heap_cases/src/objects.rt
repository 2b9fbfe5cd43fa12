// Calls on objects.
ghost use Rattle.std.specs.Prelude.{◌<◌, ◌≤◌};
ghost use Rattle.std.specs.Bool.{OnTrue};
ghost use Rattle.rx_heap.specs.Arrays.{most_places};
ghost use Rattle.rx_heap.specs.Objects.{IsObject, IsOfKind};

use crate::line::Line;
use crate::rows::{change_row, told_row};
use crate::told::{kind_name, told_bytes, told_item, told_number, told_taken, told_word};
use rx_heap::{Heap, HeapRefused, Kind, OutOfMemory};
use std::alloc::Global;

/// The objects that calls are made on.
pub struct HeapCases {
    heap: Heap,
}

impl Drop for HeapCases {
    fn drop(self) {
        let HeapCases { heap: _ } = self;
    }
}

// Whether a number is an index of an Array.
fn is_index(i: u32) -> bool
    ensures { OnTrue result ((0 < i) × (i ≤ most_places)) }
{
    i >= 1 && i <= Heap::MOST_PLACES
}

// `.nil` and classes: up to the one of this number, at least to 8 and at most to 1,048,576.
fn first_objects(alloc: Global, classes: u32) -> Result<Heap, OutOfMemory> {
    Heap::new(alloc, classes.clamp(8, Heap::MOST_PLACES))
}

impl HeapCases {
    /// There are `.nil` and the native classes.
    pub fn new(alloc: Global) -> Result<HeapCases, OutOfMemory> {
        let heap = first_objects(alloc, 8)?;
        Ok(HeapCases { heap })
    }

    fn make(&mut self, alloc: Global, line: &Line) -> Result<String, OutOfMemory> {
        match self.heap.make(line.number(1), line.kind(2)) {
            Ok(number) => told_number(alloc, number),
            Err(HeapRefused::Full) => told_word(alloc, "full"),
            Err(HeapRefused::OutOfMemory) => Err(OutOfMemory),
        }
    }

    // Whether there is an object of this number.
    fn has(&self, o: u32) -> bool
        ensures { OnTrue result (IsObject self.now.heap o) }
    {
        o >= 1 && o <= self.heap.count()
    }

    // What a call on an index of an Array comes to.
    fn of_index(
        &mut self,
        alloc: Global,
        line: &Line,
        o: u32,
        i: u32,
    ) -> Result<Option<String>, OutOfMemory>
        requires array { IsOfKind self.old.heap o Kind.Array }
        requires index { (0 < i) × (i ≤ most_places) }
    {
        match line.word(0) {
            b"put" => {
                let value = line.value(alloc, 3)?;
                self.heap.array_put(o, i, value)?;
                Ok(Some(told_word(alloc, "done")?))
            }
            b"at" => Ok(Some(told_item(alloc, self.heap.array_at(o, i))?)),
            b"remove" => Ok(Some(told_taken(alloc, self.heap.array_remove(o, i))?)),
            _ => Ok(None),
        }
    }

    // What a call on an Array comes to.
    fn of_array(
        &mut self,
        alloc: Global,
        line: &Line,
        o: u32,
    ) -> Result<Option<String>, OutOfMemory>
        requires { IsOfKind self.old.heap o Kind.Array }
    {
        let i = line.number(2);
        match line.word(0) {
            b"items" => Ok(Some(told_number(alloc, self.heap.array_items(o))?)),
            b"size" => Ok(Some(told_number(alloc, self.heap.array_size(o))?)),
            b"resize" => {
                let size = i.min(Heap::MOST_PLACES);
                self.heap.array_resize(o, size)?;
                Ok(Some(told_word(alloc, "done")?))
            }
            _ if is_index(i) => self.of_index(alloc, line, o, i),
            _ => Ok(None),
        }
    }

    // What a call on a Queue comes to.
    fn of_queue(
        &mut self,
        alloc: Global,
        line: &Line,
        o: u32,
    ) -> Result<Option<String>, OutOfMemory>
        requires { IsOfKind self.old.heap o Kind.Queue }
    {
        match line.word(0) {
            b"add" => {
                let value = line.value(alloc, 2)?;
                self.heap.queue_add(o, value)?;
                Ok(Some(told_word(alloc, "done")?))
            }
            b"push" => {
                let value = line.value(alloc, 2)?;
                self.heap.queue_push(o, value)?;
                Ok(Some(told_word(alloc, "done")?))
            }
            b"pull" => Ok(Some(told_taken(alloc, self.heap.queue_pull(o))?)),
            b"at" => {
                let place = line.number(2).max(1);
                Ok(Some(told_item(alloc, self.heap.queue_at(o, place))?))
            }
            b"items" => Ok(Some(told_number(alloc, self.heap.queue_items(o))?)),
            _ => Ok(None),
        }
    }

    // The entry at a place of a Directory.
    fn entry(&self, alloc: Global, o: u32, place: u32) -> Result<String, OutOfMemory>
        requires { IsOfKind self.now.heap o Kind.Directory }
    {
        let names = self.heap.directory_names(o)?;
        let Some(name) = names.as_slice().get(place.max(1) as usize - 1) else {
            return told_word(alloc, "none");
        };
        let told = told_bytes(alloc, name.bytes())?;
        let value = told_item(alloc, self.heap.directory_get(o, name.bytes()))?;
        Ok(format!(in alloc; "{told} {value}")?)
    }

    // What a call on a Directory comes to.
    fn of_directory(
        &mut self,
        alloc: Global,
        line: &Line,
        o: u32,
    ) -> Result<Option<String>, OutOfMemory>
        requires { IsOfKind self.old.heap o Kind.Directory }
    {
        match line.word(0) {
            b"put" => {
                let name = line.text(alloc, 2)?;
                let value = line.value(alloc, 3)?;
                self.heap.directory_put(o, &name, value)?;
                Ok(Some(told_word(alloc, "done")?))
            }
            b"at" => {
                let value = self.heap.directory_get(o, line.word(2));
                Ok(Some(told_item(alloc, value)?))
            }
            b"remove" => {
                let value = self.heap.directory_remove(o, line.word(2));
                Ok(Some(told_taken(alloc, value)?))
            }
            b"entry" => Ok(Some(self.entry(alloc, o, line.number(2))?)),
            b"items" => Ok(Some(told_number(alloc, self.heap.directory_items(o))?)),
            _ => Ok(None),
        }
    }

    // What a call on a Message comes to.
    fn of_message(
        &mut self,
        alloc: Global,
        line: &Line,
        o: u32,
    ) -> Result<Option<String>, OutOfMemory>
        requires { IsOfKind self.old.heap o Kind.Message }
    {
        if line.word(0) == b"message".as_slice() {
            return Ok(Some(told_row(alloc, self.heap.message(o))?));
        }
        if change_row(alloc, line, self.heap.message_mut(o))? {
            return Ok(Some(told_word(alloc, "done")?));
        }
        Ok(None)
    }

    // What a call on what an object holds comes to.
    fn of_contents(
        &mut self,
        alloc: Global,
        line: &Line,
        o: u32,
    ) -> Result<Option<String>, OutOfMemory>
        requires { IsObject self.old.heap o }
    {
        match self.heap.kind(o) {
            Kind::Array => self.of_array(alloc, line, o),
            Kind::Queue => self.of_queue(alloc, line, o),
            Kind::Directory => self.of_directory(alloc, line, o),
            Kind::Message => self.of_message(alloc, line, o),
            Kind::Plain | Kind::ClassObject => Ok(None),
        }
    }

    // What a call on an object that is there comes to.
    fn of_object(
        &mut self,
        alloc: Global,
        line: &Line,
        o: u32,
    ) -> Result<Option<String>, OutOfMemory>
        requires { IsObject self.old.heap o }
    {
        match line.word(0) {
            b"class" => Ok(Some(told_number(alloc, self.heap.class_of(o))?)),
            b"kind" => Ok(Some(told_word(alloc, kind_name(self.heap.kind(o)))?)),
            _ => self.of_contents(alloc, line, o),
        }
    }

    /// What a call comes to.
    pub fn tell(&mut self, alloc: Global, line: &Line) -> Result<Option<String>, OutOfMemory> {
        let o = line.number(1);
        match line.word(0) {
            b"objects" => {
                self.heap = first_objects(alloc, o)?;
                Ok(Some(told_word(alloc, "done")?))
            }
            b"make" => Ok(Some(self.make(alloc, line)?)),
            b"count" => Ok(Some(told_number(alloc, self.heap.count())?)),
            _ if self.has(o) => self.of_object(alloc, line, o),
            _ => Ok(None),
        }
    }
}

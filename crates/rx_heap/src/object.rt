// Objects.
ghost use Rattle.std.specs.Prelude.{◌≡◌, ◌<◌, ◌≤◌, [], ◌∷◌, ◌++◌, drop, slice_get, IfOk, OnErr, OnOk};
ghost use Rattle.std.specs.Borrow.{sem};
ghost use Rattle.rx_tree.specs.Object.{Line, Message, Names, Places};
ghost use Rattle.rx_vars.specs.Tables.{look_up, with_entry};
ghost use Rattle.rx_heap.specs.Arrays.{item_in, most_places, with_item, with_size, without_item};
ghost use Rattle.rx_heap.specs.Directories.{without_name};
ghost use Rattle.rx_heap.specs.Objects.{entries_in, items_in, kind_by, new_object, places_in};

use crate::array::Array;
use crate::contents::Contents;
use crate::directory::Directory;
use crate::kind::Kind;
use crate::message::MessageRow;
use crate::queue::Queue;
use rx_tree::{OutOfMemory, Text, Value};
use std::alloc::Global;
use std::marker::Model;

/// An object: the number of its class, and what it holds. Contracts see it as the machine's.
pub struct Object {
    class: u32,
    contents: Contents,
    // A Message has one, and others have none: so they take no room for it.
    rows: Vec<MessageRow>,
}

impl Drop for Object {
    fn drop(self) {
        let Object {
            class: _,
            contents: _,
            rows: _,
        } = self;
    }
}

impl Model for Object {
    ghost use Rattle.std.specs.Prelude.{◌≡◌, length};
    ghost use Rattle.rx_tree.specs.Object.{Object as Recorded};
    ghost use Rattle.rx_heap.specs.Kept.{held, row_count};

    ghost Value = { Recorded };

    ghost view = { λ o. record { class = o.class; contents = held o.contents o.rows.items } };

    ghost invariant = { λ o. length o.rows.items ≡ row_count o.contents };
}

impl Object {
    ghost use Rattle.rx_heap.specs.ObjectLends.{lends_message_of};
    ghost use Rattle.rx_heap.specs.Kept.{held, row_count, sending};

    // An object that is no Message.
    fn without_row(alloc: Global, class: u32, contents: Contents) -> Object
        requires { row_count contents ≡ 0 }
        ensures { result ≡ record { class = class; contents = held contents [] } }
    {
        Object {
            class,
            contents,
            rows: Vec::new(alloc),
        }
    }

    fn new_message(alloc: Global, class: u32) -> Result<Object, OutOfMemory>
        ensures { IfOk result (λ object. object ≡ new_object class Kind.Message) }
    {
        let row = MessageRow::new(alloc)?;
        let mut rows = Vec::new(alloc);
        rows.push(row)?;
        Ok(Object {
            class,
            contents: Contents::Message,
            rows,
        })
    }

    /// A new object of a class and a kind, or want of memory.
    pub fn new(alloc: Global, class: u32, kind: Kind) -> Result<Object, OutOfMemory>
        ensures { IfOk result (λ object. object ≡ new_object class kind) }
    {
        match kind {
            Kind::Plain => Ok(Object::without_row(alloc, class, Contents::Plain)),
            Kind::ClassObject => Ok(Object::without_row(alloc, class, Contents::ClassObject)),
            Kind::Array => {
                let places = Array::new(alloc);
                Ok(Object::without_row(alloc, class, Contents::Array(places)))
            }
            Kind::Queue => {
                let items = Queue::new(alloc);
                Ok(Object::without_row(alloc, class, Contents::Queue(items)))
            }
            Kind::Directory => {
                let entries = Directory::new(alloc);
                Ok(Object::without_row(alloc, class, Contents::Directory(entries)))
            }
            Kind::Message => Object::new_message(alloc, class),
        }
    }

    /// The number of its class.
    pub fn class(&self) -> u32
        ensures { result ≡ self.now.class }
    {
        self.class
    }

    /// Its kind.
    pub fn kind(&self) -> Kind
        ensures { result ≡ kind_by self.now.contents }
    {
        match &self.contents {
            Contents::Plain => Kind::Plain,
            Contents::ClassObject => Kind::ClassObject,
            Contents::Array(_) => Kind::Array,
            Contents::Queue(_) => Kind::Queue,
            Contents::Directory(_) => Kind::Directory,
            Contents::Message => Kind::Message,
        }
    }

    /// The row of a Message.
    #[tactic(auto, using(crate::proofs::ObjectLemmas::row_there, crate::proofs::ObjectLemmas::held_row, crate::proofs::ObjectLemmas::held_written))]
    pub fn message(&self) -> &MessageRow
        requires { kind_by self.now.contents ≡ Kind.Message }
        ensures row { self.now.contents ≡ Message (sending result.now) }
    {
        &self.rows[0]
    }

    /// The row of a Message, to be changed.
    #[tactic(auto, using(crate::proofs::ObjectLemmas::row_there, crate::proofs::ObjectLemmas::held_row, crate::proofs::ObjectLemmas::held_written))]
    pub fn message_mut(&mut self) -> &mut MessageRow
        requires { kind_by self.old.contents ≡ Kind.Message }
        ensures* writes_back { sem 𝓛 (lends_message_of self.entry result) }
        ensures row { self.old.contents ≡ Message (sending result.now) }
    {
        &mut self.rows[0]
    }

    /// The places of an Array.
    pub fn array(&self) -> &Array
        requires { kind_by self.now.contents ≡ Kind.Array }
        ensures places { self.now.contents ≡ Places result.now }
    {
        match &self.contents {
            Contents::Array(array) => array,
            _ => unreachable!(),
        }
    }

    /// The items of a Queue.
    pub fn queue(&self) -> &Queue
        requires { kind_by self.now.contents ≡ Kind.Queue }
        ensures items { self.now.contents ≡ Line result.now }
    {
        match &self.contents {
            Contents::Queue(queue) => queue,
            _ => unreachable!(),
        }
    }

    /// The names of a Directory with their values.
    pub fn directory(&self) -> &Directory
        requires { kind_by self.now.contents ≡ Kind.Directory }
        ensures entries { self.now.contents ≡ Names result.now }
    {
        match &self.contents {
            Contents::Directory(directory) => directory,
            _ => unreachable!(),
        }
    }

    /// Puts an item at a place of an Array, or wants memory.
    pub fn array_put(&mut self, place: u32, item: Value) -> Result<(), OutOfMemory>
        requires array { kind_by self.old.contents ≡ Kind.Array }
        requires within { place < most_places }
        ensures ok { OnOk result
            (self.new ≡ record self.old { contents = Places (with_item (places_in self.old.contents) place item) }) }
        ensures err { OnErr result (self.new ≡ self.old) }
    {
        match &mut self.contents {
            Contents::Array(array) => array.put(place, item),
            _ => unreachable!(),
        }
    }

    /// Takes the item at a place of an Array away, if there is one.
    pub fn array_remove(&mut self, place: u32) -> Option<Value>
        requires array { kind_by self.old.contents ≡ Kind.Array }
        ensures item { result ≡ item_in (places_in self.old.contents) place }
        ensures rest { self.new ≡ record self.old { contents = Places (without_item (places_in self.old.contents) place) } }
    {
        match &mut self.contents {
            Contents::Array(array) => array.remove(place),
            _ => unreachable!(),
        }
    }

    /// Makes so many places of an Array, where there are fewer.
    pub fn array_resize(&mut self, size: u32)
        requires array { kind_by self.old.contents ≡ Kind.Array }
        requires fits { size ≤ most_places }
        ensures size { self.new ≡ record self.old { contents = Places (with_size (places_in self.old.contents) size) } }
    {
        match &mut self.contents {
            Contents::Array(array) => array.resize(size),
            _ => unreachable!(),
        }
    }

    /// Puts an item at the end of a Queue, or wants memory.
    pub fn queue_add(&mut self, item: Value) -> Result<(), OutOfMemory>
        requires queue { kind_by self.old.contents ≡ Kind.Queue }
        ensures ok { OnOk result
            (self.new ≡ record self.old { contents = Line (items_in self.old.contents ++ item ∷ []) }) }
        ensures err { OnErr result (self.new ≡ self.old) }
    {
        match &mut self.contents {
            Contents::Queue(queue) => queue.add(item),
            _ => unreachable!(),
        }
    }

    /// Puts an item at the front of a Queue, or wants memory.
    pub fn queue_push(&mut self, item: Value) -> Result<(), OutOfMemory>
        requires queue { kind_by self.old.contents ≡ Kind.Queue }
        ensures ok { OnOk result
            (self.new ≡ record self.old { contents = Line (item ∷ items_in self.old.contents) }) }
        ensures err { OnErr result (self.new ≡ self.old) }
    {
        match &mut self.contents {
            Contents::Queue(queue) => queue.push(item),
            _ => unreachable!(),
        }
    }

    /// Takes the item at the front of a Queue away, if there is one.
    pub fn queue_pull(&mut self) -> Option<Value>
        requires queue { kind_by self.old.contents ≡ Kind.Queue }
        ensures item { result ≡ slice_get (items_in self.old.contents) 0 }
        ensures rest { self.new ≡ record self.old { contents = Line (drop 1 (items_in self.old.contents)) } }
    {
        match &mut self.contents {
            Contents::Queue(queue) => queue.pull(),
            _ => unreachable!(),
        }
    }

    /// Puts a value under a name of a Directory, or wants memory.
    pub fn directory_put(&mut self, name: &Text, value: Value) -> Result<(), OutOfMemory>
        requires directory { kind_by self.old.contents ≡ Kind.Directory }
        ensures ok { OnOk result
            (self.new ≡ record self.old { contents = Names (with_entry (entries_in self.old.contents) name.now value) }) }
        ensures err { OnErr result (self.new ≡ self.old) }
    {
        match &mut self.contents {
            Contents::Directory(directory) => directory.put(name, value),
            _ => unreachable!(),
        }
    }

    /// Takes a name of a Directory away, if it is there.
    pub fn directory_remove(&mut self, name: &[u8]) -> Option<Value>
        requires directory { kind_by self.old.contents ≡ Kind.Directory }
        ensures value { result ≡ look_up (entries_in self.old.contents) name.now }
        ensures rest { self.new ≡ record self.old { contents = Names (without_name (entries_in self.old.contents) name.now) } }
    {
        match &mut self.contents {
            Contents::Directory(directory) => directory.remove(name),
            _ => unreachable!(),
        }
    }
}

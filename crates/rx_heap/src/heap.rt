// The objects of a run.
ghost use Rattle.std.specs.Prelude.{◌≡◌, ◌+◌, ◌-◌, ◌<◌, ◌≤◌, ◌++◌, ◌↔◌, [], ◌∷◌, length, drop, slice_get, IfOk, OnErr, OnOk, Ok, Err};
ghost use Rattle.std.specs.Borrow.{sem};
ghost use Rattle.std.specs.Option.{option_copied};
ghost use Rattle.rx_tree.specs.Object.{Line, Message, Names, Places};
ghost use Rattle.rx_vars.specs.Tables.{look_up, with_entry};
ghost use Rattle.rx_heap.specs.Arrays.{item_count, item_in, most_places, with_item, with_size, without_item};
ghost use Rattle.rx_heap.specs.Directories.{names_of, without_name};
ghost use Rattle.rx_heap.specs.Kept.{sending};
ghost use Rattle.rx_heap.specs.Objects.{IsObject, IsOfKind, class_at, contents_at, entries_at, first_objects, items_at, kind_by, most_objects, new_object, object_at, places_at, with_contents};

use crate::array::Array;
use crate::directory::Directory;
use crate::kind::Kind;
use crate::message::MessageRow;
use crate::object::Object;
use crate::queue::Queue;
use rx_tree::{OutOfMemory, Text, Value};
use sqlite_items::Items;
use std::alloc::Global;
use std::marker::Model;

/// Why an object isn't made.
#[derive(Clone, Copy, Debug, PartialEq, Eq)]
pub enum HeapRefused {
    /// There are 1,048,576 objects.
    Full,
    OutOfMemory,
}

/// The objects of a run, with what each holds. Contracts see the list of them; an object's number is its place, from 1.
///
/// No call takes a time that grows with the number of objects, nor with what they hold, but for the list of a Directory's
/// names. To put a name and to take one away take the logarithm of their number.
pub struct Heap {
    alloc: Global,
    objects: Vec<Object>,
}

impl Drop for Heap {
    fn drop(self) {
        let Heap {
            alloc: _,
            objects: _,
        } = self;
    }
}

impl Model for Heap {
    ghost use Rattle.std.specs.Prelude.{List, ◌≤◌, length};
    ghost use Rattle.rx_tree.specs.Object.{Object as Recorded};
    ghost use Rattle.rx_heap.specs.Objects.{most_objects};

    ghost Value = { List Recorded };

    ghost view = { λ h. h.objects.items };

    ghost invariant = { λ h. length h.objects.items ≤ most_objects };
}

impl Heap {
    ghost use Rattle.rx_heap.specs.HeapLends.{lends_message};

    /// The most objects.
    pub const MOST: usize = 1_048_576;

    /// The greatest index of an Array.
    pub const MOST_PLACES: u32 = 1_048_576;

    /// The objects before any is made: `.nil`, and the classes up to the one of this number, or want of memory.
    pub fn new(alloc: Global, classes: u32) -> Result<Heap, OutOfMemory>
        requires natives { 8 ≤ classes }
        requires fits { classes ≤ most_objects }
        ensures objects { IfOk result (λ heap. heap ≡ first_objects classes) }
    {
        let mut objects = Vec::new(alloc);
        objects.push(Object::new(alloc, 2, Kind::Plain)?)?;
        for _made in 0..classes - 1 {
            objects.push(Object::new(alloc, 3, Kind::ClassObject)?)?;
        }
        Ok(Heap { alloc, objects })
    }

    /// How many objects there are.
    pub fn count(&self) -> u32
        ensures count { result ≡ length self.now }
    {
        self.objects.len() as u32
    }

    /// Makes an object, and tells its number. It is `Full` where there are 1,048,576.
    pub fn make(&mut self, class: u32, kind: Kind) -> Result<u32, HeapRefused>
        ensures number { IfOk result (λ number. number ≡ length self.old + 1) }
        ensures ok { OnOk result (self.new ≡ self.old ++ new_object class kind ∷ []) }
        ensures full { (result ≡ Err HeapRefused.Full) ↔ (length self.old ≡ most_objects) }
        ensures err { OnErr result (self.new ≡ self.old) }
    {
        if self.objects.len() == Self::MOST {
            return Err(HeapRefused::Full);
        }
        let object = match Object::new(self.alloc, class, kind) {
            Ok(object) => object,
            Err(_) => return Err(HeapRefused::OutOfMemory),
        };
        match self.objects.push(object) {
            Ok(_) => Ok(self.objects.len() as u32),
            Err(_) => Err(HeapRefused::OutOfMemory),
        }
    }

    fn object(&self, o: u32) -> &Object
        requires { IsObject self.now o }
        ensures { object_at self.now o ≡ Some result.now }
    {
        &self.objects[o as usize - 1]
    }

    /// The number of an object's class.
    pub fn class_of(&self, o: u32) -> u32
        requires there { IsObject self.now o }
        ensures class { result ≡ class_at self.now o }
    {
        self.object(o).class()
    }

    /// An object's kind.
    pub fn kind(&self, o: u32) -> Kind
        requires there { IsObject self.now o }
        ensures kind { result ≡ kind_by (contents_at self.now o) }
    {
        self.object(o).kind()
    }

    fn array(&self, o: u32) -> &Array
        requires array { IsOfKind self.now o Kind.Array }
        ensures places { contents_at self.now o ≡ Places result.now }
    {
        self.object(o).array()
    }

    fn queue(&self, o: u32) -> &Queue
        requires queue { IsOfKind self.now o Kind.Queue }
        ensures items { contents_at self.now o ≡ Line result.now }
    {
        self.object(o).queue()
    }

    fn directory(&self, o: u32) -> &Directory
        requires directory { IsOfKind self.now o Kind.Directory }
        ensures entries { contents_at self.now o ≡ Names result.now }
    {
        self.object(o).directory()
    }

    /// The row of a Message.
    pub fn message(&self, o: u32) -> &MessageRow
        requires message { IsOfKind self.now o Kind.Message }
        ensures row { contents_at self.now o ≡ Message (sending result.now) }
    {
        self.object(o).message()
    }

    /// The row of a Message, to be changed.
    pub fn message_mut(&mut self, o: u32) -> &mut MessageRow
        requires message { IsOfKind self.old o Kind.Message }
        ensures* writes_back { sem 𝓛 (lends_message self.entry o result) }
        ensures row { contents_at self.old o ≡ Message (sending result.now) }
    {
        self.objects[o as usize - 1].message_mut()
    }

    /// The item at an index of an Array, if there is one.
    pub fn array_at(&self, o: u32, i: u32) -> Option<&Value>
        requires array { IsOfKind self.now o Kind.Array }
        requires index { (0 < i) × (i ≤ most_places) }
        ensures item { option_copied result ≡ item_in (places_at self.now o) (i - 1) }
    {
        self.array(o).get(i - 1)
    }

    /// Puts an item at an index of an Array, or wants memory. Its size is at least that index then.
    pub fn array_put(&mut self, o: u32, i: u32, value: Value) -> Result<(), OutOfMemory>
        requires array { IsOfKind self.old o Kind.Array }
        requires index { (0 < i) × (i ≤ most_places) }
        ensures ok { OnOk result
            (self.new ≡ with_contents self.old o (Places (with_item (places_at self.old o) (i - 1) value))) }
        ensures err { OnErr result (self.new ≡ self.old) }
    {
        self.objects[o as usize - 1].array_put(i - 1, value)
    }

    /// Takes the item at an index of an Array away, if there is one. The index is empty then, and the size stays.
    pub fn array_remove(&mut self, o: u32, i: u32) -> Option<Value>
        requires array { IsOfKind self.old o Kind.Array }
        requires index { (0 < i) × (i ≤ most_places) }
        ensures item { result ≡ item_in (places_at self.old o) (i - 1) }
        ensures rest { self.new ≡ with_contents self.old o (Places (without_item (places_at self.old o) (i - 1))) }
    {
        self.objects[o as usize - 1].array_remove(i - 1)
    }

    /// How many indexes of an Array have an item.
    pub fn array_items(&self, o: u32) -> u32
        requires array { IsOfKind self.now o Kind.Array }
        ensures items { result ≡ item_count (places_at self.now o) }
    {
        self.array(o).len()
    }

    /// An Array's size: the greatest index that was put, or more where it was made so large.
    pub fn array_size(&self, o: u32) -> u32
        requires array { IsOfKind self.now o Kind.Array }
        ensures size { result ≡ length (places_at self.now o) }
    {
        self.array(o).size()
    }

    /// Makes an Array's size at least this. It never wants memory.
    pub fn array_resize(&mut self, o: u32, size: u32) -> Result<(), OutOfMemory>
        requires array { IsOfKind self.old o Kind.Array }
        requires fits { size ≤ most_places }
        ensures ok { OnOk result
            (self.new ≡ with_contents self.old o (Places (with_size (places_at self.old o) size))) }
        ensures err { OnErr result (self.new ≡ self.old) }
    {
        self.objects[o as usize - 1].array_resize(size);
        Ok(())
    }

    /// Puts an item at the end of a Queue, or wants memory.
    pub fn queue_add(&mut self, o: u32, value: Value) -> Result<(), OutOfMemory>
        requires queue { IsOfKind self.old o Kind.Queue }
        ensures ok { OnOk result (self.new ≡ with_contents self.old o (Line (items_at self.old o ++ value ∷ []))) }
        ensures err { OnErr result (self.new ≡ self.old) }
    {
        self.objects[o as usize - 1].queue_add(value)
    }

    /// Puts an item at the front of a Queue, or wants memory.
    pub fn queue_push(&mut self, o: u32, value: Value) -> Result<(), OutOfMemory>
        requires queue { IsOfKind self.old o Kind.Queue }
        ensures ok { OnOk result (self.new ≡ with_contents self.old o (Line (value ∷ items_at self.old o))) }
        ensures err { OnErr result (self.new ≡ self.old) }
    {
        self.objects[o as usize - 1].queue_push(value)
    }

    /// Takes the item at the front of a Queue away, if there is one.
    pub fn queue_pull(&mut self, o: u32) -> Option<Value>
        requires queue { IsOfKind self.old o Kind.Queue }
        ensures item { result ≡ slice_get (items_at self.old o) 0 }
        ensures rest { self.new ≡ with_contents self.old o (Line (drop 1 (items_at self.old o))) }
    {
        self.objects[o as usize - 1].queue_pull()
    }

    /// The item at a place of a Queue, from 1 at the front, if there is one.
    pub fn queue_at(&self, o: u32, i: u32) -> Option<&Value>
        requires queue { IsOfKind self.now o Kind.Queue }
        requires place { 0 < i }
        ensures item { option_copied result ≡ slice_get (items_at self.now o) (i - 1) }
    {
        self.queue(o).get(i as usize - 1)
    }

    /// How many items a Queue has.
    pub fn queue_items(&self, o: u32) -> u32
        requires queue { IsOfKind self.now o Kind.Queue }
        ensures items { result ≡ length (items_at self.now o) }
    {
        self.queue(o).len()
    }

    /// The value of a name in a Directory, if it has one.
    pub fn directory_get(&self, o: u32, name: &[u8]) -> Option<&Value>
        requires directory { IsOfKind self.now o Kind.Directory }
        ensures value { option_copied result ≡ look_up (entries_at self.now o) name.now }
    {
        self.directory(o).get(name)
    }

    /// Puts a value under a name of a Directory, or wants memory. A new name stands last.
    pub fn directory_put(&mut self, o: u32, name: &Text, value: Value) -> Result<(), OutOfMemory>
        requires directory { IsOfKind self.old o Kind.Directory }
        ensures ok { OnOk result
            (self.new ≡ with_contents self.old o (Names (with_entry (entries_at self.old o) name.now value))) }
        ensures err { OnErr result (self.new ≡ self.old) }
    {
        self.objects[o as usize - 1].directory_put(name, value)
    }

    /// Takes a name of a Directory away, if it is there, and tells its value. Those behind it close up.
    pub fn directory_remove(&mut self, o: u32, name: &[u8]) -> Option<Value>
        requires directory { IsOfKind self.old o Kind.Directory }
        ensures value { result ≡ look_up (entries_at self.old o) name.now }
        ensures rest { self.new ≡ with_contents self.old o (Names (without_name (entries_at self.old o) name.now)) }
    {
        self.objects[o as usize - 1].directory_remove(name)
    }

    /// The names of a Directory in order, or want of memory. It takes the time of their number.
    pub fn directory_names(&self, o: u32) -> Result<Items<Text>, OutOfMemory>
        requires directory { IsOfKind self.now o Kind.Directory }
        ensures names { IfOk result (λ names. names ≡ names_of (entries_at self.now o)) }
    {
        self.directory(o).names()
    }

    /// How many names a Directory has.
    pub fn directory_items(&self, o: u32) -> u32
        requires directory { IsOfKind self.now o Kind.Directory }
        ensures items { result ≡ length (entries_at self.now o) }
    {
        self.directory(o).len()
    }
}

fn crosses_threads<T: Send + Sync>(_value: &T) {}

/// The objects may be sent to another thread and shared with it: this call compiles for their type alone.
pub fn heap_crosses(heap: &Heap) {
    crosses_threads(heap);
}

// The native methods by their numbers.
ghost use Rattle.std.specs.Prelude.{◌≡◌, slice_get, IsTrue, Some};
ghost use Rattle.rx_native.specs.Methods.{IsTable, is_built, method_numbered};

use crate::array::{OfArray, OfArrayClass};
use crate::class::OfClass;
use crate::directory::OfDirectory;
use crate::object::OfObject;
use crate::queue::OfQueue;
use crate::string::{OfString, OfText, OfValue, OfWords};

/// A native method, in its class.
#[derive(Clone, Copy)]
pub enum Method {
    Object(OfObject),
    Class(OfClass),
    String(OfString),
    ArrayClass(OfArrayClass),
    Array(OfArray),
    Queue(OfQueue),
    Directory(OfDirectory),
}

// The methods in the order of their numbers. Those of Message follow.
const METHODS: [Method; 82] = [
    Method::Object(OfObject::Same),
    Method::Object(OfObject::Same),
    Method::Object(OfObject::Different),
    Method::Object(OfObject::Different),
    Method::Object(OfObject::Class),
    Method::Object(OfObject::String),
    Method::Object(OfObject::Hasmethod),
    Method::Object(OfObject::Isa),
    Method::Object(OfObject::Start),
    Method::Object(OfObject::Init),
    Method::Class(OfClass::New),
    Method::Class(OfClass::Id),
    Method::Class(OfClass::Superclass),
    Method::String(OfString::Text(OfText::Length)),
    Method::String(OfString::Text(OfText::Substr)),
    Method::String(OfString::Text(OfText::Left)),
    Method::String(OfString::Text(OfText::Right)),
    Method::String(OfString::Text(OfText::Center)),
    Method::String(OfString::Text(OfText::Strip)),
    Method::String(OfString::Text(OfText::Reverse)),
    Method::String(OfString::Text(OfText::Copies)),
    Method::String(OfString::Text(OfText::Delstr)),
    Method::String(OfString::Text(OfText::Translate)),
    Method::String(OfString::Text(OfText::Verify)),
    Method::String(OfString::Text(OfText::Compare)),
    Method::String(OfString::Text(OfText::Abbrev)),
    Method::String(OfString::Text(OfText::Upper)),
    Method::String(OfString::Text(OfText::Lower)),
    Method::String(OfString::Words(OfWords::Word)),
    Method::String(OfString::Words(OfWords::Words)),
    Method::String(OfString::Words(OfWords::Wordindex)),
    Method::String(OfString::Words(OfWords::Wordlength)),
    Method::String(OfString::Words(OfWords::Subword)),
    Method::String(OfString::Words(OfWords::Delword)),
    Method::String(OfString::Words(OfWords::Space)),
    Method::String(OfString::Value(OfValue::D2x)),
    Method::String(OfString::Value(OfValue::X2d)),
    Method::String(OfString::Value(OfValue::C2x)),
    Method::String(OfString::Value(OfValue::X2c)),
    Method::String(OfString::Value(OfValue::B2x)),
    Method::String(OfString::Value(OfValue::X2b)),
    Method::String(OfString::Value(OfValue::C2d)),
    Method::String(OfString::Value(OfValue::D2c)),
    Method::String(OfString::Value(OfValue::Abs)),
    Method::String(OfString::Value(OfValue::Sign)),
    Method::String(OfString::Value(OfValue::Datatype)),
    Method::String(OfString::Text(OfText::Pos)),
    Method::String(OfString::Text(OfText::Lastpos)),
    Method::String(OfString::Text(OfText::Countstr)),
    Method::String(OfString::Words(OfWords::Wordpos)),
    Method::String(OfString::Text(OfText::Insert)),
    Method::String(OfString::Text(OfText::Overlay)),
    Method::String(OfString::Text(OfText::Changestr)),
    Method::ArrayClass(OfArrayClass::New),
    Method::ArrayClass(OfArrayClass::Of),
    Method::Array(OfArray::At),
    Method::Array(OfArray::At),
    Method::Array(OfArray::Put),
    Method::Array(OfArray::Put),
    Method::Array(OfArray::Append),
    Method::Array(OfArray::Remove),
    Method::Array(OfArray::Hasindex),
    Method::Array(OfArray::Items),
    Method::Array(OfArray::Size),
    Method::Array(OfArray::Makearray),
    Method::Queue(OfQueue::Queue),
    Method::Queue(OfQueue::Push),
    Method::Queue(OfQueue::Pull),
    Method::Queue(OfQueue::Peek),
    Method::Queue(OfQueue::Items),
    Method::Queue(OfQueue::At),
    Method::Queue(OfQueue::At),
    Method::Queue(OfQueue::Makearray),
    Method::Directory(OfDirectory::At),
    Method::Directory(OfDirectory::At),
    Method::Directory(OfDirectory::Put),
    Method::Directory(OfDirectory::Put),
    Method::Directory(OfDirectory::Remove),
    Method::Directory(OfDirectory::Hasindex),
    Method::Directory(OfDirectory::Items),
    Method::Directory(OfDirectory::Makearray),
    Method::Directory(OfDirectory::Unknown),
];

// The method at a place of a table.
fn at(table: &[Method], place: usize) -> Option<Method>
    ensures { result ≡ slice_get table.now place }
{
    table.get(place).copied()
}

// The native method of a number, by a table that has them all but for those of Message, which are the last.
fn numbered(table: &[Method], id: u16) -> Option<Method>
    requires { IsTable table.now }
    ensures { result ≡ method_numbered id }
{
    at(table, id as usize)
}

/// The native method of a number, but for those of Message.
pub(crate) fn method_numbered(id: u16) -> Option<Method>
    ensures { result ≡ method_numbered id }
{
    numbered(&METHODS, id)
}

/// The native method of a number that has one here.
pub(crate) fn built_method(id: u16) -> Method
    requires { IsTrue (is_built id) }
    ensures { method_numbered id ≡ Some result }
{
    method_numbered(id).unwrap()
}

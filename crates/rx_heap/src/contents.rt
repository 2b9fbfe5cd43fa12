// What objects hold.
use crate::array::Array;
use crate::directory::Directory;
use crate::queue::Queue;

/// What an object holds besides its variables. A Message's row stands beside it.
#[derive(Drop)]
pub enum Contents {
    Plain,
    ClassObject,
    Array(Array),
    Queue(Queue),
    Directory(Directory),
    Message,
}

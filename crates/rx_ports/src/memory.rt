// Objects in memory, which tell all that they hold.
pub(crate) mod scripted_shelf;
pub(crate) mod scripted_sink;
pub(crate) mod sure;

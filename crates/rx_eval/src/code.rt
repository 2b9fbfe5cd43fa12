// Instructions.
use rx_tree::{Name, Oper, Text, Value};
use sqlite_items::Items;

/// The forms that go on behind their first operand.
#[derive(Clone, Copy, Debug, PartialEq, Eq)]
pub enum Form {
    Prefix,
    Chain,
    Sends,
}

/// What a function's name calls in a body.
#[derive(Clone, Copy, Debug, PartialEq, Eq)]
pub enum Callee {
    /// A label of the body.
    Label,
    /// A built-in function.
    Builtin,
    /// A routine of the program.
    Routine,
}

/// A call of a function.
pub struct Calling {
    /// The name, and whether it is written as a string.
    pub name: Text,
    pub is_string: bool,
    /// What it calls.
    pub callee: Callee,
    /// Which arguments are given, the last one first.
    pub shape: Items<bool>,
}

impl Drop for Calling {
    fn drop(self) {
        let Calling {
            name: _,
            is_string: _,
            callee: _,
            shape: _,
        } = self;
    }
}

/// The symbol of the class in which a method is sought first.
pub struct Class {
    pub name: Text,
    /// The object that it names as an environment symbol.
    pub object: Option<u32>,
}

impl Drop for Class {
    fn drop(self) {
        let Class { name: _, object: _ } = self;
    }
}

/// A message of a message term.
pub struct Sending {
    /// The name as it is written.
    pub name: Text,
    /// The name of the message that is sent.
    pub message: Text,
    pub class: Option<Class>,
    /// Which arguments are given, the last one first.
    pub shape: Items<bool>,
    /// Whether the receiver is the value, as behind `~~`.
    pub back: bool,
    /// Whether the arguments stand in square brackets.
    pub bracket: bool,
}

impl Drop for Sending {
    fn drop(self) {
        let Sending {
            name: _,
            message: _,
            class: _,
            shape: _,
            back: _,
            bracket: _,
        } = self;
    }
}

/// An instruction. It takes its operands off the values before it and puts its value there.
#[derive(Drop)]
pub enum Instr {
    Const(Value),
    Name(Name),
    /// An environment symbol, with the object that it names.
    Environment(Text, Option<u32>),
    /// A form of which the first operand stands there. It changes no value.
    Begin(Form),
    Oper(Oper),
    Prefix(Oper),
    /// A group that stands there. It changes no value.
    Group,
    Function(Calling),
    Send(Sending),
    /// A string is wanted of what stands there.
    Wanted,
}

// Directives as they are written.
ghost use Rattle.std.specs.Prelude.{◌≡◌};

use rx_clause_tree::Body;
use rx_tree::{Expr, Name, Text};
use sqlite_items::Items;

/// Who finds a method: each sender, or senders of the same object alone.
#[derive(Clone, Copy, Debug, PartialEq, Eq)]
pub enum Visibility {
    Public,
    Private,
}

/// Whether a method's frame asks for the pool of its object and scope.
#[derive(Clone, Copy, Debug, PartialEq, Eq)]
pub enum Guarding {
    Guarded,
    Unguarded,
}

/// Which method of an attribute is made.
#[derive(Clone, Copy, Debug, PartialEq, Eq)]
pub enum Access {
    Get,
    Set,
}

/// What is said of a method behind its name.
#[derive(Clone, Copy, Debug, PartialEq, Eq)]
pub struct Options {
    /// `CLASS`: it is a method of the class itself.
    pub class_side: bool,
    /// `PUBLIC` or `PRIVATE`
    pub visibility: Option<Visibility>,
    /// `GUARDED` or `UNGUARDED`
    pub guarding: Option<Guarding>,
    /// `GET` or `SET`
    pub access: Option<Access>,
}

/// `SUBCLASS c` or `MIXINCLASS c`
pub struct Superclass {
    /// The name of the superclass, in upper case.
    pub name: Text,
    pub mixin: bool,
}

impl Drop for Superclass {
    fn drop(self) {
        let Superclass { name: _, mixin: _ } = self;
    }
}

/// `::CLASS name`, and what is said of the class behind its name.
pub struct ClassHead {
    /// The name, in upper case.
    pub name: Text,
    pub superclass: Option<Superclass>,
    /// The names of the mixins that it inherits, in upper case and in the written order.
    pub inherits: Items<Text>,
    pub public: bool,
}

impl Drop for ClassHead {
    fn drop(self) {
        let ClassHead {
            name: _,
            superclass: _,
            inherits: _,
            public: _,
        } = self;
    }
}

/// The name of an attribute: that of its methods, in upper case, and that of its variable.
pub struct AttributeName {
    pub name: Text,
    pub variable: Name,
}

impl Drop for AttributeName {
    fn drop(self) {
        let AttributeName {
            name: _,
            variable: _,
        } = self;
    }
}

/// What a directive makes.
#[derive(Drop)]
pub enum DirectiveKind {
    /// `::CLASS name`
    Class(ClassHead),
    /// `::METHOD name` and its clauses
    Method(Text, Options, Body),
    /// `::ATTRIBUTE name`, and its clauses where it has some
    Attribute(AttributeName, Options, Body),
    /// `::CONSTANT name value`
    Constant(Text, Expr),
    /// `::ROUTINE name` and its clauses
    Routine(Text, Body),
}

/// A directive, with the line of the source that it begins on, from 1.
pub struct Directive {
    pub line: u32,
    pub kind: DirectiveKind,
}

impl Drop for Directive {
    fn drop(self) {
        let Directive { line: _, kind: _ } = self;
    }
}

impl Directive {
    /// What it makes, where its line isn't wanted any more.
    pub fn into_kind(self) -> DirectiveKind
        ensures kind { result ≡ self.kind }
    {
        let Directive { line: _, kind } = self;
        kind
    }
}

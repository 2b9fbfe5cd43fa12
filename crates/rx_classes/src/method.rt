// What methods are found as, and the answers of the calls.
use rx_tree::{OutOfMemory, Scope, Text};

/// A method that is found.
#[derive(Clone, Copy, Debug, PartialEq, Eq)]
pub enum MethodId {
    /// A native one, by its number in the table of the native methods.
    Native(u16),
    /// A method of the package, by the number of its body.
    Body {
        body: u32,
        private: bool,
        /// Whether its frame asks for the pool of its object and scope.
        guarded: bool,
    },
}

/// What a search that begins at a class comes to.
#[derive(Clone, Copy, Debug, PartialEq, Eq)]
pub enum Sought {
    /// The first method of the name, with the scope in which it stands.
    Found(Scope, MethodId),
    /// No method has the name from that class on.
    NoMethod,
    /// The class isn't among those that the search goes through.
    NotInOrder,
}

/// Why a class isn't defined. Each name is the one that the class gives.
#[derive(Drop)]
pub enum DefineRefused {
    /// No class has the name of its superclass, or of a mixin that it inherits.
    NoSuchClass(Text),
    /// It inherits a class that is no mixin.
    NotAMixin(Text),
    /// It inherits a mixin whose base class is neither its superclass nor in the order of that one.
    BaseMissing(Text),
    /// A class has its name already, or two of its methods on one side have this name.
    Twice(Text),
    /// Its superclass is String, Message or Class.
    Closed(Text),
    /// A growth of memory was refused.
    OutOfMemory,
}

impl From<OutOfMemory> for DefineRefused {
    ghost use Rattle.std.specs.Prelude.{◌≡◌};
    ghost use Rattle.rx_classes.specs.declared.method.DefineRefused.TheVariants as refused;

    ghost from_gives = { λ _ e. e ≡ refused.OutOfMemory };

    fn from(_error: OutOfMemory) -> DefineRefused {
        DefineRefused::OutOfMemory
    }
}

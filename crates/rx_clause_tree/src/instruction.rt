// The parts of instructions.
ghost use Rattle.std.specs.Prelude.{◌≡◌, IfOk};

use rx_tree::{Condition, Expr, Name, OutOfMemory, Text};
use sqlite_items::Items;
use std::alloc::Global;

/// An equal expression where there is one, or want of memory.
pub fn share_given(alloc: Global, given: &Option<Expr>) -> Result<Option<Expr>, OutOfMemory>
    ensures same { IfOk result (λ shared. shared ≡ given.now) }
{
    match given {
        None => Ok(None),
        Some(expr) => Ok(Some(expr.share(alloc)?)),
    }
}

/// Equal names, or want of memory.
pub fn share_names(alloc: Global, names: &[Name]) -> Result<Items<Name>, OutOfMemory>
    ensures same { IfOk result (λ shared. shared ≡ names.now) }
{
    let mut shared = Items::new(alloc);
    for name in names {
        let name = name.share(alloc)?;
        shared.push(name)?;
    }
    Ok(shared)
}

/// Equal arguments, or want of memory.
pub fn share_arguments(
    alloc: Global,
    args: &[Option<Expr>],
) -> Result<Items<Option<Expr>>, OutOfMemory>
    ensures same { IfOk result (λ shared. shared ≡ args.now) }
{
    let mut shared = Items::new(alloc);
    for arg in args {
        let arg = share_given(alloc, arg)?;
        shared.push(arg)?;
    }
    Ok(shared)
}

/// An equal condition, or want of memory.
pub fn share_condition(condition: &Condition) -> Result<Condition, OutOfMemory>
    ensures same { IfOk result (λ shared. shared ≡ condition.now) }
{
    match condition {
        Condition::Syntax => Ok(Condition::Syntax),
        Condition::NoValue => Ok(Condition::NoValue),
        Condition::NoMethod => Ok(Condition::NoMethod),
        Condition::User(name) => Ok(Condition::User(name.share()?)),
    }
}

/// A condition that is trapped, and the label that control goes to.
pub struct Trap {
    pub condition: Condition,
    pub label: Text,
}

impl Drop for Trap {
    fn drop(self) {
        let Trap {
            condition: _,
            label: _,
        } = self;
    }
}

impl Trap {
    /// An equal trap, or want of memory.
    pub fn share(&self) -> Result<Trap, OutOfMemory>
        ensures same { IfOk result (λ trap. trap ≡ self.now) }
    {
        let condition = share_condition(&self.condition)?;
        let label = self.label.share()?;
        Ok(Trap { condition, label })
    }
}

/// A routine that CALL calls: its name, whether that is written as a string, and the arguments.
pub struct Routine {
    pub name: Text,
    pub is_string: bool,
    /// One that is omitted has no expression.
    pub args: Items<Option<Expr>>,
}

impl Drop for Routine {
    fn drop(self) {
        let Routine {
            name: _,
            is_string: _,
            args: _,
        } = self;
    }
}

impl Routine {
    /// An equal routine, or want of memory.
    pub fn share(&self, alloc: Global) -> Result<Routine, OutOfMemory>
        ensures same { IfOk result (λ routine. routine ≡ self.now) }
    {
        let name = self.name.share()?;
        let args = share_arguments(alloc, self.args.as_slice())?;
        Ok(Routine {
            name,
            is_string: self.is_string,
            args,
        })
    }
}

/// A variable that USE gives an argument, and its default.
pub struct Parameter {
    pub name: Name,
    pub default: Option<Expr>,
}

impl Drop for Parameter {
    fn drop(self) {
        let Parameter {
            name: _,
            default: _,
        } = self;
    }
}

impl Parameter {
    /// An equal parameter, or want of memory.
    pub fn share(&self, alloc: Global) -> Result<Parameter, OutOfMemory>
        ensures same { IfOk result (λ parameter. parameter ≡ self.now) }
    {
        let name = self.name.share(alloc)?;
        let default = share_given(alloc, &self.default)?;
        Ok(Parameter { name, default })
    }

    /// Equal parameters, or want of memory.
    pub fn share_all(
        alloc: Global,
        parameters: &[Parameter],
    ) -> Result<Items<Parameter>, OutOfMemory>
        ensures same { IfOk result (λ shared. shared ≡ parameters.now) }
    {
        let mut shared = Items::new(alloc);
        for parameter in parameters {
            let parameter = parameter.share(alloc)?;
            shared.push(parameter)?;
        }
        Ok(shared)
    }
}

/// The arguments that FORWARD hands on.
pub enum Forwarded {
    /// Those of the frame.
    Own,
    /// The items of an Array.
    Arguments(Expr),
    /// These. One that is omitted has no expression.
    Array(Items<Option<Expr>>),
}

impl Drop for Forwarded {
    fn drop(self) {
        match self {
            Forwarded::Own => {}
            Forwarded::Arguments(_) => {}
            Forwarded::Array(_) => {}
        }
    }
}

impl Forwarded {
    /// Equal arguments, or want of memory.
    pub fn share(&self, alloc: Global) -> Result<Forwarded, OutOfMemory>
        ensures same { IfOk result (λ forwarded. forwarded ≡ self.now) }
    {
        match self {
            Forwarded::Own => Ok(Forwarded::Own),
            Forwarded::Arguments(expr) => Ok(Forwarded::Arguments(expr.share(alloc)?)),
            Forwarded::Array(args) => {
                Ok(Forwarded::Array(share_arguments(alloc, args.as_slice())?))
            }
        }
    }
}

/// The parts of FORWARD.
pub struct Forward {
    /// The receiver, in place of the frame's object.
    pub to: Option<Expr>,
    /// The class that the search begins at.
    pub class: Option<Expr>,
    /// The message's name, in place of the method's.
    pub message: Option<Expr>,
    pub args: Forwarded,
    /// Whether the frame goes on, as CONTINUE says.
    pub goes_on: bool,
}

impl Drop for Forward {
    fn drop(self) {
        let Forward {
            to: _,
            class: _,
            message: _,
            args: _,
            goes_on: _,
        } = self;
    }
}

impl Forward {
    /// Equal parts, or want of memory.
    pub fn share(&self, alloc: Global) -> Result<Forward, OutOfMemory>
        ensures same { IfOk result (λ forward. forward ≡ self.now) }
    {
        let to = share_given(alloc, &self.to)?;
        let class = share_given(alloc, &self.class)?;
        let message = share_given(alloc, &self.message)?;
        let args = self.args.share(alloc)?;
        Ok(Forward {
            to,
            class,
            message,
            args,
            goes_on: self.goes_on,
        })
    }
}

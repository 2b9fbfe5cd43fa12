// Methods of the package that are begun.
ghost use Rattle.std.specs.Prelude.{◌≡◌, ◌==◌, ◌<◌, ◌≤◌, length, position, IfOk, IfSome, OnOk, Some};
ghost use Rattle.rx_classes.specs.Classes.{IsClass};
ghost use Rattle.rx_frames.specs.Frames.{beginning};
ghost use Rattle.rx_tree.specs.declared.name.Derived.TheVariants.{Simple};
ghost use Rattle.rx_vars.specs.Names.{changed};
ghost use Rattle.rx_sends.specs.Calls as spec;

use rx_classes::ClassTable;
use rx_frames::{Frame, Own};
use rx_tree::{Derived, FrameKind, OutOfMemory, Scope, Shared, Text, Value};
use rx_vars::Vars;
use sqlite_items::Items;
use std::alloc::Global;

/// The object `.nil`.
pub(crate) const NIL: u32 = 1;

/// A method of the package.
#[derive(Clone, Copy)]
pub struct PackageMethod {
    /// The scope in which it stands.
    pub scope: Scope,
    /// The number of its body.
    pub body: u32,
    /// Whether its frame asks for the pool of its object and scope.
    pub guarded: bool,
}

/// A method of the package that is to be begun.
pub struct Call {
    pub method: PackageMethod,
    /// The receiver.
    pub object: u32,
    /// What SUPER is: the class behind the method's own in the receiver's order, or `.nil`.
    pub behind: Value,
    /// The arguments. One that is omitted has no value.
    pub args: Items<Option<Value>>,
    /// Whether NEW sends it as INIT.
    pub made: bool,
}

impl Drop for Call {
    fn drop(self) {
        let Call {
            method: _,
            object: _,
            behind: _,
            args: _,
            made: _,
        } = self;
    }
}

// The first place of a class.
fn place_of(class: u32, order: &[u32]) -> Option<usize>
    ensures place { result ≡ position (λ other. class == other) order.now }
    ensures within { IfSome result (λ place. place < length order.now) }
{
    order.iter().position(|other| class == *other)
}

// The class behind the first place of a class.
fn class_behind(class: u32, order: &[u32]) -> Option<u32>
    ensures { result ≡ spec.class_behind class order.now }
{
    let place = place_of(class, order)?;
    order.get(place + 1).copied()
}

// What SUPER is in a method of a class, for a receiver whose methods are sought from another class on.
fn behind(classes: &ClassTable, class: u32, of: u32) -> Result<Value, OutOfMemory>
    requires { IsClass classes.now class }
    ensures { IfOk result (λ value. value ≡ spec.super_of classes.now class of) }
{
    let order = classes.order(class)?;
    match class_behind(of, order.as_slice()) {
        Some(class) => Ok(Value::Ref(class)),
        None => Ok(Value::Ref(NIL)),
    }
}

/// A method of the package for a receiver whose methods are sought from a class on, or want of memory.
pub(crate) fn call_of(
    classes: &ClassTable,
    class: u32,
    object: u32,
    method: PackageMethod,
    args: Items<Option<Value>>,
    made: bool,
) -> Result<Call, OutOfMemory>
    requires { IsClass classes.now class }
    ensures { IfOk result (λ call. call ≡ spec.call_of classes.now class object method args made) }
{
    let behind = behind(classes, class, method.scope.class)?;
    Ok(Call {
        method,
        object,
        behind,
        args,
        made,
    })
}

// Gives a simple variable a value, or wants memory.
fn set_simple(
    alloc: Global,
    variables: &mut Vars,
    name: &[u8],
    value: Value,
) -> Result<(), OutOfMemory>
    requires { length name.now ≤ Text.LONGEST }
    ensures { OnOk result (variables.new
        ≡ record variables.old { rows = changed variables.old.rows (Simple name.now) (Some value) }) }
{
    let name = Derived::Simple(Text::from_slice(alloc, name)?);
    variables.set(&name, value)
}

// The variables with which a method begins, or want of memory.
fn first_variables(alloc: Global, object: u32, behind: Value) -> Result<Vars, OutOfMemory>
    ensures { IfOk result (λ variables. variables ≡ spec.first_variables object behind) }
{
    let mut variables = Vars::new(alloc, true);
    set_simple(alloc, &mut variables, b"SELF", Value::Ref(object))?;
    set_simple(alloc, &mut variables, b"SUPER", behind)?;
    Ok(variables)
}

impl Call {
    /// The frame of the method, on the pool of this number, or want of memory. It completes a Message where one is given.
    pub(crate) fn into_frame(
        self,
        alloc: Global,
        pool: u32,
        completes: Option<u32>,
    ) -> Result<Frame, OutOfMemory>
        ensures { IfOk result (λ frame. frame ≡ spec.frame_of beginning self pool completes) }
    {
        let Call {
            method,
            object,
            behind,
            args,
            made,
        } = self;
        let variables = first_variables(alloc, object, behind)?;
        let own = Own {
            object,
            scope: method.scope,
            pool,
        };
        let args = Shared::new(alloc, args)?;
        let mut frame = Frame::new(alloc, FrameKind::Method, method.body, Some(own), args);
        frame.set_variables(variables);
        frame.set_asks(method.guarded);
        frame.set_completes(completes);
        frame.set_made(made);
        Ok(frame)
    }
}

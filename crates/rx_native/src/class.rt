// The methods of Class, by the number of the class that they are sent to.
ghost use Rattle.std.specs.Prelude.{◌≡◌, List};
ghost use Rattle.rx_tree.specs.Object.{Object};
ghost use Rattle.rx_classes.specs.Classes.{IsClass};
ghost use Rattle.rx_classes.specs.Installing.{is_closed};
ghost use Rattle.rx_native.specs.Answers.{Answers};
ghost use Rattle.rx_native.specs.Arguments.{Arguments};
ghost use Rattle.rx_native.specs.ClassMethods as spec;

use crate::answer::{Began, INCORRECT_METHOD_CALL, NIL, NativeAnswer, NativeRefused};
use crate::argument::no_argument;
use crate::making::make;
use rx_classes::ClassTable;
use rx_heap::{Heap, Kind};
use rx_tree::Value;

/// A method of Class.
#[derive(Clone, Copy)]
pub enum OfClass {
    New,
    Id,
    Superclass,
}

// Whether no object of a class is made by NEW of Class: Class, String or Message.
fn is_closed(class: u32) -> bool
    ensures { result ≡ is_closed class }
{
    matches!(class, 3 | 4 | 8)
}

// The kind of the first native class in an order that has items.
fn kind_in(order: &[u32]) -> Kind
    ensures { result ≡ spec.kind_in order.now }
{
    for class in order {
        match *class {
            5 => return Kind::Array,
            6 => return Kind::Queue,
            7 => return Kind::Directory,
            _ => {}
        }
    }
    Kind::Plain
}

fn new(heap: &mut Heap, classes: &ClassTable, class: u32) -> Result<NativeAnswer, NativeRefused>
    requires { IsClass classes.now class }
    ensures { (args : Arguments) → Answers result heap.old heap.new
        (spec.class_answer OfClass.New classes.now heap.old class args) }
{
    if is_closed(class) {
        return Err(NativeRefused::Raised(INCORRECT_METHOD_CALL));
    }
    let order = classes.order(class)?;
    let object = make(heap, class, kind_in(order.as_slice()))?;
    Ok(NativeAnswer::Begin(Began::New(object)))
}

fn id(
    classes: &ClassTable,
    class: u32,
    args: &[Option<Value>],
) -> Result<NativeAnswer, NativeRefused>
    requires { IsClass classes.now class }
    ensures { (objects : List Object) → Answers result objects objects
        (spec.class_answer OfClass.Id classes.now objects class args.now) }
{
    no_argument(args)?;
    Ok(NativeAnswer::Value(Value::Str(classes.name(class).share()?)))
}

fn superclass(
    classes: &ClassTable,
    class: u32,
    args: &[Option<Value>],
) -> Result<NativeAnswer, NativeRefused>
    requires { IsClass classes.now class }
    ensures { (objects : List Object) → Answers result objects objects
        (spec.class_answer OfClass.Superclass classes.now objects class args.now) }
{
    no_argument(args)?;
    let superclass = classes.parent(class).unwrap_or(NIL);
    Ok(NativeAnswer::Value(Value::Ref(superclass)))
}

/// What a method comes to.
pub(crate) fn class_answer(
    method: OfClass,
    heap: &mut Heap,
    classes: &ClassTable,
    class: u32,
    args: &[Option<Value>],
) -> Result<NativeAnswer, NativeRefused>
    requires { IsClass classes.now class }
    ensures { Answers result heap.old heap.new
        (spec.class_answer method classes.now heap.old class args.now) }
{
    match method {
        OfClass::New => new(heap, classes, class),
        OfClass::Id => id(classes, class, args),
        OfClass::Superclass => superclass(classes, class, args),
    }
}

// New objects, and new Arrays with items.
ghost use Rattle.std.specs.Prelude.{◌≡◌, ◌+◌, ◌++◌, ◌==◌, ℕ, true, false, length, Err, IfOk, OnOk, OnErr};
ghost use Rattle.std.specs.Option.{option_copied, option_to_list};
ghost use Rattle.rx_heap.specs.Objects.{empty_of, most_objects};
ghost use Rattle.rx_native.specs.Answers.{Answers};
ghost use Rattle.rx_native.specs.ArrayMethods as spec;
ghost use Rattle.rx_native.specs.Outcomes.{resources_exhausted, with_object};

use crate::answer::{INCORRECT_METHOD_CALL, NativeAnswer, NativeRefused};
use rx_heap::{Heap, Kind};
use rx_tree::{OutOfMemory, Value};

/// The class Array.
const ARRAY: u32 = 5;

/// Makes an object, and tells its number.
pub(crate) fn make(heap: &mut Heap, class: u32, kind: Kind) -> Result<u32, NativeRefused>
    ensures number { IfOk result (λ number. number ≡ length heap.old + 1) }
    ensures room { OnOk result ((length heap.old == most_objects) ≡ false) }
    ensures ok { OnOk result (heap.new ≡ with_object heap.old class (empty_of kind)) }
    ensures raised { (number : ℕ) → result ≡ Err (NativeRefused.Raised number)
        → ((length heap.old == most_objects) ≡ true) × (number ≡ resources_exhausted) }
    ensures err { OnErr result (heap.new ≡ heap.old) }
{
    Ok(heap.make(class, kind)?)
}

/// Puts an item that is lent behind others, if there is one, or wants memory.
pub(crate) fn push_shared(items: &mut Vec<Value>, item: Option<&Value>) -> Result<(), OutOfMemory>
    ensures { OnOk result (items.new.items ≡ items.old.items ++ option_to_list (option_copied item.entry)) }
{
    match item {
        Some(value) => {
            items.push(value.share()?)?;
            Ok(())
        }
        None => Ok(()),
    }
}

/// Makes an Array of some items, without gaps.
pub(crate) fn make_array_of(heap: &mut Heap, items: &[Value]) -> Result<NativeAnswer, NativeRefused>
    ensures { Answers result heap.old heap.new (spec.makes_array_of heap.old items.now) }
{
    if items.len() > Heap::MOST_PLACES as usize {
        return Err(NativeRefused::Raised(INCORRECT_METHOD_CALL));
    }
    let array = make(heap, ARRAY, Kind::Array)?;
    let mut i = 0;
    for item in items {
        i += 1;
        heap.array_put(array, i, item.share()?)?;
    }
    Ok(NativeAnswer::Value(Value::Ref(array)))
}

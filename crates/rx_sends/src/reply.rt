// What the sender of a message has then.
ghost use Rattle.std.specs.Prelude.{◌≡◌};
ghost use Rattle.rx_sends.specs.Replies as spec;

use crate::call::Call;
use rx_native::{Began, NativeAnswer};
use rx_tree::Value;

/// What the sender of a message has then.
#[derive(Drop)]
pub enum Reply {
    /// A value, or none.
    Gives(Option<Value>),
    /// A method of the package is begun, which gives it later.
    Calls(Call),
    /// A Message, of this number, and an activity is begun that sends it.
    Starts(u32),
}

/// What a native method gives; an object that NEW has made is told as it is.
pub(crate) fn reply_of(answer: NativeAnswer) -> Reply
    ensures { result ≡ spec.reply_of answer }
{
    match answer {
        NativeAnswer::Value(value) => Reply::Gives(Some(value)),
        NativeAnswer::Nothing => Reply::Gives(None),
        NativeAnswer::Begin(Began::New(object)) => Reply::Gives(Some(Value::Ref(object))),
        NativeAnswer::Begin(Began::Start(message)) => Reply::Starts(message),
    }
}

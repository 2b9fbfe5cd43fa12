// The values of the language.
ghost use Rattle.std.specs.Prelude.{◌≡◌, IfOk};

use crate::text::{OutOfMemory, Text};

/// A value of the language.
#[derive(Drop)]
pub enum Value {
    /// A string.
    Str(Text),
    /// An object, by its number from 1.
    Ref(u32),
}

impl Value {
    /// An equal value, or want of memory.
    pub fn share(&self) -> Result<Value, OutOfMemory>
        ensures same { IfOk result (λ value. value ≡ self.now) }
    {
        match self {
            Value::Str(text) => Ok(Value::Str(text.share()?)),
            Value::Ref(object) => Ok(Value::Ref(*object)),
        }
    }
}

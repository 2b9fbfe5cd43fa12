// Messages to objects.
ghost use Rattle.std.specs.Prelude.{◌≡◌, option_map};
ghost use Rattle.rx_heap.specs.Objects.{IsObject};
ghost use Rattle.rx_native.specs.Fitting.{IsThere};
ghost use Rattle.rx_native.specs.Targets.{target_scope};

use crate::fitting::{are_there, fits, is_object, is_there};
use crate::line::{Line, text_of};
use crate::told::{told_answer, told_row, told_word};
use rx_classes::{ClassDef, ClassTable, DefineRefused, MethodDef, MethodId, Scope};
use rx_heap::{Heap, Kind};
use rx_native::{call, is_built};
use rx_tree::{OutOfMemory, Value};
use sqlite_items::Items;
use std::alloc::Global;

/// The classes and objects that messages are sent to.
pub struct NativeCases {
    classes: ClassTable,
    heap: Heap,
    bodies: u32,
    digits: u8,
}

impl Drop for NativeCases {
    fn drop(self) {
        let NativeCases {
            classes: _,
            heap: _,
            bodies: _,
            digits: _,
        } = self;
    }
}

// The class whose methods a value has, and on which side.
fn target_scope(heap: &Heap, target: &Value) -> Scope
    requires { IsThere heap.now target.now }
    ensures { result ≡ target_scope heap.now target.now }
{
    match target {
        Value::Str(_) => Scope {
            class: 4,
            class_side: false,
        },
        Value::Ref(object) if heap.kind(*object) == Kind::ClassObject => Scope {
            class: *object,
            class_side: true,
        },
        Value::Ref(object) => Scope {
            class: heap.class_of(*object),
            class_side: false,
        },
    }
}

// The method of what a search comes to.
fn method_of(found: Option<(Scope, MethodId)>) -> Option<MethodId>
    ensures { result ≡ option_map (λ f. f.1) found }
{
    match found {
        Some((_, method)) => Some(method),
        None => None,
    }
}

impl NativeCases {
    /// There are `.nil` and the native classes.
    pub fn new(alloc: Global) -> Result<NativeCases, OutOfMemory> {
        Ok(NativeCases {
            classes: ClassTable::new(alloc)?,
            heap: Heap::new(alloc, 8)?,
            bodies: 0,
            digits: 9,
        })
    }

    // Begins with the classes as they are defined.
    fn begin(&mut self, alloc: Global) -> Result<(), OutOfMemory> {
        let classes = (self.classes.count().min(1_000_000) + 8) as u32;
        self.heap = Heap::new(alloc, classes)?;
        Ok(())
    }

    // Adds what a word says of a class.
    fn add_word(
        &mut self,
        alloc: Global,
        def: &mut ClassDef,
        word: &[u8],
    ) -> Result<(), OutOfMemory> {
        match word {
            b"mixin" => def.mixin = true,
            [b'+', name @ ..] => def.inherits.push(text_of(alloc, name)?)?,
            name => {
                def.methods.push(MethodDef {
                    name: text_of(alloc, name)?,
                    body: self.bodies,
                    class_side: false,
                    private: false,
                    guarded: true,
                })?;
                self.bodies = self.bodies.saturating_add(1);
            }
        }
        Ok(())
    }

    fn define(&mut self, alloc: Global, line: &Line) -> Result<String, OutOfMemory> {
        let mut def = ClassDef {
            name: text_of(alloc, line.word(1))?,
            line: 1,
            parent: text_of(alloc, line.word(2))?,
            mixin: false,
            inherits: Items::new(alloc),
            methods: Items::new(alloc),
        };
        for (place, word) in line.words().iter().enumerate() {
            if place > 2 {
                self.add_word(alloc, &mut def, word.as_slice())?;
            }
        }
        if self.classes.count() >= ClassTable::MOST {
            return Err(OutOfMemory);
        }
        match self.classes.define(def) {
            Ok(number) => Ok(format!(in alloc; "{number}")?),
            Err(DefineRefused::OutOfMemory) => Err(OutOfMemory),
            Err(_) => told_word(alloc, "refused"),
        }
    }

    // What a message comes to.
    fn send(
        &mut self,
        alloc: Global,
        target: &Value,
        name: &[u8],
        args: &[Option<Value>],
    ) -> Result<String, OutOfMemory> {
        if !is_there(&self.heap, target) {
            return told_word(alloc, "no such receiver");
        }
        if !are_there(&self.heap, args) {
            return told_word(alloc, "no such argument");
        }
        if !fits(&self.heap, &self.classes)? {
            return told_word(alloc, "no such class");
        }
        let scope = target_scope(&self.heap, target);
        let found = self.classes.find(scope.class, scope.class_side, name)?;
        let Some(method) = method_of(found) else {
            return told_word(alloc, "unknown");
        };
        let MethodId::Native(id) = method else {
            return told_word(alloc, "package");
        };
        if !is_built(id) {
            return told_word(alloc, "not built");
        }
        let digits = self.digits.clamp(1, 18);
        let answer = call(
            alloc,
            id,
            &mut self.heap,
            &self.classes,
            target,
            args,
            digits,
        );
        told_answer(alloc, answer)
    }

    // Sends a message so often, and tells the last answer.
    fn repeat(&mut self, alloc: Global, line: &Line) -> Result<String, OutOfMemory> {
        let target = line.target(alloc, 2)?;
        let args = line.arguments(alloc, 4)?;
        let mut told = String::new(alloc);
        for _turn in 0..line.number(1) {
            told = self.send(alloc, &target, line.word(3), args.as_slice())?;
        }
        Ok(told)
    }

    // What a call on an object that is there comes to.
    fn of_object(&self, alloc: Global, line: &Line, o: u32) -> Result<Option<String>, OutOfMemory>
        requires { IsObject self.now.heap o }
    {
        match line.word(0) {
            b"class" => Ok(Some(format!(in alloc; "{}", self.heap.class_of(o))?)),
            b"message" if self.heap.kind(o) == Kind::Message => {
                Ok(Some(told_row(alloc, self.heap.message(o))?))
            }
            _ => Ok(None),
        }
    }

    /// What a call comes to.
    pub fn tell(&mut self, alloc: Global, line: &Line) -> Result<Option<String>, OutOfMemory> {
        let o = line.number(1);
        match line.word(0) {
            b"classes" => {
                self.classes = ClassTable::new(alloc)?;
                self.bodies = 0;
                Ok(Some(told_word(alloc, "done")?))
            }
            b"define" => Ok(Some(self.define(alloc, line)?)),
            b"objects" => {
                self.begin(alloc)?;
                Ok(Some(told_word(alloc, "done")?))
            }
            b"digits" => {
                self.digits = o.clamp(1, 18) as u8;
                Ok(Some(told_word(alloc, "done")?))
            }
            b"send" => {
                let target = line.target(alloc, 1)?;
                let args = line.arguments(alloc, 3)?;
                Ok(Some(self.send(alloc, &target, line.word(2), args.as_slice())?))
            }
            b"repeat" => Ok(Some(self.repeat(alloc, line)?)),
            b"count" => Ok(Some(format!(in alloc; "{}", self.heap.count())?)),
            _ if is_object(&self.heap, o) => self.of_object(alloc, line, o),
            _ => Ok(None),
        }
    }
}

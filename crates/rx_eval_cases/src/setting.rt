// What expressions are evaluated over.
ghost use Rattle.std.specs.Prelude.{◌≡◌, ◌≤◌, IfOk};
ghost use Rattle.rx_eval_cases.specs.Ready.{set_value};

use rx_builtin::Facts as Frame;
use rx_escape::unescape;
use rx_eval::{Body, Facts, Postfix, Reads};
use rx_tree::{Derived, Name, OutOfMemory, Part, Shared, Text, Value};
use rx_vars::Table;
use sqlite_items::Items;
use std::alloc::Global;
use std::sync::Arc;

/// What the lines before set.
pub struct Settings {
    digits: u8,
    novalue: bool,
    labels: Vec<Text>,
    objects: Vec<(Text, u32)>,
    values: Table<Value>,
}

impl Drop for Settings {
    fn drop(self) {
        let Settings {
            digits: _,
            novalue: _,
            labels: _,
            objects: _,
            values: _,
        } = self;
    }
}

/// A text of some bytes, or of none where they are too many.
pub fn text_of(alloc: Global, bytes: &[u8]) -> Result<Text, OutOfMemory> {
    if bytes.len() > Text::LONGEST {
        return Text::from_slice(alloc, &[]);
    }
    Text::from_slice(alloc, bytes)
}

/// A value as it is written: `#` and the number of an object, or a text between quotes.
pub fn value_of(alloc: Global, written: &str) -> Result<Value, OutOfMemory> {
    if let Some(number) = written.strip_prefix("#") {
        return Ok(Value::Ref(number.parse::<u32>().unwrap_or(0)));
    }
    let inner = written.strip_prefix("\"").unwrap_or(written);
    let inner = inner.strip_suffix("\"").unwrap_or(inner);
    let bytes = unescape(alloc, inner.as_bytes())?;
    Ok(Value::Str(text_of(alloc, bytes.as_slice())?))
}

// A value as a part of a tail.
fn push_value(alloc: Global, tail: &mut Vec<u8>, value: &Value) -> Result<(), OutOfMemory> {
    match value {
        Value::Str(text) => tail.extend_from_slice(text.bytes())?,
        Value::Ref(object) => {
            let text = format!(in alloc; "object {object}")?;
            tail.extend_from_slice(text.as_bytes())?;
        }
    }
    Ok(())
}

impl Settings {
    /// Nothing is set, and DIGITS is 9.
    pub fn new(alloc: Global) -> Settings {
        Settings {
            digits: 9,
            novalue: false,
            labels: Vec::new(alloc),
            objects: Vec::new(alloc),
            values: Table::new(alloc),
        }
    }

    /// Sets what a line says, if it sets something.
    pub fn set(&mut self, alloc: Global, line: &str) -> Result<(), OutOfMemory> {
        if line == "fresh" {
            *self = Settings::new(alloc);
        }
        if line == "novalue" {
            self.novalue = true;
        }
        if let Some(digits) = line.strip_prefix("digits ") {
            self.digits = digits.parse::<u8>().unwrap_or(9).clamp(1, 18);
        }
        if let Some(label) = line.strip_prefix("label ") {
            self.labels.push(text_of(alloc, label.as_bytes())?)?;
        }
        if let Some(object) = line.strip_prefix("object ") {
            let (name, number) = object.split_once(' ').unwrap_or((object, "0"));
            let name = text_of(alloc, name.as_bytes())?;
            self.objects
                .push((name, number.parse::<u32>().unwrap_or(0)))?;
        }
        if let Some(value) = line.strip_prefix("value ") {
            let (name, written) = value.split_once(' ').unwrap_or((value, ""));
            self.values.add(name.as_bytes(), value_of(alloc, written)?)?;
        }
        Ok(())
    }

    /// The body in which expressions stand.
    pub fn body(&self, alloc: Global) -> Result<Body, OutOfMemory> {
        let mut labels = Table::new(alloc);
        for label in &self.labels {
            labels.insert(label.bytes(), 0)?;
        }
        let mut objects = Table::new(alloc);
        for (name, object) in &self.objects {
            objects.insert(name.bytes(), *object)?;
        }
        Ok(Body::new(labels, Arc::new(alloc, objects)?))
    }

    // The tail of a compound name, with the values of the variables in it.
    fn tail(&self, alloc: Global, parts: &[Part]) -> Result<Vec<u8>, OutOfMemory> {
        let mut tail = Vec::new(alloc);
        let mut is_first = true;
        for part in parts {
            if !is_first {
                tail.push(b'.')?;
            }
            is_first = false;
            match part {
                Part::Fixed(text) => tail.extend_from_slice(text.bytes())?,
                Part::Of(name) => match self.values.get(name.bytes()) {
                    Some(value) => push_value(alloc, &mut tail, value)?,
                    None => tail.extend_from_slice(name.bytes())?,
                },
            }
        }
        Ok(tail)
    }

    fn derived(&self, alloc: Global, name: &Name) -> Result<Derived, OutOfMemory> {
        match name {
            Name::Simple(name) => Ok(Derived::Simple(name.share()?)),
            Name::Stem(stem) => Ok(Derived::Stem(stem.share()?)),
            Name::Compound(stem, parts) => {
                let tail = self.tail(alloc, parts.as_slice())?;
                let tail = text_of(alloc, tail.as_slice())?;
                Ok(Derived::Compound(stem.share()?, tail))
            }
        }
    }

    // The value of a variable, if it has one.
    fn value(&self, alloc: Global, name: &Derived) -> Result<Option<Value>, OutOfMemory>
        ensures { IfOk result (λ value. value ≡ set_value self.now.values name.now) }
    {
        let found = match name {
            Derived::Simple(text) | Derived::Stem(text) => self.values.get(text.bytes()),
            Derived::Compound(stem, tail) => {
                let mut bytes = Vec::from_slice(alloc, stem.bytes())?;
                bytes.extend_from_slice(tail.bytes())?;
                if tail.bytes().is_empty() {
                    None
                } else {
                    self.values.get(bytes.as_slice())
                }
            }
        };
        match found {
            None => Ok(None),
            Some(value) => Ok(Some(value.share()?)),
        }
    }

    // The values of the variables of some names, in the order of these.
    fn reads(&self, alloc: Global, names: &[Name]) -> Result<Reads, OutOfMemory> {
        let mut reads = Reads::new(alloc);
        for name in names {
            let name = self.derived(alloc, name)?;
            let value = self.value(alloc, &name)?;
            reads.push(name, value)?;
        }
        Ok(reads)
    }

    /// What some code reads besides. DIGITS is 1 to 18.
    pub fn facts(&self, alloc: Global, code: &Postfix) -> Result<Facts, OutOfMemory>
        ensures at_least_1 { IfOk result (λ facts. 1 ≤ facts.frame.digits) }
        ensures at_most_18 { IfOk result (λ facts. facts.frame.digits ≤ 18) }
    {
        let frame = Frame {
            digits: self.digits.clamp(1, 18),
            arguments: Shared::new(alloc, Items::new(alloc))?,
            queued: 0,
            condition: None,
            lines: Shared::new(alloc, Items::new(alloc))?,
        };
        Ok(Facts {
            frame,
            reads: self.reads(alloc, code.names())?,
            novalue: self.novalue,
        })
    }
}

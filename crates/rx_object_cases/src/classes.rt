// Calls of the table of classes.
ghost use Rattle.std.specs.Prelude.{◌<◌, length};
ghost use Rattle.std.specs.Bool.{OnTrue};
ghost use Rattle.rx_classes.specs.Classes.{IsClass};

use crate::line::Line;
use rx_classes::{
    ClassDef, ClassTable, DefineRefused, MethodDef, MethodId, OutOfMemory, Scope, Sought, Text,
};
use sqlite_items::Items;
use std::alloc::Global;

/// The table that calls are made on.
pub struct ClassCases {
    table: ClassTable,
    // How many methods were defined.
    bodies: u32,
}

impl Drop for ClassCases {
    fn drop(self) {
        let ClassCases {
            table: _,
            bodies: _,
        } = self;
    }
}

// A text of some bytes; those behind the most that a text may have are left out.
fn text_of(alloc: Global, bytes: &[u8]) -> Result<Text, OutOfMemory> {
    let most = bytes.len().min(Text::LONGEST);
    Text::from_slice(alloc, &bytes[..most])
}

fn told_name(alloc: Global, told: &str, name: &Text) -> Result<String, OutOfMemory> {
    let name = String::from_utf8_lossy(alloc, name.bytes())?;
    Ok(format!(in alloc; "{told} {name}")?)
}

fn told_side(class_side: bool) -> &'static str {
    if class_side { "class" } else { "instance" }
}

fn told_method(alloc: Global, scope: Scope, method: MethodId) -> Result<String, OutOfMemory> {
    let side = told_side(scope.class_side);
    match method {
        MethodId::Native(number) => {
            Ok(format!(in alloc; "{} {side} native {number}", scope.class)?)
        }
        MethodId::Body {
            body,
            private: true,
            guarded: _,
        } => Ok(format!(in alloc; "{} {side} private body {body}", scope.class)?),
        MethodId::Body {
            body,
            private: false,
            guarded: _,
        } => Ok(format!(in alloc; "{} {side} body {body}", scope.class)?),
    }
}

fn told_refusal(alloc: Global, refused: &DefineRefused) -> Result<String, OutOfMemory> {
    match refused {
        DefineRefused::NoSuchClass(name) => told_name(alloc, "no class", name),
        DefineRefused::NotAMixin(name) => told_name(alloc, "no mixin", name),
        DefineRefused::BaseMissing(name) => told_name(alloc, "no base", name),
        DefineRefused::Twice(name) => told_name(alloc, "twice", name),
        DefineRefused::Closed(name) => told_name(alloc, "closed", name),
        DefineRefused::OutOfMemory => Err(OutOfMemory),
    }
}

// A class without mixins and methods.
fn plain(alloc: Global, name: &[u8], parent: &[u8]) -> Result<ClassDef, OutOfMemory> {
    Ok(ClassDef {
        name: text_of(alloc, name)?,
        line: 1,
        parent: text_of(alloc, parent)?,
        mixin: false,
        inherits: Items::new(alloc),
        methods: Items::new(alloc),
    })
}

impl ClassCases {
    /// There are the native classes.
    pub fn new(alloc: Global) -> Result<ClassCases, OutOfMemory> {
        Ok(ClassCases {
            table: ClassTable::new(alloc)?,
            bodies: 0,
        })
    }

    // Whether there is a class of this number.
    fn has(&self, class: u32) -> bool
        ensures { OnTrue result (IsClass self.now.table class) }
    {
        class >= 2 && (class as usize) < self.table.count() + 9
    }

    // Adds what a word says of a class.
    fn add_word(
        &mut self,
        alloc: Global,
        def: &mut ClassDef,
        word: &[u8],
    ) -> Result<(), OutOfMemory> {
        match word {
            b"mixin" => {
                def.mixin = true;
                Ok(())
            }
            [b'+', name @ ..] => {
                def.inherits.push(text_of(alloc, name)?)?;
                Ok(())
            }
            [b'.', name @ ..] => self.add_method(alloc, def, name, true, false),
            [b'-', name @ ..] => self.add_method(alloc, def, name, false, true),
            name => self.add_method(alloc, def, name, false, false),
        }
    }

    // Adds a method, whose body has the next number.
    fn add_method(
        &mut self,
        alloc: Global,
        def: &mut ClassDef,
        name: &[u8],
        class_side: bool,
        private: bool,
    ) -> Result<(), OutOfMemory> {
        def.methods.push(MethodDef {
            name: text_of(alloc, name)?,
            body: self.bodies,
            class_side,
            private,
            guarded: true,
        })?;
        self.bodies = self.bodies.saturating_add(1);
        Ok(())
    }

    fn define_def(&mut self, alloc: Global, def: ClassDef) -> Result<String, OutOfMemory> {
        if self.table.count() >= ClassTable::MOST {
            return Err(OutOfMemory);
        }
        match self.table.define(def) {
            Ok(number) => Ok(format!(in alloc; "{number}")?),
            Err(refused) => told_refusal(alloc, &refused),
        }
    }

    fn define(&mut self, alloc: Global, line: &Line) -> Result<String, OutOfMemory> {
        let mut def = plain(alloc, line.word(1), line.word(2))?;
        for (place, word) in line.words().iter().enumerate() {
            if place > 2 {
                self.add_word(alloc, &mut def, word.as_slice())?;
            }
        }
        self.define_def(alloc, def)
    }

    // Defines classes below one another, and tells what came of the last.
    fn chain(&mut self, alloc: Global, line: &Line) -> Result<String, OutOfMemory> {
        let mut parent = text_of(alloc, line.word(2))?;
        let mut told = String::new(alloc);
        for number in 0..line.number(1) {
            let name = format!(in alloc; "C{}", u64::from(number) + 1)?;
            let mut def = plain(alloc, name.as_bytes(), parent.bytes())?;
            if !line.word(3).is_empty() {
                def.inherits.push(text_of(alloc, line.word(3))?)?;
            }
            parent = text_of(alloc, name.as_bytes())?;
            told = self.define_def(alloc, def)?;
        }
        Ok(told)
    }

    fn order(&self, alloc: Global, class: u32) -> Result<String, OutOfMemory>
        requires { IsClass self.now.table class }
    {
        let order = self.table.order(class)?;
        if order.len() > 20 {
            return Ok(format!(in alloc; "{} classes", order.len())?);
        }
        let mut told = String::new(alloc);
        for class in &order {
            let one = format!(in alloc; "{class} ")?;
            told.push_str(one.as_str())?;
        }
        Ok(String::from_str(alloc, told.as_str().trim_end())?)
    }

    fn find(&self, alloc: Global, line: &Line, class: u32) -> Result<String, OutOfMemory>
        requires { IsClass self.now.table class }
    {
        match self.table.find(class, line.is_class_side(2), line.word(3))? {
            Some((scope, method)) => told_method(alloc, scope, method),
            None => Ok(String::from_str(alloc, "none")?),
        }
    }

    fn find_from(&self, alloc: Global, line: &Line, class: u32) -> Result<String, OutOfMemory>
        requires { IsClass self.now.table class }
    {
        let from = line.number(3);
        match self
            .table
            .find_from(class, line.is_class_side(2), from, line.word(4))?
        {
            Sought::Found(scope, method) => told_method(alloc, scope, method),
            Sought::NoMethod => Ok(String::from_str(alloc, "none")?),
            Sought::NotInOrder => Ok(String::from_str(alloc, "not in order")?),
        }
    }

    fn parent(&self, alloc: Global, class: u32) -> Result<String, OutOfMemory>
        requires { IsClass self.now.table class }
    {
        match self.table.parent(class) {
            Some(parent) => Ok(format!(in alloc; "{parent}")?),
            None => Ok(String::from_str(alloc, "none")?),
        }
    }

    // What a call on a class that is there comes to.
    fn of_class(
        &self,
        alloc: Global,
        line: &Line,
        class: u32,
    ) -> Result<Option<String>, OutOfMemory>
        requires { IsClass self.now.table class }
    {
        match line.word(0) {
            b"order" => Ok(Some(self.order(alloc, class)?)),
            b"name" => Ok(Some(told_name(alloc, "named", self.table.name(class))?)),
            b"parent" => Ok(Some(self.parent(alloc, class)?)),
            b"find" => Ok(Some(self.find(alloc, line, class)?)),
            b"from" => Ok(Some(self.find_from(alloc, line, class)?)),
            _ => Ok(None),
        }
    }

    fn named(&self, alloc: Global, name: &[u8]) -> Result<String, OutOfMemory> {
        match self.table.class_named(name) {
            Some(class) => Ok(format!(in alloc; "{class}")?),
            None => Ok(String::from_str(alloc, "none")?),
        }
    }

    /// What a call comes to.
    pub fn tell(&mut self, alloc: Global, line: &Line) -> Result<Option<String>, OutOfMemory> {
        let class = line.number(1);
        match line.word(0) {
            b"classes" => {
                self.table = ClassTable::new(alloc)?;
                self.bodies = 0;
                Ok(Some(String::from_str(alloc, "done")?))
            }
            b"define" => Ok(Some(self.define(alloc, line)?)),
            b"chain" => Ok(Some(self.chain(alloc, line)?)),
            b"named" => Ok(Some(self.named(alloc, line.word(1))?)),
            _ if self.has(class) => self.of_class(alloc, line, class),
            _ => Ok(None),
        }
    }
}

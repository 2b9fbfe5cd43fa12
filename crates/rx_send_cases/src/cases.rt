// Lines of the input, and what they act on.
ghost use Rattle.std.specs.Prelude.{◌≡◌};
ghost use Rattle.std.specs.Bool.{OnTrue};
ghost use Rattle.rx_frames.specs.Activities.{IsBegun};
ghost use Rattle.rx_heap.specs.Objects.{IsOfKind};

use crate::activities::{told_activity, told_gift};
use crate::classes::{class_of, method_of};
use crate::fitting::{are_there, fits, is_class, is_object, is_there};
use crate::frames::{
    await_next, begin, change_top, is_awaiting, is_begun, kind_of, push, push_more, shared, wait_of,
};
use crate::line::{Line, text_of};
use crate::never::{FrameAt, NeverAwaiting};
use crate::objects::{told_count, told_object, told_pool};
use crate::told::{told_class, told_word};
use rx_classes::{ClassDef, ClassTable, DefineRefused};
use rx_escape::escape;
use rx_frames::Stacks;
use rx_heap::{Heap, HeapRefused, Kind};
use rx_pools::Pools;
use rx_sends::{Parts, SendRefused, Sent, forward, send};
use rx_tree::{FrameKind, OutOfMemory};
use sqlite_items::Items;
use std::alloc::Global;

/// What messages act on, the class whose lines are being read, and the frames that await no
/// answer.
pub struct SendCases {
    parts: Parts,
    class: Option<ClassDef>,
    never: NeverAwaiting,
}

impl Drop for SendCases {
    fn drop(self) {
        let SendCases {
            parts: _,
            class: _,
            never: _,
        } = self;
    }
}

// The class Object.
const OBJECT: u32 = 2;

// The calls on an activity.
const ON_ACTIVITY: [&[u8]; 10] = [
    b"send", b"many", b"forward", b"first", b"end", b"frame", b"digits", b"trap", b"await", b"wait",
];

// How a message is sent.
#[derive(Clone, Copy, PartialEq, Eq)]
enum Way {
    /// As a clause of the frame on top does.
    Clause,
    /// By FORWARD.
    Forward,
    /// As the first message of an activity.
    First,
}

// Whether an object is a Message.
fn is_message(heap: &Heap, o: u32) -> bool
    ensures { OnTrue result (IsOfKind heap.now o Kind.Message) }
{
    is_object(heap, o) && heap.kind(o) == Kind::Message
}

// What sending comes to.
fn told_outcome(alloc: Global, outcome: Result<(), SendRefused>) -> Result<String, OutOfMemory> {
    match outcome {
        Ok(()) => told_word(alloc, "done"),
        Err(SendRefused::Raised(number)) => Ok(format!(in alloc; "raised {number}")?),
        Err(SendRefused::NoMethod) => told_word(alloc, "no method"),
        Err(SendRefused::OutOfMemory) => told_word(alloc, "memory"),
    }
}

// Whether something was done.
fn told_done(alloc: Global, is_done: bool, otherwise: &str) -> Result<String, OutOfMemory> {
    told_word(alloc, if is_done { "done" } else { otherwise })
}

// Makes so many plain objects, or as many as there is room for.
fn make(heap: &mut Heap, count: u32) -> Result<(), OutOfMemory> {
    for _ in 0..count {
        match heap.make(OBJECT, Kind::Plain) {
            Ok(_) => {}
            Err(HeapRefused::Full) => return Ok(()),
            Err(HeapRefused::OutOfMemory) => return Err(OutOfMemory),
        }
    }
    Ok(())
}

// Puts a line behind others.
fn push_line(lines: &mut String, line: &str) -> Result<(), OutOfMemory> {
    if !lines.is_empty() {
        lines.push_str("\n")?;
    }
    lines.push_str(line)?;
    Ok(())
}

impl SendCases {
    /// There are `.nil` and the native classes, and no activity.
    pub fn new(alloc: Global) -> Result<SendCases, OutOfMemory> {
        Ok(SendCases {
            parts: Parts {
                stacks: Stacks::new(alloc),
                heap: Heap::new(alloc, 8)?,
                classes: ClassTable::new(alloc)?,
                pools: Pools::new(alloc),
            },
            class: None,
            never: NeverAwaiting::new(alloc),
        })
    }

    // Makes the objects of the classes as they are defined, and begins an activity with the frame
    // of a main program.
    fn run(&mut self, alloc: Global) -> Result<String, OutOfMemory> {
        let classes = (self.parts.classes.count().min(1_000_000) + 8) as u32;
        self.parts.heap = Heap::new(alloc, classes)?;
        self.parts.stacks = Stacks::new(alloc);
        self.parts.pools = Pools::new(alloc);
        self.never = NeverAwaiting::new(alloc);
        begin(&mut self.parts.stacks, 1)?;
        let is_done = push(alloc, &mut self.parts.stacks, 1, FrameKind::Main)?;
        told_done(alloc, is_done, "deep")
    }

    // Defines the class whose lines were read, if there is one.
    fn define(&mut self, alloc: Global) -> Result<String, OutOfMemory> {
        let Some(class) = self.class.take() else {
            return Ok(String::new(alloc));
        };
        let name = escape(alloc, class.name.bytes())?;
        if self.parts.classes.count() >= ClassTable::MOST {
            return Err(OutOfMemory);
        }
        match self.parts.classes.define(class) {
            Ok(number) => Ok(format!(in alloc; "class {number} {name}\n")?),
            Err(DefineRefused::OutOfMemory) => Err(OutOfMemory),
            Err(_) => Ok(format!(in alloc; "refused {name}\n")?),
        }
    }

    fn add_method(&mut self, alloc: Global, line: &Line) -> Result<String, OutOfMemory> {
        let method = method_of(alloc, line)?;
        match self.class.as_mut() {
            Some(class) => {
                class.methods.push(method)?;
                Ok(String::new(alloc))
            }
            None => told_word(alloc, "no class\n"),
        }
    }

    // The number of the class that a word names: 0 where there is none.
    fn class_at(&self, line: &Line, place: usize) -> u32 {
        match line.bytes(place) {
            [b'#', ..] => line.number(place),
            name => self.parts.classes.class_named(name).unwrap_or(0),
        }
    }

    fn order(&self, alloc: Global, line: &Line) -> Result<String, OutOfMemory> {
        let class = self.class_at(line, 1);
        if !is_class(&self.parts.classes, class) {
            return told_word(alloc, "no such class");
        }
        let mut told = String::new(alloc);
        for class in &self.parts.classes.order(class)? {
            if !told.is_empty() {
                told.push_str(" ")?;
            }
            told.push_str(told_class(alloc, &self.parts.classes, *class)?.as_str())?;
        }
        Ok(told)
    }

    // The message that a line sends.
    fn sent_of(&self, alloc: Global, line: &Line) -> Result<Sent, OutOfMemory> {
        let target = line.target(alloc, 2)?;
        let name = text_of(alloc, line.bytes(3))?;
        let (above, from) = if line.is_at(4, b"above") {
            (Some(self.class_at(line, 5)), 6)
        } else {
            (None, 4)
        };
        Ok(Sent {
            target,
            name,
            above,
            args: line.arguments(alloc, from)?,
        })
    }

    // The message that a line sends with so many arguments, all of them omitted.
    fn many_of(&self, alloc: Global, line: &Line) -> Result<Sent, OutOfMemory> {
        let mut args = Items::new(alloc);
        for _ in 0..line.number(4) {
            args.push(None)?;
        }
        Ok(Sent {
            target: line.target(alloc, 2)?,
            name: text_of(alloc, line.bytes(3))?,
            above: None,
            args,
        })
    }

    // The message of a Message, if this is the number of one.
    fn sent_by(&self, alloc: Global, message: u32) -> Result<Option<Sent>, OutOfMemory> {
        if !is_message(&self.parts.heap, message) {
            return Ok(None);
        }
        let row = self.parts.heap.message(message);
        Ok(Some(Sent {
            target: row.target.share()?,
            name: row.name.share()?,
            above: None,
            args: shared(alloc, row.args.as_slice())?,
        }))
    }

    // The top frame of an activity.
    fn top_at(&self, a: u32) -> FrameAt
        requires { IsBegun self.now.parts.stacks a }
    {
        FrameAt {
            activity: a,
            height: self.parts.stacks.height(a),
        }
    }

    // Whether a frame on top is to await the answer of a message before that is sent.
    fn awaits_next(&self, a: u32, way: Way) -> bool
        requires { IsBegun self.now.parts.stacks a }
    {
        way != Way::First && !self.never.has(self.top_at(a))
    }

    // Sends a message, where what it needs is there.
    fn deliver(
        &mut self,
        alloc: Global,
        a: u32,
        sent: Sent,
        way: Way,
    ) -> Result<String, OutOfMemory>
        requires { IsBegun self.old.parts.stacks a }
    {
        if !is_there(&self.parts.heap, &sent.target) {
            return told_word(alloc, "no such receiver");
        }
        if !are_there(&self.parts.heap, sent.args.as_slice()) {
            return told_word(alloc, "no such argument");
        }
        if !fits(&self.parts.heap, &self.parts.classes)? {
            return told_word(alloc, "no such class");
        }
        let awaits = self.awaits_next(a, way);
        await_next(alloc, &mut self.parts.stacks, a, awaits);
        let is_awaiting = is_awaiting(&self.parts.stacks, a);
        let outcome = match way {
            Way::Forward => forward(alloc, &mut self.parts, a, sent),
            Way::Clause | Way::First => send(alloc, &mut self.parts, a, sent),
        };
        match outcome {
            Ok(()) if is_awaiting => told_gift(alloc, &self.parts.stacks, a),
            outcome => told_outcome(alloc, outcome),
        }
    }

    // Sends an activity's first message.
    fn send_first(&mut self, alloc: Global, a: u32) -> Result<String, OutOfMemory>
        requires { IsBegun self.old.parts.stacks a }
    {
        let Some(message) = self.parts.stacks.first_message(a) else {
            return told_word(alloc, "no first message");
        };
        match self.sent_by(alloc, message)? {
            Some(sent) => self.deliver(alloc, a, sent, Way::First),
            None => told_word(alloc, "no Message"),
        }
    }

    // Takes the top frame of an activity away. Whether there is one.
    fn end(&mut self, a: u32) -> Result<bool, OutOfMemory>
        requires { IsBegun self.old.parts.stacks a }
    {
        let top = self.top_at(a);
        self.never.set(top, false)?;
        Ok(self.parts.stacks.pop(a).is_some())
    }

    // Changes the top frame of an activity as a line says. Whether there is one.
    fn change(&mut self, alloc: Global, line: &Line, a: u32) -> Result<bool, OutOfMemory>
        requires { IsBegun self.old.parts.stacks a }
    {
        let top = self.top_at(a);
        let is_done = change_top(alloc, &mut self.parts.stacks, a, line)?;
        if line.is_at(0, b"await") {
            self.never.set(top, is_done && line.is_at(2, b"never"))?;
        }
        Ok(is_done)
    }

    // What a call on an activity comes to.
    fn on_activity(&mut self, alloc: Global, line: &Line, a: u32) -> Result<String, OutOfMemory>
        requires { IsBegun self.old.parts.stacks a }
    {
        match line.bytes(0) {
            b"send" => {
                let sent = self.sent_of(alloc, line)?;
                self.deliver(alloc, a, sent, Way::Clause)
            }
            b"many" => {
                let sent = self.many_of(alloc, line)?;
                self.deliver(alloc, a, sent, Way::Clause)
            }
            b"forward" => {
                let sent = self.sent_of(alloc, line)?;
                self.deliver(alloc, a, sent, Way::Forward)
            }
            b"first" => self.send_first(alloc, a),
            b"end" => told_done(alloc, self.end(a)?, "no frame"),
            b"frame" => {
                let is_done = push(alloc, &mut self.parts.stacks, a, kind_of(line.bytes(2)))?;
                told_done(alloc, is_done, "deep")
            }
            b"wait" => {
                self.parts.stacks.wait(a, wait_of(line));
                told_word(alloc, "done")
            }
            _ => told_done(alloc, self.change(alloc, line, a)?, "no frame"),
        }
    }

    // Makes as much of something as a line says, and tells how much there is then.
    fn fill(&mut self, alloc: Global, line: &Line) -> Result<String, OutOfMemory> {
        match line.bytes(1) {
            b"objects" => {
                make(&mut self.parts.heap, line.number(2))?;
                Ok(format!(in alloc; "objects {}", self.parts.heap.count())?)
            }
            b"activities" => {
                begin(&mut self.parts.stacks, line.number(2))?;
                Ok(format!(in alloc; "activities {}", self.parts.stacks.count())?)
            }
            _ => {
                let a = line.number(2);
                push_more(alloc, &mut self.parts.stacks, a, line.number(3))?;
                self.show_one(alloc, a, 0)
            }
        }
    }

    // Tells of an activity, and of at most so many of its frames.
    fn show_one(&self, alloc: Global, a: u32, most: u32) -> Result<String, OutOfMemory> {
        if is_begun(&self.parts.stacks, a) {
            told_activity(alloc, &self.parts, a, most)
        } else {
            told_word(alloc, "no such activity")
        }
    }

    // Tells of all objects that are no classes.
    fn show_objects(&self, alloc: Global, lines: &mut String) -> Result<(), OutOfMemory> {
        let heap = &self.parts.heap;
        for place in 0..heap.count() {
            if let Some(told) = told_object(alloc, heap, &self.parts.classes, place + 1)? {
                push_line(lines, told.as_str())?;
            }
        }
        Ok(())
    }

    // Tells of all activities, objects and pools.
    fn show_all(&self, alloc: Global) -> Result<String, OutOfMemory> {
        let mut lines = String::new(alloc);
        for place in 0..self.parts.stacks.count() {
            let told = told_activity(alloc, &self.parts, place + 1, u32::MAX)?;
            push_line(&mut lines, told.as_str())?;
        }
        self.show_objects(alloc, &mut lines)?;
        for number in 0..self.parts.pools.count() {
            let told = told_pool(alloc, &self.parts.pools, &self.parts.classes, number)?;
            push_line(&mut lines, told.as_str())?;
        }
        Ok(lines)
    }

    // What a call comes to.
    fn call(&mut self, alloc: Global, line: &Line) -> Result<String, OutOfMemory> {
        let a = line.number(1);
        match line.bytes(0) {
            b"classes" => {
                *self = SendCases::new(alloc)?;
                told_word(alloc, "done")
            }
            b"run" => self.run(alloc),
            b"order" => self.order(alloc, line),
            b"count" => told_count(alloc, &self.parts),
            b"fill" => self.fill(alloc, line),
            b"show" if line.count() > 1 => self.show_one(alloc, a, 1),
            b"show" => self.show_all(alloc),
            name if !ON_ACTIVITY.iter().any(|other| name == *other) => {
                told_word(alloc, "no such call")
            }
            _ if is_begun(&self.parts.stacks, a) => self.on_activity(alloc, line, a),
            _ => told_word(alloc, "no such activity"),
        }
    }

    /// What a line of the input comes to, as lines of text.
    pub fn tell(&mut self, alloc: Global, text: &str) -> Result<String, OutOfMemory> {
        let line = Line::read(alloc, text)?;
        if line.is_at(0, b"method") {
            return self.add_method(alloc, &line);
        }
        let mut told = self.define(alloc)?;
        if line.is_at(0, b"class") {
            self.class = Some(class_of(alloc, &line)?);
            return Ok(told);
        }
        if text.is_empty() || text.starts_with("--") {
            told.push_str(text)?;
        } else {
            told.push_str(self.call(alloc, &line)?.as_str())?;
        }
        told.push_str("\n")?;
        Ok(told)
    }
}

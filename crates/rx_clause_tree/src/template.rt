// Templates of PARSE.
ghost use Rattle.std.specs.Prelude.{◌≡◌, IfOk};

use rx_tree::{Expr, Name, OutOfMemory, Text};
use sqlite_items::Items;
use std::alloc::Global;

/// How far a position of a template is: a constant, or the value of a variable in parentheses. Whether it is a whole number
/// shows when it is used.
pub enum Distance {
    Number(Text),
    Value(Name),
}

impl Drop for Distance {
    fn drop(self) {
        match self {
            Distance::Number(_) => {}
            Distance::Value(_) => {}
        }
    }
}

impl Distance {
    /// An equal distance, or want of memory.
    pub fn share(&self, alloc: Global) -> Result<Distance, OutOfMemory>
        ensures same { IfOk result (λ distance. distance ≡ self.now) }
    {
        match self {
            Distance::Number(digits) => Ok(Distance::Number(digits.share()?)),
            Distance::Value(name) => Ok(Distance::Value(name.share(alloc)?)),
        }
    }
}

/// A part of a template: what takes a piece, or what tells where one ends.
pub enum TemplatePart {
    /// A variable, which takes a piece.
    Target(Name),
    /// A period, which drops a piece.
    Period,
    /// A string that is sought.
    Literal(Text),
    /// A variable in parentheses, whose value is sought.
    Pattern(Name),
    /// A number, or `=` and a number: that place of the text.
    At(Distance),
    /// `+` and a number: so far behind the last match.
    Forward(Distance),
    /// `-` and a number: so far before the last match.
    Backward(Distance),
}

impl Drop for TemplatePart {
    fn drop(self) {
        match self {
            TemplatePart::Target(_) => {}
            TemplatePart::Period => {}
            TemplatePart::Literal(_) => {}
            TemplatePart::Pattern(_) => {}
            TemplatePart::At(_) => {}
            TemplatePart::Forward(_) => {}
            TemplatePart::Backward(_) => {}
        }
    }
}

impl TemplatePart {
    /// An equal part, or want of memory.
    pub fn share(&self, alloc: Global) -> Result<TemplatePart, OutOfMemory>
        ensures same { IfOk result (λ part. part ≡ self.now) }
    {
        match self {
            TemplatePart::Target(name) => Ok(TemplatePart::Target(name.share(alloc)?)),
            TemplatePart::Period => Ok(TemplatePart::Period),
            TemplatePart::Literal(text) => Ok(TemplatePart::Literal(text.share()?)),
            TemplatePart::Pattern(name) => Ok(TemplatePart::Pattern(name.share(alloc)?)),
            TemplatePart::At(place) => Ok(TemplatePart::At(place.share(alloc)?)),
            TemplatePart::Forward(distance) => Ok(TemplatePart::Forward(distance.share(alloc)?)),
            TemplatePart::Backward(distance) => Ok(TemplatePart::Backward(distance.share(alloc)?)),
        }
    }
}

/// What one text is cut by: targets, and what tells where their pieces end.
pub struct Template {
    pub parts: Items<TemplatePart>,
}

impl Drop for Template {
    fn drop(self) {
        let Template { parts: _ } = self;
    }
}

impl Template {
    /// An equal template, or want of memory.
    pub fn share(&self, alloc: Global) -> Result<Template, OutOfMemory>
        ensures same { IfOk result (λ template. template ≡ self.now) }
    {
        let mut parts = Items::new(alloc);
        for part in self.parts.as_slice() {
            let part = part.share(alloc)?;
            parts.push(part)?;
        }
        Ok(Template { parts })
    }
}

/// Where PARSE has its texts from.
pub enum ParseFrom {
    /// The arguments, each with a template of its own.
    Arg,
    /// The queue, or where that is empty a line of the input.
    Pull,
    /// A line of the input.
    LineIn,
    /// The value of a variable.
    Var(Name),
    /// The value of an expression.
    Value(Expr),
}

impl Drop for ParseFrom {
    fn drop(self) {
        match self {
            ParseFrom::Arg => {}
            ParseFrom::Pull => {}
            ParseFrom::LineIn => {}
            ParseFrom::Var(_) => {}
            ParseFrom::Value(_) => {}
        }
    }
}

impl ParseFrom {
    /// An equal origin, or want of memory.
    pub fn share(&self, alloc: Global) -> Result<ParseFrom, OutOfMemory>
        ensures same { IfOk result (λ from. from ≡ self.now) }
    {
        match self {
            ParseFrom::Arg => Ok(ParseFrom::Arg),
            ParseFrom::Pull => Ok(ParseFrom::Pull),
            ParseFrom::LineIn => Ok(ParseFrom::LineIn),
            ParseFrom::Var(name) => Ok(ParseFrom::Var(name.share(alloc)?)),
            ParseFrom::Value(expr) => Ok(ParseFrom::Value(expr.share(alloc)?)),
        }
    }
}

/// The parts of PARSE, ARG and PULL.
pub struct Parse {
    /// Whether the text is taken in upper case.
    pub upper: bool,
    pub from: ParseFrom,
    /// The templates. There is more than one only for arguments.
    pub templates: Items<Template>,
}

impl Drop for Parse {
    fn drop(self) {
        let Parse {
            upper: _,
            from: _,
            templates: _,
        } = self;
    }
}

impl Parse {
    /// Equal parts, or want of memory.
    pub fn share(&self, alloc: Global) -> Result<Parse, OutOfMemory>
        ensures same { IfOk result (λ parse. parse ≡ self.now) }
    {
        let from = self.from.share(alloc)?;
        let mut templates = Items::new(alloc);
        for template in self.templates.as_slice() {
            let template = template.share(alloc)?;
            templates.push(template)?;
        }
        Ok(Parse {
            upper: self.upper,
            from,
            templates,
        })
    }
}

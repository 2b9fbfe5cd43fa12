// The classes and routines that directives make.
ghost use Rattle.std.specs.Prelude.{◌≡◌, ◌+◌, ◌*◌, ◌^◌, ◌++◌, ◌<◌, length, IfOk, OnOk};
ghost use Rattle.rx_directives.specs.Packages as spec;

use crate::directive::{
    Access, AttributeName, ClassHead, Directive, DirectiveKind, Guarding, Options, Superclass,
    Visibility,
};
use rx_tree::{ClassDef, MethodDef, OutOfMemory, Text};
use sqlite_items::Items;
use std::alloc::Global;

impl DirectiveKind {
    // How many bodies it makes.
    fn body_count(&self) -> u32
        ensures count { result ≡ spec.body_count self.now }
    {
        match self {
            DirectiveKind::Class(_) => 0,
            DirectiveKind::Attribute(_, options, _) if options.access.is_none() => 2,
            _ => 1,
        }
    }

    fn begins_class(&self) -> bool
        ensures { result ≡ spec.begins_class self.now }
    {
        matches!(self, DirectiveKind::Class(_))
    }
}

impl Options {
    fn is_private(&self) -> bool
        ensures { result ≡ spec.is_private self.now.visibility }
    {
        matches!(self.visibility, Some(Visibility::Private))
    }

    fn is_guarded(&self) -> bool
        ensures { result ≡ spec.is_guarded self.now.guarding }
    {
        !matches!(self.guarding, Some(Guarding::Unguarded))
    }
}

// A method by its name and the number of its body.
fn a_method(name: Text, body: u32, options: &Options) -> MethodDef
    ensures { result ≡ spec.a_method name body options.now }
{
    MethodDef {
        name,
        body,
        class_side: options.class_side,
        private: options.is_private(),
        guarded: options.is_guarded(),
    }
}

// A method of a constant.
fn constant_method(name: Text, body: u32, class_side: bool) -> MethodDef
    ensures { result ≡ spec.constant_method name body class_side }
{
    MethodDef {
        name,
        body,
        class_side,
        private: false,
        guarded: false,
    }
}

// The name of the method that sets an attribute. It has no more bytes than a text has, since no source has so many; a longer one
// counts as want of memory.
fn setter_name(alloc: Global, name: &Text) -> Result<Text, OutOfMemory>
    ensures { IfOk result (λ setter. setter ≡ spec.setter_name name.now) }
{
    let mut bytes = Vec::from_slice(alloc, name.bytes())?;
    bytes.push(b'=')?;
    if bytes.len() > Text::LONGEST {
        return Err(OutOfMemory);
    }
    Text::from_slice(alloc, bytes.as_slice())
}

// Puts the methods of an attribute behind others.
fn push_attribute(
    alloc: Global,
    methods: &mut Items<MethodDef>,
    body: u32,
    named: &AttributeName,
    options: &Options,
) -> Result<(), OutOfMemory>
    requires { body + 2 < 2 ^ 32 }
    ensures { OnOk result (methods.new ≡ methods.old ++ spec.attribute_methods named.now.name body options.now options.now.access) }
{
    match options.access {
        Some(Access::Get) => methods.push(a_method(named.name.share()?, body, options))?,
        Some(Access::Set) => {
            let name = setter_name(alloc, &named.name)?;
            methods.push(a_method(name, body, options))?;
        }
        None => {
            methods.push(a_method(named.name.share()?, body, options))?;
            let name = setter_name(alloc, &named.name)?;
            methods.push(a_method(name, body + 1, options))?;
        }
    }
    Ok(())
}

// Puts the methods that a directive makes behind others.
fn push_methods(
    alloc: Global,
    methods: &mut Items<MethodDef>,
    body: u32,
    kind: &DirectiveKind,
) -> Result<(), OutOfMemory>
    requires { body + 2 < 2 ^ 32 }
    ensures { OnOk result (methods.new ≡ methods.old ++ spec.kind_methods body kind.now) }
{
    match kind {
        DirectiveKind::Method(name, options, _) => {
            methods.push(a_method(name.share()?, body, options))?;
        }
        DirectiveKind::Attribute(named, options, _) => {
            push_attribute(alloc, methods, body, named, options)?;
        }
        DirectiveKind::Constant(name, _) => {
            methods.push(constant_method(name.share()?, body, false))?;
            methods.push(constant_method(name.share()?, body, true))?;
        }
        DirectiveKind::Class(_) | DirectiveKind::Routine(..) => {}
    }
    Ok(())
}

// The methods that directives make in front of the next class.
#[tactic(auto, using(crate::proofs::Making::method_lists))]
fn methods_of(
    alloc: Global,
    directives: &[Directive],
    first: u32,
) -> Result<Items<MethodDef>, OutOfMemory>
    requires { first + 2 * length directives.now < 2 ^ 32 }
    ensures { IfOk result (λ methods. methods ≡ spec.methods_of first directives.now) }
{
    let mut methods = Items::new(alloc);
    let mut body = first;
    let mut rest = directives;
    while let [directive, behind @ ..] = rest {
        if directive.kind.begins_class() {
            return Ok(methods);
        }
        push_methods(alloc, &mut methods, body, &directive.kind)?;
        body += directive.kind.body_count();
        rest = behind;
    }
    Ok(methods)
}

fn parent_of(alloc: Global, superclass: &Option<Superclass>) -> Result<Text, OutOfMemory>
    ensures { IfOk result (λ parent. parent ≡ spec.parent_of superclass.now) }
{
    match superclass {
        None => Text::from_slice(alloc, b"OBJECT"),
        Some(superclass) => superclass.name.share(),
    }
}

fn is_mixin(superclass: &Option<Superclass>) -> bool
    ensures { result ≡ spec.is_mixin superclass.now }
{
    match superclass {
        None => false,
        Some(superclass) => superclass.mixin,
    }
}

fn share_names(alloc: Global, names: &[Text]) -> Result<Items<Text>, OutOfMemory>
    ensures { IfOk result (λ shared. shared ≡ names.now) }
{
    let mut shared = Items::new(alloc);
    for name in names {
        let name = name.share()?;
        shared.push(name)?;
    }
    Ok(shared)
}

// The class of a directive, with its methods.
fn a_class(
    alloc: Global,
    line: u32,
    head: &ClassHead,
    methods: Items<MethodDef>,
) -> Result<ClassDef, OutOfMemory>
    ensures { IfOk result (λ class. class ≡ spec.a_class line head.now methods) }
{
    let name = head.name.share()?;
    let parent = parent_of(alloc, &head.superclass)?;
    let inherits = share_names(alloc, head.inherits.as_slice())?;
    Ok(ClassDef {
        name,
        line,
        parent,
        mixin: is_mixin(&head.superclass),
        inherits,
        methods,
    })
}

// Puts the class that a directive makes behind others, if it makes one. Its methods are those of the directives behind it.
fn push_class(
    alloc: Global,
    classes: &mut Items<ClassDef>,
    directive: &Directive,
    behind: &[Directive],
    body: u32,
) -> Result<(), OutOfMemory>
    requires { body + 2 * length behind.now < 2 ^ 32 }
    ensures { OnOk result (classes.new ≡ classes.old ++ spec.kind_classes directive.now.line directive.now.kind (spec.methods_of body behind.now)) }
{
    if let DirectiveKind::Class(head) = &directive.kind {
        let methods = methods_of(alloc, behind, body)?;
        let class = a_class(alloc, directive.line, head, methods)?;
        classes.push(class)?;
    }
    Ok(())
}

/// The classes that directives make, in directive order, or want of memory.
#[tactic(auto, using(crate::proofs::Making::class_lists))]
pub fn classes_of(alloc: Global, directives: &[Directive]) -> Result<Items<ClassDef>, OutOfMemory>
    requires { 2 * length directives.now < 2 ^ 32 }
    ensures { IfOk result (λ classes. classes ≡ spec.classes_of 0 directives.now) }
{
    let mut classes = Items::new(alloc);
    let mut body = 0;
    let mut rest = directives;
    while let [directive, behind @ ..] = rest {
        push_class(alloc, &mut classes, directive, behind, body)?;
        body += directive.kind.body_count();
        rest = behind;
    }
    Ok(classes)
}

// Puts the routine that a directive makes behind others, if it makes one.
fn push_routine(
    routines: &mut Items<(Text, u32)>,
    directive: &Directive,
    body: u32,
) -> Result<(), OutOfMemory>
    ensures { OnOk result (routines.new ≡ routines.old ++ spec.kind_routines body directive.now.kind) }
{
    if let DirectiveKind::Routine(name, _) = &directive.kind {
        routines.push((name.share()?, body))?;
    }
    Ok(())
}

/// The routines that directives make, each with the number of its body, or want of memory.
#[tactic(auto, using(crate::proofs::Making::routine_lists))]
pub fn routines_of(
    alloc: Global,
    directives: &[Directive],
) -> Result<Items<(Text, u32)>, OutOfMemory>
    requires { 2 * length directives.now < 2 ^ 32 }
    ensures { IfOk result (λ routines. routines ≡ spec.routines_of 0 directives.now) }
{
    let mut routines = Items::new(alloc);
    let mut body = 0;
    let mut rest = directives;
    while let [directive, behind @ ..] = rest {
        push_routine(&mut routines, directive, body)?;
        body += directive.kind.body_count();
        rest = behind;
    }
    Ok(routines)
}

// What single tokens are where a directive is read.
ghost use Rattle.std.specs.Prelude.{◌≡◌, IfOk, map};
ghost use Rattle.std.specs.Str.{str_to_ascii_uppercase};
ghost use Rattle.std.specs.List.{list_all};
ghost use Rattle.rx_tree.specs.Letters.{is_digit};
ghost use Rattle.rx_directives.specs.DirectiveWords as spec;

use crate::directive::{Access, Guarding, Options, Visibility};
use rx_clauses::variable_of;
use rx_exprs::name_of;
use rx_scan::read_symbol;
use rx_text::upper;
use rx_tree::{Name, Oper, OutOfMemory, Text, TokenKind};
use std::alloc::Global;

/// A word that is said of a method behind its name.
#[derive(Clone, Copy, Debug, PartialEq, Eq)]
pub enum OptionWord {
    Class,
    Public,
    Private,
    Guarded,
    Unguarded,
    Get,
    Set,
}

const OPTIONS: [(&[u8], OptionWord); 7] = [
    (b"CLASS", OptionWord::Class),
    (b"PUBLIC", OptionWord::Public),
    (b"PRIVATE", OptionWord::Private),
    (b"GUARDED", OptionWord::Guarded),
    (b"UNGUARDED", OptionWord::Unguarded),
    (b"GET", OptionWord::Get),
    (b"SET", OptionWord::Set),
];

// What stands beside a name in a table.
fn beside(name: &[u8], table: &[(&[u8], OptionWord)]) -> Option<OptionWord>
    ensures { result ≡ spec.beside name.now (map (λ e. (e.0.now, e.1)) table.now) }
{
    let mut rest = table;
    while let [entry, behind @ ..] = rest {
        if entry.0 == name {
            return Some(entry.1);
        }
        rest = behind;
    }
    None
}

/// The word of an option that a token is, if it is one.
pub fn option_of(kind: &TokenKind) -> Option<OptionWord>
    ensures { result ≡ spec.option_of kind.now }
{
    match kind {
        TokenKind::Simple(name) => beside(name.bytes(), &OPTIONS),
        _ => None,
    }
}

impl Options {
    /// Nothing is said.
    pub const NONE: Options = Options {
        class_side: false,
        visibility: None,
        guarding: None,
        access: None,
    };

    /// What is said with a word more, unless it or its opposite was said before.
    pub fn with(self, word: OptionWord) -> Option<Options>
        ensures { result ≡ spec.with_option word self }
    {
        match word {
            OptionWord::Class => self.with_class(),
            OptionWord::Public => self.with_visibility(Visibility::Public),
            OptionWord::Private => self.with_visibility(Visibility::Private),
            OptionWord::Guarded => self.with_guarding(Guarding::Guarded),
            OptionWord::Unguarded => self.with_guarding(Guarding::Unguarded),
            OptionWord::Get => self.with_access(Access::Get),
            OptionWord::Set => self.with_access(Access::Set),
        }
    }

    fn with_class(self) -> Option<Options>
        ensures { result ≡ spec.with_class self }
    {
        if self.class_side {
            return None;
        }
        Some(Options {
            class_side: true,
            ..self
        })
    }

    fn with_visibility(self, visibility: Visibility) -> Option<Options>
        ensures { result ≡ spec.with_visibility visibility self }
    {
        if self.visibility.is_some() {
            return None;
        }
        Some(Options {
            visibility: Some(visibility),
            ..self
        })
    }

    fn with_guarding(self, guarding: Guarding) -> Option<Options>
        ensures { result ≡ spec.with_guarding guarding self }
    {
        if self.guarding.is_some() {
            return None;
        }
        Some(Options {
            guarding: Some(guarding),
            ..self
        })
    }

    fn with_access(self, access: Access) -> Option<Options>
        ensures { result ≡ spec.with_access access self }
    {
        if self.access.is_some() {
            return None;
        }
        Some(Options {
            access: Some(access),
            ..self
        })
    }
}

// A text in upper case.
fn upper_text(alloc: Global, text: &Text) -> Result<Text, OutOfMemory>
    ensures { IfOk result (λ upper. upper ≡ str_to_ascii_uppercase text.now) }
{
    let Ok(upper) = upper(alloc, text.bytes()) else {
        return Err(OutOfMemory);
    };
    Text::from_slice(alloc, upper.as_slice())
}

/// The name of a class or a method that a token is, if it is one.
pub fn title_of(alloc: Global, kind: &TokenKind) -> Result<Option<Text>, OutOfMemory>
    ensures { IfOk result (λ title. title ≡ spec.title_of kind.now) }
{
    match name_of(alloc, kind)? {
        Some(name) => Ok(Some(upper_text(alloc, &name)?)),
        None => Ok(None),
    }
}

// The variable that a string spells, if it spells one.
#[tactic(auto, using(crate::proofs::WordLemmas::spelled))]
fn spelled(alloc: Global, text: &Text) -> Result<Option<Name>, OutOfMemory>
    ensures { IfOk result (λ name. name ≡ spec.spelled_variable text.now) }
{
    let bytes = text.bytes();
    if bytes.is_empty() {
        return Ok(None);
    }
    let (kind, behind) = read_symbol(alloc, bytes)?;
    if !behind.is_empty() {
        return Ok(None);
    }
    variable_of(alloc, &kind)
}

/// The variable of an attribute that a token names, if it does.
pub fn attribute_of(alloc: Global, kind: &TokenKind) -> Result<Option<Name>, OutOfMemory>
    ensures { IfOk result (λ name. name ≡ spec.attribute_of kind.now) }
{
    match kind {
        TokenKind::Quoted(text) => spelled(alloc, text),
        _ => variable_of(alloc, kind),
    }
}

/// The sign that a token is, if it is one.
pub fn sign_of(kind: &TokenKind) -> Option<Oper>
    ensures { result ≡ spec.sign_at kind.now }
{
    match kind {
        TokenKind::Operator(Oper::Plus) => Some(Oper::Plus),
        TokenKind::Operator(Oper::Minus) => Some(Oper::Minus),
        _ => None,
    }
}

fn all_digits(bytes: &[u8]) -> bool
    ensures { result ≡ list_all is_digit bytes.now }
{
    bytes.iter().all(|byte| byte.is_ascii_digit())
}

/// The constant of digits alone that a token is, if it is one.
pub fn digits_of(kind: &TokenKind) -> Result<Option<Text>, OutOfMemory>
    ensures { IfOk result (λ digits. digits ≡ spec.digits_of kind.now) }
{
    match kind {
        TokenKind::Constant(text) => {
            if !all_digits(text.bytes()) {
                return Ok(None);
            }
            Ok(Some(text.share()?))
        }
        _ => Ok(None),
    }
}

/// The value of a constant that a token is by itself, if it is one.
pub fn value_of(kind: &TokenKind) -> Result<Option<Text>, OutOfMemory>
    ensures { IfOk result (λ value. value ≡ spec.value_of kind.now) }
{
    match kind {
        TokenKind::Quoted(text) | TokenKind::Constant(text) => Ok(Some(text.share()?)),
        _ => Ok(None),
    }
}

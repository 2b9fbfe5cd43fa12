// What is said of classes behind their names.
ghost use Rattle.std.specs.Prelude.{◌≡◌};
ghost use Rattle.rx_exprs.specs.Reader.{lack};
ghost use Rattle.rx_exprs.specs.Reads.{Reads, fault_of};
ghost use Rattle.rx_directives.specs.Directives as directives;
ghost use Rattle.rx_directives.specs.Reader as spec;

use crate::directive::{ClassHead, Superclass};
use crate::names::title;
use crate::numbers::{NO_NAME, NO_OPTION};
use rx_clauses::{eat_end, eat_word, is_word};
use rx_exprs::{Cursor, Refused};
use rx_tree::{Text, Token, TokenKind};
use sqlite_items::Items;
use std::alloc::Global;

// Whether the names of INHERIT end in front of a token: at PUBLIC, or with the clause.
fn ends_mixins(kind: &TokenKind) -> bool
    ensures { result ≡ directives.ends_mixins kind.now }
{
    is_word(b"PUBLIC", kind) || matches!(kind, TokenKind::ClauseEnd)
}

fn sees_mixins_end(tokens: &Cursor<'_>) -> bool
    ensures { result ≡ spec.sees_mixins_end tokens.now }
{
    match tokens.rest() {
        [token, ..] => ends_mixins(&token.kind),
        [] => false,
    }
}

// The names of INHERIT.
#[tactic(auto, using(crate::proofs::Lists::mixin_lists))]
fn mixins(alloc: Global, tokens: &mut Cursor<'_>) -> Result<Items<Text>, Refused>
    ensures { Reads (spec.mixins tokens.old) result tokens.new }
{
    let mut names = Items::new(alloc);
    while !sees_mixins_end(tokens) {
        let name = title(alloc, tokens)?;
        names.push(name)?;
    }
    Ok(names)
}

// The names of INHERIT, one at least.
fn some_mixins(alloc: Global, tokens: &mut Cursor<'_>) -> Result<Items<Text>, Refused>
    ensures { Reads (spec.some_mixins tokens.old) result tokens.new }
{
    let names = mixins(alloc, tokens)?;
    if names.is_empty() {
        return Err(tokens.lack(NO_NAME));
    }
    Ok(names)
}

// The refusal of something that was said before, or doesn't stand here.
fn said_before<'a>(tokens: &mut Cursor<'a>, here: &'a [Token]) -> Refused
    ensures { fault_of result ≡ lack 25 here.now }
{
    tokens.go_to(here);
    tokens.lack(NO_OPTION)
}

// The superclass behind its word.
fn superclass<'a>(
    alloc: Global,
    tokens: &mut Cursor<'a>,
    here: &'a [Token],
    read: ClassHead,
    mixin: bool,
) -> Result<ClassHead, Refused>
    ensures { Reads (spec.superclass_of read mixin here.now tokens.old) result tokens.new }
{
    let mut read = read;
    if read.superclass.is_some() || !read.inherits.is_empty() {
        return Err(said_before(tokens, here));
    }
    let name = title(alloc, tokens)?;
    read.superclass = Some(Superclass { name, mixin });
    Ok(read)
}

// The names of INHERIT behind it.
fn inherit<'a>(
    alloc: Global,
    tokens: &mut Cursor<'a>,
    here: &'a [Token],
    read: ClassHead,
) -> Result<ClassHead, Refused>
    ensures { Reads (spec.inherit_of read here.now tokens.old) result tokens.new }
{
    let mut read = read;
    if !read.inherits.is_empty() {
        return Err(said_before(tokens, here));
    }
    read.inherits = some_mixins(alloc, tokens)?;
    Ok(read)
}

// One thing more that is said of a class.
fn class_option(
    alloc: Global,
    tokens: &mut Cursor<'_>,
    read: ClassHead,
) -> Result<ClassHead, Refused>
    ensures { Reads (spec.class_option read tokens.old) result tokens.new }
{
    let here = tokens.rest();
    if eat_word(tokens, b"SUBCLASS") {
        return superclass(alloc, tokens, here, read, false);
    }
    if eat_word(tokens, b"MIXINCLASS") {
        return superclass(alloc, tokens, here, read, true);
    }
    if eat_word(tokens, b"INHERIT") {
        return inherit(alloc, tokens, here, read);
    }
    if !eat_word(tokens, b"PUBLIC") {
        return Err(tokens.lack(NO_OPTION));
    }
    let mut read = read;
    if read.public {
        return Err(said_before(tokens, here));
    }
    read.public = true;
    Ok(read)
}

// A class of which nothing was said.
fn new_head(alloc: Global, name: Text) -> ClassHead
    ensures { result ≡ directives.new_head name }
{
    ClassHead {
        name,
        superclass: None,
        inherits: Items::new(alloc),
        public: false,
    }
}

/// What is said of a class of this name, and the end of the clause.
#[tactic(auto, using(crate::proofs::Lists::class_lists))]
pub fn class_options(
    alloc: Global,
    tokens: &mut Cursor<'_>,
    name: Text,
) -> Result<ClassHead, Refused>
    ensures { Reads (spec.class_options_form (directives.new_head name) tokens.old) result tokens.new }
{
    let mut read = new_head(alloc, name);
    while !eat_end(tokens) {
        read = class_option(alloc, tokens, read)?;
    }
    Ok(read)
}

// The tokens that are left, and what stands at their front.
ghost use Rattle.std.specs.Prelude.{◌≡◌, length, IfOk, OnOk};
ghost use Rattle.rx_tree.specs.Terms as spec;
ghost use Rattle.rx_exprs.specs.Marks.{left_at, closed_at, ended_at, opened_at, end_at, is_there};
ghost use Rattle.rx_exprs.specs.Reader.{unexpected, refusal, lack, operator_of, signs, name_at, class_at, above_at};
ghost use Rattle.rx_exprs.specs.Words.{word_at};
ghost use Rattle.rx_exprs.specs.Reads.{Takes, Eats, Reads, fault_of};

use crate::operators::{
    Bracketed, End, Joint, Opening, end_of, is_stop, joint_of, level, opening_of, sign_of,
};
use crate::refused::{Fault, NO_NAME, NO_OPERAND, NO_SYMBOL, Refused, UNEXPECTED};
use crate::words::{Word, class_of, name_of, word_of};
use rx_tree::{Oper, Stops, Text, Token, TokenKind};
use sqlite_items::Items;
use std::alloc::{AllocError, Global};
use std::marker::Model;

/// The tokens that are left. Contracts see their list.
#[derive(Drop)]
pub struct Cursor<'a> {
    rest: &'a [Token],
}

impl<'a> Model for Cursor<'a> {
    ghost use Rattle.std.specs.Prelude.{List};
    ghost use Rattle.rx_tree.specs.declared.token.Token.{Token};

    ghost Value = { List Token };

    ghost view = { λ c. c.rest.now };
}

// The number of the error where a token isn't expected: 37 at a comma or a closing bracket.
fn unexpected(number: u8, kind: &TokenKind) -> u8
    ensures { result ≡ unexpected number kind.now }
{
    match kind {
        TokenKind::Comma | TokenKind::RightParen | TokenKind::RightBracket => UNEXPECTED,
        _ => number,
    }
}

impl<'a> Cursor<'a> {
    pub fn new(tokens: &'a [Token]) -> Cursor<'a>
        ensures { result ≡ tokens.now }
    {
        Cursor { rest: tokens }
    }

    /// The tokens that are left.
    pub fn rest(&self) -> &'a [Token]
        ensures { result.now ≡ self.now }
    {
        self.rest
    }

    /// Goes to where these tokens are left.
    pub fn go_to(&mut self, rest: &'a [Token])
        ensures { self.new ≡ rest.now }
    {
        self.rest = rest;
    }

    /// How many tokens are left.
    pub fn left(&self) -> usize
        ensures { result ≡ length self.now }
    {
        self.rest.len()
    }

    /// The refusal of what stands here: by this number, or as unexpected.
    pub fn refuse(&self, number: u8) -> Refused
        ensures { fault_of result ≡ refusal number self.now }
    {
        let number = match self.rest {
            [token, ..] => unexpected(number, &token.kind),
            [] => number,
        };
        Refused::Bad(Fault {
            left: self.rest.len(),
            number,
        })
    }

    /// The refusal of what stands here, where something else is missing.
    pub fn lack(&self, number: u8) -> Refused
        ensures { fault_of result ≡ lack number self.now }
    {
        Refused::Bad(Fault {
            left: self.rest.len(),
            number,
        })
    }

    /// Takes a parenthesis that no blank stands before.
    pub fn call(&mut self) -> bool
        ensures { Eats (spec.call_at self.old) result self.old self.new }
    {
        if let [token, behind @ ..] = self.rest {
            if !token.blank && matches!(&token.kind, TokenKind::LeftParen) {
                self.rest = behind;
                return true;
            }
        }
        false
    }

    /// Takes an opening parenthesis.
    pub fn left_paren(&mut self) -> bool
        ensures { Eats (left_at self.old) result self.old self.new }
    {
        if let [token, behind @ ..] = self.rest {
            if matches!(&token.kind, TokenKind::LeftParen) {
                self.rest = behind;
                return true;
            }
        }
        false
    }

    /// Takes a closing parenthesis.
    pub fn right_paren(&mut self) -> bool
        ensures { Eats (closed_at self.old) result self.old self.new }
    {
        if let [token, behind @ ..] = self.rest {
            if matches!(&token.kind, TokenKind::RightParen) {
                self.rest = behind;
                return true;
            }
        }
        false
    }

    /// Takes what ends an argument.
    pub fn end(&mut self, bracketed: Bracketed) -> Option<End>
        ensures { Takes (end_at bracketed self.old) result self.old self.new }
    {
        if let [token, behind @ ..] = self.rest {
            let end = end_of(bracketed, &token.kind);
            if end.is_some() {
                self.rest = behind;
            }
            return end;
        }
        None
    }

    /// Whether an argument ends here.
    pub fn sees_end(&self, bracketed: Bracketed) -> bool
        ensures { result ≡ is_there (end_at bracketed self.now) }
    {
        if let [token, ..] = self.rest {
            return end_of(bracketed, &token.kind).is_some();
        }
        false
    }

    /// Takes the bracket that closes some arguments.
    pub fn close(&mut self, bracketed: Bracketed) -> bool
        ensures { Eats (ended_at bracketed self.old) result self.old self.new }
    {
        if let [token, behind @ ..] = self.rest {
            if let Some(End::Close) = end_of(bracketed, &token.kind) {
                self.rest = behind;
                return true;
            }
        }
        false
    }

    /// Takes what a message begins with.
    pub fn opening(&mut self) -> Option<Opening>
        ensures { Takes (opened_at self.old) result self.old self.new }
    {
        if let [token, behind @ ..] = self.rest {
            if let Some(opening) = opening_of(&token.kind) {
                self.rest = behind;
                return Some(opening);
            }
        }
        None
    }

    /// Takes the name of a message.
    pub fn name(&mut self, alloc: Global) -> Result<Text, Refused>
        ensures { Reads (name_at self.old) result self.new }
    {
        if let [token, behind @ ..] = self.rest {
            if let Some(name) = name_of(alloc, &token.kind)? {
                self.rest = behind;
                return Ok(name);
            }
        }
        Err(self.lack(NO_NAME))
    }

    // Takes the symbol behind the `:` of a message.
    fn class(&mut self) -> Result<Option<Text>, Refused>
        ensures { Reads (class_at self.old) result self.new }
    {
        if let [token, behind @ ..] = self.rest {
            if let Some(class) = class_of(&token.kind)? {
                self.rest = behind;
                return Ok(Some(class));
            }
        }
        Err(self.lack(NO_SYMBOL))
    }

    /// Takes the `:` behind a message's name and its symbol, if there is one.
    pub fn above(&mut self) -> Result<Option<Text>, Refused>
        ensures { Reads (above_at self.old) result self.new }
    {
        if let [token, behind @ ..] = self.rest {
            if matches!(&token.kind, TokenKind::Colon) {
                self.rest = behind;
                return self.class();
            }
        }
        Ok(None)
    }

    /// Takes a symbol or a string that is no stop word.
    pub fn word(&mut self, alloc: Global, stops: Stops) -> Result<Word, Refused>
        ensures { Reads (word_at stops self.old) result self.new }
    {
        if let [token, behind @ ..] = self.rest {
            if !is_stop(stops, &token.kind) {
                if let Some(word) = word_of(alloc, &token.kind)? {
                    self.rest = behind;
                    return Ok(word);
                }
            }
        }
        Err(self.refuse(NO_OPERAND))
    }

    /// Takes an operator of a level behind an operand. Nothing is taken for a join without a token.
    #[tactic(auto, unfolding(rx_tree::specs::Operators::operator_at, crate::specs::Reader::operator_of))]
    pub fn operator(&mut self, stops: Stops, at: u8) -> Option<Oper>
        ensures { Takes (operator_of stops at self.old) result self.old self.new }
    {
        if let [token, behind @ ..] = self.rest {
            if is_stop(stops, &token.kind) {
                return None;
            }
            match joint_of(&token.kind, token.blank) {
                Joint::Here(oper) => {
                    if level(oper) == at {
                        return Some(oper);
                    }
                }
                Joint::Behind(oper) => {
                    if level(oper) == at {
                        self.rest = behind;
                        return Some(oper);
                    }
                }
                Joint::Nothing => {}
            }
        }
        None
    }

    /// Takes the operators before a term.
    pub fn signs(&mut self, alloc: Global) -> Result<Items<Oper>, AllocError>
        ensures opers { IfOk result (λ opers. opers ≡ (signs self.old).0) }
        ensures rest { OnOk result (self.new ≡ (signs self.old).1) }
    {
        let mut opers = Items::new(alloc);
        while let [token, behind @ ..] = self.rest {
            let Some(oper) = sign_of(&token.kind) else {
                break;
            };
            opers.push(oper)?;
            self.rest = behind;
        }
        Ok(opers)
    }
}

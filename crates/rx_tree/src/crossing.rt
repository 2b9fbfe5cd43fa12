//! What a run keeps may be sent to another thread, and shared with it: each call here compiles for its type alone.

use crate::activity::{Caught, Outcome};
use crate::expr::Expr;
use crate::name::Derived;
use crate::note::Note;
use crate::shared::Shared;
use crate::text::Text;
use crate::token::Token;
use crate::value::Value;

fn crosses_threads<T: Send + Sync>(_value: &T) {}

/// A text may be sent and shared.
pub fn text_crosses(text: &Text) {
    crosses_threads(text);
}

/// A value may be sent and shared.
pub fn value_crosses(value: &Value) {
    crosses_threads(value);
}

/// A token may be sent and shared.
pub fn token_crosses(token: &Token) {
    crosses_threads(token);
}

/// A name may be sent and shared.
pub fn derived_crosses(name: &Derived) {
    crosses_threads(name);
}

/// An expression may be sent and shared.
pub fn expr_crosses(expr: &Expr) {
    crosses_threads(expr);
}

/// A trapped condition may be sent and shared.
pub fn caught_crosses(caught: &Caught) {
    crosses_threads(caught);
}

/// A message's outcome may be sent and shared.
pub fn outcome_crosses(outcome: &Outcome) {
    crosses_threads(outcome);
}

/// Arguments that several owners share may be sent and shared.
pub fn arguments_cross(arguments: &Shared<Option<Value>>) {
    crosses_threads(arguments);
}

/// A note may be sent and shared.
pub fn note_crosses(note: &Note) {
    crosses_threads(note);
}

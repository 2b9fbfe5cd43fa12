//! The activity machine on the whole language: its worlds, its steps, its runs and how they end.
//!
//! The machine itself stands in `specs/`, as definitions on plain records and lists. Each function of this crate carries a law of these
//! definitions as its contract and does nothing.
#![tactic(auto)]

mod built;
mod end;
mod laws;
mod waits;

pub use built::first_unbuilt;
pub use end::End;
pub use laws::{
    given_end_is_taken, given_line_is_taken, going_has_a_next, going_is_below_budget,
    legal_picks_extend, more_input_keeps_runs, more_input_keeps_the_circle, no_activity_zero,
    no_line_comes, notes_grow, output_grows, picks_are_enabled, robin_is_enabled, runs_append,
    runs_keep_the_program, serial_picks_extend, steps_are_picks, stuck_tells_of_each,
    wants_are_empty, worlds_are_sound,
};
pub use waits::{Cause, WaitRow};

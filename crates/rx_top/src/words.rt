// The words of a command line.
ghost use Rattle.std.specs.Prelude.{◌≡◌, ◌++◌, ℕ, List, IfOk, Some, map};
ghost use Rattle.rx_whole.specs.Number.{num};
ghost use Rattle.rx_whole.specs.Numeral.{numeral_of};
ghost use Rattle.rx_top.specs.Words.{request, argument_of, is_option, is_number_between, number_between, run_of, run_request, stepped, check_request, with_blanks, IsArgumentOf, IsReadingOf};

use itoa::Buffer;
use rx_tree::Text;
use rx_whole::{Numeral, read_number};
use sqlite_items::Items;
use std::alloc::{AllocError, Global};
use thiserror::Error;

/// What a command line asks for.
#[derive(Drop)]
pub enum Request {
    /// To run a program.
    Run {
        /// How many workers compute; 0 for none.
        workers: u32,
        /// How many steps it may take.
        steps: u64,
        /// The name of the file that gets the schedule.
        schedule: Option<Items<u8>>,
        /// The name of the program's file.
        program: Items<u8>,
        /// The program's argument.
        arg: Option<Text>,
    },
    /// To tell whether a source is a program.
    Check {
        /// The name of the source's file.
        program: Items<u8>,
    },
}

/// Why words gave no request.
#[derive(Debug, Drop, Error)]
pub enum WordsRefused {
    /// They are none.
    #[error("the words are no request")]
    NotARequest,
    /// A growth of memory was refused.
    #[error("out of memory")]
    OutOfMemory,
}

// How many steps a run may take where nothing is said.
const DEFAULT_STEPS: u64 = 1_000_000;

// The most steps that a run may take.
const MOST_STEPS: u64 = 10_000_000;

// It begins with two hyphens.
fn is_option(word: &[u8]) -> bool
    ensures { result ≡ is_option word.now }
{
    matches!(word, [b'-', b'-', ..])
}

// Whether a word is the decimal digits of so many steps, which a run may take.
fn are_steps(word: &[u8], steps: u64) -> bool
    ensures { result ≡ is_number_between 1 MOST_STEPS steps word.now }
{
    let mut buffer = Buffer::new();
    word == buffer.format(steps).as_bytes() && 1 <= steps && steps <= MOST_STEPS
}

// How many steps a word asks for that is read as this number.
fn steps_read(word: &[u8], number: i64) -> Option<u64>
    requires { numeral_of (num word.now) ≡ Numeral.Whole number }
    ensures { result ≡ number_between 1 MOST_STEPS word.now }
{
    let steps = number.unsigned_abs();
    if are_steps(word, steps) {
        Some(steps)
    } else {
        None
    }
}

// How many steps a word asks for.
fn read_steps(word: &[u8]) -> Option<u64>
    ensures { result ≡ number_between 1 MOST_STEPS word.now }
{
    let Numeral::Whole(number) = read_number(word) else {
        return None;
    };
    steps_read(word, number)
}

// Words joined by one blank, a first one and others.
fn join(alloc: Global, first: &[u8], words: &[Vec<u8>]) -> Result<Vec<u8>, AllocError>
    ensures { IfOk result (λ text. text.items ≡ first.now ++ with_blanks (map (λ word. word.items) words.now)) }
{
    let mut text = Vec::from_slice(alloc, first)?;
    for word in words {
        text.push(b' ')?;
        text.extend_from_slice(word.as_slice())?;
    }
    Ok(text)
}

// The argument that joined words are, if it isn't too long.
fn argument(alloc: Global, joined: &[u8]) -> Result<Option<Text>, WordsRefused>
    ensures { IsArgumentOf (Some joined.now) result }
{
    if joined.len() > Text::LONGEST {
        return Err(WordsRefused::NotARequest);
    }
    match Text::from_slice(alloc, joined) {
        Ok(text) => Ok(Some(text)),
        Err(_) => Err(WordsRefused::OutOfMemory),
    }
}

// The argument that the words behind a program are.
fn read_argument(alloc: Global, words: &[Vec<u8>]) -> Result<Option<Text>, WordsRefused>
    ensures { IsArgumentOf (argument_of (map (λ word. word.items) words.now)) result }
{
    let [first, words @ ..] = words else {
        return Ok(None);
    };
    let Ok(joined) = join(alloc, first.as_slice(), words) else {
        return Err(WordsRefused::OutOfMemory);
    };
    argument(alloc, joined.as_slice())
}

// The request to run a program for so many steps, by the words from the program on.
fn read_program(alloc: Global, steps: u64, words: &[Vec<u8>]) -> Result<Request, WordsRefused>
    ensures { IsReadingOf (run_of steps (map (λ word. word.items) words.now)) result }
{
    let [program, words @ ..] = words else {
        return Err(WordsRefused::NotARequest);
    };
    if is_option(program.as_slice()) {
        return Err(WordsRefused::NotARequest);
    }
    let arg = read_argument(alloc, words)?;
    let Ok(program) = Items::from_slice(alloc, program.as_slice()) else {
        return Err(WordsRefused::OutOfMemory);
    };
    Ok(Request::Run {
        workers: 0,
        steps,
        schedule: None,
        program,
        arg,
    })
}

// The same, by the words behind `--steps`.
fn read_stepped(alloc: Global, words: &[Vec<u8>]) -> Result<Request, WordsRefused>
    ensures { IsReadingOf (stepped (map (λ word. word.items) words.now)) result }
{
    let [steps, words @ ..] = words else {
        return Err(WordsRefused::NotARequest);
    };
    let Some(steps) = read_steps(steps.as_slice()) else {
        return Err(WordsRefused::NotARequest);
    };
    read_program(alloc, steps, words)
}

// The request to run a program that the words behind `run` are.
fn read_run(alloc: Global, words: &[Vec<u8>]) -> Result<Request, WordsRefused>
    ensures { IsReadingOf (run_request (map (λ word. word.items) words.now)) result }
{
    match words {
        [] => Err(WordsRefused::NotARequest),
        [option, words @ ..] if option.as_slice() == b"--steps".as_slice() => read_stepped(
            alloc, words,
        ),
        [_, ..] => read_program(alloc, DEFAULT_STEPS, words),
    }
}

// The request to check a source that the words behind `check` are.
fn read_check(alloc: Global, words: &[Vec<u8>]) -> Result<Request, WordsRefused>
    ensures { IsReadingOf (check_request (map (λ word. word.items) words.now)) result }
{
    let [program] = words else {
        return Err(WordsRefused::NotARequest);
    };
    if is_option(program.as_slice()) {
        return Err(WordsRefused::NotARequest);
    }
    let Ok(program) = Items::from_slice(alloc, program.as_slice()) else {
        return Err(WordsRefused::OutOfMemory);
    };
    Ok(Request::Check { program })
}

/// The request that the words are: `run`, then perhaps `--steps` and a number from 1 to 10,000,000 in decimal digits
/// without leading zeros, then the name of a file, which begins with no `--`, and then the words of the program's argument, at most
/// 16,777,216 bytes once they are joined by one blank; or `check` and the name of such a file. Other words are refused.
#[tactic(auto, unfolding(crate::specs::Words::request))]
pub fn read_words(alloc: Global, words: &[Vec<u8>]) -> Result<Request, WordsRefused>
    ensures reading { IsReadingOf (request (map (λ word. word.items) words.now)) result }
{
    let [command, words @ ..] = words else {
        return Err(WordsRefused::NotARequest);
    };
    if command.as_slice() == b"run".as_slice() {
        return read_run(alloc, words);
    }
    if command.as_slice() == b"check".as_slice() {
        return read_check(alloc, words);
    }
    Err(WordsRefused::NotARequest)
}

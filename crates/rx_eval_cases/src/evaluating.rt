// Expressions, call by call.
ghost use Rattle.std.specs.Prelude.{◌≡◌, ◌<◌, true, IfOk, IfSome};
ghost use Rattle.rx_eval_cases.specs.Ready.{IsReady};
ghost use Rattle.rx_eval.specs.Whole.{is_whole};

use crate::setting::{Settings, value_of};
use crate::telling::{tell_call, tell_text, tell_value};
use rx_eval::{Computed, Job, Postfix, compute, is_whole, put_answer};
use rx_exprs::{DEEPEST, ParseRefused, Stops, parse_expr};
use rx_scan::{LONGEST_SOURCE, ScanRefused, bracket_depth, scan};
use rx_tree::{Expr, OutOfMemory, Steps, Value};
use sqlite_items::Items;
use std::alloc::Global;
use std::marker::Brand;
use std::sync::Arc;
use std::sync::ledger::{Blank, Ledger};

// The expression that a source begins with, if it does with one.
fn expression(alloc: Global, source: &[u8]) -> Result<Option<Expr>, OutOfMemory> {
    if source.len() > LONGEST_SOURCE {
        return Ok(None);
    }
    let tokens = match scan(alloc, source) {
        Ok(tokens) => tokens,
        Err(ScanRefused::Bad { .. }) => return Ok(None),
        Err(ScanRefused::OutOfMemory) => return Err(OutOfMemory),
    };
    if bracket_depth(tokens.as_slice()) > DEEPEST {
        return Ok(None);
    }
    match parse_expr(alloc, tokens.as_slice(), 0, Stops::Nothing) {
        Ok((expr, _)) => Ok(Some(expr)),
        Err(ParseRefused::Bad { .. }) => Ok(None),
        Err(ParseRefused::OutOfMemory) => Err(OutOfMemory),
    }
}

// The evaluation of an expression from its beginning on.
fn first_job(
    alloc: Global,
    settings: &Settings,
    expr: &Expr,
    string: bool,
) -> Result<Job, OutOfMemory>
    requires { is_whole expr.now ≡ true }
    ensures { IfOk result IsReady }
{
    let body = Arc::new(alloc, settings.body(alloc)?)?;
    let mut code = Postfix::new(alloc, body);
    code.postfix(expr, string)?;
    let facts = settings.facts(alloc, &code)?;
    Ok(Job {
        activity: 0,
        claim: 0,
        code: Arc::new(alloc, code)?,
        place: 0,
        values: Items::new(alloc),
        facts,
    })
}

// Tells what comes next, and gives what is to be evaluated then, if there is an answer for a call.
fn step<L: Ledger>(
    alloc: Global,
    job: Job,
    word: Option<&str>,
    told: &mut String,
    steps: &mut Steps<L>,
) -> Result<Option<Job>, OutOfMemory>
    requires { IsReady job }
    ensures { IfOk result (λ next. IfSome next IsReady) }
{
    let (job, result) = compute(alloc, job, steps).into_parts();
    match result {
        Computed::Call(call, place, values) => {
            told.push_str(tell_call(alloc, &call)?.as_str())?;
            let Some(word) = word else {
                return Ok(None);
            };
            told.push_str("; ")?;
            let mut values = values;
            put_answer(&mut values, call.awaited, value_of(alloc, word)?)?;
            return Ok(Some(job.from_place(place, values)));
        }
        Computed::Done(values) => {
            for value in values.as_slice() {
                told.push_str("done ")?;
                told.push_str(tell_value(alloc, value)?.as_str())?;
            }
        }
        Computed::Raise(number) => {
            let number = format!(in alloc; "raise {number}")?;
            told.push_str(number.as_str())?;
        }
        Computed::NoValue(name) => {
            told.push_str("novalue ")?;
            told.push_str(tell_text(alloc, &name)?.as_str())?;
        }
        Computed::NoMemory => return Err(OutOfMemory),
    }
    Ok(None)
}

// Tells all that comes, with the answers of calls in their order.
fn tell_all<L: Ledger>(
    blank: Blank,
    alloc: Global,
    job: Job,
    answers: &[&str],
) -> Result<String, OutOfMemory>
    requires name { blank.name ≡ L.name }
    requires parts { blank.parts ≡ L.parts }
    requires some { 0 < blank.parts }
    requires ready { IsReady job }
{
    let mut steps = Steps::<L>::new(blank);
    let mut told = String::new(alloc);
    let mut job = job;
    for answer in answers {
        match step(alloc, job, Some(*answer), &mut told, &mut steps)? {
            Some(next) => job = next,
            None => return Ok(told),
        }
    }
    let _ = step(alloc, job, None, &mut told, &mut steps)?;
    Ok(told)
}

// Evaluates from a place on, with the answers of calls in their order, and gives the job from its beginning on.
fn evaluate<L: Ledger>(
    alloc: Global,
    job: Job,
    answers: &[Value],
    steps: &mut Steps<L>,
) -> Result<Job, OutOfMemory>
    requires { IsReady job }
    ensures { IfOk result IsReady }
{
    let mut job = job;
    for answer in answers {
        let (done, result) = compute(alloc, job, steps).into_parts();
        job = done;
        if let Computed::Call(call, place, values) = result {
            let mut values = values;
            put_answer(&mut values, call.awaited, answer.share()?)?;
            job = job.from_place(place, values);
        } else {
            return Ok(job.from_place(0, Items::new(alloc)));
        }
    }
    let (done, _) = compute(alloc, job, steps).into_parts();
    Ok(done.from_place(0, Items::new(alloc)))
}

// Evaluates many times.
fn evaluate_often<L: Ledger>(
    blank: Blank,
    alloc: Global,
    job: Job,
    answers: &[&str],
    times: u32,
) -> Result<Job, OutOfMemory>
    requires name { blank.name ≡ L.name }
    requires parts { blank.parts ≡ L.parts }
    requires some { 0 < blank.parts }
    requires ready { IsReady job }
    ensures { IfOk result IsReady }
{
    let mut steps = Steps::<L>::new(blank);
    let mut values = Vec::new(alloc);
    for answer in answers {
        values.push(value_of(alloc, answer)?)?;
    }
    let mut job = job;
    for _time in 0..times {
        job = evaluate(alloc, job, values.as_slice(), &mut steps)?;
    }
    Ok(job)
}

/// What a case comes to: an expression, and the answers of its calls. It is evaluated some times before it is told.
pub fn tell_expr(
    alloc: Global,
    settings: &Settings,
    case: &str,
    string: bool,
    times: u32,
) -> Result<String, OutOfMemory> {
    let (source, answers) = case.split_once(" => ").unwrap_or((case, ""));
    let Some(expr) = expression(alloc, source.as_bytes())? else {
        return Ok(String::from_str(alloc, "no expression")?);
    };
    if !is_whole(&expr) {
        return Ok(String::from_str(alloc, "a hole")?);
    }
    let job = first_job(alloc, settings, &expr, string)?;
    let mut words = Vec::new(alloc);
    for word in answers.split(' ') {
        if !word.is_empty() {
            words.push(word)?;
        }
    }
    let job = evaluate_often::<Brand>(Blank::new(1), alloc, job, words.as_slice(), times)?;
    tell_all::<Brand>(Blank::new(1), alloc, job, words.as_slice())
}

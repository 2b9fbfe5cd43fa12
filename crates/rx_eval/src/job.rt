// Jobs: what is to be computed, and what it came to.
ghost use Rattle.std.specs.Prelude.{◌≡◌, ◌+◌, ◌≤◌, reverse, IfOk, OnOk};
ghost use Rattle.rx_eval.specs.Answers.{IsAnswer, IsPlaced};
ghost use Rattle.rx_eval.specs.Machine.{is_kept};
ghost use Rattle.rx_eval.specs.Places.{with_answer};

use crate::computing::{Computed, compute_from};
use crate::facts::Facts;
use crate::postfix::Postfix;
use rx_tree::{Awaited, OutOfMemory, Steps, Value};
use sqlite_items::Items;
use std::alloc::{AllocError, Global};
use std::marker::Model;
use std::sync::Arc;
use std::sync::ledger::Ledger;

/// What is to be computed: code, from a place on where these values stand.
pub struct Job {
    /// The activity whose step it is, and the number of the claim under which it was handed out.
    pub activity: u32,
    pub claim: u64,
    pub code: Arc<Postfix>,
    pub place: usize,
    pub values: Items<Value>,
    pub facts: Facts,
}

impl Drop for Job {
    fn drop(self) {
        let Job {
            activity: _,
            claim: _,
            code: _,
            place: _,
            values: _,
            facts: _,
        } = self;
    }
}

impl Job {
    /// The job from another place on, where these values stand.
    pub fn from_place(self, place: usize, values: Items<Value>) -> Job
        ensures place { result.place ≡ place }
        ensures values { result.values ≡ values }
        ensures code { result.code ≡ self.code }
        ensures facts { result.facts ≡ self.facts }
        ensures activity { result.activity ≡ self.activity }
        ensures claim { result.claim ≡ self.claim }
    {
        let Job {
            activity,
            claim,
            code,
            place: _,
            values: _,
            facts,
        } = self;
        Job {
            activity,
            claim,
            code,
            place,
            values,
            facts,
        }
    }
}

/// A job with what it came to. Only [`compute`] makes one. Contracts see both.
pub struct Answer {
    job: Job,
    result: Computed,
}

impl Drop for Answer {
    fn drop(self) {
        let Answer { job: _, result: _ } = self;
    }
}

impl Model for Answer {
    ghost use Rattle.rx_eval.specs.Answers.{Answered, IsAnswer};

    ghost Value = { Answered };

    ghost view = { λ a. record { job = a.job; result = a.result } };

    ghost invariant = { λ a. IsAnswer (record { job = a.job; result = a.result }) };
}

impl Answer {
    /// The job.
    pub fn job(&self) -> &Job
        ensures { result.now ≡ self.now.job }
    {
        &self.job
    }

    /// What the job came to.
    pub fn result(&self) -> &Computed
        ensures result { result.now ≡ self.now.result }
        ensures evaluation { IsAnswer self.now }
    {
        &self.result
    }

    /// The job, and what it came to.
    pub fn into_parts(self) -> (Job, Computed)
        ensures job { result.0 ≡ self.job }
        ensures result { result.1 ≡ self.result }
        ensures evaluation { IsAnswer self }
    {
        let Answer { job, result } = self;
        (job, result)
    }
}

/// Puts the answer of a call to the values that stand below it. One that isn't awaited is dropped.
pub fn put_answer(
    values: &mut Items<Value>,
    awaited: Awaited,
    answer: Value,
) -> Result<(), OutOfMemory>
    ensures { OnOk result (reverse values.new ≡ with_answer (is_kept awaited) answer (reverse values.old)) }
{
    if awaited != Awaited::Dropped {
        values.push(answer)?;
    }
    Ok(())
}

// Equal values.
pub(crate) fn share_all(alloc: Global, values: &[Value]) -> Result<Vec<Value>, OutOfMemory>
    ensures { IfOk result (λ shared. shared.items ≡ values.now) }
{
    let mut shared = Vec::with_capacity(alloc, values.len())?;
    for value in values {
        shared.push(value.share()?).map_err(AllocError::from)?;
    }
    Ok(shared)
}

// What a job comes to, or want of memory.
fn attempt(alloc: Global, job: &Job) -> Result<Computed, OutOfMemory>
    requires placed { IsPlaced job.now }
    requires at_least_1 { 1 ≤ job.now.facts.frame.digits }
    requires at_most_18 { job.now.facts.frame.digits ≤ 18 }
    ensures { IfOk result (λ computed. IsAnswer (record { job = job.now; result = computed })) }
{
    let values = share_all(alloc, job.values.as_slice())?;
    compute_from(alloc, &job.facts, &job.code, job.place, values)
}

fn run(alloc: Global, job: &Job) -> Computed
    requires placed { IsPlaced job.now }
    requires at_least_1 { 1 ≤ job.now.facts.frame.digits }
    requires at_most_18 { job.now.facts.frame.digits ≤ 18 }
    ensures { IsAnswer (record { job = job.now; result = result }) }
{
    match attempt(alloc, job) {
        Ok(computed) => computed,
        Err(_) => Computed::NoMemory,
    }
}

/// What a job comes to. It is counted once.
pub fn compute<L: Ledger>(alloc: Global, job: Job, evals: &mut Steps<L>) -> Answer
    requires placed { IsPlaced job }
    requires at_least_1 { 1 ≤ job.facts.frame.digits }
    requires at_most_18 { job.facts.frame.digits ≤ 18 }
    ensures job { result.job ≡ job }
    ensures once { evals.new ≡ evals.old + 1 }
{
    evals.tick();
    let result = run(alloc, &job);
    Answer { job, result }
}

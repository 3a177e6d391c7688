// What one run found alone (docs/SPECIFICATION.md): which bins of run 0, the new test, fewer than t of the other runs have, with the other runs' certificate.
#![tactic(auto)]

ghost use Rattle.std.specs.Prelude.{◌≡◌, ◌≤◌, length};
ghost use Rattle.model.specs.Alone.{new_bins, other_runs, alone_checks, walk_without_answers, query_alone};
ghost use Rattle.model.specs.AloneDemands.{AloneDemand2, AloneDemand3};
ghost use Rattle.model.specs.Refusals.{passed};
ghost use Rattle.model.specs.Runs.{runs};
ghost use Rattle.query.specs.Outcomes.{outcome_is, Returns};
ghost use Rattle.query_alone.specs.Others.{RunsPlaced, Walked, FoundAfter};
ghost use Rattle.walk_tally.specs.Tally.{undoubled};

use query::{Accepted, Refused};
use walk_write::{State, Stopped};

// The walk over all runs but run 0. It is told not to write answers: it has no place for them, and a count of them above that.
fn walk_others(
    numbers: &[u32],
    ends: &[u32],
    threshold: u32,
    allowance: u32,
    firsts: &[u32],
    certificate: &mut [u8],
) -> Result<State, Stopped>
    requires { (alone_checks numbers.now ends.now threshold ≡ passed) × RunsPlaced numbers.now ends.now firsts.now }
    ensures { Walked (walk_without_answers threshold (other_runs (runs numbers.now ends.now)) allowance (length certificate.old)) allowance certificate.old certificate.new result }
{
    let others = mask::without_run(mask::all_runs(ends.len()), 0);
    walk_whole::question_walk(
        numbers,
        ends,
        &[],
        others,
        threshold as usize,
        &mut [],
        certificate,
        1,
        0,
        walk_tally::whole(allowance),
        firsts,
    )
}

// After a walk that reached its end: writes the bins of run 0 that are no answer of it, as many as fit.
fn found_after(
    numbers: &[u32],
    ends: &[u32],
    firsts: &[u32],
    certificate: &[u8],
    answers: &mut [u32],
    w: State,
    allowance: u32,
) -> Result<Accepted, Refused>
    requires { RunsPlaced numbers.now ends.now firsts.now × (undoubled w.tally ≤ allowance) × (w.bytes ≤ length certificate.now) }
    ensures { FoundAfter (new_bins (runs numbers.now ends.now)) certificate.now allowance w answers.old answers.new (outcome_is result) }
{
    let new_bins = &numbers[firsts[0] as usize..ends[0] as usize];
    match query_difference::in_gaps(new_bins, &certificate[..w.bytes], answers) {
        Ok(count) => Ok(query::accepted_at(count, w, allowance)),
        Err(reason) => Err(query::refused_at(reason, answers.len(), w, allowance)),
    }
}

// A call that passes the first checks. `firsts` has a place for each run, where its bins begin.
fn answer_with(
    numbers: &[u32],
    ends: &[u32],
    threshold: u32,
    allowance: u32,
    firsts: &mut [u32],
    answers: &mut [u32],
    certificate: &mut [u8],
) -> Result<Accepted, Refused>
    requires { (alone_checks numbers.now ends.now threshold ≡ passed) × (length firsts.old ≡ length ends.now) }
    ensures { Returns (query_alone numbers.now ends.now threshold allowance answers.old certificate.old) (outcome_is result) answers.new certificate.new }
{
    walk_begin::first_places(numbers, ends, firsts);
    match walk_others(numbers, ends, threshold, allowance, firsts, certificate) {
        Ok(w) => found_after(numbers, ends, firsts, certificate, answers, w, allowance),
        Err(stopped) => Err(query::refused_at(stopped.reason, 0, stopped.at, allowance)),
    }
}

// The same with a row of its own.
fn answer(
    numbers: &[u32],
    ends: &[u32],
    threshold: u32,
    allowance: u32,
    answers: &mut [u32],
    certificate: &mut [u8],
) -> Result<Accepted, Refused>
    requires { alone_checks numbers.now ends.now threshold ≡ passed }
    ensures { Returns (query_alone numbers.now ends.now threshold allowance answers.old certificate.old) (outcome_is result) answers.new certificate.new }
{
    let mut firsts = [0u32; limits::MOST_RUNS];
    let k = ends.len();
    answer_with(
        numbers,
        ends,
        threshold,
        allowance,
        &mut firsts[0..k],
        answers,
        certificate,
    )
}

// Which bins of run 0 fewer than `threshold` of the other runs have. The certificate is that of the question over the other runs, made by at most `allowance` probes;
// the answers are written after it, in one pass over it and run 0.
pub fn query_alone(
    numbers: &[u32],
    ends: &[u32],
    threshold: u32,
    allowance: u32,
    answers: &mut [u32],
    certificate: &mut [u8],
) -> Result<Accepted, Refused>
    ensures returns { Returns (query_alone numbers.now ends.now threshold allowance answers.old certificate.old) (outcome_is result) answers.new certificate.new }
    ensures demand2 { AloneDemand2 numbers.now ends.now threshold (length answers.old) (outcome_is result) answers.new certificate.new }
    ensures demand3 { AloneDemand3 numbers.now ends.now threshold allowance certificate.old (outcome_is result) certificate.new }
{
    first_checks::alone_checks(numbers, ends, threshold)?;
    answer(numbers, ends, threshold, allowance, answers, certificate)
}

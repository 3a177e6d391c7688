// The question: which bins at least t of the runs hold, or runs that weigh enough, with a certificate (docs/SPECIFICATION.md, 'The walk').
#![tactic(auto)]

ghost use Rattle.std.specs.Prelude.{◌≡◌, ◌≤◌, length};
ghost use Rattle.walk_tally.specs.Tally.{undoubled};
ghost use Rattle.model.specs.Demands.{Demand2, Demand3};
ghost use Rattle.model.specs.Refusals.{passed, first_checks, weighted_checks, answered_by, query, query_weighted};
ghost use Rattle.model.specs.Runs.{runs, weighted};
ghost use Rattle.walk_progress.specs.Progress.{outcome_at, counts_with};
ghost use Rattle.query.specs.Answerable.{Answerable};
ghost use Rattle.query.specs.Outcomes.{outcome_is, Returns, accepted_is, refused_is, FirstRefused};
ghost use Rattle.refusal.specs.Number.{number_of};

use refusal::{Reason, Refusal};
use walk_write::State;

// What an accepted question returns: the counts, and the probes by doubling and by halving.
#[derive(Clone, Copy, Debug, PartialEq, Eq)]
pub struct Accepted {
    pub answers: usize,
    pub parts: usize,
    pub bytes: usize,
    pub doublings: u32,
    pub halvings: u32,
}

// What a refused question returns: the refusal, with the counts and the probes before it.
#[derive(Clone, Copy, Debug, PartialEq, Eq)]
pub struct Refused {
    pub refusal: Refusal,
    pub answers: usize,
    pub bytes: usize,
    pub doublings: u32,
    pub halvings: u32,
}

// A refusal by the first checks: nothing is written and no probe made.
impl From<Refusal> for Refused {
    ghost from_gives = { FirstRefused };

    fn from(refusal: Refusal) -> Refused {
        Refused {
            refusal,
            answers: 0,
            bytes: 0,
            doublings: 0,
            halvings: 0,
        }
    }
}

// What a call returns whose walk reached its end in the state `w`, so many answers being written.
pub fn accepted_at(answers: usize, w: State, allowance: u32) -> Accepted
    requires { undoubled w.tally ≤ allowance }
    ensures { accepted_is result ≡ outcome_at 0 (counts_with allowance answers w.parts w.bytes w.tally) }
{
    let doublings = walk_tally::doublings(allowance, w.tally);
    let halvings = walk_tally::halvings(w.tally);
    Accepted {
        answers,
        parts: w.parts,
        bytes: w.bytes,
        doublings,
        halvings,
    }
}

// What a call returns that a refusal ended after the first checks: so many answers are written, and `w` is the last state of its walk.
pub fn refused_at(reason: Reason, answers: usize, w: State, allowance: u32) -> Refused
    requires { undoubled w.tally ≤ allowance }
    ensures { refused_is result ≡ outcome_at (number_of reason) (counts_with allowance answers w.parts w.bytes w.tally) }
{
    Refused {
        refusal: Refusal {
            reason,
            place: w.parts,
        },
        answers,
        bytes: w.bytes,
        doublings: walk_tally::doublings(allowance, w.tally),
        halvings: walk_tally::halvings(w.tally),
    }
}

// A question that passes the first checks: the walk over all runs, with the whole allowance, into buffers from their first place on. `weights` has a weight for each
// run, or none; `firsts` has a place for each run, where its bins begin.
fn answer_with(
    numbers: &[u32],
    ends: &[u32],
    weights: &[u32],
    threshold: usize,
    allowance: u32,
    firsts: &mut [u32],
    answers: &mut [u32],
    certificate: &mut [u8],
) -> Result<Accepted, Refused>
    requires { Answerable numbers.now ends.now weights.now threshold × (length firsts.old ≡ length ends.now) }
    ensures { Returns (answered_by passed (weighted weights.now (runs numbers.now ends.now)) threshold allowance answers.old certificate.old) (outcome_is result) answers.new certificate.new }
{
    walk_begin::first_places(numbers, ends, firsts);
    match walk_whole::question_walk(
        numbers,
        ends,
        weights,
        mask::all_runs(ends.len()),
        threshold,
        answers,
        certificate,
        0,
        0,
        walk_tally::whole(allowance),
        firsts,
    ) {
        Ok(w) => Ok(accepted_at(w.answers, w, allowance)),
        Err(stopped) => {
            let w = stopped.at;
            Err(refused_at(stopped.reason, w.answers, w, allowance))
        }
    }
}

// The same with a row of its own.
fn answer(
    numbers: &[u32],
    ends: &[u32],
    weights: &[u32],
    threshold: usize,
    allowance: u32,
    answers: &mut [u32],
    certificate: &mut [u8],
) -> Result<Accepted, Refused>
    requires { Answerable numbers.now ends.now weights.now threshold }
    ensures { Returns (answered_by passed (weighted weights.now (runs numbers.now ends.now)) threshold allowance answers.old certificate.old) (outcome_is result) answers.new certificate.new }
{
    let mut firsts = [0u32; limits::MOST_RUNS];
    let k = ends.len();
    answer_with(
        numbers,
        ends,
        weights,
        threshold,
        allowance,
        &mut firsts[0..k],
        answers,
        certificate,
    )
}

// Which bins at least `threshold` runs hold, with a certificate, by at most `allowance` probes. `ends` holds the places in `numbers` after each run's last.
pub fn query(
    numbers: &[u32],
    ends: &[u32],
    threshold: u32,
    allowance: u32,
    answers: &mut [u32],
    certificate: &mut [u8],
) -> Result<Accepted, Refused>
    ensures returns { Returns (query numbers.now ends.now threshold allowance answers.old certificate.old) (outcome_is result) answers.new certificate.new }
    ensures demand2 { Demand2 (first_checks numbers.now ends.now threshold) (runs numbers.now ends.now) threshold (outcome_is result) answers.new certificate.new }
    ensures demand3 { Demand3 (first_checks numbers.now ends.now threshold) (runs numbers.now ends.now) threshold allowance (length answers.old) certificate.old (outcome_is result) certificate.new }
{
    first_checks::first_checks(numbers, ends, threshold)?;
    answer(
        numbers,
        ends,
        &[],
        threshold as usize,
        allowance,
        answers,
        certificate,
    )
}

// Which bins are held by runs that weigh at least `wanted` together, with a certificate, by at most `allowance` probes. `weights` has a weight from 1 to 255 for
// each run.
pub fn query_weighted(
    numbers: &[u32],
    ends: &[u32],
    weights: &[u32],
    wanted: u32,
    allowance: u32,
    answers: &mut [u32],
    certificate: &mut [u8],
) -> Result<Accepted, Refused>
    ensures returns { Returns (query_weighted numbers.now ends.now weights.now wanted allowance answers.old certificate.old) (outcome_is result) answers.new certificate.new }
    ensures demand2 { Demand2 (weighted_checks numbers.now ends.now weights.now wanted) (weighted weights.now (runs numbers.now ends.now)) wanted (outcome_is result) answers.new certificate.new }
    ensures demand3 { Demand3 (weighted_checks numbers.now ends.now weights.now wanted) (weighted weights.now (runs numbers.now ends.now)) wanted allowance (length answers.old) certificate.old (outcome_is result) certificate.new }
{
    first_checks::weighted_checks(numbers, ends, weights, wanted)?;
    answer(
        numbers,
        ends,
        weights,
        wanted as usize,
        allowance,
        answers,
        certificate,
    )
}

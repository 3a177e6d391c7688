// Many questions over one set of runs (docs/SPECIFICATION.md, 'Many questions'): each chooses runs by a mask and has a threshold of its own; the allowance and
// the buffers are the call's.
#![tactic(auto)]

ghost use Rattle.std.specs.Prelude.{◌≡◌, ◌≤◌, length};
ghost use Rattle.model.specs.Many.{all_passed, many_checks, query_many};
ghost use Rattle.model.specs.ManyDemands.{ManyDemand2, ManyDemand3};
ghost use Rattle.query_progress.specs.Calls.{call_outcome};
ghost use Rattle.query_each.specs.Questions.{counts_so, end_of, totals_of};
ghost use Rattle.walk_tally.specs.Tally.{undoubled};
ghost use Rattle.query_many.specs.Outcomes.{many_outcome_is, FirstRefusedMany, ReturnsMany};

use query::Accepted;
use query_checks::ManyRefusal;
use query_each::{Cut, Totals};
use refusal::Refusal;

// What a refused call returns: the refusal and its question's index, 0 if it belongs to none, with the counts of all questions and the probes by doubling and by
// halving among them.
#[derive(Clone, Copy, Debug, PartialEq, Eq)]
pub struct RefusedMany {
    pub refusal: Refusal,
    pub question: usize,
    pub answers: usize,
    pub parts: usize,
    pub bytes: usize,
    pub doublings: u32,
    pub halvings: u32,
}

// A refusal by the first checks: nothing is written and no probe made.
impl From<ManyRefusal> for RefusedMany {
    ghost from_gives = { FirstRefusedMany };

    fn from(first: ManyRefusal) -> RefusedMany {
        RefusedMany {
            refusal: first.refusal,
            question: first.question,
            answers: 0,
            parts: 0,
            bytes: 0,
            doublings: 0,
            halvings: 0,
        }
    }
}

// What a call returns that ended so.
#[tactic(auto, unfolding(query_progress::specs::Calls::call_outcome, query_each::specs::Questions::counts_so))]
fn outcome_of(end: Result<Totals, Cut>, allowance: u32) -> Result<Accepted, RefusedMany>
    requires { undoubled (totals_of end).tally ≤ allowance }
    ensures { many_outcome_is result ≡ call_outcome (end_of end) (counts_so allowance (totals_of end)) }
{
    match end {
        Ok(w) => Ok(Accepted {
            answers: w.answers,
            parts: w.parts,
            bytes: w.bytes,
            doublings: walk_tally::doublings(allowance, w.tally),
            halvings: walk_tally::halvings(w.tally),
        }),
        Err(cut) => Err(RefusedMany {
            refusal: cut.refusal,
            question: cut.question,
            answers: cut.at.answers,
            parts: cut.at.parts,
            bytes: cut.at.bytes,
            doublings: walk_tally::doublings(allowance, cut.at.tally),
            halvings: walk_tally::halvings(cut.at.tally),
        }),
    }
}

// A call that passes the first checks. `firsts` has a place for each run, where its bins begin: zeros at the start of a run are passed over once, however many
// questions there are.
fn answer_with(
    numbers: &[u32],
    ends: &[u32],
    masks: &[u64],
    thresholds: &[u32],
    allowance: u32,
    firsts: &mut [u32],
    answers: &mut [u32],
    certificate: &mut [u8],
    results: &mut [u64],
) -> Result<Accepted, RefusedMany>
    requires { (many_checks numbers.now ends.now masks.now thresholds.now results.old ≡ all_passed) × (length firsts.old ≡ length ends.now) }
    ensures { ReturnsMany (query_many numbers.now ends.now masks.now thresholds.now allowance answers.old certificate.old results.old) (many_outcome_is result) answers.new certificate.new results.new }
{
    walk_begin::first_places(numbers, ends, firsts);
    let end = query_each::each_question(
        numbers,
        ends,
        firsts,
        masks,
        thresholds,
        answers,
        certificate,
        results,
        Totals {
            answers: 0,
            parts: 0,
            bytes: 0,
            tally: walk_tally::whole(allowance),
        },
    );
    outcome_of(end, allowance)
}

// The same with a row of its own.
fn answer_all(
    numbers: &[u32],
    ends: &[u32],
    masks: &[u64],
    thresholds: &[u32],
    allowance: u32,
    answers: &mut [u32],
    certificate: &mut [u8],
    results: &mut [u64],
) -> Result<Accepted, RefusedMany>
    requires { many_checks numbers.now ends.now masks.now thresholds.now results.old ≡ all_passed }
    ensures { ReturnsMany (query_many numbers.now ends.now masks.now thresholds.now allowance answers.old certificate.old results.old) (many_outcome_is result) answers.new certificate.new results.new }
{
    let mut firsts = [0u32; limits::MOST_RUNS];
    let k = ends.len();
    answer_with(
        numbers,
        ends,
        masks,
        thresholds,
        allowance,
        &mut firsts[0..k],
        answers,
        certificate,
        results,
    )
}

// For each question which bins at least its threshold of its chosen runs hold, with a certificate, by at most `allowance` probes in all. Answers and certificates
// follow each other in the two buffers; `results` gets for each finished question the answers and the bytes reached so far. One pass over the numbers checks them,
// however many questions there are.
pub fn query_many(
    numbers: &[u32],
    ends: &[u32],
    masks: &[u64],
    thresholds: &[u32],
    allowance: u32,
    answers: &mut [u32],
    certificate: &mut [u8],
    results: &mut [u64],
) -> Result<Accepted, RefusedMany>
    ensures returns { ReturnsMany (query_many numbers.now ends.now masks.now thresholds.now allowance answers.old certificate.old results.old) (many_outcome_is result) answers.new certificate.new results.new }
    ensures demand2 { ManyDemand2 numbers.now ends.now masks.now thresholds.now results.old (many_outcome_is result) answers.new certificate.new results.new }
    ensures demand3 { ManyDemand3 numbers.now ends.now masks.now thresholds.now allowance answers.old certificate.old results.old (many_outcome_is result) certificate.new results.new }
{
    query_checks::many_checks(numbers, ends, masks, thresholds, results)?;
    answer_all(
        numbers,
        ends,
        masks,
        thresholds,
        allowance,
        answers,
        certificate,
        results,
    )
}

// The first checks of a call with many questions (docs/SPECIFICATION.md, 'Many questions'): all are made before the first walk. One pass over the numbers,
// however many questions there are.
#![tactic(auto)]

ghost use Rattle.std.specs.Prelude.{◌≡◌, ◌≤◌, length};
ghost use Rattle.model.specs.Many.{rows_check, question_checks, many_checks};
ghost use Rattle.model.specs.Refusals.{◌then◌, count_check, list_checks};
ghost use Rattle.model.specs.Runs.{most_runs};
ghost use Rattle.first_checks.specs.Checked.{check_of};
ghost use Rattle.query_checks.specs.Checks.{many_check_of};

use refusal::{Reason, Refusal};

// The first refusal, with the index of its question, 0 if it belongs to none.
#[derive(Clone, Copy, Debug, PartialEq, Eq)]
pub struct ManyRefusal {
    pub refusal: Refusal,
    pub question: usize,
}

// Refusal 14: the rows of masks, thresholds and results.
#[tactic(auto, unfolding(model::specs::Many::rows_check))]
fn rows_check(masks: &[u64], thresholds: &[u32], results: &[u64]) -> Result<(), Refusal>
    ensures { check_of result ≡ rows_check masks.now thresholds.now results.now }
{
    let n = masks.len();
    first_checks::refuse_if(
        n != thresholds.len() || arith::half(results.len()) < n,
        Reason::Rows,
        n,
    )
}

// Refusals 1, 3, 4 and 14, which belong to no question.
#[tactic(auto, using(first_checks::proofs::Order::checks_in_order))]
fn call_checks(
    numbers: &[u32],
    ends: &[u32],
    masks: &[u64],
    thresholds: &[u32],
    results: &[u64],
) -> Result<(), Refusal>
    ensures { check_of result ≡ (count_check ends.now then list_checks numbers.now ends.now then rows_check masks.now thresholds.now results.now) }
{
    first_checks::count_check(ends)?;
    first_checks::list_checks(numbers, ends)?;
    rows_check(masks, thresholds, results)
}

// Refusals 13 and 2, question by question.
fn question_checks(k: usize, masks: &[u64], thresholds: &[u32]) -> Result<(), ManyRefusal>
    requires { (k ≤ most_runs) × (length masks.now ≡ length thresholds.now) }
    ensures { many_check_of result ≡ question_checks k 0 masks.now thresholds.now }
{
    for (question, (mask, threshold)) in masks.iter().zip(thresholds).enumerate() {
        let ones = mask::ones_of(*mask) as usize;
        first_checks::choice_check(k, *mask, *threshold as usize, question, ones).map_err(
            |refusal| ManyRefusal { refusal, question },
        )?;
    }
    Ok(())
}

// The first checks of a call.
#[tactic(auto, using(crate::proofs::Laws::call_passed, crate::proofs::Laws::first_in), unfolding(model::specs::Many::many_checks))]
pub fn many_checks(
    numbers: &[u32],
    ends: &[u32],
    masks: &[u64],
    thresholds: &[u32],
    results: &[u64],
) -> Result<(), ManyRefusal>
    ensures { many_check_of result ≡ many_checks numbers.now ends.now masks.now thresholds.now results.now }
{
    call_checks(numbers, ends, masks, thresholds, results).map_err(|refusal| ManyRefusal {
        refusal,
        question: 0,
    })?;
    question_checks(ends.len(), masks, thresholds)
}

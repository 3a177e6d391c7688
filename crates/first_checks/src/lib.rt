// The first checks (docs/SPECIFICATION.md, 'The refusals') for questions and checkers, one function for each that several calls make. Those of the
// lists are two passes over the ends and one over the numbers, those of weights two over their row.
#![tactic(auto)]

ghost use Rattle.std.specs.Prelude.{◌≡◌, ◌≤◌, length};
ghost use Rattle.std.proofs.Math.Option.{none};
ghost use Rattle.std.specs.Int.Count.{ones};
ghost use Rattle.model.specs.Alone.{alone_checks};
ghost use Rattle.model.specs.Refusals.{◌then◌, refuse_if, refuse_at, falls_from, last_end, unrisen_in, misweighed, count_check, weights_check, threshold_check, threshold_checks, sum_of_weights, mask_check, list_checks, first_checks, weighted_checks, chosen_checks};
ghost use Rattle.model.specs.Runs.{most_runs};
ghost use Rattle.refusal.specs.Number.{number_of};
ghost use Rattle.rising.specs.Found.{found_place};
ghost use Rattle.first_checks.specs.Checked.{check_of};

use refusal::{Reason, Refusal};

// Refused at `place` where a test holds.
#[tactic(auto, unfolding(model::specs::Refusals::refuse_if))]
pub fn refuse_if(refused: bool, reason: Reason, place: usize) -> Result<(), Refusal>
    ensures { check_of result ≡ refuse_if refused (number_of reason) place }
{
    if refused {
        Err(Refusal { reason, place })
    } else {
        Ok(())
    }
}

// Refused at the place found, if there is one.
#[tactic(auto, unfolding(model::specs::Refusals::refuse_at))]
fn refuse_at(found: Option<usize>, reason: Reason) -> Result<(), Refusal>
    ensures { check_of result ≡ refuse_at (number_of reason) (found_place found) }
{
    match found {
        Some(place) => Err(Refusal { reason, place }),
        None => Ok(()),
    }
}

// The first end below the one before.
fn falling_end(ends: &[u32]) -> Option<usize>
    ensures { found_place result ≡ falls_from 0 0 ends.now }
{
    (1..ends.len()).find(|i| ends[*i] < ends[*i - 1])
}

// The first number that is not above the one before in its run, zeros at the run's start passed over. The ends are in order, and the last is the length.
fn unrisen_number(numbers: &[u32], ends: &[u32]) -> Option<usize>
    requires { (falls_from 0 0 ends.now ≡ none) × (last_end 0 ends.now ≡ length numbers.now) }
    ensures { found_place result ≡ unrisen_in 0 numbers.now ends.now }
{
    let mut start = 0;
    for end in ends {
        let end = *end as usize;
        if let Some(place) = rising::first_unrisen(&numbers[start..end], start) {
            return Some(place);
        }
        start = end;
    }
    None
}

// The last end, 0 where there is none.
fn last_end(ends: &[u32]) -> usize
    ensures { result ≡ last_end 0 ends.now }
{
    ends.last().map_or(0, |end| *end as usize)
}

// The first weight that is outside 1 to 255.
fn misweighed(weights: &[u32]) -> Option<usize>
    ensures { found_place result ≡ misweighed 0 weights.now }
{
    weights
        .iter()
        .position(|weight| !(1..=limits::MOST_WEIGHT).contains(weight))
}

// Refusal 1: the number of the runs.
#[tactic(auto, unfolding(model::specs::Refusals::count_check))]
pub fn count_check(ends: &[u32]) -> Result<(), Refusal>
    ensures { check_of result ≡ count_check ends.now }
{
    let k = ends.len();
    refuse_if(k == 0 || limits::MOST_RUNS < k, Reason::RunCount, k)
}

// Refusal 2: a threshold, or a wanted weight, over runs that weigh `most` together.
#[tactic(auto, unfolding(model::specs::Refusals::threshold_check))]
pub fn threshold_check(most: usize, threshold: usize, place: usize) -> Result<(), Refusal>
    ensures { check_of result ≡ threshold_check most threshold place }
{
    refuse_if(threshold == 0 || most < threshold, Reason::Threshold, place)
}

// Refusal 13: a mask that chooses some of `k` runs.
#[tactic(auto, unfolding(model::specs::Refusals::mask_check))]
pub fn mask_check(k: usize, mask: u64, place: usize) -> Result<(), Refusal>
    requires { k ≤ most_runs }
    ensures { check_of result ≡ mask_check k mask place }
{
    refuse_if(
        mask == 0 || !mask::names_only_below(mask, k as u32),
        Reason::Mask,
        place,
    )
}

// Refusal 17: a row of weights for `k` runs that has not so many, or the first weight that is outside 1 to 255.
#[tactic(auto, using(crate::proofs::Order::checks_in_order), unfolding(model::specs::Refusals::weights_check))]
fn weights_check(k: usize, weights: &[u32]) -> Result<(), Refusal>
    ensures { check_of result ≡ weights_check k weights.now }
{
    refuse_if(weights.len() != k, Reason::Weights, k)?;
    refuse_at(misweighed(weights), Reason::Weights)
}

// Refusals 17 and 2: a row of weights for `k` runs, and a wanted weight over those.
#[tactic(auto, using(crate::proofs::Order::checks_in_order, crate::proofs::Order::weights_small))]
fn wanted_check(k: usize, weights: &[u32], wanted: usize) -> Result<(), Refusal>
    requires { k ≤ most_runs }
    ensures { check_of result ≡ (weights_check k weights.now then threshold_check (sum_of_weights weights.now) wanted wanted) }
{
    // a longer row is refused by now, however long it is
    weights_check(k, weights)?;
    threshold_check(weights::sum(weights), wanted, wanted)
}

// Refusals 13, at `index`, and 2, at `place`: a mask that chooses some of `k` runs, and a threshold over those.
#[tactic(auto, using(crate::proofs::Order::checks_in_order))]
pub fn choice_check(
    k: usize,
    mask: u64,
    threshold: usize,
    index: usize,
    place: usize,
) -> Result<(), Refusal>
    requires { k ≤ most_runs }
    ensures { check_of result ≡ (mask_check k mask index then threshold_check (ones mask) threshold place) }
{
    mask_check(k, mask, index)?;
    threshold_check(mask::ones_of(mask) as usize, threshold, place)
}

// Refusals 3 and 4: the ends, and the numbers of each run.
#[tactic(auto, using(crate::proofs::Order::checks_in_order), unfolding(model::specs::Refusals::list_checks))]
pub fn list_checks(numbers: &[u32], ends: &[u32]) -> Result<(), Refusal>
    ensures { check_of result ≡ list_checks numbers.now ends.now }
{
    refuse_at(falling_end(ends), Reason::Ends)?;
    refuse_if(
        last_end(ends) != numbers.len() || limits::MOST_NUMBERS < numbers.len(),
        Reason::Ends,
        ends.len(),
    )?;
    refuse_at(unrisen_number(numbers, ends), Reason::NotRising)
}

// The first checks of a call with a threshold, which is held against `most`.
#[tactic(auto, using(crate::proofs::Order::checks_in_order))]
fn checks_over(most: usize, numbers: &[u32], ends: &[u32], threshold: u32) -> Result<(), Refusal>
    ensures { check_of result ≡ threshold_checks most numbers.now ends.now threshold }
{
    let threshold = threshold as usize;
    count_check(ends)?;
    threshold_check(most, threshold, threshold)?;
    list_checks(numbers, ends)
}

// Those over all runs.
#[tactic(auto, unfolding(model::specs::Refusals::first_checks))]
pub fn first_checks(numbers: &[u32], ends: &[u32], threshold: u32) -> Result<(), Refusal>
    ensures { check_of result ≡ first_checks numbers.now ends.now threshold }
{
    checks_over(ends.len(), numbers, ends, threshold)
}

// Those of what run 0 found alone: the threshold is held against the number of the other runs.
#[tactic(auto, unfolding(model::specs::Alone::alone_checks))]
pub fn alone_checks(numbers: &[u32], ends: &[u32], threshold: u32) -> Result<(), Refusal>
    ensures { check_of result ≡ alone_checks numbers.now ends.now threshold }
{
    checks_over(ends.len().saturating_sub(1), numbers, ends, threshold)
}

// Those over the runs that a mask chooses, the threshold held against their number.
#[tactic(auto, using(crate::proofs::Order::checks_in_order, crate::proofs::Order::count_small), unfolding(model::specs::Refusals::chosen_checks))]
pub fn chosen_checks(
    numbers: &[u32],
    ends: &[u32],
    mask: u64,
    threshold: u32,
) -> Result<(), Refusal>
    ensures { check_of result ≡ chosen_checks numbers.now ends.now mask threshold }
{
    let threshold = threshold as usize;
    count_check(ends)?;
    choice_check(ends.len(), mask, threshold, 0, threshold)?;
    list_checks(numbers, ends)
}

// Those over all runs with weights, the wanted weight held against what all runs weigh.
#[tactic(auto, using(crate::proofs::Order::checks_in_order, crate::proofs::Order::count_small), unfolding(model::specs::Refusals::weighted_checks))]
pub fn weighted_checks(
    numbers: &[u32],
    ends: &[u32],
    weights: &[u32],
    wanted: u32,
) -> Result<(), Refusal>
    ensures { check_of result ≡ weighted_checks numbers.now ends.now weights.now wanted }
{
    count_check(ends)?;
    wanted_check(ends.len(), weights, wanted as usize)?;
    list_checks(numbers, ends)
}

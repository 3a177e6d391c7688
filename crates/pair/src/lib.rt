// A pair of runs (docs/SPECIFICATION.md, 'A pair of runs'): which bins both have, by mutual partition.
#![tactic(auto)]

ghost use Rattle.std.specs.Prelude.{length, ◌≡◌};
ghost use Rattle.first_bin.specs.Lent.{LentAt};
ghost use Rattle.first_checks.specs.Checked.{check_of};
ghost use Rattle.model.specs.Refusals.{passed};
ghost use Rattle.model.specs.Runs.{first_bin, slice, from, runs};
ghost use Rattle.pair_model.specs.Claims.{PairDemand2};
ghost use Rattle.pair_model.specs.Pair.{found_in, partition_of, pair_checks, filled_with, pair};
ghost use Rattle.row_fill.specs.Filling.{check_is, count_is, Returns};
ghost use Rattle.row_fill.specs.Keeps.{Keeps};

use refusal::{Reason, Refusal};
use row_fill::Unfilled;

// A pair has so many runs.
const RUNS: usize = 2;

// Refusal 1 for any other number of runs, then 3 and 4 as for a question.
#[tactic(auto, using(first_checks::proofs::Order::checks_in_order), unfolding(pair_model::specs::Pair::pair_checks))]
fn pair_checks(numbers: &[u32], ends: &[u32]) -> Result<(), Refusal>
    ensures { check_of result ≡ pair_checks numbers.now ends.now }
{
    let k = ends.len();
    first_checks::refuse_if(k != RUNS, Reason::RunCount, k)?;
    first_checks::list_checks(numbers, ends)
}

// The bins of a run that lies from `start` on and before `end`, as a part of the numbers.
#[tactic(auto, using(first_bin::proofs::Places::first_inside, crate::proofs::Lending::bins_part))]
fn bins_of(numbers: &[u32], start: usize, end: usize) -> &[u32]
    requires { LentAt numbers.now start end }
    ensures { result.now ≡ from first_bin (slice numbers.now start end) }
{
    let first = first_bin::first_place(numbers, start, end);
    &numbers[first..end]
}

// The bins that both runs have, written from the row's start.
fn find_both(numbers: &[u32], ends: &[u32], answers: &mut [u32]) -> Result<usize, Reason>
    requires { pair_checks numbers.now ends.now ≡ passed }
    ensures { Keeps (found_in (partition_of (runs numbers.now ends.now))) answers.old answers.new result }
{
    let middle = ends[0] as usize;
    let first = bins_of(numbers, 0, middle);
    let second = bins_of(numbers, middle, numbers.len());
    pair_partition::intersect(first, second, answers)
}

// A pair that passes the first checks.
fn answer(numbers: &[u32], ends: &[u32], answers: &mut [u32]) -> Result<usize, Unfilled>
    requires { pair_checks numbers.now ends.now ≡ passed }
    ensures { Returns (filled_with (found_in (partition_of (runs numbers.now ends.now))) answers.old) result answers.new }
{
    let room = answers.len();
    find_both(numbers, ends, answers).map_err(|reason| Unfilled {
        refusal: Refusal {
            reason,
            place: room,
        },
        count: room,
    })
}

// Which bins both of two runs have. One pass over the numbers for the checks; then, m being the shorter run's length and b the binary digits of the longer
// one's, at most m × (b + 1) comparisons, in calls that are nested no deeper than m has binary digits.
pub fn pair(numbers: &[u32], ends: &[u32], answers: &mut [u32]) -> Result<usize, Unfilled>
    ensures returns { Returns (pair numbers.now ends.now answers.old) result answers.new }
    ensures demand2 { PairDemand2 numbers.now ends.now (length answers.old) (check_is result) (count_is result) answers.new }
{
    pair_checks(numbers, ends).map_err(|refusal| Unfilled { refusal, count: 0 })?;
    answer(numbers, ends, answers)
}

// The bins that two runs have in common, by mutual partition (docs/SPECIFICATION.md, 'A pair of runs').
#![tactic(auto)]

ghost use Rattle.std.specs.Prelude.{◌++◌, ◌≤◌, ◌<◌, min, length, take};
ghost use Rattle.model.specs.Compared.{digits};
ghost use Rattle.model.specs.Rows.{Rise};
ghost use Rattle.model.specs.Runs.{rank};
ghost use Rattle.pair_model.specs.Pair.{partition, found_in};
ghost use Rattle.pair_partition.specs.Sides.{Risen, Entered, MiddleOf, SplitsAt, Splits, pivot_in, kept_as};
ghost use Rattle.row_fill.specs.Keeps.{Keeps};

use refusal::Reason;

// Where a list is split at a pivot: its numbers before the place `below` are below the pivot, those from the place `above` on are above it.
#[derive(Clone, Copy)]
struct Places {
    below: usize,
    above: usize,
}

// Where both lists are.
#[derive(Clone, Copy)]
struct Split {
    pivot: u32,
    first: Places,
    second: Places,
}

// The middle number of a list, the later of two, and where it splits the list.
#[tactic(auto, unfolding(pair_model::specs::Pair::middle))]
fn middle_of(list: &[u32]) -> (u32, Places)
    requires { 0 < length list.now }
    ensures { MiddleOf list.now result.0 result.1 }
{
    let middle = arith::half(list.len());
    let at = Places {
        below: middle,
        above: middle + 1,
    };
    (list[middle], at)
}

// Where a list is split at a pivot, which is sought in it by halving.
#[tactic(auto, using(model::proofs::Ordered::rise_ordered))]
fn places_of(list: &[u32], pivot: u32) -> Places
    requires { Rise 0 list.now }
    ensures { SplitsAt pivot list.now (rank pivot list.now) result }
{
    let below = insertion_rank::first_at_least(list, u64::from(pivot));
    let above = insertion_rank::place_after(list, below, pivot);
    Places { below, above }
}

// The pivot is the middle number of the shorter list, of the first where they are of one length.
fn split_sides(first: &[u32], second: &[u32]) -> Split
    requires { Entered first.now second.now }
    ensures splits { Splits first.now second.now result }
    ensures first_inside { (result.first.below ≤ length first.now) × (result.first.above ≤ length first.now) }
    ensures second_inside { (result.second.below ≤ length second.now) × (result.second.above ≤ length second.now) }
{
    if first.len() <= second.len() {
        let (pivot, at) = middle_of(first);
        Split {
            pivot,
            first: at,
            second: places_of(second, pivot),
        }
    } else {
        let (pivot, at) = middle_of(second);
        Split {
            pivot,
            first: places_of(first, pivot),
            second: at,
        }
    }
}

// Writes the pivot after `count` answers, if both sides have it; how many answers there are then, if they fit.
fn put_pivot(answers: &mut [u32], count: usize, split: Split) -> Option<usize>
    requires { count ≤ length answers.old }
    ensures { Keeps (take count answers.old ++ pivot_in split) answers.old answers.new (kept_as result) }
{
    if split.first.above == split.first.below || split.second.above == split.second.below {
        return Some(count);
    }
    if count == answers.len() {
        return None;
    }
    answers[count] = split.pivot;
    Some(count + 1)
}

// Writes the bins that both sides have after `count` answers: those below the pivot, the pivot, those above it. An empty side is not entered. `nesting`
// is how many calls may be nested from here on, this one among them. (An Option comes back in registers. A Result with its reason comes back in memory,
// by which two runs side by side took about a quarter more time.)
fn partition(
    first: &[u32],
    second: &[u32],
    answers: &mut [u32],
    count: usize,
    nesting: u32,
) -> Option<usize>
    requires { Entered first.now second.now × (count ≤ length answers.old) × (digits (min (length first.now) (length second.now)) ≤ nesting) }
    ensures { Keeps (take count answers.old ++ found_in (partition first.now second.now)) answers.old answers.new (kept_as result) }
{
    let split = split_sides(first, second);
    let (i, j) = (split.first.below, split.second.below);
    let mut below = count;
    if 0 < i.min(j) {
        below = partition(&first[..i], &second[..j], answers, count, nesting - 1)?;
    }
    let kept = put_pivot(answers, below, split)?;
    let (k, l) = (split.first.above, split.second.above);
    if (first.len() - k).min(second.len() - l) == 0 {
        return Some(kept);
    }
    partition(&first[k..], &second[l..], answers, kept, nesting - 1)
}

// Writes the bins of both runs from the row's start. Its calls of itself are nested as deep as the shorter length has binary digits, at most.
pub fn intersect(first: &[u32], second: &[u32], answers: &mut [u32]) -> Result<usize, Reason>
    requires { Risen first.now second.now }
    ensures { Keeps (found_in (partition first.now second.now)) answers.old answers.new result }
{
    let shorter = first.len().min(second.len());
    if shorter == 0 {
        return Ok(0);
    }
    partition(first, second, answers, 0, arith::digits_of(shorter as u32)).ok_or(
        Reason::AnswersFull,
    )
}

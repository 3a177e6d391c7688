// The bound on a walk's probes.
#![tactic(auto)]

ghost use Rattle.std.specs.Prelude.{◌≡◌, ◌*◌, ◌≤◌, ◌<◌, length};
ghost use Rattle.model.specs.Compared.{bound_of};
ghost use Rattle.model.specs.Runs.{one, mask_bits, most_runs};
ghost use Rattle.bound.specs.Bound.{named, sum_from, order_checks, bound_by, bound_is, probe_bound, probe_bound_chosen};

use refusal::{Reason, Refusal};

// The bound for one run of `n` numbers beside a certificate of `parts` parts.
#[tactic(auto, using(crate::proofs::Fits::bound_fits), unfolding(model::specs::Compared::bound_of))]
fn bound_of(parts: u32, n: u32) -> u64
    ensures { result ≡ bound_of parts n }
{
    2 * u64::from(parts) * u64::from(arith::digits_of(n))
}

// The bound for one run, if the mask names it; else 0.
#[tactic(auto, unfolding(model::specs::Runs::one))]
fn bound_in(mask: u64, run: usize, parts: u32, n: u32) -> u64
    requires { run < mask_bits }
    ensures { result ≡ one (named mask run) * bound_of parts n }
{
    if mask::names_run(mask, run as u32) {
        bound_of(parts, n)
    } else {
        0
    }
}

// The sum over the runs that the mask names, or refusal 3. One pass over the ends.
fn bound_over(ends: &[u32], mask: u64, parts: u32) -> Result<u64, Refusal>
    requires { length ends.now ≤ most_runs }
    ensures { bound_is result ≡ bound_by (order_checks ends.now) (sum_from (named mask) parts 0 0 ends.now) }
{
    let mut sum = 0;
    let mut before = 0;
    for (i, end) in ends.iter().enumerate() {
        if *end < before {
            return Err(Refusal {
                reason: Reason::Ends,
                place: i,
            });
        }
        sum += bound_in(mask, i, parts, *end - before);
        before = *end;
    }
    if limits::MOST_NUMBERS < before as usize {
        return Err(Refusal {
            reason: Reason::Ends,
            place: ends.len(),
        });
    }
    Ok(sum)
}

// The bound on the probes of a walk over the runs with these ends, beside a certificate of `parts` parts. Numbers are counted as they are lent, so zeros at
// a run's start may make it larger than the bound over the bins, never smaller.
#[tactic(auto, using(crate::proofs::Checks::bounds, first_checks::proofs::Order::count_small, crate::proofs::Runs::sum_every), unfolding(crate::specs::Bound::probe_bound, crate::specs::Bound::end_checks))]
pub fn probe_bound(ends: &[u32], parts: u32) -> Result<u64, Refusal>
    ensures { bound_is result ≡ probe_bound ends.now parts }
{
    first_checks::count_check(ends)?;
    bound_over(ends, mask::all_runs(ends.len()), parts)
}

// The same for a walk over the runs alone that the mask chooses.
#[tactic(auto, using(crate::proofs::Checks::bounds, first_checks::proofs::Order::count_small), unfolding(crate::specs::Bound::probe_bound_chosen, crate::specs::Bound::chosen_end_checks))]
pub fn probe_bound_chosen(ends: &[u32], mask: u64, parts: u32) -> Result<u64, Refusal>
    ensures { bound_is result ≡ probe_bound_chosen ends.now mask parts }
{
    first_checks::count_check(ends)?;
    first_checks::mask_check(ends.len(), mask, 0)?;
    bound_over(ends, mask, parts)
}

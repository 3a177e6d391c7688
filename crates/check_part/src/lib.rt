// One part of a certificate checked at the next uncovered bin, by the runs that a mask chooses (docs/SPECIFICATION.md, 'The refusals' and 'Weights'). A row of
// weights that is empty stands for runs that weigh 1 each.
#![tactic(auto)]

ghost use Rattle.std.specs.Prelude.{◌≡◌, not, ◌||◌, ◌^◌, ◌<◌, eqb, ltb, length};
ghost use Rattle.std.specs.Int.Bits.{bit_and};
ghost use Rattle.model.specs.Certificate.{last_of};
ghost use Rattle.field_read.specs.Reading.{part_of};
ghost use Rattle.weights.specs.Named.{named_weight, Weighs};
ghost use Rattle.check_cursor.specs.Cursors.{Cursors};
ghost use Rattle.check_scan.specs.Scan.{part_is};
ghost use Rattle.check_part.specs.Tested.{Choice, Tested, PartChecked};

use check_scan::Claim;
use field_read::Part;
use refusal::Reason;

// Whether the mask names a run that is not chosen, or runs that weigh less than `few` together. The chosen runs weigh `total`.
fn misnames(mask: u64, chosen: u64, weights: &[u32], total: usize, few: usize) -> bool
    requires { Weighs chosen weights.now × (total ≡ named_weight weights.now chosen) }
    ensures { result ≡ (not (eqb (bit_and mask chosen) mask) || ltb (named_weight weights.now mask) few) }
{
    !mask::names_only(mask, chosen) || weights::weight_among(mask, chosen, total, weights) < few
}

// Tests an answer or a gap at the next uncovered bin. (As a call a check took up to 10 % more instructions.)
#[inline(always)]
fn tested(
    numbers: &[u32],
    ends: &[u32],
    weights: &[u32],
    chosen: u64,
    cursors: &mut [u64],
    bin: u64,
    claim: Claim,
    total: usize,
    few: usize,
) -> Result<(), Reason>
    requires { Cursors numbers.now ends.now cursors.old bin × (last_of (part_is claim) ≡ claim.last) × (chosen < 2 ^ length ends.now) × Weighs chosen weights.now × (total ≡ named_weight weights.now chosen) }
    ensures { Tested numbers.now ends.now weights.now chosen bin claim few cursors.new result }
{
    if u64::from(claim.first) != bin || claim.last < claim.first {
        return Err(Reason::Order);
    }
    if misnames(claim.mask, chosen, weights, total, few) {
        return Err(Reason::Names);
    }
    if check_scan::contradicted(numbers, ends, cursors, claim) {
        return Err(Reason::Contradicted);
    }
    Ok(())
}

// Checks a part at the next uncovered bin. The chosen runs weigh `total`. Those that an answer names must weigh `threshold`, and those that a gap names `few`, so
// that the others weigh less than the threshold.
pub fn check_part(
    numbers: &[u32],
    ends: &[u32],
    weights: &[u32],
    chosen: u64,
    threshold: usize,
    total: usize,
    cursors: &mut [u64],
    bin: u64,
    part: Part,
) -> Result<(), Reason>
    requires { Cursors numbers.now ends.now cursors.old bin × Choice ends.now weights.now chosen threshold total }
    ensures { PartChecked numbers.now ends.now weights.now chosen threshold bin (part_of part) cursors.new result }
{
    match part {
        Part::Answer { value, mask } => {
            let claim = Claim {
                first: value,
                last: value,
                mask,
                held: true,
            };
            tested(
                numbers, ends, weights, chosen, cursors, bin, claim, total, threshold,
            )
        }
        Part::Gap { first, last, mask } => {
            let claim = Claim {
                first,
                last,
                mask,
                held: false,
            };
            let few = total - threshold + 1;
            tested(
                numbers, ends, weights, chosen, cursors, bin, claim, total, few,
            )
        }
    }
}

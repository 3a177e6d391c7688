// What runs weigh, by a row with a weight for each run. A row with none stands for runs that weigh 1 each.
#![tactic(auto)]

ghost use Rattle.std.specs.Prelude.{◌≡◌, ◌^◌, ◌≤◌, ◌<◌, length, get_or};
ghost use Rattle.std.specs.Int.Bits.{bit_and};
ghost use Rattle.model.specs.Refusals.{sum_of_weights};
ghost use Rattle.model.specs.Runs.{most_runs};
ghost use Rattle.weights.specs.Named.{named_weight, HasWeight, Weighs, Among, Fewer};

// Half of the most runs. Of the runs that a part names and the others, the fewer are never more.
const HALF: u32 = 32;

// What all runs weigh.
pub fn sum(weights: &[u32]) -> usize
    requires { length weights.now ≤ most_runs }
    ensures { result ≡ sum_of_weights weights.now }
{
    weights.iter().map(|&weight| weight as usize).sum()
}

// What run `i` weighs: 1 where the row has no weights.
pub fn weight_at(weights: &[u32], i: usize) -> usize
    requires { HasWeight i weights.now }
    ensures { result ≡ get_or weights.now i 1 }
{
    if weights.is_empty() {
        return 1;
    }
    weights[i] as usize
}

// What the runs that the mask names weigh, each of which has a weight in the row.
pub fn named_weight(mask: u64, weights: &[u32]) -> usize
    requires { (length weights.now ≤ most_runs) × (mask < 2 ^ length weights.now) }
    ensures { result ≡ named_weight weights.now mask }
{
    let mut total: usize = 0;
    let mut rest = mask;
    while rest != 0 {
        let run = mask::lowest_run(rest) as usize;
        total += weights[run] as usize;
        rest = mask::without_lowest(rest);
    }
    total
}

// What the runs that the mask names weigh: how many they are where the row has no weights.
pub fn weight_of(mask: u64, weights: &[u32]) -> usize
    requires { Weighs mask weights.now }
    ensures { result ≡ named_weight weights.now mask }
{
    if weights.is_empty() {
        return mask::ones_of(mask) as usize;
    }
    named_weight(mask, weights)
}

// The mask, or where it names more than half of the most runs the mask of the others of `all`.
fn fewer(mask: u64, all: u64) -> u64
    requires { bit_and mask all ≡ mask }
    ensures { Fewer mask all result }
{
    if HALF < mask::ones_of(mask) {
        return mask::others(all, mask);
    }
    mask
}

// What the runs that a mask names weigh, which are runs of `all`, and those weigh `total`. Where they are more than half of the most runs, what the others weigh is
// taken off the total, so that at most 32 weights are read.
pub fn weight_among(mask: u64, all: u64, total: usize, weights: &[u32]) -> usize
    requires { Among mask all total weights.now }
    ensures { result ≡ named_weight weights.now mask }
{
    if !weights.is_empty() {
        let summed = fewer(mask, all);
        let weight = named_weight(summed, weights);
        if summed == mask {
            return weight;
        }
        return total - weight;
    }
    weight_of(mask, weights)
}

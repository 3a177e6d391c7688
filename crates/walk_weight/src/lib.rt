// The weight still in play, which a walk's state carries: what the runs that have a head weigh. It is lowered where a run is left without a number.
#![tactic(auto)]

ghost use Rattle.std.specs.Prelude.{◌≡◌, ◌+◌, ◌≤◌};
ghost use Rattle.walk_state.specs.State.{InPlay, lost_at};
ghost use Rattle.weights.specs.Named.{HasWeight};
ghost use Rattle.walk_weight.specs.Lowering.{Lowerable, AllHave};

// The weight in play once run `i` was moved to `place`: it is less by what the run weighs where the run has no number left there.
pub fn moved(weights: &[u32], i: usize, place: usize, end: usize, weight: usize) -> usize
    requires { HasWeight i weights.now × (lost_at weights.now i place end ≤ weight) }
    ensures { result + lost_at weights.now i place end ≡ weight }
{
    if place < end {
        return weight;
    }
    let lost = weights::weight_at(weights, i);
    weight - lost
}

// The weight in play once the runs that `movers` names were moved, each of which had a head: it is lowered for each that has no number left.
fn lowered(
    numbers: &[u32],
    ends: &[u32],
    weights: &[u32],
    positions: &[u32],
    movers: u64,
    initial: usize,
) -> usize
    requires { Lowerable numbers.now ends.now weights.now positions.now movers initial }
    ensures { InPlay numbers.now ends.now weights.now positions.now result }
{
    let mut rest = movers;
    let mut weight = initial;
    while 0 < rest {
        let run = mask::lowest_run(rest);
        rest = mask::without_lowest(rest);
        let i = run as usize;
        let place = positions[i] as usize;
        let end = ends[i] as usize;
        weight = moved(weights, i, place, end, weight);
    }
    weight
}

// The same where `count` runs were moved and `kept` of them have a number left: mostly all, and then nothing is lowered. So runs are gone through at most as often in
// a walk as it has runs.
pub fn stepped(
    numbers: &[u32],
    ends: &[u32],
    weights: &[u32],
    positions: &[u32],
    movers: u64,
    count: usize,
    kept: usize,
    weight: usize,
) -> usize
    requires { Lowerable numbers.now ends.now weights.now positions.now movers weight × AllHave numbers.now ends.now positions.now movers count kept }
    ensures { InPlay numbers.now ends.now weights.now positions.now result }
{
    if kept == count {
        return weight;
    }
    lowered(numbers, ends, weights, positions, movers, weight)
}

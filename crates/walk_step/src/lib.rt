// Runs moved on by one past an answer; their keys are put in the row, and the weight still in play (walk_weight) is then right again.
#![tactic(auto)]

ghost use Rattle.std.specs.Prelude.{map, ◌≡◌};
ghost use Rattle.std.specs.Int.Count.{ones};
ghost use Rattle.walk_state.specs.State.{runs_at, Holds, InPlay};
ghost use Rattle.walk_state.specs.Moves.{PlacedAt, step_named, Steppable, StepReady};

// Where the row of keys starts after a step, and the weight then in play.
#[derive(Drop)]
pub struct Stepped {
    pub start: usize,
    pub weight: usize,
}

// Moves each run that `movers` names on by one. The keys stay.
fn step_each(numbers: &[u32], ends: &[u32], positions: &mut [u32], movers: u64)
    requires { Steppable numbers.now ends.now positions.old movers }
    ensures { PlacedAt numbers.now ends.now (map (step_named movers) (runs_at 0 numbers.now positions.old ends.now)) positions.new }
{
    let mut rest = movers;
    while 0 < rest {
        let run = mask::lowest_run(rest);
        positions[run as usize] += 1;
        rest = mask::without_lowest(rest);
    }
}

// Moves each run that `movers` names, `count` of them, on by one and puts its key back. As many of them have a number left as keys are put back.
pub fn step_runs(
    numbers: &[u32],
    ends: &[u32],
    weights: &[u32],
    positions: &mut [u32],
    keys: &mut [u64],
    from: usize,
    movers: u64,
    count: usize,
    weight: usize,
) -> Stepped
    requires { StepReady numbers.now ends.now positions.old keys.old from movers × (count ≡ ones movers) × InPlay numbers.now ends.now weights.now positions.old weight }
    ensures { Holds numbers.now ends.now positions.new keys.new result.start (map (step_named movers) (runs_at 0 numbers.now positions.old ends.now)) × InPlay numbers.now ends.now weights.now positions.new result.weight }
{
    step_each(numbers, ends, positions, movers);
    let start = walk_put::put_runs(numbers, ends, positions, keys, from, movers, count);
    let left = walk_weight::stepped(
        numbers,
        ends,
        weights,
        positions,
        movers,
        count,
        from - start,
        weight,
    );
    Stepped {
        start,
        weight: left,
    }
}

// Where each run's bins begin, and the runs put where a walk begins, with their keys in the row.
#![tactic(auto)]

ghost use Rattle.std.specs.Prelude.{◌≡◌, map, ◌≤◌, length};
ghost use Rattle.walk_state.specs.State.{runs_at, Holds};
ghost use Rattle.model.specs.Runs.{runs, most_runs};
ghost use Rattle.walk_state.specs.Moves.{PlacedAt};
ghost use Rattle.walk_begin.specs.Begin.{Lent, BeginReady, ChosenAt, standing};

// Puts the place of each run's first bin into a row. The zeros at a run's start are passed over here, once for all questions over these runs.
pub fn first_places(numbers: &[u32], ends: &[u32], firsts: &mut [u32])
    requires { Lent numbers.now ends.now firsts.old }
    ensures { PlacedAt numbers.now ends.now (runs numbers.now ends.now) firsts.new }
{
    let mut start = 0;
    for (i, &end) in ends.iter().enumerate() {
        let end = end as usize;
        firsts[i] = first_bin::first_place(numbers, start, end) as u32;
        start = end;
    }
}

// Puts each chosen run at its first bin and every other at its end.
fn begin_each(ends: &[u32], firsts: &[u32], chosen: u64, positions: &mut [u32])
    requires { (length ends.now ≤ most_runs) × (length firsts.now ≡ length ends.now) × (length positions.old ≡ length ends.now) }
    ensures { ChosenAt ends.now firsts.now chosen positions.new (length ends.now) }
{
    for (i, position) in positions.iter_mut().enumerate() {
        if mask::names_run(chosen, i as u32) {
            *position = firsts[i];
        } else {
            *position = ends[i];
        }
    }
}

// Puts each chosen run at its first bin and every other at its end, and the keys of the chosen that have a bin into a row in order. The row starts at
// the place returned.
pub fn begin(
    numbers: &[u32],
    ends: &[u32],
    firsts: &[u32],
    chosen: u64,
    positions: &mut [u32],
    keys: &mut [u64],
) -> usize
    requires { BeginReady numbers.now ends.now firsts.now chosen positions.old keys.old }
    ensures { Holds numbers.now ends.now positions.new keys.new result (map (standing chosen) (runs_at 0 numbers.now firsts.now ends.now)) }
{
    begin_each(ends, firsts, chosen, positions);
    let count = mask::ones_of(chosen) as usize;
    walk_put::put_runs(numbers, ends, positions, keys, ends.len(), chosen, count)
}

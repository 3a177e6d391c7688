// One run searched for v, from its position on, and moved there. The weight still in play (walk_weight) is then right again.
#![tactic(auto)]

ghost use Rattle.std.specs.Prelude.{◌≡◌, ◌<◌, length, get_or};
ghost use Rattle.walk_state.specs.Moves.{Placeable};
ghost use Rattle.walk_state.specs.State.{InPlay};
ghost use Rattle.walk_tally.specs.Tally.{undoubled};
ghost use Rattle.walk_seek.specs.Searched.{SearchedRun};

use walk_search::Spent;

// After a search: the tally (walk_tally) and the weight then in play.
#[derive(Clone, Copy, Debug, PartialEq, Eq)]
pub struct Left {
    pub tally: u64,
    pub weight: usize,
}

// The places in `numbers` that a search goes through.
#[derive(Clone, Copy)]
pub struct Places {
    pub from: usize,
    pub to: usize,
}

// A search of a run begins at the run's position and ends at its end.
fn searched_places(ends: &[u32], positions: &[u32], i: usize) -> Places
    requires { (i < length ends.now) × (i < length positions.now) }
    ensures { (result.from ≡ get_or positions.now i 0) × (result.to ≡ get_or ends.now i 0) }
{
    Places {
        from: positions[i] as usize,
        to: ends[i] as usize,
    }
}

// Searches run `run`, which has a number at its position, for v and moves it there.
pub fn search_run(
    numbers: &[u32],
    ends: &[u32],
    weights: &[u32],
    positions: &mut [u32],
    run: u32,
    v: u32,
    tally: u64,
    weight: usize,
) -> Result<Left, Spent>
    requires placeable { Placeable numbers.now ends.now positions.old run × (undoubled tally < 4294967296) }
    requires run_bound { (get_or positions.old run 0 < get_or ends.now run 0) × InPlay numbers.now ends.now weights.now positions.old weight }
    ensures { SearchedRun numbers.now ends.now weights.now positions.old run v tally positions.new result }
{
    let i = run as usize;
    let places = searched_places(ends, positions, i);
    let found = walk_search::search(&numbers[places.from..places.to], v, tally)?;
    let next = places.from + found.place;
    positions[i] = next as u32;
    let left = walk_weight::moved(weights, i, next, places.to, weight);
    Ok(Left {
        tally: found.tally,
        weight: left,
    })
}

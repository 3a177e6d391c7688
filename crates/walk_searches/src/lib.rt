// The runs whose head is below v searched for v, in rising run number, and their keys put back.
#![tactic(auto)]

ghost use Rattle.std.specs.Prelude.{◌<◌};
ghost use Rattle.walk_state.specs.State.{runs_at, InPlay};
ghost use Rattle.walk_state.specs.Moves.{Searchable, SearchReady};
ghost use Rattle.walk_tally.specs.Tally.{undoubled};
ghost use Rattle.walk_searches.specs.Searches.{SearchedEach, SearchedRuns};

use walk_search::Spent;
use walk_seek::Left;

// Runs moved: where the row of keys starts, the tally of probes (walk_tally) and the weight still in play (walk_weight).
#[derive(Clone, Copy, Debug, PartialEq, Eq)]
pub struct Moved {
    pub start: usize,
    pub tally: u64,
    pub weight: usize,
}

// Searches, in rising run number, each run that `movers` names. At most as many turns as there are runs.
fn search_each(
    numbers: &[u32],
    ends: &[u32],
    weights: &[u32],
    positions: &mut [u32],
    movers: u64,
    v: u32,
    allowed: u64,
    initial: usize,
) -> Result<Left, Spent>
    requires { Searchable numbers.now ends.now positions.old movers v × (undoubled allowed < 4294967296) × InPlay numbers.now ends.now weights.now positions.old initial }
    ensures { SearchedEach numbers.now ends.now weights.now (runs_at 0 numbers.now positions.old ends.now) v allowed positions.new result }
{
    let mut rest = movers;
    let mut left = Left {
        tally: allowed,
        weight: initial,
    };
    while rest != 0 {
        let run = mask::lowest_run(rest);
        left = walk_seek::search_run(
            numbers,
            ends,
            weights,
            positions,
            run,
            v,
            left.tally,
            left.weight,
        )?;
        rest = mask::without_lowest(rest);
    }
    Ok(left)
}

// Searches each run that `movers` names, and then puts their keys back: a search and a place in the row are both hard to foretell, and apart they cost less. Where
// it names none, as in every round with a threshold of 1, no key is put back.
pub fn search_runs(
    numbers: &[u32],
    ends: &[u32],
    weights: &[u32],
    positions: &mut [u32],
    keys: &mut [u64],
    from: usize,
    movers: u64,
    v: u32,
    allowed: u64,
    initial: usize,
    count: usize,
) -> Result<Moved, Spent>
    requires { SearchReady numbers.now ends.now positions.old keys.old from movers v × (undoubled allowed < 4294967296) × InPlay numbers.now ends.now weights.now positions.old initial }
    ensures { SearchedRuns numbers.now ends.now weights.now (runs_at 0 numbers.now positions.old ends.now) v allowed positions.new keys.new result }
{
    if movers == 0 {
        return Ok(Moved {
            start: from,
            tally: allowed,
            weight: initial,
        });
    }
    let left = search_each(
        numbers, ends, weights, positions, movers, v, allowed, initial,
    )?;
    let start = walk_put::put_runs(numbers, ends, positions, keys, from, movers, count);
    Ok(Moved {
        start,
        tally: left.tally,
        weight: left.weight,
    })
}

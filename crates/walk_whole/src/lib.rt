// The walk over chosen runs from its beginning to its end (docs/SPECIFICATION.md, 'The walk'): each of them at its first bin, the weight in play then summed once,
// then the rounds.
#![tactic(auto)]

ghost use Rattle.walk_whole.specs.Whole.{Asked, Begins, ComesTo};

use walk_write::{State, Stopped};

// The walk over the chosen runs, from its beginning to its end. `weights` has a weight for each run, or none: then each weighs 1. `firsts` holds the places of all
// runs' first bins. `answered` answers and `written` bytes stand in the buffers, and the walk writes after them; `answered` above the length of `answers` tells it not to
// write answers. `tally` tells how its probes are spent so far (walk_tally). Parts are counted from 0.
fn whole_walk(
    numbers: &[u32],
    ends: &[u32],
    weights: &[u32],
    chosen: u64,
    threshold: usize,
    positions: &mut [u32],
    keys: &mut [u64],
    answers: &mut [u32],
    certificate: &mut [u8],
    answered: usize,
    written: usize,
    tally: u64,
    firsts: &[u32],
) -> Result<State, Stopped>
    requires { Begins numbers.now ends.now weights.now firsts.now chosen threshold positions.old keys.old certificate.old written tally }
    ensures { ComesTo numbers.now ends.now weights.now chosen threshold answered written tally answers.old certificate.old answers.new certificate.new result }
{
    let start = walk_begin::begin(numbers, ends, firsts, chosen, positions, keys);
    let weight = walk_keys::row_weight(keys, start, weights);
    walk_rounds::all_rounds(
        numbers,
        ends,
        weights,
        chosen,
        threshold,
        positions,
        keys,
        answers,
        certificate,
        State {
            floor: limits::FIRST_BIN,
            start,
            answers: answered,
            parts: 0,
            bytes: written,
            tally,
            weight,
        },
    )
}

// The same with rows of its own. Nothing is allocated: its positions and its keys are two rows with a place for each run, and two more such rows are in use while
// the row of keys is made anew. (Lent from outside, the rows took some 2 % more instructions where most rounds move one run.)
pub fn question_walk(
    numbers: &[u32],
    ends: &[u32],
    weights: &[u32],
    chosen: u64,
    threshold: usize,
    answers: &mut [u32],
    certificate: &mut [u8],
    answered: usize,
    written: usize,
    tally: u64,
    firsts: &[u32],
) -> Result<State, Stopped>
    requires { Asked numbers.now ends.now weights.now firsts.now chosen threshold certificate.old written tally }
    ensures { ComesTo numbers.now ends.now weights.now chosen threshold answered written tally answers.old certificate.old answers.new certificate.new result }
{
    let mut positions = [0u32; limits::MOST_RUNS];
    let mut keys = [0u64; limits::MOST_RUNS];
    let k = ends.len();
    whole_walk(
        numbers,
        ends,
        weights,
        chosen,
        threshold,
        &mut positions[0..k],
        &mut keys[0..k],
        answers,
        certificate,
        answered,
        written,
        tally,
        firsts,
    )
}

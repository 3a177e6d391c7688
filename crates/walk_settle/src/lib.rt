// The end of a round (docs/SPECIFICATION.md, 'The walk'): the floor is written as an answer where the runs that hold it weigh enough, and is passed.
#![tactic(auto)]

ghost use Rattle.std.specs.Prelude.{◌≡◌, ℕ};
ghost use Rattle.std.specs.Int.Count.{ones};
ghost use Rattle.model.specs.Runs.{weighted};
ghost use Rattle.model.specs.Walk.{settle, walk};
ghost use Rattle.walk_state.specs.State.{runs_at, chosen_at};
ghost use Rattle.walk_write.specs.Writes.{Fitted};
ghost use Rattle.weights.specs.Named.{named_weight, Weighs};
ghost use Rattle.walk_settle.specs.Turns.{Stands, Chooses, Goes, Settles, AtFloor, Passes};

use walk_write::{State, Stopped, Turn};

// What the runs that the mask names weigh, `count` of them: as many where there are no weights.
fn weight_here(count: usize, named: u64, weights: &[u32]) -> usize
    requires { (count ≡ ones named) × Weighs named weights.now }
    ensures { result ≡ named_weight weights.now named }
{
    if weights.is_empty() {
        return count;
    }
    weights::named_weight(named, weights)
}

// Past an answer at the floor: ends at the last bin, and otherwise moves the runs that hold it on by one.
fn pass(
    numbers: &[u32],
    ends: &[u32],
    weights: &[u32],
    threshold: usize,
    positions: &mut [u32],
    keys: &mut [u64],
    w: State,
    number: usize,
    named: u64,
) -> Turn
    requires { Stands numbers.now ends.now weights.now positions.old keys.old threshold w × AtFloor numbers.now ends.now positions.old keys.old w number named }
    ensures { Passes numbers.now ends.now weights.now positions.old threshold w positions.new keys.new result }
{
    if w.floor == limits::LAST_BIN {
        return Turn::Done(w);
    }
    let stepped = walk_step::step_runs(
        numbers,
        ends,
        weights,
        positions,
        keys,
        w.start + number,
        named,
        number,
        w.weight,
    );
    Turn::On(State {
        floor: w.floor + 1,
        start: stepped.start,
        weight: stepped.weight,
        ..w
    })
}

// After the searches: the floor is an answer where the runs whose heads equal it weigh at least `threshold`. Runs that are not chosen have no head, so that this
// holds for every choice of runs, and which they are need not be known.
pub fn settle(
    numbers: &[u32],
    ends: &[u32],
    weights: &[u32],
    threshold: usize,
    positions: &mut [u32],
    keys: &mut [u64],
    answers: &mut [u32],
    certificate: &mut [u8],
    w: State,
) -> Result<Turn, Stopped>
    requires { Stands numbers.now ends.now weights.now positions.old keys.old threshold w × Fitted certificate.old w }
    ensures goes { (m : ℕ) → Chooses m numbers.now ends.now weights.now positions.old threshold → Goes (λ n. settle (walk n threshold) threshold w.floor (chosen_at weights.now m numbers.now positions.old ends.now)) m numbers.now ends.now weights.now threshold w answers.old certificate.old positions.new keys.new answers.new certificate.new result }
    ensures settles { Settles (weighted weights.now (runs_at 0 numbers.now positions.old ends.now)) threshold w.floor result }
{
    let here = walk_keys::front(keys, w.start, (u64::from(w.floor) + 1) * 256);
    if weight_here(here.count, here.named, weights) < threshold {
        return Ok(Turn::On(w));
    }
    match walk_write::write_answer(answers, certificate, w, here.named) {
        Ok(x) => Ok(pass(
            numbers, ends, weights, threshold, positions, keys, x, here.count, here.named,
        )),
        Err(reason) => Err(Stopped { reason, at: w }),
    }
}

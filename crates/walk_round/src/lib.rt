// One round of the walk over the chosen runs (docs/SPECIFICATION.md, 'The walk'): the last gap where the weight still in play is too little, and otherwise a round from
// the head on up to which the runs weigh enough.
#![tactic(auto)]

ghost use Rattle.model.specs.Walk.{round, walk};
ghost use Rattle.walk_state.specs.State.{chosen_at};
ghost use Rattle.walk_write.specs.Writes.{Fitted};
ghost use Rattle.walk_settle.specs.Turns.{Stands, Chooses, Goes};
ghost use Rattle.walk_advance.specs.Advances.{Raises};

use walk_write::{State, Stopped, Turn};

// One round. It ends the walk where the weight still in play, which the state carries, is less than `threshold`.
pub fn round(
    numbers: &[u32],
    ends: &[u32],
    weights: &[u32],
    chosen: u64,
    threshold: usize,
    positions: &mut [u32],
    keys: &mut [u64],
    answers: &mut [u32],
    certificate: &mut [u8],
    w: State,
) -> Result<Turn, Stopped>
    requires { Stands numbers.now ends.now weights.now positions.old keys.old threshold w × Chooses chosen numbers.now ends.now weights.now positions.old threshold × Fitted certificate.old w }
    ensures goes { Goes (λ n. round (walk n threshold) threshold w.floor (chosen_at weights.now chosen numbers.now positions.old ends.now)) chosen numbers.now ends.now weights.now threshold w answers.old certificate.old positions.new keys.new answers.new certificate.new result }
    ensures raises { Raises w.floor result }
{
    if w.weight < threshold {
        return walk_write::last_gap(chosen, keys, certificate, w);
    }
    let v = walk_keys::reached_head(keys, w.start, weights, threshold);
    walk_advance::advance(
        numbers,
        ends,
        weights,
        chosen,
        threshold,
        positions,
        keys,
        answers,
        certificate,
        v as u32,
        w,
    )
}

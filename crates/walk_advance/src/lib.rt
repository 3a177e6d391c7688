// A round from the head v on up to which the chosen runs weigh enough (docs/SPECIFICATION.md, 'The walk'): the gap before v, the searches for v, and then the
// answer.
#![tactic(auto)]

ghost use Rattle.model.specs.Walk.{round, walk};
ghost use Rattle.walk_state.specs.State.{chosen_at};
ghost use Rattle.walk_write.specs.Writes.{Fitted};
ghost use Rattle.walk_settle.specs.Turns.{Stands, Chooses, Goes};
ghost use Rattle.walk_advance.specs.Advances.{Raises, Advances};

use refusal::Reason;
use walk_write::{State, Stopped, Turn};

// A round from the head v on: the gap before v, the searches for v, and the answer.
pub fn advance(
    numbers: &[u32],
    ends: &[u32],
    weights: &[u32],
    chosen: u64,
    threshold: usize,
    positions: &mut [u32],
    keys: &mut [u64],
    answers: &mut [u32],
    certificate: &mut [u8],
    v: u32,
    w: State,
) -> Result<Turn, Stopped>
    requires { Stands numbers.now ends.now weights.now positions.old keys.old threshold w × Chooses chosen numbers.now ends.now weights.now positions.old threshold × Fitted certificate.old w × Advances chosen numbers.now ends.now weights.now positions.old threshold v }
    ensures goes { Goes (λ n. round (walk n threshold) threshold w.floor (chosen_at weights.now chosen numbers.now positions.old ends.now)) chosen numbers.now ends.now weights.now threshold w answers.old certificate.old positions.new keys.new answers.new certificate.new result }
    ensures raises { Raises w.floor result }
{
    let front = walk_keys::front(keys, w.start, u64::from(v) * 256);
    let named = front.named;
    let x = match walk_write::gap_before(certificate, w, v, chosen - named) {
        Ok(x) => x,
        Err(reason) => return Err(Stopped { reason, at: w }),
    };
    match walk_searches::search_runs(
        numbers,
        ends,
        weights,
        positions,
        keys,
        w.start + front.count,
        named,
        v,
        x.tally,
        x.weight,
        front.count,
    ) {
        Ok(moved) => walk_settle::settle(
            numbers,
            ends,
            weights,
            threshold,
            positions,
            keys,
            answers,
            certificate,
            State {
                floor: v,
                start: moved.start,
                tally: moved.tally,
                weight: moved.weight,
                ..x
            },
        ),
        Err(spent) => Err(Stopped {
            reason: Reason::ProbesSpent,
            at: State {
                tally: spent.0,
                ..x
            },
        }),
    }
}

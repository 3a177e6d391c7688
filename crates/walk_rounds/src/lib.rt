// Rounds of the walk over the chosen runs until one ends it (docs/SPECIFICATION.md, 'The walk').
#![tactic(auto)]

ghost use Rattle.walk_state.specs.State.{chosen_at};
ghost use Rattle.walk_write.specs.Writes.{Fitted};
ghost use Rattle.walk_settle.specs.Turns.{Stands, Chooses};
ghost use Rattle.walk_rounds.specs.Ends.{Finishes};

use walk_write::{State, Stopped, Turn};

// Rounds until one ends the walk: the state at its end, or what stops it before.
pub fn all_rounds(
    numbers: &[u32],
    ends: &[u32],
    weights: &[u32],
    chosen: u64,
    threshold: usize,
    positions: &mut [u32],
    keys: &mut [u64],
    answers: &mut [u32],
    certificate: &mut [u8],
    w: State,
) -> Result<State, Stopped>
    requires { Stands numbers.now ends.now weights.now positions.old keys.old threshold w × Chooses chosen numbers.now ends.now weights.now positions.old threshold × Fitted certificate.old w }
    ensures { Finishes (chosen_at weights.now chosen numbers.now positions.old ends.now) threshold w answers.old certificate.old answers.new certificate.new result }
{
    let mut x = w;
    loop {
        match walk_round::round(
            numbers,
            ends,
            weights,
            chosen,
            threshold,
            positions,
            keys,
            answers,
            certificate,
            x,
        ) {
            Ok(Turn::On(y)) => x = y,
            Ok(Turn::Done(y)) => return Ok(y),
            Err(stopped) => return Err(stopped),
        }
    }
}

// A question's outcome as a row of 64-bit numbers, as the C boundary returns it.
#![tactic(auto)]

ghost use Rattle.std.specs.Prelude.{◌≡◌};
ghost use Rattle.query.specs.Outcomes.{outcome_is};
ghost use Rattle.quorum_rows.specs.Outcomes.{outcome_row, written_of};
ghost use Rattle.model.specs.Refusals.{refused};

use query::{Accepted, Refused};

// The parts that stand where a question is refused: as many as the place tells where its walk is, by 5 to 7, and none before it.
#[tactic(auto, unfolding(crate::specs::Outcomes::written_of))]
fn written(number: u64, place: usize) -> u64
    ensures { result ≡ written_of number place }
{
    match number {
        5..=7 => place as u64,
        _ => 0,
    }
}

// A refusal as a row, by its number, whatever that is.
#[tactic(auto, unfolding(crate::specs::Outcomes::outcome_row))]
pub fn put_refused(
    number: u64,
    place: usize,
    answers: usize,
    bytes: usize,
    doublings: u32,
    halvings: u32,
    res: &mut [u64; 7],
)
    ensures { res.new ≡ outcome_row (refused number place answers bytes doublings halvings) }
{
    *res = [
        number,
        place as u64,
        answers as u64,
        written(number, place),
        bytes as u64,
        u64::from(doublings),
        u64::from(halvings),
    ];
}

// An outcome as a row.
#[tactic(auto, unfolding(crate::specs::Outcomes::outcome_row))]
pub fn put_outcome(outcome: Result<Accepted, Refused>, res: &mut [u64; 7])
    ensures { res.new ≡ outcome_row (outcome_is outcome) }
{
    match outcome {
        Ok(accepted) => {
            *res = [
                0,
                0,
                accepted.answers as u64,
                accepted.parts as u64,
                accepted.bytes as u64,
                u64::from(accepted.doublings),
                u64::from(accepted.halvings),
            ];
        }
        Err(refused) => put_refused(
            u64::from(refused.refusal.reason),
            refused.refusal.place,
            refused.answers,
            refused.bytes,
            refused.doublings,
            refused.halvings,
            res,
        ),
    }
}

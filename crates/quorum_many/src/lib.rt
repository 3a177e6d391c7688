// The outcome of a call with many questions as a row of 64-bit numbers, as the C boundary returns it.
#![tactic(auto)]

ghost use Rattle.std.specs.Prelude.{◌≡◌};
ghost use Rattle.model.specs.Many.{refused_in};
ghost use Rattle.query_many.specs.Outcomes.{many_outcome_is};
ghost use Rattle.quorum_many.specs.Rows.{many_row};

use query::Accepted;
use query_many::RefusedMany;

// A refusal as a row, by its number, whatever that is.
#[tactic(auto, unfolding(crate::specs::Rows::many_row))]
pub fn put_refused(
    number: u64,
    place: usize,
    question: usize,
    answers: usize,
    parts: usize,
    bytes: usize,
    doublings: u32,
    halvings: u32,
    res: &mut [u64; 8],
)
    ensures { res.new ≡ many_row (refused_in question number place answers parts bytes doublings halvings) }
{
    *res = [
        number,
        place as u64,
        question as u64,
        answers as u64,
        parts as u64,
        bytes as u64,
        u64::from(doublings),
        u64::from(halvings),
    ];
}

// An outcome as a row.
#[tactic(auto, unfolding(crate::specs::Rows::many_row))]
pub fn put_many(outcome: Result<Accepted, RefusedMany>, res: &mut [u64; 8])
    ensures { res.new ≡ many_row (many_outcome_is outcome) }
{
    match outcome {
        Ok(accepted) => {
            *res = [
                0,
                0,
                0,
                accepted.answers as u64,
                accepted.parts as u64,
                accepted.bytes as u64,
                u64::from(accepted.doublings),
                u64::from(accepted.halvings),
            ];
        }
        Err(refused) => put_refused(
            u64::from(refused.refusal.reason),
            refused.refusal.place,
            refused.question,
            refused.answers,
            refused.parts,
            refused.bytes,
            refused.doublings,
            refused.halvings,
            res,
        ),
    }
}

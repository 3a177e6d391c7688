// What a call came to that fills a lent row of numbers, as a row of 64-bit numbers, as the C boundary returns it.
#![tactic(auto)]

ghost use Rattle.std.specs.Prelude.{◌≡◌};
ghost use Rattle.model.specs.Refusals.{refusal};
ghost use Rattle.row_fill.specs.Filling.{check_is, count_is};
ghost use Rattle.quorum_filled.specs.Rows.{filled_row};

use row_fill::Unfilled;

// A refusal as a row, by its number, whatever that is.
#[tactic(auto, unfolding(crate::specs::Rows::filled_row))]
pub fn put_refused(number: u64, place: usize, count: usize, res: &mut [u64; 3])
    ensures { res.new ≡ filled_row (refusal number place) count }
{
    *res = [number, place as u64, count as u64];
}

// An outcome as a row.
#[tactic(auto, unfolding(crate::specs::Rows::filled_row))]
pub fn put_filled(outcome: Result<usize, Unfilled>, res: &mut [u64; 3])
    ensures { res.new ≡ filled_row (check_is outcome) (count_is outcome) }
{
    match outcome {
        Ok(count) => *res = [0, 0, count as u64],
        Err(Unfilled { refusal, count }) => {
            put_refused(u64::from(refusal.reason), refusal.place, count, res)
        }
    }
}

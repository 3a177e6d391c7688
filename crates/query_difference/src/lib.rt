// The bins of a run that lie in the gaps of a certificate (docs/SPECIFICATION.md, 'What one run found alone'): one pass over the run and the certificate's
// fields together.
#![tactic(auto)]

ghost use Rattle.std.specs.Prelude.{◌≤◌, length, take, drop};
ghost use Rattle.field_read.specs.Held.{parts_held};
ghost use Rattle.row_fill.specs.Keeps.{Keeps};
ghost use Rattle.query_difference.specs.Gaps.{in_gaps, Copies};

use field_read::Part;
use refusal::Reason;

// The place in the run and the count of what is written after a copy.
#[derive(Clone, Copy)]
struct Copied {
    place: usize,
    count: usize,
}

// Copies the run's bins from `place` on that are not above `last` to the answers from `count` on.
fn copy_to(
    run: &[u32],
    place: usize,
    last: u32,
    answers: &mut [u32],
    count: usize,
) -> Result<Copied, Reason>
    requires { count ≤ length answers.old }
    ensures { Copies run.now (drop place run.now) last (take count answers.old) answers.old answers.new result }
{
    let mut n = count;
    for at in place..run.len() {
        let x = run[at];
        if last < x {
            return Ok(Copied {
                place: at,
                count: n,
            });
        }
        if n == answers.len() {
            return Err(Reason::AnswersFull);
        }
        answers[n] = x;
        n += 1;
    }
    Ok(Copied {
        place: run.len(),
        count: n,
    })
}

// Writes the bins in the gaps to the answers, in the order of the run. What follows of the certificate after the run's last bin is not read.
pub fn in_gaps(run: &[u32], certificate: &[u8], answers: &mut [u32]) -> Result<usize, Reason>
    ensures { Keeps (in_gaps (parts_held certificate.now) run.now) answers.old answers.new result }
{
    let mut place = 0;
    let mut count = 0;
    let mut at = 0;
    while place < run.len() {
        let Ok(field) = field_read::read_field(certificate, at) else {
            return Ok(count);
        };
        match field.part {
            Part::Gap { last, .. } => {
                let copied = copy_to(run, place, last, answers, count)?;
                place = copied.place;
                count = copied.count;
            }
            Part::Answer { value, .. } => {
                place = insertion_rank::place_after(run, place, value);
            }
        }
        at = field.next;
    }
    Ok(count)
}

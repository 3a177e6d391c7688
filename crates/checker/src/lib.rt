// The checker: whether a certificate's parts cover all bins in order and are true of the runs, of all, of those that a mask chooses or of all with weights
// (docs/SPECIFICATION.md, 'The refusals' and 'Weights'). A row of weights that is empty stands for runs that weigh 1 each.
#![tactic(auto)]

ghost use Rattle.std.specs.Prelude.{◌≡◌, suc, length};
ghost use Rattle.model.specs.Certificate.{last_of};
ghost use Rattle.model.specs.Refusals.{check_from, check, check_chosen, check_weighted};
ghost use Rattle.model.specs.Runs.{first_bin};
ghost use Rattle.field_read.specs.Reading.{part_of};
ghost use Rattle.check_cursor.specs.Cursors.{Cursors};
ghost use Rattle.check_part.specs.Tested.{chosen_runs, Choice};
ghost use Rattle.checker.specs.Checkable.{Checkable};
ghost use Rattle.checker.specs.Counts.{answer_count};
ghost use Rattle.checker.specs.Verdicts.{verdict_is, Accepted, AcceptedChosen, AcceptedWeighted};

use field_read::{Field, Part};
use refusal::{Reason, Refusal};

// How many answers and how many parts a valid certificate has.
#[derive(Clone, Copy, Debug, PartialEq, Eq)]
pub struct Counted {
    pub answers: usize,
    pub parts: usize,
}

// The bin after a part's last.
fn past(part: Part) -> u64
    ensures { result ≡ suc (last_of (part_of part)) }
{
    match part {
        Part::Answer { value, .. } => u64::from(value) + 1,
        Part::Gap { last, .. } => u64::from(last) + 1,
    }
}

// How many answers a part is.
fn answers_in(part: Part) -> usize
    ensures { result ≡ answer_count (part_of part) }
{
    match part {
        Part::Answer { .. } => 1,
        Part::Gap { .. } => 0,
    }
}

// Checks the parts one after another by the runs that the mask chooses, which weigh `total`; each field is settled before the next is read.
fn check_parts(
    numbers: &[u32],
    ends: &[u32],
    weights: &[u32],
    mask: u64,
    threshold: usize,
    total: usize,
    cursors: &mut [u64],
    certificate: &[u8],
) -> Result<Counted, Refusal>
    requires { Cursors numbers.now ends.now cursors.old first_bin × Choice ends.now weights.now mask threshold total }
    ensures { verdict_is result ≡ check_from (length certificate.now) (chosen_runs numbers.now ends.now weights.now mask) threshold first_bin 0 certificate.now }
{
    let mut bin = u64::from(limits::FIRST_BIN);
    let mut at = 0;
    let mut answers = 0;
    let mut parts = 0;
    while at < certificate.len() {
        let Ok(Field { part, next }) = field_read::read_field(certificate, at) else {
            return Err(Refusal {
                reason: Reason::Field,
                place: at,
            });
        };
        // (by `map_err` and `?` a check took up to 2.6 % more instructions)
        if let Err(reason) = check_part::check_part(
            numbers, ends, weights, mask, threshold, total, cursors, bin, part,
        ) {
            return Err(Refusal { reason, place: at });
        }
        bin = past(part);
        answers += answers_in(part);
        parts += 1;
        at = next;
    }
    if bin != limits::PAST_BIN {
        return Err(Refusal {
            reason: Reason::Order,
            place: at,
        });
    }
    Ok(Counted { answers, parts })
}

// The check of lists, weights, a mask and a threshold that pass the first checks. What the chosen runs weigh is found once.
fn check_passed(
    numbers: &[u32],
    ends: &[u32],
    weights: &[u32],
    mask: u64,
    threshold: u32,
    certificate: &[u8],
) -> Result<Counted, Refusal>
    requires { Checkable numbers.now ends.now weights.now mask threshold }
    ensures { verdict_is result ≡ check_from (length certificate.now) (chosen_runs numbers.now ends.now weights.now mask) threshold first_bin 0 certificate.now }
{
    let mut room = [0; limits::MOST_RUNS];
    let cursors = &mut room[..ends.len()];
    check_cursor::begin(numbers, ends, cursors);
    let total = weights::weight_of(mask, weights);
    check_parts(
        numbers,
        ends,
        weights,
        mask,
        threshold as usize,
        total,
        cursors,
        certificate,
    )
}

// Whether a certificate, whoever wrote it, is true of the lists and the threshold: it covers the bins from 1 on in order, and each part is true of the runs that
// it names. After the first checks, and once it is found where each run's bins begin, at most numbers + parts × runs steps: one for each run of each part,
// and one for each number passed, to which no part goes back.
pub fn check(
    numbers: &[u32],
    ends: &[u32],
    threshold: u32,
    certificate: &[u8],
) -> Result<Counted, Refusal>
    ensures verdict { verdict_is result ≡ check numbers.now ends.now threshold certificate.now }
    ensures accepted { Accepted numbers.now ends.now threshold certificate.now (verdict_is result) }
{
    first_checks::first_checks(numbers, ends, threshold)?;
    let all = mask::all_runs(ends.len());
    check_passed(numbers, ends, &[], all, threshold, certificate)
}

// The same by the runs alone that the mask chooses: run i is chosen by bit i, and no part may name another.
pub fn check_chosen(
    numbers: &[u32],
    ends: &[u32],
    mask: u64,
    threshold: u32,
    certificate: &[u8],
) -> Result<Counted, Refusal>
    ensures verdict { verdict_is result ≡ check_chosen numbers.now ends.now mask threshold certificate.now }
    ensures accepted { AcceptedChosen numbers.now ends.now mask threshold certificate.now (verdict_is result) }
{
    first_checks::chosen_checks(numbers, ends, mask, threshold)?;
    check_passed(numbers, ends, &[], mask, threshold, certificate)
}

// The same by all runs, each with its weight in the row: the runs that an answer names must weigh `wanted`, and those that a gap leaves out less.
pub fn check_weighted(
    numbers: &[u32],
    ends: &[u32],
    weights: &[u32],
    wanted: u32,
    certificate: &[u8],
) -> Result<Counted, Refusal>
    ensures verdict { verdict_is result ≡ check_weighted numbers.now ends.now weights.now wanted certificate.now }
    ensures accepted { AcceptedWeighted numbers.now ends.now weights.now wanted certificate.now (verdict_is result) }
{
    first_checks::weighted_checks(numbers, ends, weights, wanted)?;
    let all = mask::all_runs(ends.len());
    check_passed(numbers, ends, weights, all, wanted, certificate)
}

// The questions of a call one after another (docs/SPECIFICATION.md, 'Many questions'), each with what those before it left of the allowance and the buffers.
#![tactic(auto)]

ghost use Rattle.std.specs.Prelude.{◌≡◌, ◌∷◌, [], ◌+◌, ◌*◌, ◌^◌, ◌≤◌, ◌<◌, length};
ghost use Rattle.field_write.specs.Stored.{placed};
ghost use Rattle.query_each.specs.Questions.{Fitted, Rows, Asks, Answers, totals_after};
ghost use Rattle.model.specs.Refusals.{passed, chosen_checks};
ghost use Rattle.model.specs.Runs.{runs};
ghost use Rattle.walk_state.specs.Moves.{PlacedAt};

use refusal::Refusal;
use walk_write::State;

// What the questions so far have written, and the tally of the call's probes (walk_tally).
#[derive(Clone, Copy)]
pub struct Totals {
    pub answers: usize,
    pub parts: usize,
    pub bytes: usize,
    pub tally: u64,
}

// The refusal that ended a call, its question's index, and what all its questions have written.
#[derive(Clone, Copy)]
pub struct Cut {
    pub refusal: Refusal,
    pub question: usize,
    pub at: Totals,
}

// Writes into the result row where the answers and the bytes of question `q` end.
fn tell(results: &mut [u64], q: usize, answers: usize, bytes: usize)
    requires { 2 * q + 2 ≤ length results.old }
    ensures { results.new ≡ placed results.old (2 * q) (answers ∷ (bytes ∷ [])) }
{
    let at = 2 * q;
    results[at] = answers as u64;
    results[at + 1] = bytes as u64;
}

// The totals after a question whose walk came to the state `w`.
fn totals_after(totals: Totals, w: State) -> Totals
    requires { totals.parts + w.parts < 2 ^ 64 }
    ensures { result ≡ totals_after totals w }
{
    Totals {
        answers: w.answers,
        parts: totals.parts + w.parts,
        bytes: w.bytes,
        tally: w.tally,
    }
}

// Question `q`, over the runs that its mask chooses. Where it reaches its end, the result row tells so.
fn question(
    numbers: &[u32],
    ends: &[u32],
    firsts: &[u32],
    chosen: u64,
    threshold: u32,
    q: usize,
    answers: &mut [u32],
    certificate: &mut [u8],
    results: &mut [u64],
    totals: Totals,
) -> Result<Totals, Cut>
    requires { Fitted answers.old certificate.old totals × PlacedAt numbers.now ends.now (runs numbers.now ends.now) firsts.now × (chosen_checks numbers.now ends.now chosen threshold ≡ passed) × (2 * q + 2 ≤ length results.old) }
    ensures { Asks numbers.now ends.now chosen threshold q totals answers.old certificate.old results.old answers.new certificate.new results.new result }
{
    match walk_whole::question_walk(
        numbers,
        ends,
        &[],
        chosen,
        threshold as usize,
        answers,
        certificate,
        totals.answers,
        totals.bytes,
        totals.tally,
        firsts,
    ) {
        Ok(w) => {
            tell(results, q, w.answers, w.bytes);
            Ok(totals_after(totals, w))
        }
        Err(stopped) => {
            let at = totals_after(totals, stopped.at);
            Err(Cut {
                refusal: Refusal {
                    reason: stopped.reason,
                    place: stopped.at.parts,
                },
                question: q,
                at,
            })
        }
    }
}

// All questions, until a refusal ends one. `firsts` holds the places of the runs' first bins: they are found once for all questions.
pub fn each_question(
    numbers: &[u32],
    ends: &[u32],
    firsts: &[u32],
    masks: &[u64],
    thresholds: &[u32],
    answers: &mut [u32],
    certificate: &mut [u8],
    results: &mut [u64],
    totals: Totals,
) -> Result<Totals, Cut>
    requires { Fitted answers.old certificate.old totals × PlacedAt numbers.now ends.now (runs numbers.now ends.now) firsts.now × Rows numbers.now ends.now masks.now thresholds.now results.old }
    ensures { Answers numbers.now ends.now masks.now thresholds.now totals answers.old certificate.old results.old answers.new certificate.new results.new result }
{
    let mut w = totals;
    for (q, &chosen) in masks.iter().enumerate() {
        w = question(
            numbers,
            ends,
            firsts,
            chosen,
            thresholds[q],
            q,
            answers,
            certificate,
            results,
            w,
        )?;
    }
    Ok(w)
}

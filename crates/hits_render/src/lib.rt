// The text that the program hits prints for the outcome of a question and its certificate (docs/SPECIFICATION.md, 'The program hits').
#![tactic(auto)]

ghost use Rattle.std.specs.Prelude.{◌≡◌, ◌+◌, ◌*◌, ◌≤◌, Some, length};
ghost use Rattle.hits_limits.specs.Limits.{line_room};
ghost use Rattle.query.specs.Outcomes.{accepted_is, outcome_is};
ghost use Rattle.refusal.specs.Number.{number_of};
ghost use Rattle.text_write.specs.Laying.{Lays};
ghost use Rattle.hits_render.specs.Text.{done_line, refuse_line, rendered, fitting, Shows};

use query::{Accepted, Refused};
use refusal::Refusal;

// The length of a text that ends at the place `end` of a buffer of `room` bytes, if it fits.
#[tactic(auto, unfolding(crate::specs::Text::fitting))]
fn shown(end: usize, room: usize) -> Option<usize>
    ensures { result ≡ fitting end room }
{
    (end <= room).then_some(end)
}

// Lays the line `refuse` from the front on. There is room for each such line.
fn put_refuse(text: &mut [u8], number: u64, place: usize) -> usize
    ensures laid { Lays (refuse_line number place) text.old 0 text.new result }
    ensures room { length (refuse_line number place) ≤ line_room }
{
    text_lines::put_line(text, 0, b"refuse", &[number, place as u64])
}

// Lays the line `done`. There is room for each such line. The counts are arguments of their own: a proof is not told the bounds of a struct's fields.
fn put_done(
    text: &mut [u8],
    at: usize,
    answers: usize,
    parts: usize,
    doublings: u32,
    halvings: u32,
) -> usize
    requires { at ≤ length text.old + 1 }
    ensures laid { Lays (done_line answers parts doublings halvings) text.old at text.new result }
    ensures room { length (done_line answers parts doublings halvings) ≤ line_room }
{
    text_lines::put_line(
        text,
        at,
        b"done",
        &[
            answers as u64,
            parts as u64,
            u64::from(doublings),
            u64::from(halvings),
        ],
    )
}

// Writes the text of a refusal by its number, whatever that is, and returns its length if it fits.
pub fn refuse_number(number: u64, place: usize, text: &mut [u8]) -> Option<usize>
    ensures shows { Shows (refuse_line number place) text.old text.new result }
    ensures enough { line_room ≤ length text.old → result ≡ Some (length (refuse_line number place)) }
{
    let end = put_refuse(text, number, place);
    shown(end, text.len())
}

// Writes the text of a refused input or question, and returns its length if it fits.
pub fn refuse(refusal: Refusal, text: &mut [u8]) -> Option<usize>
    ensures shows { Shows (refuse_line (number_of refusal.reason) refusal.place) text.old text.new result }
    ensures enough { line_room ≤ length text.old → result ≡ Some (length (refuse_line (number_of refusal.reason) refusal.place)) }
{
    refuse_number(u64::from(refusal.reason), refusal.place, text)
}

// Writes the text of an accepted question, whose certificate is the first bytes of a buffer, as many as it says.
fn accept(accepted: Accepted, certificate: &[u8], text: &mut [u8]) -> Option<usize>
    ensures shows { Shows (rendered (accepted_is accepted) certificate.now) text.old text.new result }
    ensures enough { 4 * length certificate.now + line_room ≤ length text.old → result ≡ Some (length (rendered (accepted_is accepted) certificate.now)) }
{
    let bytes = accepted.bytes.min(certificate.len());
    let next = hits_parts::put_parts(text, &certificate[..bytes]);
    let end = put_done(
        text,
        next,
        accepted.answers,
        accepted.parts,
        accepted.doublings,
        accepted.halvings,
    );
    shown(end, text.len())
}

// Writes the text that the program hits prints for an outcome and the certificate buffer of the question, and returns its length if it fits.
#[tactic(auto, unfolding(crate::specs::Text::rendered))]
pub fn render(
    outcome: Result<Accepted, Refused>,
    certificate: &[u8],
    text: &mut [u8],
) -> Option<usize>
    ensures shows { Shows (rendered (outcome_is outcome) certificate.now) text.old text.new result }
    ensures enough { 4 * length certificate.now + line_room ≤ length text.old → result ≡ Some (length (rendered (outcome_is outcome) certificate.now)) }
{
    match outcome {
        Ok(accepted) => accept(accepted, certificate, text),
        Err(refused) => refuse(refused.refusal, text),
    }
}

// The text that the program hits prints for a question (docs/SPECIFICATION.md, 'The program hits').
#![tactic(auto)]

ghost use Rattle.std.specs.Prelude.{◌≡◌, ◌+◌, ◌*◌, ◌≤◌, Some, length};
ghost use Rattle.hits_limits.specs.Limits.{line_room, most_text};
ghost use Rattle.hits_render.specs.Text.{Shows};
ghost use Rattle.hits_ask.specs.Ask.{shown, text_for};
ghost use Rattle.model.specs.Refusals.{query};

// Writes the text for a question, which uses these buffers, and returns its length if it fits.
fn ask_in(
    numbers: &[u32],
    ends: &[u32],
    threshold: u32,
    allowance: u32,
    answers: &mut [u32],
    certificate: &mut [u8],
    text: &mut [u8],
) -> Option<usize>
    ensures shows { Shows (shown (query numbers.now ends.now threshold allowance answers.old certificate.old)) text.old text.new result }
    ensures enough { 4 * length certificate.old + line_room ≤ length text.old → result ≡ Some (length (shown (query numbers.now ends.now threshold allowance answers.old certificate.old))) }
{
    let outcome = query::query(numbers, ends, threshold, allowance, answers, certificate);
    hits_render::render(outcome, certificate, text)
}

// The same in the room that the program has for answers and certificate bytes.
pub fn ask(
    numbers: &[u32],
    ends: &[u32],
    threshold: u32,
    allowance: u32,
    text: &mut [u8],
) -> Option<usize>
    ensures shows { Shows (text_for numbers.now ends.now threshold allowance) text.old text.new result }
    ensures enough { most_text ≤ length text.old → result ≡ Some (length (text_for numbers.now ends.now threshold allowance)) }
{
    let mut answers = [0u32; limits::HITS_ANSWERS];
    let mut certificate = [0u8; limits::HITS_CERTIFICATE];
    ask_in(
        numbers,
        ends,
        threshold,
        allowance,
        &mut answers,
        &mut certificate,
        text,
    )
}

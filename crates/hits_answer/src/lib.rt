// The text that the program hits prints for an input, in rows that are lent for its question (docs/SPECIFICATION.md, 'The program hits').
#![tactic(auto)]

ghost use Rattle.std.specs.Prelude.{◌≡◌, ◌≤◌, Some, length};
ghost use Rattle.hits_render.specs.Text.{Shows};
ghost use Rattle.hits_limits.specs.Limits.{input_runs, input_numbers, most_text};
ghost use Rattle.hits_answer.specs.Hits.{hits};

use hits_lines::Faulty;
use refusal::{Reason, Refusal};

// Writes the text for an input, whose question is stored in these rows, and returns its length if it fits; `failed` says that a read failed after the input.
pub fn text_in(
    input: &[u8],
    failed: bool,
    numbers: &mut [u32],
    ends: &mut [u32],
    text: &mut [u8],
) -> Option<usize>
    requires { (length numbers.old ≡ input_numbers) × (length ends.old ≡ input_runs) }
    ensures shows { Shows (hits failed input.now) text.old text.new result }
    ensures enough { most_text ≤ length text.old → result ≡ Some (length (hits failed input.now)) }
{
    match hits_parse::parse(input, failed, numbers, ends) {
        Ok(question) => hits_ask::ask(
            &numbers[..question.count],
            &ends[..question.runs],
            question.threshold,
            question.allowance,
            text,
        ),
        Err(Faulty(line)) => hits_render::refuse(
            Refusal {
                reason: Reason::Input,
                place: line,
            },
            text,
        ),
    }
}

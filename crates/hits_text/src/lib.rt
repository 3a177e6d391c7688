// The text that the program hits prints for an input, whatever it is (docs/SPECIFICATION.md, 'The program hits').
#![tactic(auto)]

ghost use Rattle.std.specs.Prelude.{◌≡◌, ◌≤◌, Some, length, take};
ghost use Rattle.hits_render.specs.Text.{Shows};
ghost use Rattle.hits_limits.specs.Limits.{most_text};
ghost use Rattle.hits_answer.specs.Hits.{hits};

// Writes the text for an input, and returns its length if it fits; `failed` says that a read failed after the input.
#[tactic(auto, unfolding(hits_limits::specs::Limits::input_numbers, hits_limits::specs::Limits::input_runs))]
pub fn text_for(input: &[u8], failed: bool, text: &mut [u8]) -> Option<usize>
    ensures shows { Shows (hits failed input.now) text.old text.new result }
    ensures enough { most_text ≤ length text.old → result ≡ Some (length (hits failed input.now)) }
{
    let mut numbers = [0u32; limits::HITS_NUMBERS];
    let mut ends = [0u32; limits::HITS_RUNS];
    hits_answer::text_in(input, failed, &mut numbers, &mut ends, text)
}

// Writes the text for an input, and returns how long it is: the first bytes of the buffer, as many as are returned, are the text.
pub fn write_text(input: &[u8], failed: bool, text: &mut [u8]) -> usize
    requires { most_text ≤ length text.old }
    ensures { (result ≤ length text.new) × (take result text.new ≡ hits failed input.now) }
{
    text_for(input, failed, text).unwrap_or(0)
}

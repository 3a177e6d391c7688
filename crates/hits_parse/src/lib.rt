// The input text of the program hits (docs/SPECIFICATION.md, 'The program hits'): a question, or the first line at fault. A pass over the input looks for
// a fault; only where there is none does a second pass store the runs.
#![tactic(auto)]

ghost use Rattle.std.specs.Prelude.{◌≤◌, length};
ghost use Rattle.hits_limits.specs.Limits.{most_bytes};
ghost use Rattle.hits_input.specs.Input.{parse_lines, parse};
ghost use Rattle.text_read.specs.Pieces.{split};
ghost use Rattle.hits_parse.specs.Parsed.{outcome_is, Returns};

use hits_lines::Faulty;

// A question with how many runs and numbers it has.
#[derive(Clone, Copy)]
pub struct Question {
    pub threshold: u32,
    pub allowance: u32,
    pub runs: usize,
    pub count: usize,
}

// The bytes of an input up to the limit, `more` saying that one follows that is past the limit or could not be read.
fn parse_bytes(
    bytes: &[u8],
    more: bool,
    numbers: &mut [u32],
    ends: &mut [u32],
) -> Result<Question, Faulty>
    requires { length bytes.now ≤ most_bytes }
    ensures { Returns (parse_lines more (split 10 bytes.now) numbers.old ends.old) (outcome_is result) numbers.new ends.new }
{
    let end = text_read::first_of(bytes, b'\n');
    if end == bytes.len() {
        return Err(Faulty(1));
    }
    let heading = hits_heading::read_first(&bytes[..end]).ok_or(Faulty(1))?;
    let start = end + 1;
    let counts = hits_lines::scan_lines(bytes, start, ends.len(), numbers.len())?;
    if more {
        return Err(Faulty(counts.runs + 2));
    }
    hits_lines::write_lines(bytes, start, numbers, ends);
    Ok(Question {
        threshold: heading.threshold,
        allowance: heading.allowance,
        runs: counts.runs,
        count: counts.numbers,
    })
}

// The input as a question, whose numbers and ends are then stored at the front of the two rows; their lengths are the limits.
// `failed` says that a read failed after these bytes, which is a fault in the line of the byte that could not be read. A faulty input leaves both
// rows unchanged. Linear in the input.
pub fn parse(
    input: &[u8],
    failed: bool,
    numbers: &mut [u32],
    ends: &mut [u32],
) -> Result<Question, Faulty>
    ensures { Returns (parse failed input.now numbers.old ends.old) (outcome_is result) numbers.new ends.new }
{
    if input.len() > limits::HITS_BYTES {
        return parse_bytes(&input[..limits::HITS_BYTES], true, numbers, ends);
    }
    parse_bytes(input, failed, numbers, ends)
}

// A line of an LCOV tracefile: whether it opens or closes a section, and in a section the line number that a `DA:` record covers.
#![tactic(auto)]

ghost use Rattle.std.specs.Prelude.{◌≡◌, ◌<◌, take};
ghost use Rattle.std.proofs.Math.Option.{some};
ghost use Rattle.lcov_form.specs.Form.{opens, closes, counted, record_of, values};
ghost use Rattle.text_read.specs.Numbers.{value};
ghost use Rattle.text_read.specs.Pieces.{split, until};
ghost use Rattle.lcov_line.specs.Records.{record_is};

// A `DA:` record that is not of the form.
#[derive(Clone, Copy)]
pub struct Malformed;

// What follows the comma after a line number, which is above 0: a count, which may have any number of digits.
fn read_count(text: &[u8], number: u32) -> Result<Option<u32>, Malformed>
    requires { 0 < number }
    ensures { record_is result ≡ counted (some number) (value (take (until 44 text.now) text.now)) }
{
    let count = text_read::leading_digits(text);
    let end = count.count;
    if end == 0 {
        return Err(Malformed);
    }
    if end < text.len() && text[end] != b',' {
        return Err(Malformed);
    }
    Ok((count.value != 0).then_some(number))
}

// What follows `DA:`: a line number, a comma and a count. A value of 0 is that of no digits, or of line 0.
fn read_values(text: &[u8]) -> Result<Option<u32>, Malformed>
    ensures { record_is result ≡ values (split 44 text.now) }
{
    let line = text_read::leading_digits(text);
    let Some(count) = text[line.count..].strip_prefix(b",") else {
        return Err(Malformed);
    };
    if line.value == 0 || line.value >= limits::PAST_BIN {
        return Err(Malformed);
    }
    read_count(count, line.value as u32)
}

// The line number that a line of a section covers, if it covers one.
pub fn read_record(line: &[u8]) -> Result<Option<u32>, Malformed>
    ensures { record_is result ≡ record_of line.now }
{
    match line.strip_prefix(b"DA:") {
        Some(text) => read_values(text),
        None => Ok(None),
    }
}

// Whether a line opens a section where none is open.
pub fn opens(line: &[u8]) -> bool
    ensures { result ≡ opens line.now }
{
    line.starts_with(b"SF:")
}

// Whether a line closes the section that is open.
pub fn closes(line: &[u8]) -> bool
    ensures { result ≡ closes line.now }
{
    line == b"end_of_record".as_slice()
}

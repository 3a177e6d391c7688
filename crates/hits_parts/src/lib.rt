// The lines that the program hits prints for the parts of a certificate (docs/SPECIFICATION.md, 'The program hits').
#![tactic(auto)]

ghost use Rattle.std.specs.Prelude.{◌+◌, ◌≤◌, length};
ghost use Rattle.field_read.specs.Held.{parts_held};
ghost use Rattle.field_read.specs.Reading.{part_of};
ghost use Rattle.text_write.specs.Laying.{Lays};
ghost use Rattle.hits_parts.specs.Parts.{part_line, part_lines};

use field_read::Part;

// Lays the line of a part.
#[tactic(auto, unfolding(crate::specs::Parts::part_line, field_read::specs::Reading::part_of))]
fn put_part(text: &mut [u8], at: usize, part: Part) -> usize
    requires { at ≤ length text.old + 1 }
    ensures { Lays (part_line (part_of part)) text.old at text.new result }
{
    match part {
        Part::Answer { value, mask } => {
            text_lines::put_line(text, at, b"hit", &[u64::from(value), mask])
        }
        Part::Gap { first, last, mask } => text_lines::put_line(
            text,
            at,
            b"gap",
            &[u64::from(first), u64::from(last), mask],
        ),
    }
}

// Lays a line for each part, from the front of the text on.
pub fn put_parts(text: &mut [u8], certificate: &[u8]) -> usize
    ensures { Lays (part_lines (parts_held certificate.now)) text.old 0 text.new result }
{
    let mut place = 0;
    let mut at = 0;
    while let Ok(field) = field_read::read_field(certificate, at) {
        place = put_part(text, place, field.part);
        at = field.next;
    }
    place
}

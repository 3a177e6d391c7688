// A section of an LCOV tracefile, found by its index.
#![tactic(auto)]

ghost use Rattle.std.specs.Prelude.{◌≡◌};
ghost use Rattle.lcov_form.specs.Reading.{section_of};
ghost use Rattle.lcov_find.specs.Places.{section_at};

// Where the lines of the section with an index begin: after the line that opens it, or past the end of a file that has no such section. One pass.
pub fn find_section(file: &[u8], index: usize) -> usize
    ensures { section_at file.now result ≡ section_of file.now index }
{
    let mut at = 0;
    let mut left = index;
    let mut inside = false;
    while at <= file.len() {
        let end = at + text_read::first_of(&file[at..], b'\n');
        let line = &file[at..end];
        at = end + 1;
        if inside {
            inside = !lcov_line::closes(line);
        } else if lcov_line::opens(line) {
            if left == 0 {
                return at;
            }
            left -= 1;
            inside = true;
        }
    }
    at
}

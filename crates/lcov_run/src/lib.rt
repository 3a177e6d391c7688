// The run of one section of an LCOV tracefile, read line by line into a lent row (docs/SPECIFICATION.md, 'LCOV tracefiles').
#![tactic(auto)]

ghost use Rattle.std.specs.Prelude.{◌≡◌, length};
ghost use Rattle.lcov_find.specs.Places.{section_at};
ghost use Rattle.lcov_form.specs.Reading.{read_from, result_of, lcov_run};
ghost use Rattle.row_fill.specs.Filling.{Returns};

use refusal::{Reason, Refusal};
use row_fill::Unfilled;

// A refusal, after so many numbers were written.
fn unfilled(reason: Reason, place: usize, count: usize) -> Unfilled
    ensures { result ≡ record { refusal = record { reason = reason; place = place }; count = count } }
{
    Unfilled {
        refusal: Refusal { reason, place },
        count,
    }
}

// The section whose lines begin at a place.
fn read_section(file: &[u8], start: usize, run: &mut [u32]) -> Result<usize, Unfilled>
    ensures { Returns (result_of (read_from (length file.now) (length run.old) 0 0 (section_at file.now start)) run.old) result run.new }
{
    let mut at = start;
    let mut count = 0;
    let mut last = 0;
    while at <= file.len() {
        let end = at + text_read::first_of(&file[at..], b'\n');
        let line = &file[at..end];
        if lcov_line::closes(line) {
            return Ok(count);
        }
        let Ok(covered) = lcov_line::read_record(line) else {
            return Err(unfilled(Reason::Record, at, count));
        };
        if let Some(x) = covered {
            if x <= last {
                return Err(unfilled(Reason::NotRising, count, count));
            }
            if run.len() <= count {
                return Err(unfilled(Reason::AnswersFull, count, count));
            }
            run[count] = x;
            count += 1;
            last = x;
        }
        at = end + 1;
    }
    Err(unfilled(Reason::Section, file.len(), count))
}

// The section with an index from 0 becomes one run at the front of the row. Linear in the file, one pass over it: nothing after the section is read.
pub fn lcov_run(file: &[u8], index: usize, run: &mut [u32]) -> Result<usize, Unfilled>
    ensures { Returns (lcov_run file.now index run.old) result run.new }
{
    let start = lcov_find::find_section(file, index);
    read_section(file, start, run)
}

// A further line of the input of the program hits: how many numbers its run has, and the numbers stored in a lent row.
#![tactic(auto)]

ghost use Rattle.std.specs.Prelude.{◌≡◌, ◌+◌, ◌≤◌, length};
ghost use Rattle.std.proofs.lemmas.List.Edits.{sets};
ghost use Rattle.hits_input.specs.Input.{run_of};
ghost use Rattle.text_read.specs.Pieces.{split};
ghost use Rattle.hits_run.specs.Line.{count_is, count_of, leading};

// How many numbers a run's line has, or nothing if one of its words is none.
pub fn count_run(line: &[u8]) -> Option<usize>
    ensures { count_is result ≡ count_of (run_of line.now) }
{
    if line.is_empty() {
        return Some(0);
    }
    let mut n = 0;
    for word in line.split(|b| *b == b' ') {
        text_read::read_word(word)?;
        n += 1;
    }
    Some(n)
}

// Stores the numbers of a run's line from a place on, and returns the place after them.
pub fn write_run(line: &[u8], numbers: &mut [u32], from: usize) -> usize
    requires { from + length (leading (split 32 line.now)) ≤ length numbers.old }
    ensures { (result ≡ from + length (leading (split 32 line.now))) × (numbers.new ≡ sets numbers.old from (leading (split 32 line.now))) }
{
    let mut n = from;
    for word in line.split(|b| *b == b' ') {
        let Some(x) = text_read::read_word(word) else {
            return n;
        };
        numbers[n] = x;
        n += 1;
    }
    n
}

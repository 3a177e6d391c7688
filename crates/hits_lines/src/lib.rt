// The lines after line 1 of the input of the program hits: a pass that looks for a fault and counts, and a pass that stores the runs.
#![tactic(auto)]

ghost use Rattle.std.specs.Prelude.{◌≡◌, ◌≤◌, length};
ghost use Rattle.hits_limits.specs.Limits.{most_bytes};
ghost use Rattle.hits_lines.specs.Lines.{scanned, Within, lines_at, Readable, Stored};

// How many runs and numbers the further lines have.
#[derive(Clone, Copy)]
pub struct Counts {
    pub runs: usize,
    pub numbers: usize,
}

// The number of the first line at fault.
#[derive(Clone, Copy)]
pub struct Faulty(pub usize);

// The first line at fault among those from a place on, with room for so many runs and numbers.
pub fn scan_lines(bytes: &[u8], start: usize, runs: usize, room: usize) -> Result<Counts, Faulty>
    requires { (start ≤ length bytes.now) × (length bytes.now ≤ most_bytes) }
    ensures { (result ≡ scanned 0 0 (lines_at runs room bytes.now start)) × Within runs room result }
{
    let mut at = start;
    let mut counts = Counts {
        runs: 0,
        numbers: 0,
    };
    while at < bytes.len() {
        let fault = Faulty(counts.runs + 2);
        let end = at + text_read::first_of(&bytes[at..], b'\n');
        if end == bytes.len() {
            return Err(fault);
        }
        let more = hits_run::count_run(&bytes[at..end]).ok_or(fault)?;
        if runs <= counts.runs || room - counts.numbers < more {
            return Err(fault);
        }
        counts.runs += 1;
        counts.numbers += more;
        at = end + 1;
    }
    Ok(counts)
}

// Stores the runs of the lines from a place on.
pub fn write_lines(bytes: &[u8], start: usize, numbers: &mut [u32], ends: &mut [u32])
    requires { Readable bytes.now start numbers.old ends.old }
    ensures { Stored bytes.now start numbers.old ends.old numbers.new ends.new }
{
    let mut at = start;
    let mut i = 0;
    let mut n = 0;
    while at < bytes.len() {
        let end = at + text_read::first_of(&bytes[at..], b'\n');
        n = hits_run::write_run(&bytes[at..end], numbers, n);
        ends[i] = n as u32;
        i += 1;
        at = end + 1;
    }
}

// Standard input, read to its end or to a read that fails (docs/SPECIFICATION.md, 'The program hits'). What a read's answer means and how reading goes on
// after it is proved, that reading ends if each call returns, and that what is counted lies within the buffer. No contract can say which bytes standard input gives.
#![tactic(auto)]

ghost use Rattle.std.specs.Prelude.{◌≡◌, ◌-◌, ◌^◌, ◌≤◌, length};
ghost use Rattle.hits_read.specs.Reading.{reading_of, step_after, Within};

use std::io;
use std::io::Read;
use std::ops::ControlFlow::{self, Break, Continue};

// The errno of a read that was interrupted, C's EINTR.
const INTERRUPTED: i32 = 4;

// So many times an interrupted read is tried again; the next interruption counts as a failure. Reading is proved to end and nothing says that
// interruptions do, so there is a bound, too large ever to be reached.
const MOST_TRIES: u64 = u64::MAX;

// How many bytes were read, and whether a read failed after them.
#[derive(Clone, Copy)]
pub struct Received {
    pub size: usize,
    pub failed: bool,
}

// After a read, which came after so many bytes and with so many tries left: reading goes on with so many, or is over.
fn step_after(
    size: usize,
    tries: u64,
    got: io::Result<usize>,
) -> ControlFlow<Received, (usize, u64)>
    requires { Within (2 ^ 64 - 1 - size) (reading_of got) }
    ensures { result ≡ step_after size tries (reading_of got) }
{
    match got {
        Ok(0) => Break(Received {
            size,
            failed: false,
        }),
        Ok(n) => Continue((size + n, tries)),
        Err(error) => {
            if error.raw_os_error() == Some(INTERRUPTED) && tries > 0 {
                return Continue((size, tries - 1));
            }
            Break(Received { size, failed: true })
        }
    }
}

// Reads until the buffer is full, the input ends or a read fails, and puts what is read at the front of the buffer.
pub fn read_input<R: Read>(input: &mut R, buf: &mut [u8]) -> Received
    ensures { result.size ≤ length buf.new }
{
    let mut size = 0;
    let mut tries = MOST_TRIES;
    while size < buf.len() {
        match step_after(size, tries, input.read(&mut buf[size..])) {
            Continue(next) => (size, tries) = next,
            Break(received) => return received,
        }
    }
    Received {
        size,
        failed: false,
    }
}

// Whether a run that a part names contradicts it: the runs are scanned from their cursors on.
#![tactic(auto)]

ghost use Rattle.std.specs.Prelude.{◌≡◌, suc, ◌^◌, ◌≤◌, ◌<◌, length};
ghost use Rattle.model.specs.Refusals.{any_contradicts};
ghost use Rattle.model.specs.Runs.{runs, most_runs};
ghost use Rattle.check_cursor.specs.Cursors.{Cursors};
ghost use Rattle.check_scan.specs.Scan.{reached_of, to_scan, clash, part_is, MorePassed};

// What a part says of the runs that its mask names: all have `first`, where it is held, or else none has a number from `first` to `last`.
#[derive(Clone, Copy, Debug, PartialEq, Eq)]
pub struct Claim {
    pub first: u32,
    pub last: u32,
    pub mask: u64,
    pub held: bool,
}

impl Claim {
    // The runs to take up: those that the mask names, and for a gap only those of them that may have an uncovered number up to its last bin.
    fn to_scan(self, cursors: &[u64]) -> u64
        requires { length cursors.now ≤ most_runs }
        ensures { result ≡ to_scan self.held self.last self.mask cursors.now }
    {
        if self.held {
            self.mask
        } else {
            self.mask & reached(cursors, self.last)
        }
    }

    // Whether a run whose first number from `first` on is `x` contradicts an answer `first`, or else a gap from `first` to `last`.
    fn clashes(self, x: u64) -> bool
        ensures { result ≡ clash self.held self.first self.last x }
    {
        if self.held {
            x != u64::from(self.first)
        } else {
            x <= u64::from(self.last)
        }
    }

    // How many numbers more, one or none, a run whose next number is `x` passes at once on its way to `first`. A run that a gap names may be behind by several
    // numbers. How many cannot be foretold, so that no branch depends on this one. A run that an answer names seldom is.
    fn more_passed(self, x: u64) -> usize
        ensures { MorePassed x self.first result }
    {
        if self.held {
            0
        } else {
            usize::from(x < u64::from(self.first))
        }
    }
}

// The runs whose cursor's bin is not above `last`. No other run has an uncovered number up to `last`. No branch depends on a cursor, since which
// runs have moved cannot be foretold.
fn reached(cursors: &[u64], last: u32) -> u64
    requires { length cursors.now ≤ most_runs }
    ensures { result ≡ reached_of last cursors.now }
{
    let limit = (u64::from(last) + 1) * check_cursor::PLACES;
    let mut mask = 0;
    for &cursor in cursors.iter().rev() {
        mask = mask * 2 + u64::from(cursor < limit);
    }
    mask
}

// Whether a run that the mask names contradicts an answer or a gap. A run is scanned from its cursor on to its first number that is not below the part's
// first bin. The cursor stays there, and never goes back. The number at the cursor is in the cursor, so a number is read only after the one before it is
// passed. A run that a gap takes up passes at least one number, or contradicts. (As a call, with the claim in memory, a check took up to 18 % more instructions.)
#[inline(always)]
pub fn contradicted(numbers: &[u32], ends: &[u32], cursors: &mut [u64], claim: Claim) -> bool
    requires { Cursors numbers.now ends.now cursors.old claim.first × (claim.first ≤ claim.last) × (claim.mask < 2 ^ length ends.now) }
    ensures { (result ≡ any_contradicts (part_is claim) (runs numbers.now ends.now)) × Cursors numbers.now ends.now cursors.new (suc claim.last) }
{
    // the runs not known to agree
    let mut rest = claim.to_scan(cursors);
    'runs: while rest != 0 {
        let i = mask::lowest_run(rest) as usize;
        let end = ends[i] as usize;
        let mut j = check_cursor::place_of(cursors[i]);
        let mut x = check_cursor::bin_of(cursors[i]);
        loop {
            if u64::from(claim.first) <= x {
                if claim.clashes(x) {
                    break 'runs;
                }
                cursors[i] = check_cursor::cursor_at(x, j);
                break;
            }
            j += 1;
            x = check_cursor::number_at(numbers, j, end);
            j += claim.more_passed(x);
            x = check_cursor::number_at(numbers, j, end);
        }
        rest = mask::without_lowest(rest);
    }
    rest != 0
}

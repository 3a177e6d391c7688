// The search (docs/SPECIFICATION.md, 'The search') in the numbers of one run from its position on, with a tally of probes (walk_tally), which tells the doubling
// and the halving probes that it makes. At most 2 × digits probes.
#![tactic(auto)]

ghost use Rattle.std.specs.Prelude.{◌≤◌, ◌<◌, length};
ghost use Rattle.model.specs.Walk.{doubling, halving, seek};
ghost use Rattle.walk_tally.specs.Tally.{undoubled};
ghost use Rattle.walk_search.specs.Limited.{Doubles, Halves, Seeks};

// No probe was left for a search: the tally then.
#[derive(Clone, Copy, Debug, PartialEq, Eq)]
pub struct Spent(pub u64);

// Where the doubling ended, with the tally after it.
#[derive(Clone, Copy)]
struct Bracket {
    lo: usize,
    hi: usize,
    tally: u64,
}

// The place found, counted from the position, and the tally after the search.
#[derive(Clone, Copy, Debug, PartialEq, Eq)]
pub struct Found {
    pub place: usize,
    pub tally: u64,
}

// Places 1, 2, 4 and so on, up to the first number that is at least v or the first place not below the length.
fn doubled(s: &[u32], v: u32, before: u64) -> Result<Bracket, Spent>
    ensures { Doubles before (doubling (length s.now) v s.now 0 1) result }
{
    let n = s.len();
    let mut lo = 0;
    let mut place = 1;
    let mut tally = before;
    while place < n {
        if walk_tally::left(tally) == 0 {
            return Err(Spent(tally));
        }
        let x = s[place];
        tally = walk_tally::doubled(tally);
        if v <= x {
            return Ok(Bracket {
                lo,
                hi: place,
                tally,
            });
        }
        lo = place;
        place = 2 * place;
    }
    Ok(Bracket { lo, hi: n, tally })
}

// Halving between a place below v and one that is not.
fn halved(s: &[u32], v: u32, from: usize, to: usize, before: u64) -> Result<Found, Spent>
    requires { (from ≤ to) × (to ≤ length s.now) × (undoubled before < 4294967296) }
    ensures { Halves before (halving (length s.now) v s.now from to) result }
{
    let mut lo = from;
    let mut hi = to;
    let mut tally = before;
    while 1 < hi - lo {
        if walk_tally::left(tally) == 0 {
            return Err(Spent(tally));
        }
        let m = lo + arith::half(hi - lo);
        let x = s[m];
        tally = walk_tally::halved(tally);
        if x < v {
            lo = m;
        } else {
            hi = m;
        }
    }
    Ok(Found { place: hi, tally })
}

// The search for v in a run's numbers from its position on.
pub fn search(s: &[u32], v: u32, before: u64) -> Result<Found, Spent>
    requires { undoubled before < 4294967296 }
    ensures { Seeks before (seek v s.now) result }
{
    let Bracket { lo, hi, tally } = doubled(s, v, before)?;
    halved(s, v, lo, hi, tally)
}

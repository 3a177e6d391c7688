// How a walk's probes are spent, in one 64-bit number: the probes left in its lower half, the halving probes made in its upper half. The doubling probes made are
// what is then missing of the allowance. (As two numbers, carried through every round, they took up to 3.9 % more instructions.)
#![tactic(auto)]

ghost use Rattle.std.specs.Prelude.{◌≡◌, ◌+◌, ◌-◌, ◌≤◌, ◌<◌};
ghost use Rattle.walk_tally.specs.Tally.{left_in, halved_in, undoubled};

// The tally of a whole allowance.
pub fn whole(allowance: u32) -> u64
    ensures { (left_in result ≡ allowance) × (halved_in result ≡ 0) }
{
    u64::from(allowance)
}

// The probes left.
pub fn left(tally: u64) -> u32
    ensures { result ≡ left_in tally }
{
    (tally & 0xffff_ffff) as u32
}

// The halving probes made.
pub fn halvings(tally: u64) -> u32
    ensures { result ≡ halved_in tally }
{
    (tally >> 32) as u32
}

// The doubling probes made of an allowance.
pub fn doublings(allowance: u32, tally: u64) -> u32
    requires { undoubled tally ≤ allowance }
    ensures { result ≡ allowance - undoubled tally }
{
    allowance - (left(tally) + halvings(tally))
}

// The tally after one more doubling probe.
pub fn doubled(tally: u64) -> u64
    requires { 0 < left_in tally }
    ensures { (left_in result + 1 ≡ left_in tally) × (halved_in result ≡ halved_in tally) }
{
    tally - 1
}

// The tally after one more halving probe.
pub fn halved(tally: u64) -> u64
    requires { (0 < left_in tally) × (undoubled tally < 4294967296) }
    ensures { (left_in result + 1 ≡ left_in tally) × (halved_in result ≡ halved_in tally + 1) }
{
    tally + 4294967295
}

// Masks: a 64-bit number in which bit i speaks of run i, bit 0 being the lowest.
#![tactic(auto)]

ghost use Rattle.std.specs.Prelude.{◌≡◌, ◌+◌, ◌-◌, ◌*◌, ◌/◌, ◌^◌, ◌≤◌, ◌<◌, eqb};
ghost use Rattle.std.specs.Int.Bits.{bit_and};
ghost use Rattle.std.specs.Int.Count.{ones};
ghost use Rattle.model.specs.Runs.{bit, mask_bits};
ghost use Rattle.mask.specs.Mask.{Others, Lowest, LowestGone, Highest};

// The mask that names `run` alone.
pub fn only_run(run: u32) -> u64
    requires { run < mask_bits }
    ensures { result ≡ 2 ^ run }
{
    1 << run
}

// Whether the mask names `run`.
pub fn names_run(mask: u64, run: u32) -> bool
    requires { run < mask_bits }
    ensures { result ≡ eqb (bit mask run) 1 }
{
    (mask >> run) & 1 == 1
}

// Whether the mask names no run from `k` on.
pub fn names_only_below(mask: u64, k: u32) -> bool
    requires { k ≤ mask_bits }
    ensures { result ≡ eqb (mask / 2 ^ k) 0 }
{
    k == u64::BITS || mask >> k == 0
}

// Whether the mask names only runs that `chosen` names.
pub fn names_only(mask: u64, chosen: u64) -> bool
    ensures { result ≡ eqb (bit_and mask chosen) mask }
{
    mask & chosen == mask
}

// The mask that names the runs that `all` names and `mask` does not. The mask names only runs that `all` names.
pub fn others(all: u64, mask: u64) -> u64
    requires { bit_and mask all ≡ mask }
    ensures { Others all mask result }
{
    all ^ mask
}

// How many runs the mask names.
pub fn ones_of(mask: u64) -> u32
    ensures { result ≡ ones mask }
{
    mask.count_ones()
}

// The lowest run that the mask names.
pub fn lowest_run(mask: u64) -> u32
    requires { 0 < mask }
    ensures { Lowest mask result }
{
    mask.trailing_zeros()
}

// The mask that names its lowest run no more.
pub fn without_lowest(mask: u64) -> u64
    requires { 0 < mask }
    ensures { LowestGone mask result }
{
    mask & (mask - 1)
}

// The highest run that the mask names.
pub fn highest_run(mask: u64) -> u32
    requires { 0 < mask }
    ensures { Highest mask result }
{
    mask.ilog2()
}

// The mask that names `run` no more, the same where it did not.
pub fn without_run(mask: u64, run: u32) -> u64
    requires { run < mask_bits }
    ensures { result + bit mask run * 2 ^ run ≡ mask }
{
    if names_run(mask, run) {
        mask - only_run(run)
    } else {
        mask
    }
}

// The mask that names all the runs below `k`.
pub fn all_runs(k: usize) -> u64
    requires { k ≤ mask_bits }
    ensures { result ≡ 2 ^ k - 1 }
{
    if k == u64::BITS as usize {
        u64::MAX
    } else {
        (1 << k) - 1
    }
}

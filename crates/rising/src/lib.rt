// Whether a run rises after the zeros at its start: the place of the first number that is not above the one before. One pass, a block of numbers at a time.
#![tactic(auto)]

ghost use Rattle.std.specs.Prelude.{◌≡◌, ◌+◌, ◌≤◌, ◌<◌, length, sum_by, zip};
ghost use Rattle.model.specs.Runs.{first_bin, rank, unrisen, unrisen_run};
ghost use Rattle.rising.specs.Rising.{block, fall, AfterBlocks};
ghost use Rattle.rising.specs.Found.{found_place};

// So many numbers are compared before the next branch.
const BLOCK: usize = 64;

// How many of the numbers are not above the one before, which `before` has at the same place. No branch depends on a number, so several are compared at once.
fn falls(before: &[u32], numbers: &[u32]) -> u32
    requires { length before.now ≤ block }
    ensures { result ≡ sum_by fall (zip before.now numbers.now) }
{
    before
        .iter()
        .zip(numbers)
        .map(|(prior, x)| u32::from(x <= prior))
        .sum()
}

// The place after a list's first number and the blocks that follow it, up to the first block that has not so many falls, or to where no block is left.
fn after_blocks(list: &[u32], each: u32) -> usize
    ensures { AfterBlocks list.now each result }
{
    let mut place = 1;
    while let Some(numbers) = list.get(place..place + BLOCK) {
        if falls(&list[place - 1..place - 1 + BLOCK], numbers) != each {
            break;
        }
        place += BLOCK;
    }
    place
}

// A part of the zeros at a run's start, passed over a block at a time. After a 0 a block in which no number is above the one before is all zeros.
fn zero_part(run: &[u32]) -> usize
    ensures { result ≤ rank first_bin run.now }
{
    match run.first() {
        Some(first) if *first < limits::FIRST_BIN => after_blocks(run, BLOCK as u32),
        _ => 0,
    }
}

// How many zeros stand at a run's start.
#[tactic(auto, using(model::proofs::From::rank_le))]
fn leading_zeros(run: &[u32]) -> usize
    ensures { result ≡ rank first_bin run.now }
{
    let zeros = zero_part(run);
    run[zeros..]
        .iter()
        .position(|x| limits::FIRST_BIN <= *x)
        .map_or(run.len(), |i| zeros + i)
}

// The place of the first number of a list that is not above the one before, the list's first number being at `start`.
fn first_not_above(list: &[u32], start: usize) -> Option<usize>
    requires { start + length list.now < 18446744073709551616 }
    ensures { found_place result ≡ unrisen start list.now }
{
    let place = after_blocks(list, 0);
    (place..list.len())
        .find(|i| list[*i] <= list[*i - 1])
        .map(|i| start + i)
}

// The place of the first number of a run, as it is lent, that is not above the one before, the run's first number being at `start`: the zeros at its start are
// passed over, and the numbers after them compared.
#[tactic(auto, using(model::proofs::From::rank_le, crate::proofs::Rising::unrisen_run_law))]
pub fn first_unrisen(run: &[u32], start: usize) -> Option<usize>
    requires { start + length run.now < 18446744073709551616 }
    ensures { found_place result ≡ unrisen_run start run.now }
{
    let zeros = leading_zeros(run);
    first_not_above(&run[zeros..], start + zeros)
}

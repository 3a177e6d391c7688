// Where the bins of a run begin: zeros at its start, however many, are passed over.
#![tactic(auto)]

ghost use Rattle.std.specs.Prelude.{◌≡◌, ◌≤◌, length};
ghost use Rattle.model.specs.Runs.{first_bin, rank};
ghost use Rattle.first_bin.specs.Lent.{LentAt, first_bin_at};

// A front of a run that holds the zeros at its start: doubled until a bin stands after it, or the run ends.
#[tactic(auto, using(model::proofs::From::rank_le, model::proofs::Zeros::bin_after))]
fn zeros_front(run: &[u32]) -> usize
    ensures { (rank first_bin run.now ≤ result) × (result ≤ length run.now) }
{
    let mut front = 0;
    while let Some(x) = run.get(front) {
        if limits::FIRST_BIN <= *x {
            return front;
        }
        front += front + 1;
    }
    run.len()
}

// The place of the first bin of a run that lies from `start` on and before `end`, or its end. The zeros before it are passed over by doubling and then halving,
// which are no probes.
#[tactic(auto, using(crate::proofs::Places::front_ordered, crate::proofs::Places::front_first, model::proofs::From::rank_le), unfolding(model::specs::Runs::first_bin))]
pub fn first_place(numbers: &[u32], start: usize, end: usize) -> usize
    requires { LentAt numbers.now start end }
    ensures { result ≡ first_bin_at numbers.now start end }
{
    let front = start + zeros_front(&numbers[start..end]);
    start + insertion_rank::first_at_least(&numbers[start..front], u64::from(limits::FIRST_BIN))
}

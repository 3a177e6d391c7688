// What a call returns that writes numbers into a lent row one after another: `Ok` with their count, and otherwise the refusal that ended it.
#![tactic(auto)]

use refusal::Refusal;

// The refusal that ended a call, and how many numbers it wrote before.
#[derive(Clone, Copy)]
pub struct Unfilled {
    pub refusal: Refusal,
    pub count: usize,
}

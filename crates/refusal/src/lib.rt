// The refusals (docs/SPECIFICATION.md, 'The refusals'): what each is for, with its number, and the place it speaks of.
#![tactic(auto)]

ghost use Rattle.std.specs.Prelude.{◌≡◌};
ghost use Rattle.refusal.specs.Number.{number_of, NumberOf};

// What a refusal is for, in the order of its number.
#[derive(Clone, Copy, Debug, PartialEq, Eq)]
pub enum Reason {
    RunCount = 1,
    Threshold,
    Ends,
    NotRising,
    AnswersFull,
    CertificateFull,
    ProbesSpent,
    Field,
    Order,
    Names,
    Contradicted,
    Input,
    Mask,
    Rows,
    Record,
    Section,
    Weights,
}

// A refusal, with the place that its number's line tells.
#[derive(Clone, Copy, Debug, PartialEq, Eq)]
pub struct Refusal {
    pub reason: Reason,
    pub place: usize,
}

impl From<Reason> for u64 {
    ghost from_gives = { NumberOf };

    fn from(reason: Reason) -> u64 {
        reason as u64
    }
}

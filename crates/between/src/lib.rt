// Bins of one run between two numbers (docs/SPECIFICATION.md, 'Bins between two numbers'): a part of the caller's own list.
#![tactic(auto)]

ghost use Rattle.std.specs.Prelude.{◌≡◌};
ghost use Rattle.model.specs.Between.{between};
ghost use Rattle.between.specs.Places.{Spans};

use std::ops::Range;

// Where the bins from `first` to `last` stand: one pass over the list, then two searches by halving. Zeros at the start are no bins, so none of them stands
// in the part. The part is empty where `first` is above `last` or the list does not rise after them.
pub fn places(list: &[u32], first: u32, last: u32) -> Range<usize>
    ensures { Spans first last list.now result }
{
    if last < first || rising::first_unrisen(list, 0).is_some() {
        return 0..0;
    }
    let least = first.max(limits::FIRST_BIN);
    let start = insertion_rank::first_at_least(list, u64::from(least));
    let end = insertion_rank::first_at_least(list, u64::from(last) + 1);
    start..end
}

// The bins from `first` to `last`, as a part of the list itself.
pub fn between(list: &[u32], first: u32, last: u32) -> &[u32]
    ensures { result.now ≡ between first last list.now }
{
    &list[places(list, first, last)]
}

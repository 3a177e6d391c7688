// A word of a mask, whose runs are gone through one by one: the lowest run and the highest, and the word without it. A word carries its base, so that what goes over a
// word's runs serves every word of a mask.
#![tactic(auto)]

ghost use Rattle.std.specs.Prelude.{◌≡◌, ◌+◌, ◌*◌, ◌^◌, ◌≤◌, ◌<◌, ltb};
ghost use Rattle.mask_word.specs.Runs.{word_is, Lowest, LowestGone, Highest, HighestGone};

// Bit i of a word speaks of run base + i.
#[derive(Clone, Copy, Debug, PartialEq, Eq)]
pub struct Word {
    pub bits: u64,
    pub base: u8,
}

// The word of these bits.
pub fn word_at(bits: u64, base: u8) -> Word
    ensures { (result.bits ≡ bits) × (result.base ≡ base) }
{
    Word { bits, base }
}

// The word with each of its runs one up, and its lowest named or not, `named` being 1 or 0: a word is made of its runs from the highest down.
pub fn with_lower(word: Word, named: usize) -> Word
    requires { (word.bits < 2 ^ 63) × (named ≤ 1) }
    ensures { (result.bits ≡ word.bits * 2 + named) × (result.base ≡ word.base) }
{
    Word {
        bits: word.bits * 2 + named as u64,
        ..word
    }
}

// Whether the word names a run.
pub fn names_any(word: Word) -> bool
    ensures { result ≡ ltb 0 (word_is word) }
{
    0 < word.bits
}

// The lowest run that the word names.
pub fn lowest_run(word: Word) -> u32
    requires { 0 < word_is word }
    ensures { Lowest (word_is word) result }
{
    u32::from(word.base) + word.bits.trailing_zeros()
}

// The word that names its lowest run no more.
pub fn without_lowest(word: Word) -> Word
    requires { 0 < word_is word }
    ensures { LowestGone (word_is word) (word_is result) }
{
    Word {
        bits: word.bits & (word.bits - 1),
        ..word
    }
}

// The highest run that the word names.
pub fn highest_run(word: Word) -> u32
    requires { 0 < word_is word }
    ensures { Highest (word_is word) result }
{
    u32::from(word.base) + word.bits.ilog2()
}

// The word that names its highest run no more.
pub fn without_highest(word: Word) -> Word
    requires { 0 < word_is word }
    ensures { HighestGone (word_is word) (word_is result) }
{
    Word {
        bits: word.bits - (1 << word.bits.ilog2()),
        ..word
    }
}

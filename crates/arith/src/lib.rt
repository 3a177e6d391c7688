// Half of a number, and its binary digits.
#![tactic(auto)]

ghost use Rattle.std.specs.Prelude.{◌≡◌, ◌/◌};
ghost use Rattle.model.specs.Compared.{digits};

// Half of a number, rounded down. (No loop divides: docs/DECISIONS.md, 'Where the code divides'.)
pub fn half(x: usize) -> usize
    ensures { result ≡ x / 2 }
{
    x >> 1
}

// The binary digits of `n`: the least b for which n is below 2 to the power b.
pub fn digits_of(n: u32) -> u32
    ensures { result ≡ digits n }
{
    u32::BITS - n.leading_zeros()
}

// Text as bytes, written: words and numbers in decimal, laid into a lent buffer one after another.
#![tactic(auto)]

ghost use Rattle.std.specs.Prelude.{◌∷◌, [], ◌+◌, ◌≤◌, length};
ghost use Rattle.text_write.specs.Laying.{Lays};
ghost use Rattle.text_write.specs.Decimal.{decimal};

// Lays one byte. A place past the buffer's length says that an earlier byte did not fit.
pub fn put(text: &mut [u8], at: usize, byte: u8) -> usize
    ensures { Lays (byte ∷ []) text.old at text.new result }
{
    if at < text.len() {
        text[at] = byte;
        return at + 1;
    }
    text.len() + 1
}

// Lays a number in decimal.
pub fn put_number(text: &mut [u8], at: usize, x: u64) -> usize
    ensures { Lays (decimal x) text.old at text.new result }
{
    if x < 10 {
        return put(text, at, b'0' + x as u8);
    }
    let next = put_number(text, at, x / 10);
    put(text, next, b'0' + (x % 10) as u8)
}

// Lays a word.
pub fn put_word(text: &mut [u8], at: usize, word: &[u8]) -> usize
    requires { at ≤ length text.old + 1 }
    ensures { Lays word.now text.old at text.new result }
{
    let mut next = at;
    for byte in word {
        next = put(text, next, *byte);
    }
    next
}

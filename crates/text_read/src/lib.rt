// Text as bytes, read: the pieces between separators, and a piece as a decimal number.
#![tactic(auto)]

ghost use Rattle.std.specs.Prelude.{◌≡◌};
ghost use Rattle.text_read.specs.Pieces.{until};
ghost use Rattle.text_read.specs.Numbers.{Leads, digit_count, number, word_is};

// The digits that a text begins with: how many, and their value or, if it is above 4294967295, the next number.
#[derive(Clone, Copy)]
pub struct Digits {
    pub count: usize,
    pub value: u64,
}

// The place of the first separator, or the length. Four bytes at a time, with one test for the end: on lines of 6 to 40 bytes `position` alone takes 5 to 40 %
// longer.
pub fn first_of(bytes: &[u8], separator: u8) -> usize
    ensures { result ≡ until separator bytes.now }
{
    let mut rest = bytes;
    let mut passed = 0;
    while let [a, b, c, d, after @ ..] = rest {
        if *a == separator {
            return passed;
        }
        if *b == separator {
            return passed + 1;
        }
        if *c == separator {
            return passed + 2;
        }
        if *d == separator {
            return passed + 3;
        }
        rest = after;
        passed += 4;
    }
    passed
        + rest
            .iter()
            .position(|b| *b == separator)
            .unwrap_or(rest.len())
}

// How many digits a text begins with.
fn digit_count(text: &[u8]) -> usize
    ensures { result ≡ digit_count text.now }
{
    text.iter()
        .position(|b| !b.is_ascii_digit())
        .unwrap_or(text.len())
}

// The digits that a text begins with. Once their value is above 4294967295, the others are only counted.
pub fn leading_digits(text: &[u8]) -> Digits
    ensures { Leads text.now result }
{
    let mut value: u64 = 0;
    for (i, b) in text.iter().enumerate() {
        if !b.is_ascii_digit() {
            return Digits { count: i, value };
        }
        value = value * 10 + u64::from(*b - b'0');
        if value >= limits::PAST_BIN {
            return Digits {
                count: i + 1 + digit_count(&text[i + 1..]),
                value: limits::PAST_BIN,
            };
        }
    }
    Digits {
        count: text.len(),
        value,
    }
}

// A word as a number.
pub fn read_word(word: &[u8]) -> Option<u32>
    ensures { word_is result ≡ number word.now }
{
    let digits = leading_digits(word);
    if digits.count == 0 || digits.count < word.len() {
        return None;
    }
    u32::try_from(digits.value).ok()
}

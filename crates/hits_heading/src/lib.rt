// Line 1 of the input of the program hits: the threshold and the allowance.
#![tactic(auto)]

ghost use Rattle.std.specs.Prelude.{◌≡◌};
ghost use Rattle.hits_input.specs.Input.{heading_of};
ghost use Rattle.hits_heading.specs.Heading.{heading_is};

// The two numbers of line 1.
#[derive(Clone, Copy)]
pub struct Heading {
    pub threshold: u32,
    pub allowance: u32,
}

// Line 1: two words, both numbers.
pub fn read_first(line: &[u8]) -> Option<Heading>
    ensures { heading_is result ≡ heading_of line.now }
{
    let mut words = line.split(|b| *b == b' ');
    let heading = Heading {
        threshold: text_read::read_word(words.next()?)?,
        allowance: text_read::read_word(words.next()?)?,
    };
    words.next().is_none().then_some(heading)
}

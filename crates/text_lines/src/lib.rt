// Lines of text: a word and numbers, laid into a lent buffer.
#![tactic(auto)]

ghost use Rattle.std.specs.Prelude.{◌+◌, ◌≤◌, length};
ghost use Rattle.text_write.specs.Laying.{Lays};
ghost use Rattle.text_lines.specs.Lines.{line};

// Lays a line of a word and numbers.
pub fn put_line(text: &mut [u8], at: usize, word: &[u8], numbers: &[u64]) -> usize
    requires { at ≤ length text.old + 1 }
    ensures { Lays (line word.now numbers.now) text.old at text.new result }
{
    let mut next = text_write::put_word(text, at, word);
    for x in numbers {
        let start = text_write::put(text, next, b' ');
        next = text_write::put_number(text, start, *x);
    }
    text_write::put(text, next, b'\n')
}

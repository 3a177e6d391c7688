// The program hits: reads a question from standard input and prints its answer (docs/SPECIFICATION.md, 'The program hits').
#![tactic(auto)]

use std::io;
use std::io::Print;

#[tactic(auto, unfolding(hits_limits::specs::Limits::most_text, hits_limits::specs::Limits::certificate_room, hits_limits::specs::Limits::line_room))]
fn answer(rt: &HostRuntime, input: &[u8], failed: bool) -> io::Result<()> {
    let mut text = [0; limits::HITS_TEXT];
    let size = hits_text::write_text(input, failed, &mut text);
    rt.write_all(&text[..size])
}

// One byte more than a question may have is read, so that the fault of byte 65,537 is seen.
fn main(rt: HostRuntime) -> io::Result<()> {
    let mut input = [0u8; limits::HITS_BYTES + 1];
    let mut stdin = rt.stdin();
    let received = hits_read::read_input(&mut stdin, &mut input);
    answer(&rt, &input[..received.size], received.failed)
}

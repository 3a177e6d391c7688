// The parts that a round writes: the gap before v, the last gap, and an answer, which goes into both buffers or into neither, or into the certificate alone.
#![tactic(auto)]

ghost use Rattle.std.specs.Prelude.{◌∷◌, [], ◌≡◌, ◌≤◌, ◌<◌, length};
ghost use Rattle.model.specs.Certificate.{gap};
ghost use Rattle.model.specs.Walk.{wrote};
ghost use Rattle.walk_write.specs.Writes.{LastReady, LastGap, Fitted, after_part, Writes, gap_events, Answers};

use refusal::Reason;

// Where a walk stands: the floor, where the row of keys starts, what is written, the tally of its probes (walk_tally), and the weight still in play (walk_weight).
#[derive(Clone, Copy)]
pub struct State {
    pub floor: u32,
    pub start: usize,
    pub answers: usize,
    pub parts: usize,
    pub bytes: usize,
    pub tally: u64,
    pub weight: usize,
}

// A walk goes on after a round, or has reached its end.
#[derive(Clone, Copy)]
pub enum Turn {
    On(State),
    Done(State),
}

// What stops a walk before its end, and where it then stands.
#[derive(Clone, Copy)]
pub struct Stopped {
    pub reason: Reason,
    pub at: State,
}

// The state after a part up to `bytes`, `answers` being written.
fn after_part(w: State, answers: usize, bytes: usize) -> State
    requires { w.parts < 18446744073709551615 }
    ensures { result ≡ after_part w answers bytes }
{
    State {
        answers,
        parts: w.parts + 1,
        bytes,
        ..w
    }
}

// Writes the gap from the floor to `last`.
fn gap_to(certificate: &mut [u8], w: State, last: u32, named: u64) -> Result<State, Reason>
    requires { (w.bytes ≤ length certificate.old) × (w.parts ≤ w.bytes) }
    ensures { Writes (wrote (gap w.floor last named) ∷ []) w certificate.old certificate.new result }
{
    let bytes = field_write::write_gap(certificate, w.bytes, w.floor, last, named)?;
    Ok(after_part(w, w.answers, bytes))
}

// Writes the gap from the floor to v − 1 where the floor is below v.
pub fn gap_before(certificate: &mut [u8], w: State, v: u32, named: u64) -> Result<State, Reason>
    requires { (w.bytes ≤ length certificate.old) × (w.parts ≤ w.bytes) }
    ensures { Writes (gap_events w.floor v named) w certificate.old certificate.new result }
{
    if v <= w.floor {
        return Ok(w);
    }
    gap_to(certificate, w, v - 1, named)
}

// Too few runs have a head: writes the gap from the floor to the last bin, naming the chosen runs without one, and ends.
pub fn last_gap(
    chosen: u64,
    keys: &[u64],
    certificate: &mut [u8],
    w: State,
) -> Result<Turn, Stopped>
    requires { LastReady chosen keys.now certificate.old w }
    ensures { LastGap chosen keys.now w certificate.old certificate.new result }
{
    let headed = walk_keys::front(keys, w.start, walk_keys::NO_KEY);
    match gap_to(certificate, w, limits::LAST_BIN, chosen - headed.named) {
        Ok(x) => Ok(Turn::Done(x)),
        Err(reason) => Err(Stopped { reason, at: w }),
    }
}

// Writes the floor as an answer into both buffers, or into neither. A count of answers above the places of their buffer tells the walk not to write them: then the answer
// goes into the certificate alone.
pub fn write_answer(
    answers: &mut [u32],
    certificate: &mut [u8],
    w: State,
    named: u64,
) -> Result<State, Reason>
    requires { Fitted certificate.old w }
    ensures { Answers w named answers.old certificate.old answers.new certificate.new result }
{
    let at = w.answers;
    if at == answers.len() {
        return Err(Reason::AnswersFull);
    }
    let bytes = field_write::write_answer(certificate, w.bytes, w.floor, named)?;
    if at < answers.len() {
        answers[at] = w.floor;
        return Ok(after_part(w, at + 1, bytes));
    }
    Ok(after_part(w, at, bytes))
}

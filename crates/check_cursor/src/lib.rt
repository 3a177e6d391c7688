// One cursor for each run, which never goes back: the numbers before it are below every bin that is still uncovered.
#![tactic(auto)]

ghost use Rattle.std.specs.Prelude.{◌≡◌, ◌≤◌, ◌<◌, length};
ghost use Rattle.model.specs.Runs.{slice, first_bin, past_bin};
ghost use Rattle.model.specs.Walk.{head_of};
ghost use Rattle.check_cursor.specs.Cursors.{cursor_places, place_of, bin_of, Cursors, Begins};

// How many of a cursor's bits, the lowest ones, are its place.
const PLACE_BITS: u64 = 21;

// A cursor has room for so many places; there are at most half as many numbers.
pub const PLACES: u64 = 1 << PLACE_BITS;

// As a mask it leaves a cursor's place.
const LAST_PLACE: u64 = PLACES - 1;

// A cursor of a run: a bin × PLACES + a place. The run has no number that is still uncovered before the place, and the bin is the number at the place, or
// the number after the last bin at the run's end.
pub fn cursor_at(bin: u64, place: usize) -> u64
    requires { (bin ≤ past_bin) × (place < cursor_places) }
    ensures { (place_of result ≡ place) × (bin_of result ≡ bin) }
{
    bin * PLACES + place as u64
}

pub fn place_of(cursor: u64) -> usize
    ensures { result ≡ place_of cursor }
{
    (cursor & LAST_PLACE) as usize
}

pub fn bin_of(cursor: u64) -> u64
    ensures { result ≡ bin_of cursor }
{
    cursor >> PLACE_BITS
}

// The number at a place of a run that ends at `end`, or the number after the last bin at its end.
pub fn number_at(numbers: &[u32], place: usize, end: usize) -> u64
    requires { (place ≤ end) × (end ≤ length numbers.now) }
    ensures { result ≡ head_of (slice numbers.now place end) }
{
    if place < end {
        u64::from(numbers[place])
    } else {
        limits::PAST_BIN
    }
}

// Puts each run's cursor at its first bin: zeros at its start are passed over here, once for all parts.
pub fn begin(numbers: &[u32], ends: &[u32], cursors: &mut [u64])
    requires { Begins numbers.now ends.now cursors.old }
    ensures { Cursors numbers.now ends.now cursors.new first_bin }
{
    let mut start = 0;
    for (i, &end) in ends.iter().enumerate() {
        let end = end as usize;
        let first = first_bin::first_place(numbers, start, end);
        cursors[i] = cursor_at(number_at(numbers, first, end), first);
        start = end;
    }
}

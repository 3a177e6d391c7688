// The limits (docs/SPECIFICATION.md, 'The limits'), each under one name.
#![tactic(auto)]

// A question has at most so many runs.
pub const MOST_RUNS: usize = 64;

// All runs together have at most so many numbers.
pub const MOST_NUMBERS: usize = 1048576;

// A weight is a number from 1 to MOST_WEIGHT.
pub const MOST_WEIGHT: u32 = 255;

// A bin is a number from FIRST_BIN to LAST_BIN; PAST_BIN is the number after the last. 0 is no bin but the unmapped mark.
pub const FIRST_BIN: u32 = 1;

pub const LAST_BIN: u32 = 4294967295;

pub const PAST_BIN: u64 = 4294967296;

// The program hits accepts at most so many bytes, runs and numbers,
pub const HITS_BYTES: usize = 65536;

pub const HITS_RUNS: usize = 64;

pub const HITS_NUMBERS: usize = 1024;

// its buffers hold so many answers and certificate bytes,
pub const HITS_ANSWERS: usize = 1024;

pub const HITS_CERTIFICATE: usize = 65536;

// and there is room for every text that it prints.
pub const HITS_TEXT: usize = 262216;

// A row of keys in rising order, kept at the end of a lent slice, from `start` on, as it is read. A key is head × 256 + run.
#![tactic(auto)]

ghost use Rattle.std.specs.Prelude.{◌≡◌, ◌+◌, ◌*◌, ◌^◌, ◌≤◌, ◌<◌, length, take, drop};
ghost use Rattle.walk_keys.specs.Row.{below_count, sum_of, label_sum, Labels, nth_head, key_weight, Reaches, HaveWeights};
ghost use Rattle.model.specs.Runs.{mask_bits, most_runs};

// A number above every key.
pub const NO_KEY: u64 = limits::PAST_BIN * 256;

// How many keys are below a limit, and the mask of their runs.
#[derive(Drop)]
pub struct Below {
    pub count: usize,
    pub named: u64,
}

// The key of a run with this head.
pub fn key(h: u32, run: u32) -> u64
    ensures { result ≡ h * 256 + run }
{
    u64::from(h) * 256 + u64::from(run)
}

// The head of the t-th key of the row, counted from one.
fn nth_head(keys: &[u64], start: usize, t: usize) -> u64
    requires { (0 < t) × (start + t ≤ length keys.now) }
    ensures { result ≡ nth_head t (drop start keys.now) }
{
    keys[start + (t - 1)] >> 8
}

// What the runs of the row weigh.
pub fn row_weight(keys: &[u64], start: usize, weights: &[u32]) -> usize
    requires { (start ≤ length keys.now) × (length keys.now ≤ most_runs) × HaveWeights weights.now (drop start keys.now) }
    ensures { result ≡ sum_of (key_weight weights.now) (drop start keys.now) }
{
    let row = &keys[start..];
    if weights.is_empty() {
        return row.len();
    }
    let mut total = 0;
    for key in row {
        total += weights[(key & 255) as usize] as usize;
    }
    total
}

// The head of the first key up to which the runs weigh at least `t`, by a row with a weight for each. All runs of the row weigh enough, so its end is not met.
fn weighted_head(keys: &[u64], start: usize, weights: &[u32], t: usize) -> u64
    requires { (0 < t) × (start ≤ length keys.now) × (0 < length weights.now) × HaveWeights weights.now (drop start keys.now) × (t ≤ sum_of (key_weight weights.now) (drop start keys.now)) }
    ensures { Reaches weights.now t (drop start keys.now) result }
{
    let mut missing = t;
    let mut i = start;
    // (A `for` would test at each key whether the row has ended, which takes 8 instructions in place of 7.)
    loop {
        let key = keys[i];
        let weight = weights[(key & 255) as usize] as usize;
        if missing <= weight {
            return key >> 8;
        }
        missing -= weight;
        i += 1;
    }
}

// The same where a row without weights stands for runs that weigh 1 each: then it is the t-th key, and the row need not be gone through.
pub fn reached_head(keys: &[u64], start: usize, weights: &[u32], t: usize) -> u64
    requires { (0 < t) × (start ≤ length keys.now) × HaveWeights weights.now (drop start keys.now) × (t ≤ sum_of (key_weight weights.now) (drop start keys.now)) }
    ensures { Reaches weights.now t (drop start keys.now) result }
{
    if !weights.is_empty() {
        return weighted_head(keys, start, weights, t);
    }
    nth_head(keys, start, t)
}

// The keys of the row that are below `limit`: how many, and the mask of their runs.
pub fn front(keys: &[u64], start: usize, limit: u64) -> Below
    requires { (start ≤ length keys.now) × Labels (drop start keys.now) × (label_sum (drop start keys.now) < 2 ^ mask_bits) }
    ensures { (result.count ≡ below_count limit (drop start keys.now)) × (result.named ≡ label_sum (take result.count (drop start keys.now))) }
{
    let mut named = 0;
    // (By the places of the whole slice: over `&keys[start..]` a walk over few runs took up to 3 % more instructions.)
    for i in start..keys.len() {
        let key = keys[i];
        if limit <= key {
            return Below {
                count: i - start,
                named,
            };
        }
        named += mask::only_run((key & 255) as u32);
    }
    Below {
        count: keys.len() - start,
        named,
    }
}

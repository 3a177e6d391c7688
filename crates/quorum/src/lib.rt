// The C boundary, `include/quorum.h`: each call writes what it returns into a row of 64-bit numbers.
#![tactic(auto)]

ghost use Rattle.std.specs.Prelude.{◌≡◌};
ghost use Rattle.model.specs.Alone.{query_alone};
ghost use Rattle.model.specs.Many.{query_many};
ghost use Rattle.model.specs.Refusals.{query, query_weighted, check, check_chosen, check_weighted};
ghost use Rattle.bound.specs.Bound.{bound_is, probe_bound, probe_bound_chosen};
ghost use Rattle.checker.specs.Verdicts.{verdict_is};
ghost use Rattle.lcov_form.specs.Reading.{lcov_run};
ghost use Rattle.pair_model.specs.Pair.{pair};
ghost use Rattle.quorum_filled.specs.Rows.{filled_row};
ghost use Rattle.quorum_many.specs.Rows.{many_row};
ghost use Rattle.quorum_rows.specs.Outcomes.{outcome_row};
ghost use Rattle.quorum.specs.Results.{verdict_row, bound_row, PartRow};

use checker::Counted;
use refusal::Refusal;

// A verdict as its row.
#[tactic(auto, unfolding(crate::specs::Results::verdict_row))]
fn put_verdict(verdict: Result<Counted, Refusal>, res: &mut [u64; 4])
    ensures { res.new ≡ verdict_row (verdict_is verdict) }
{
    *res = match verdict {
        Ok(Counted { answers, parts }) => [0, 0, answers as u64, parts as u64],
        Err(Refusal { reason, place }) => [u64::from(reason), place as u64, 0, 0],
    };
}

// A bound as its row.
#[tactic(auto, unfolding(crate::specs::Results::bound_row))]
fn put_bound(bound: Result<u64, Refusal>, res: &mut [u64; 3])
    ensures { res.new ≡ bound_row (bound_is bound) }
{
    *res = match bound {
        Ok(sum) => [0, 0, sum],
        Err(Refusal { reason, place }) => [u64::from(reason), place as u64, 0],
    };
}

#[unsafe(no_mangle)]
pub extern "C" fn quorum_query(
    numbers: &[u32],
    ends: &[u32],
    threshold: u32,
    allowance: u32,
    answers: &mut [u32],
    certificate: &mut [u8],
    res: &mut [u64; 7],
)
    ensures row { res.new ≡ outcome_row (query numbers.now ends.now threshold allowance answers.old certificate.old).outcome }
    ensures answered { answers.new ≡ (query numbers.now ends.now threshold allowance answers.old certificate.old).answers }
    ensures certified { certificate.new ≡ (query numbers.now ends.now threshold allowance answers.old certificate.old).certificate }
{
    let outcome = query::query(numbers, ends, threshold, allowance, answers, certificate);
    quorum_rows::put_outcome(outcome, res);
}

#[unsafe(no_mangle)]
pub extern "C" fn quorum_query_weighted(
    numbers: &[u32],
    ends: &[u32],
    weights: &[u32],
    wanted: u32,
    allowance: u32,
    answers: &mut [u32],
    certificate: &mut [u8],
    res: &mut [u64; 7],
)
    ensures row { res.new ≡ outcome_row (query_weighted numbers.now ends.now weights.now wanted allowance answers.old certificate.old).outcome }
    ensures answered { answers.new ≡ (query_weighted numbers.now ends.now weights.now wanted allowance answers.old certificate.old).answers }
    ensures certified { certificate.new ≡ (query_weighted numbers.now ends.now weights.now wanted allowance answers.old certificate.old).certificate }
{
    let outcome = query::query_weighted(
        numbers,
        ends,
        weights,
        wanted,
        allowance,
        answers,
        certificate,
    );
    quorum_rows::put_outcome(outcome, res);
}

#[unsafe(no_mangle)]
pub extern "C" fn quorum_query_alone(
    numbers: &[u32],
    ends: &[u32],
    threshold: u32,
    allowance: u32,
    answers: &mut [u32],
    certificate: &mut [u8],
    res: &mut [u64; 7],
)
    ensures row { res.new ≡ outcome_row (query_alone numbers.now ends.now threshold allowance answers.old certificate.old).outcome }
    ensures answered { answers.new ≡ (query_alone numbers.now ends.now threshold allowance answers.old certificate.old).answers }
    ensures certified { certificate.new ≡ (query_alone numbers.now ends.now threshold allowance answers.old certificate.old).certificate }
{
    let found = query_alone::query_alone(numbers, ends, threshold, allowance, answers, certificate);
    quorum_rows::put_outcome(found, res);
}

#[unsafe(no_mangle)]
pub extern "C" fn quorum_query_many(
    numbers: &[u32],
    ends: &[u32],
    masks: &[u64],
    thresholds: &[u32],
    allowance: u32,
    answers: &mut [u32],
    certificate: &mut [u8],
    results: &mut [u64],
    res: &mut [u64; 8],
)
    ensures row { res.new ≡ many_row (query_many numbers.now ends.now masks.now thresholds.now allowance answers.old certificate.old results.old).outcome }
    ensures answered { answers.new ≡ (query_many numbers.now ends.now masks.now thresholds.now allowance answers.old certificate.old results.old).answers }
    ensures certified { certificate.new ≡ (query_many numbers.now ends.now masks.now thresholds.now allowance answers.old certificate.old results.old).certificate }
    ensures told { results.new ≡ (query_many numbers.now ends.now masks.now thresholds.now allowance answers.old certificate.old results.old).results }
{
    let outcome = query_many::query_many(
        numbers,
        ends,
        masks,
        thresholds,
        allowance,
        answers,
        certificate,
        results,
    );
    quorum_many::put_many(outcome, res);
}

#[unsafe(no_mangle)]
pub extern "C" fn quorum_check(
    numbers: &[u32],
    ends: &[u32],
    threshold: u32,
    certificate: &[u8],
    res: &mut [u64; 4],
)
    ensures { res.new ≡ verdict_row (check numbers.now ends.now threshold certificate.now) }
{
    let verdict = checker::check(numbers, ends, threshold, certificate);
    put_verdict(verdict, res);
}

#[unsafe(no_mangle)]
pub extern "C" fn quorum_check_chosen(
    numbers: &[u32],
    ends: &[u32],
    mask: u64,
    threshold: u32,
    certificate: &[u8],
    res: &mut [u64; 4],
)
    ensures { res.new ≡ verdict_row (check_chosen numbers.now ends.now mask threshold certificate.now) }
{
    let verdict = checker::check_chosen(numbers, ends, mask, threshold, certificate);
    put_verdict(verdict, res);
}

#[unsafe(no_mangle)]
pub extern "C" fn quorum_check_weighted(
    numbers: &[u32],
    ends: &[u32],
    weights: &[u32],
    wanted: u32,
    certificate: &[u8],
    res: &mut [u64; 4],
)
    ensures { res.new ≡ verdict_row (check_weighted numbers.now ends.now weights.now wanted certificate.now) }
{
    let verdict = checker::check_weighted(numbers, ends, weights, wanted, certificate);
    put_verdict(verdict, res);
}

#[unsafe(no_mangle)]
pub extern "C" fn quorum_between(list: &[u32], first: u32, last: u32, part: &mut [u64; 2])
    ensures { PartRow first last list.now part.new }
{
    let span = between::places(list, first, last);
    *part = [span.start as u64, span.end as u64];
}

#[unsafe(no_mangle)]
pub extern "C" fn quorum_probe_bound(ends: &[u32], parts: u32, res: &mut [u64; 3])
    ensures { res.new ≡ bound_row (probe_bound ends.now parts) }
{
    let bound = bound::probe_bound(ends, parts);
    put_bound(bound, res);
}

#[unsafe(no_mangle)]
pub extern "C" fn quorum_probe_bound_chosen(ends: &[u32], mask: u64, parts: u32, res: &mut [u64; 3])
    ensures { res.new ≡ bound_row (probe_bound_chosen ends.now mask parts) }
{
    let bound = bound::probe_bound_chosen(ends, mask, parts);
    put_bound(bound, res);
}

#[unsafe(no_mangle)]
pub extern "C" fn quorum_lcov_run(file: &[u8], section: usize, run: &mut [u32], res: &mut [u64; 3])
    ensures row { res.new ≡ filled_row (lcov_run file.now section run.old).check (lcov_run file.now section run.old).count }
    ensures written { run.new ≡ (lcov_run file.now section run.old).row }
{
    let outcome = lcov_run::lcov_run(file, section, run);
    quorum_filled::put_filled(outcome, res);
}

#[unsafe(no_mangle)]
pub extern "C" fn quorum_pair(
    numbers: &[u32],
    ends: &[u32],
    answers: &mut [u32],
    res: &mut [u64; 3],
)
    ensures row { res.new ≡ filled_row (pair numbers.now ends.now answers.old).check (pair numbers.now ends.now answers.old).count }
    ensures answered { answers.new ≡ (pair numbers.now ends.now answers.old).row }
{
    let outcome = pair::pair(numbers, ends, answers);
    quorum_filled::put_filled(outcome, res);
}

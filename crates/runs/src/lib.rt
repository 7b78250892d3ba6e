// Tests of runs of numbers: members, and fields as attribute and position in turn.

#![tactic(auto)]

ghost use Rattle.std.specs.Prelude.{◌≡◌, ◌≤◌, length, get_or, drop, eqb};
ghost use Rattle.arena.specs.Lists.{all, rising, evens, field};
ghost use Rattle.arena.specs.WellFormed.{small, field_run};
ghost use Rattle.runs.specs.Fields.{given};
ghost use Rattle.runs.specs.Strides.{heads};

// Member i, or 0 past the end, as `get_or` has it.
pub fn nth(run: &[u64], i: usize) -> u64
    ensures { result ≡ get_or run.now i 0 }
{
    run.get(i).copied().unwrap_or(0)
}

// Whether every number from m on is 0.
pub fn zeros_from(run: &[u64], m: usize) -> bool
    requires { m ≤ length run.now }
    ensures { result ≡ all (λ x. eqb x 0) (drop m run.now) }
{
    run[m..].iter().all(|x| *x == 0)
}

// Whether every number, or with step 2 every attribute, is above the one before: `heads` of specs/ takes that step.
pub fn rises(run: &[u64], step: usize) -> bool
    requires { (1 ≤ step) × (step ≤ 2) }
    ensures { result ≡ rising (heads step run.now) }
{
    run.iter().step_by(step).is_sorted_by(|a, b| a < b)
}

pub fn keys_small(run: &[u64]) -> bool
    ensures { result ≡ all small (evens run.now) }
{
    run.iter().step_by(2).all(|k| *k < 4294967296)
}

// Whole pairs, at most 64, with rising small attributes.
#[tactic(auto, unfolding(arena::specs::Lists::every, arena::specs::WellFormed::field_run))]
pub fn field_run(run: &[u64]) -> bool
    ensures { result ≡ field_run run.now }
{
    run.len() % 2 == 0 && run.len() <= 128 && rises(run, 2) && keys_small(run)
}

// What the attribute k holds.
pub fn field(run: &[u64], k: u64) -> Option<u64>
    ensures { result ≡ given (field run.now k) }
{
    for pair in run.chunks_exact(2) {
        if pair[0] == k {
            return Some(pair[1]);
        }
    }
    None
}

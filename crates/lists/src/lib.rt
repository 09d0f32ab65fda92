// A call's lists of places, looked at as arguments. How such a list lies in the pool is said in specs/Part.
#![tactic(auto)]

ghost use Rattle.std.specs.Prelude.{◌≡◌, ◌||◌, length, leb, ltb};
ghost use Rattle.rules.specs.Limits.{most_in_a_list};
ghost use Rattle.rules.specs.Model.{greatest as greatest_of};
ghost use Rattle.rules.specs.Checks.{any};

// A registration as a call gives it.
#[derive(Clone, Copy)]
pub struct Registration<'a> {
    pub inputs: &'a [u64],
    pub outputs: &'a [u64],
    pub lane: u64,
}

// Whether there are more inputs or outputs than a registration may have.
pub fn too_many(r: Registration) -> bool
    ensures { result ≡ (ltb most_in_a_list (length r.entry.inputs.now) || ltb most_in_a_list (length r.entry.outputs.now)) }
{
    rules::MOST_IN_A_LIST < r.inputs.len() || rules::MOST_IN_A_LIST < r.outputs.len()
}

// Whether one of xs is at least the bound. Lists are short: by `iter().any` it takes some instructions more for each call, as `greatest`
// does by `max`.
pub fn any_at_least(xs: &[u64], bound: u64) -> bool
    ensures { result ≡ any (λ x. leb bound x) xs.now }
{
    for x in xs {
        if bound <= *x {
            return true;
        }
    }
    false
}

// The greatest of xs, 0 where there are none.
pub fn greatest(xs: &[u64]) -> u64
    ensures { result ≡ greatest_of xs.now }
{
    let mut m: u64 = 0;
    for x in xs {
        m = m.max(*x);
    }
    m
}

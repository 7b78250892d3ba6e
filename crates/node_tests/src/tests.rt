// Tests of numbers: of a kind, a sum, and whether a number fits.
ghost use Rattle.std.specs.Prelude.{◌≡◌, ◌+◌, ◌^◌, eqb, ltb};
ghost use Rattle.arena.specs.Lists.{within};

// Whether k is the kind of a type.
#[tactic(auto, unfolding(arena::specs::Lists::every))]
pub fn of_type(k: u64) -> bool
    ensures { result ≡ within 1 15 k }
{
    (1..=15).contains(&k)
}

// Whether w is a + b, which need not fit.
pub fn is_sum(w: u64, a: u64, b: u64) -> bool
    ensures { result ≡ eqb w (a + b) }
{
    a.checked_add(b) == Some(w)
}

// Whether v is below 2 to the w.
pub fn fits_width(v: u64, w: u64) -> bool
    ensures { result ≡ ltb v (2 ^ w) }
{
    w >= 64 || v >> w == 0
}

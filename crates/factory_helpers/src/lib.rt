// factory.rs, the helpers that compound terms are made with.

#![tactic(auto, using(factory::proofs::Calls::term_pos))]

ghost use Rattle.std.specs.Prelude.{◌≡◌, true};
ghost use Rattle.arena.specs.WellFormed.{is_term};
ghost use Rattle.arena.specs.Values.{tbool, topt};
ghost use Rattle.arena.specs.Meaning.{ty_at};
ghost use Rattle.nodes.specs.Builds.{Builds, term_reply};
ghost use Rattle.factory.specs.Fit.{Typed, OfKind, Options, Ready};
ghost use Rattle.factory.specs.Helpers.{eq_none, is_none_ite, is_none, is_some, or_some, if_false, or_none, if_true, none_or, guarded as guardedBy, if_some, or_is_none, any_none, if_all_some};

use arena::TermPos;
use factory_core::{eq, ite, not, or};
use factory_makers::{FALSE, TRUE, elem_of, none_of, some_of};
use nodes::{Arena, Full};

// ---------- Helper functions for constructing compound terms ----------

// The test that stands where nothing folds.
fn eq_none(arena: &mut Arena<'_>, t: TermPos) -> Result<TermPos, Full>
    requires { Ready (λ a. OfKind a 3 t.0) arena.old }
    ensures { Builds (λ a. eq_none a t.0) arena.old (term_reply result) arena.new }
{
    let ty = elem_of(&arena.view(), t);
    let n = none_of(arena, ty)?;
    eq(arena, t, n)
}

// `is_none` of an ite with the guard g and the arms x and y.
fn is_none_ite(
    arena: &mut Arena<'_>,
    t: TermPos,
    g: TermPos,
    x: TermPos,
    y: TermPos,
) -> Result<TermPos, Full>
    requires { Ready (λ a. OfKind a 3 t.0 × Typed a tbool g.0 × is_term a x.0 ≡ true × is_term a y.0 ≡ true) arena.old }
    ensures { Builds (λ a. is_none_ite a t.0 g.0 x.0 y.0) arena.old (term_reply result) arena.new }
{
    let k = arena.kind_of(x.0);
    let l = arena.kind_of(y.0);
    if (k == 19) & (l == 19) {
        return Ok(FALSE);
    }
    if (k == 19) & (l == 18) {
        return not(arena, g);
    }
    if (k == 18) & (l == 19) {
        return Ok(g);
    }
    eq_none(arena, t)
}

pub fn is_none(arena: &mut Arena<'_>, t: TermPos) -> Result<TermPos, Full>
    requires { Ready (λ a. OfKind a 3 t.0) arena.old }
    ensures { Builds (λ a. is_none a t.0) arena.old (term_reply result) arena.new }
{
    let k = arena.kind_of(t.0);
    if k == 18 {
        return Ok(TRUE);
    }
    if k == 19 {
        return Ok(FALSE);
    }
    if k == 125 {
        let g = TermPos(arena.arg_of(t.0, 0));
        let x = TermPos(arena.arg_of(t.0, 1));
        let y = TermPos(arena.arg_of(t.0, 2));
        return is_none_ite(arena, t, g, x, y);
    }
    eq_none(arena, t)
}

pub fn is_some(arena: &mut Arena<'_>, t: TermPos) -> Result<TermPos, Full>
    requires { Ready (λ a. OfKind a 3 t.0) arena.old }
    ensures { Builds (λ a. is_some a t.0) arena.old (term_reply result) arena.new }
{
    let n = is_none(arena, t)?;
    not(arena, n)
}

// `if_false` with its None made.
fn or_some(arena: &mut Arena<'_>, g: TermPos, n: TermPos, t: TermPos) -> Result<TermPos, Full>
    requires { Ready (λ a. Typed a tbool g.0 × is_term a t.0 ≡ true × Typed a (topt (ty_at a t.0)) n.0) arena.old }
    ensures { Builds (λ a. or_some a g.0 n.0 t.0) arena.old (term_reply result) arena.new }
{
    let s = some_of(arena, t)?;
    ite(arena, g, n, s)
}

pub fn if_false(arena: &mut Arena<'_>, g: TermPos, t: TermPos) -> Result<TermPos, Full>
    requires { Ready (λ a. Typed a tbool g.0 × is_term a t.0 ≡ true) arena.old }
    ensures { Builds (λ a. if_false a g.0 t.0) arena.old (term_reply result) arena.new }
{
    let ty = arena.type_of(t);
    let n = none_of(arena, ty)?;
    or_some(arena, g, n, t)
}

// `if_true` with its Some made.
fn or_none(arena: &mut Arena<'_>, g: TermPos, s: TermPos, t: TermPos) -> Result<TermPos, Full>
    requires { Ready (λ a. Typed a tbool g.0 × is_term a t.0 ≡ true × Typed a (topt (ty_at a t.0)) s.0) arena.old }
    ensures { Builds (λ a. or_none a g.0 s.0 t.0) arena.old (term_reply result) arena.new }
{
    let ty = arena.type_of(t);
    let n = none_of(arena, ty)?;
    ite(arena, g, s, n)
}

pub fn if_true(arena: &mut Arena<'_>, g: TermPos, t: TermPos) -> Result<TermPos, Full>
    requires { Ready (λ a. Typed a tbool g.0 × is_term a t.0 ≡ true) arena.old }
    ensures { Builds (λ a. if_true a g.0 t.0) arena.old (term_reply result) arena.new }
{
    let s = some_of(arena, t)?;
    or_none(arena, g, s, t)
}

// None if g, else the option t.
fn none_or(arena: &mut Arena<'_>, g: TermPos, t: TermPos) -> Result<TermPos, Full>
    requires { Ready (λ a. Typed a tbool g.0 × OfKind a 3 t.0) arena.old }
    ensures { Builds (λ a. none_or a g.0 t.0) arena.old (term_reply result) arena.new }
{
    let ty = elem_of(&arena.view(), t);
    let n = none_of(arena, ty)?;
    ite(arena, g, n, t)
}

// What `if_some` and `if_all_some` share.
fn guarded(arena: &mut Arena<'_>, g: TermPos, t: TermPos) -> Result<TermPos, Full>
    requires { Ready (λ a. Typed a tbool g.0 × is_term a t.0 ≡ true) arena.old }
    ensures { Builds (λ a. guardedBy a g.0 t.0) arena.old (term_reply result) arena.new }
{
    let ty = arena.type_of(t);
    if arena.kind_of(ty.0) == 3 {
        return none_or(arena, g, t);
    }
    if_false(arena, g, t)
}

pub fn if_some(arena: &mut Arena<'_>, g: TermPos, t: TermPos) -> Result<TermPos, Full>
    requires { Ready (λ a. OfKind a 3 g.0 × is_term a t.0 ≡ true) arena.old }
    ensures { Builds (λ a. if_some a g.0 t.0) arena.old (term_reply result) arena.new }
{
    let n = is_none(arena, g)?;
    guarded(arena, n, t)
}

// One option's `is_none`, before its `or`.
fn or_is_none(arena: &mut Arena<'_>, g: TermPos, acc: TermPos) -> Result<TermPos, Full>
    requires { Ready (λ a. OfKind a 3 g.0 × Typed a tbool acc.0) arena.old }
    ensures { Builds (λ a. or_is_none a g.0 acc.0) arena.old (term_reply result) arena.new }
{
    let n = is_none(arena, g)?;
    or(arena, n, acc)
}

pub fn any_none(arena: &mut Arena<'_>, gs: &[u64]) -> Result<TermPos, Full>
    requires { Ready (λ a. Options a gs.now) arena.old }
    ensures { Builds (λ a. any_none a gs.now) arena.old (term_reply result) arena.new }
{
    let mut acc = FALSE;
    for g in gs {
        acc = or_is_none(arena, TermPos(*g), acc)?;
    }
    Ok(acc)
}

pub fn if_all_some(arena: &mut Arena<'_>, gs: &[u64], t: TermPos) -> Result<TermPos, Full>
    requires { Ready (λ a. Options a gs.now × is_term a t.0 ≡ true) arena.old }
    ensures { Builds (λ a. if_all_some a gs.now t.0) arena.old (term_reply result) arena.new }
{
    let g = any_none(arena, gs)?;
    guarded(arena, g, t)
}

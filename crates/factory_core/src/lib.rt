// factory.rs, the core theory: not, and, or, implies, eq and ite, function by function in its order.

#![tactic(auto, using(factory::proofs::Calls::term_pos))]

ghost use Rattle.std.specs.Prelude.{◌≡◌, true, ◌||◌, ◌≤◌, eqb};
ghost use Rattle.arena.specs.Values.{tbool};
ghost use Rattle.arena.specs.View.{nodes_of as seen_nodes};
ghost use Rattle.nodes.specs.Builds.{nodes_of, Builds, term_reply};
ghost use Rattle.factory.specs.Fit.{Typed, Alike, Ready};
ghost use Rattle.factory.specs.Core.{not_t, opposites as opposed, junction, and_t, or_t, implies as impliesT, eq_simplify, eq_t, ite_simplify, ite_of_somes, ite_t};

use arena::TermPos;
use arena::cells::View;
use factory_makers::{BOOL, FALSE, TRUE, app1, app2, both_literal, some_of};
use nodes::{Arena, Full};

// ---------- SMTLib core theory of equality with uninterpreted functions (`UF`) ----------

pub fn not(arena: &mut Arena<'_>, t: TermPos) -> Result<TermPos, Full>
    requires { Ready (λ a. Typed a tbool t.0) arena.old }
    ensures { Builds (λ a. not_t a t.0) arena.old (term_reply result) arena.new }
{
    if t == TRUE {
        return Ok(FALSE);
    }
    if t == FALSE {
        return Ok(TRUE);
    }
    if arena.kind_of(t.0) == 120 {
        return Ok(TermPos(arena.arg_of(t.0, 0)));
    }
    app1(arena, 20, BOOL, t)
}

pub fn opposites(nodes: &View<'_>, t: TermPos, u: TermPos) -> bool
    requires left { Typed (seen_nodes nodes.now) tbool t.0 }
    requires right { Typed (seen_nodes nodes.now) tbool u.0 }
    ensures { result ≡ opposed (seen_nodes nodes.now) t.0 u.0 }
{
    if nodes.kind_of(u.0) == 120 {
        return t.0 == nodes.arg_of(u.0, 0);
    }
    if nodes.kind_of(t.0) == 120 {
        return nodes.arg_of(t.0, 0) == u.0;
    }
    false
}

// Whether `and` or `or` gives its other literal: one operand is that, or they are opposites.
fn decided(arena: &Arena<'_>, t: TermPos, u: TermPos, other: TermPos) -> bool
    requires { Ready (λ a. Typed a tbool t.0 × Typed a tbool u.0) arena.now }
    ensures { result ≡ (eqb t.0 other.0 || (eqb u.0 other.0 || opposed (nodes_of arena.now) t.0 u.0)) }
{
    if t == other {
        return true;
    }
    if u == other {
        return true;
    }
    opposites(&arena.view(), t, u)
}

// What `and` and `or` share: `unit` adds nothing, the other literal decides.
fn joined(
    arena: &mut Arena<'_>,
    op: u64,
    unit: TermPos,
    other: TermPos,
    t: TermPos,
    u: TermPos,
) -> Result<TermPos, Full>
    requires ready { Ready (λ a. Typed a tbool t.0 × Typed a tbool u.0) arena.old }
    requires op_bound { op ≤ 99 }
    ensures { Builds (λ a. junction op unit.0 other.0 a t.0 u.0) arena.old (term_reply result) arena.new }
{
    if (t == u) | (u == unit) {
        return Ok(t);
    }
    if t == unit {
        return Ok(u);
    }
    if decided(arena, t, u, other) {
        return Ok(other);
    }
    app2(arena, op, BOOL, t, u)
}

pub fn and(arena: &mut Arena<'_>, t: TermPos, u: TermPos) -> Result<TermPos, Full>
    requires { Ready (λ a. Typed a tbool t.0 × Typed a tbool u.0) arena.old }
    ensures { Builds (λ a. and_t a t.0 u.0) arena.old (term_reply result) arena.new }
{
    joined(arena, 21, TRUE, FALSE, t, u)
}

pub fn or(arena: &mut Arena<'_>, t: TermPos, u: TermPos) -> Result<TermPos, Full>
    requires { Ready (λ a. Typed a tbool t.0 × Typed a tbool u.0) arena.old }
    ensures { Builds (λ a. or_t a t.0 u.0) arena.old (term_reply result) arena.new }
{
    joined(arena, 22, FALSE, TRUE, t, u)
}

pub fn implies(arena: &mut Arena<'_>, t: TermPos, u: TermPos) -> Result<TermPos, Full>
    requires { Ready (λ a. Typed a tbool t.0 × Typed a tbool u.0) arena.old }
    ensures { Builds (λ a. impliesT a t.0 u.0) arena.old (term_reply result) arena.new }
{
    let n = not(arena, t)?;
    or(arena, n, u)
}

// The closure of `eq`. A term that is compared with true or false here is of type Bool, since the two are of one type.
fn eq_simplify(arena: &mut Arena<'_>, t: TermPos, u: TermPos) -> Result<TermPos, Full>
    requires { Ready (λ a. Alike a t.0 u.0) arena.old }
    ensures { Builds (λ a. eq_simplify a t.0 u.0) arena.old (term_reply result) arena.new }
{
    if t == u {
        return Ok(TRUE);
    }
    if both_literal(&arena.view(), t, u) {
        return Ok(FALSE);
    }
    if t == TRUE {
        return Ok(u);
    }
    if u == TRUE {
        return Ok(t);
    }
    if t == FALSE {
        return not(arena, u);
    }
    if u == FALSE {
        return not(arena, t);
    }
    app2(arena, 24, BOOL, t, u)
}

pub fn eq(arena: &mut Arena<'_>, t: TermPos, u: TermPos) -> Result<TermPos, Full>
    requires { Ready (λ a. Alike a t.0 u.0) arena.old }
    ensures { Builds (λ a. eq_t a t.0 u.0) arena.old (term_reply result) arena.new }
{
    let k = arena.kind_of(t.0);
    let l = arena.kind_of(u.0);
    if (k == 19) & (l == 19) {
        let x = TermPos(arena.arg_of(t.0, 0));
        let y = TermPos(arena.arg_of(u.0, 0));
        return eq_simplify(arena, x, y);
    }
    if (k == 19) & (l == 18) | (k == 18) & (l == 19) {
        return Ok(FALSE);
    }
    eq_simplify(arena, t, u)
}

// The closure of `ite`.
fn ite_simplify(arena: &mut Arena<'_>, g: TermPos, t: TermPos, u: TermPos) -> Result<TermPos, Full>
    requires { Ready (λ a. Typed a tbool g.0 × Alike a t.0 u.0) arena.old }
    ensures { Builds (λ a. ite_simplify a g.0 t.0 u.0) arena.old (term_reply result) arena.new }
{
    if (g == TRUE) | (t == u) {
        return Ok(t);
    }
    if g == FALSE {
        return Ok(u);
    }
    if (t == TRUE) & (u == FALSE) {
        return Ok(g);
    }
    if (t == FALSE) & (u == TRUE) {
        return not(arena, g);
    }
    if u == FALSE {
        return and(arena, g, t);
    }
    if t == TRUE {
        return or(arena, g, u);
    }
    let ty = arena.type_of(t);
    arena.term_node(125, ty, 0, &[g.0, t.0, u.0])
}

// `ite` of two Somes: one layer goes round the whole.
fn ite_of_somes(arena: &mut Arena<'_>, g: TermPos, x: TermPos, y: TermPos) -> Result<TermPos, Full>
    requires { Ready (λ a. Typed a tbool g.0 × Alike a x.0 y.0) arena.old }
    ensures { Builds (λ a. ite_of_somes a g.0 x.0 y.0) arena.old (term_reply result) arena.new }
{
    let s = ite_simplify(arena, g, x, y)?;
    some_of(arena, s)
}

pub fn ite(arena: &mut Arena<'_>, g: TermPos, t: TermPos, u: TermPos) -> Result<TermPos, Full>
    requires { Ready (λ a. Typed a tbool g.0 × Alike a t.0 u.0) arena.old }
    ensures { Builds (λ a. ite_t a g.0 t.0 u.0) arena.old (term_reply result) arena.new }
{
    let k = arena.kind_of(t.0);
    let l = arena.kind_of(u.0);
    if (k == 19) & (l == 19) {
        let x = TermPos(arena.arg_of(t.0, 0));
        let y = TermPos(arena.arg_of(u.0, 0));
        return ite_of_somes(arena, g, x, y);
    }
    ite_simplify(arena, g, t, u)
}

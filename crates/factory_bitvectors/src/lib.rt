// factory.rs, bitvectors: literals are computed, all else is an application.

#![tactic(auto, using(factory::proofs::Calls::term_pos))]

ghost use Rattle.std.specs.Prelude.{◌≡◌, true, ◌+◌, ◌≤◌};
ghost use Rattle.arena.specs.Nodes.{width_at};
ghost use Rattle.arena.specs.WellFormed.{is_term};
ghost use Rattle.nodes.specs.Builds.{nodes_of, Builds, term_reply};
ghost use Rattle.factory.specs.Fit.{Alike, OfKind, Ready};
ghost use Rattle.factory.specs.Bitvectors.{literals_at, bvneg_t, bvapp_t, bvcmp_t, bvnego_t, bvso_t, extended_to, zero_extend_t};

use arena::{TermPos, TypePos};
use bitvec::Width;
use factory_makers::{BOOL, app1, app2, bitvec_lit, bitvec_type, bool_at};
use nodes::{Arena, Full};

// ---------- SMTLib theory of finite bitvectors (`BV`) ----------

// The width of a bitvector term.
fn width_of(arena: &Arena<'_>, t: TermPos) -> Width
    requires { Ready (λ a. OfKind a 2 t.0) arena.now }
    ensures { result.bits ≡ width_at (nodes_of arena.now) t.0 }
{
    let ty = arena.type_of(t);
    Width {
        bits: arena.par_of(ty.0),
    }
}

pub fn bvneg(arena: &mut Arena<'_>, t: TermPos) -> Result<TermPos, Full>
    requires { Ready (λ a. OfKind a 2 t.0) arena.old }
    ensures { Builds (λ a. bvneg_t a t.0) arena.old (term_reply result) arena.new }
{
    let kind = arena.kind_of(t.0);
    let ty = arena.type_of(t);
    if kind == 17 {
        let width = width_of(arena, t);
        let v = bitvec::neg(width, arena.par_of(t.0));
        return bitvec_lit(arena, ty, v);
    }
    if kind == 130 {
        return Ok(TermPos(arena.arg_of(t.0, 0)));
    }
    app1(arena, 30, ty, t)
}

// Both values, where both are bitvector literals.
fn literals(arena: &Arena<'_>, t: TermPos, u: TermPos) -> Option<(u64, u64)>
    requires { Ready (λ a. is_term a t.0 ≡ true × is_term a u.0 ≡ true) arena.now }
    ensures { result ≡ literals_at (nodes_of arena.now) t.0 u.0 }
{
    if (arena.kind_of(t.0) == 17) & (arena.kind_of(u.0) == 17) {
        return Some((arena.par_of(t.0), arena.par_of(u.0)));
    }
    None
}

// Operations 31 to 40: the number stands for the Rust's closure.
pub fn bvapp(arena: &mut Arena<'_>, op: u64, t: TermPos, u: TermPos) -> Result<TermPos, Full>
    requires ready { Ready (λ a. OfKind a 2 t.0 × Alike a t.0 u.0) arena.old }
    requires op_bound { op ≤ 99 }
    ensures { Builds (λ a. bvapp_t op a t.0 u.0) arena.old (term_reply result) arena.new }
{
    let ty = arena.type_of(t);
    if let Some((lhs, rhs)) = literals(arena, t, u) {
        let width = width_of(arena, t);
        return bitvec_lit(arena, ty, bitvec_closures::bvapp(op, width, lhs, rhs));
    }
    app2(arena, op, ty, t, u)
}

// Operations 41 to 44. That `bvso` differs in the one call is shorter than what a closure would have to promise.
pub fn bvcmp(arena: &mut Arena<'_>, op: u64, t: TermPos, u: TermPos) -> Result<TermPos, Full>
    requires ready { Ready (λ a. OfKind a 2 t.0 × Alike a t.0 u.0) arena.old }
    requires op_bound { op ≤ 99 }
    ensures { Builds (λ a. bvcmp_t op a t.0 u.0) arena.old (term_reply result) arena.new }
{
    if let Some((lhs, rhs)) = literals(arena, t, u) {
        let width = width_of(arena, t);
        return Ok(bool_at(bitvec_closures::bvcmp(op, width, lhs, rhs)));
    }
    app2(arena, op, BOOL, t, u)
}

pub fn bvnego(arena: &mut Arena<'_>, t: TermPos) -> Result<TermPos, Full>
    requires { Ready (λ a. OfKind a 2 t.0) arena.old }
    ensures { Builds (λ a. bvnego_t a t.0) arena.old (term_reply result) arena.new }
{
    if arena.kind_of(t.0) == 17 {
        let width = width_of(arena, t);
        let v = arena.par_of(t.0);
        return Ok(bool_at(bitvec_closures::nego(width, v)));
    }
    app1(arena, 45, BOOL, t)
}

// Operations 46 to 48.
pub fn bvso(arena: &mut Arena<'_>, op: u64, t: TermPos, u: TermPos) -> Result<TermPos, Full>
    requires ready { Ready (λ a. OfKind a 2 t.0 × Alike a t.0 u.0) arena.old }
    requires op_bound { op ≤ 99 }
    ensures { Builds (λ a. bvso_t op a t.0 u.0) arena.old (term_reply result) arena.new }
{
    if let Some((lhs, rhs)) = literals(arena, t, u) {
        let width = width_of(arena, t);
        return Ok(bool_at(bitvec_closures::bvso(op, width, lhs, rhs)));
    }
    app2(arena, op, BOOL, t, u)
}

// `zero_extend` with its wider type made.
fn extended(arena: &mut Arena<'_>, n: u64, t: TermPos, ty: TypePos) -> Result<TermPos, Full>
    requires { Ready (λ a. OfKind a 2 t.0 × width_at a t.0 + n ≤ 64) arena.old }
    ensures { Builds (λ a. extended_to a n t.0 ty.0) arena.old (term_reply result) arena.new }
{
    if arena.kind_of(t.0) == 17 {
        let width = width_of(arena, t);
        let v = arena.par_of(t.0);
        return bitvec_lit(arena, ty, bitvec::zero_extend(width, n, v));
    }
    arena.term_node(149, ty, n, &[t.0])
}

pub fn zero_extend(arena: &mut Arena<'_>, n: u64, t: TermPos) -> Result<TermPos, Full>
    requires { Ready (λ a. OfKind a 2 t.0 × width_at a t.0 + n ≤ 64) arena.old }
    ensures { Builds (λ a. zero_extend_t a n t.0) arena.old (term_reply result) arena.new }
{
    let width = width_of(arena, t);
    let ty = bitvec_type(arena, width.bits + n)?;
    extended(arena, n, t, ty)
}

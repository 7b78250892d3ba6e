// factory.rs, sets, and the operators of options and records.

#![tactic(auto, using(factory::proofs::Calls::term_pos))]

ghost use Rattle.std.specs.Prelude.{◌≡◌, true, ◌&&◌};
ghost use Rattle.arena.specs.Nodes.{kind_at};
ghost use Rattle.arena.specs.WellFormed.{is_term};
ghost use Rattle.arena.specs.Walks.{is_lit};
ghost use Rattle.nodes.specs.Builds.{nodes_of, Builds, term_reply};
ghost use Rattle.factory.specs.Fit.{Alike, OfKind, Ready};
ghost use Rattle.factory.specs.SetSteps.{is_set, empty_at, set_member, both_sets, set_subset, inter_of, set_inter, set_is_empty, not_empty, set_intersects, option_get, record_get};

use crate::lists::{common, contains, contains_all};
use arena::{TermPos, TypePos};
use factory_core::{eq, not};
use factory_makers::{BOOL, FALSE, TRUE, app1, app2, bool_at, both_literal, elem_of};
use nodes::{Arena, Full};
use runs::field;

pub mod lists;

// ---------- CVC theory of finite sets (`FS`) ----------

// Whether it is the literal empty set.
fn is_empty_set(arena: &Arena<'_>, t: TermPos) -> bool
    requires { Ready (λ a. is_term a t.0 ≡ true) arena.now }
    ensures { result ≡ empty_at (nodes_of arena.now) t.0 }
{
    if arena.kind_of(t.0) == 20 {
        return arena.members_of(t.0).len() == 0;
    }
    false
}

// Whether s is a set, and both are literals.
fn literal_in(arena: &Arena<'_>, t: TermPos, s: TermPos) -> bool
    requires { Ready (λ a. is_term a t.0 ≡ true × is_term a s.0 ≡ true) arena.now }
    ensures { result ≡ (is_set (nodes_of arena.now) s.0 && (is_lit (nodes_of arena.now) t.0 && is_lit (nodes_of arena.now) s.0)) }
{
    if arena.kind_of(s.0) == 20 {
        return both_literal(&arena.view(), t, s);
    }
    false
}

pub fn set_member(arena: &mut Arena<'_>, t: TermPos, s: TermPos) -> Result<TermPos, Full>
    requires { Ready (λ a. is_term a t.0 ≡ true × is_term a s.0 ≡ true) arena.old }
    ensures { Builds (λ a. set_member a t.0 s.0) arena.old (term_reply result) arena.new }
{
    if is_empty_set(arena, s) {
        return Ok(FALSE);
    }
    if literal_in(arena, t, s) {
        let members = arena.members_of(s.0);
        return Ok(bool_at(contains(members, t.0)));
    }
    app2(arena, 50, BOOL, t, s)
}

// Whether both are literal sets.
fn both_sets(arena: &Arena<'_>, s: TermPos, t: TermPos) -> bool
    requires { Ready (λ a. is_term a s.0 ≡ true × is_term a t.0 ≡ true) arena.now }
    ensures { result ≡ both_sets (nodes_of arena.now) s.0 t.0 }
{
    if arena.kind_of(s.0) == 20 {
        return literal_in(arena, s, t);
    }
    false
}

pub fn set_subset(arena: &mut Arena<'_>, s: TermPos, t: TermPos) -> Result<TermPos, Full>
    requires { Ready (λ a. is_term a s.0 ≡ true × is_term a t.0 ≡ true) arena.old }
    ensures { Builds (λ a. set_subset a s.0 t.0) arena.old (term_reply result) arena.new }
{
    if s == t {
        return Ok(TRUE);
    }
    if is_empty_set(arena, s) {
        return Ok(TRUE);
    }
    if both_sets(arena, s, t) {
        let left = arena.members_of(s.0);
        let right = arena.members_of(t.0);
        return Ok(bool_at(contains_all(right, left)));
    }
    app2(arena, 51, BOOL, s, t)
}

// The literal set of the members that both have. Memory is fixed: their run stands at the front of an array.
fn inter_of(arena: &mut Arena<'_>, s: TermPos, t: TermPos) -> Result<TermPos, Full>
    requires { Ready (λ a. kind_at a s.0 ≡ 20 × is_term a t.0 ≡ true) arena.old }
    ensures { Builds (λ a. inter_of a s.0 t.0) arena.old (term_reply result) arena.new }
{
    let ty = arena.type_of(s);
    let left = arena.members_of(s.0);
    let right = arena.members_of(t.0);
    let mut run = [0u64; 256];
    let n = common(left, right, &mut run);
    arena.term_node(20, ty, 0, &run[..n])
}

pub fn set_inter(arena: &mut Arena<'_>, s: TermPos, t: TermPos) -> Result<TermPos, Full>
    requires { Ready (λ a. is_term a s.0 ≡ true × is_term a t.0 ≡ true) arena.old }
    ensures { Builds (λ a. set_inter a s.0 t.0) arena.old (term_reply result) arena.new }
{
    if s == t {
        return Ok(s);
    }
    if is_empty_set(arena, s) {
        return Ok(s);
    }
    if is_empty_set(arena, t) {
        return Ok(t);
    }
    if both_sets(arena, s, t) {
        return inter_of(arena, s, t);
    }
    let ty = arena.type_of(s);
    app2(arena, 52, ty, s, t)
}

pub fn set_is_empty(arena: &mut Arena<'_>, s: TermPos) -> Result<TermPos, Full>
    requires { Ready (λ a. OfKind a 4 s.0) arena.old }
    ensures { Builds (λ a. set_is_empty a s.0) arena.old (term_reply result) arena.new }
{
    if arena.kind_of(s.0) == 20 {
        let empty = arena.members_of(s.0).len() == 0;
        return Ok(bool_at(empty));
    }
    let ty = arena.type_of(s);
    let e = arena.term_node(20, ty, 0, &[])?;
    eq(arena, s, e)
}

fn not_empty(arena: &mut Arena<'_>, s: TermPos) -> Result<TermPos, Full>
    requires { Ready (λ a. OfKind a 4 s.0) arena.old }
    ensures { Builds (λ a. not_empty a s.0) arena.old (term_reply result) arena.new }
{
    let e = set_is_empty(arena, s)?;
    not(arena, e)
}

pub fn set_intersects(arena: &mut Arena<'_>, s: TermPos, t: TermPos) -> Result<TermPos, Full>
    requires { Ready (λ a. OfKind a 4 s.0 × Alike a s.0 t.0) arena.old }
    ensures { Builds (λ a. set_intersects a s.0 t.0) arena.old (term_reply result) arena.new }
{
    let i = set_inter(arena, s, t)?;
    not_empty(arena, i)
}

// ---------- Core ADT operators with a trusted mapping to SMT ----------

pub fn option_get(arena: &mut Arena<'_>, t: TermPos) -> Result<TermPos, Full>
    requires { Ready (λ a. is_term a t.0 ≡ true) arena.old }
    ensures { Builds (λ a. option_get a t.0) arena.old (term_reply result) arena.new }
{
    if arena.kind_of(t.0) == 19 {
        return Ok(TermPos(arena.arg_of(t.0, 0)));
    }
    let ty = elem_of(&arena.view(), t);
    app1(arena, 55, ty, t)
}

// The attribute k, which the record's type has: without it `field_d` is 0, as in the code.
pub fn record_get(arena: &mut Arena<'_>, k: u64, t: TermPos) -> Result<TermPos, Full>
    requires { Ready (λ a. is_term a t.0 ≡ true) arena.old }
    ensures { Builds (λ a. record_get a k t.0) arena.old (term_reply result) arena.new }
{
    if arena.kind_of(t.0) == 21 {
        let members = arena.members_of(t.0);
        return Ok(TermPos(field(members, k).unwrap_or(0)));
    }
    let of = arena.type_of(t);
    let ty = TypePos(field(arena.members_of(of.0), k).unwrap_or(0));
    arena.term_node(156, ty, k, &[t.0])
}

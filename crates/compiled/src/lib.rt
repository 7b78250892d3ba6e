// The compiled operators on unwrapped terms, as compiler.rs builds them: `compile_app1`, `compile_record`, and `compile_has_attr` and
// `compile_get_attr` for records.

#![tactic(auto, using(factory::proofs::Calls::term_pos))]

ghost use Rattle.std.specs.Prelude.{◌≡◌, true, ◌*◌, ◌%◌, ◌≤◌, length};
ghost use Rattle.arena.specs.Lists.{all, evens, odds};
ghost use Rattle.arena.specs.Nodes.{out, ◌⨟◌};
ghost use Rattle.arena.specs.WellFormed.{small, is_term};
ghost use Rattle.arena.specs.Values.{tbool};
ghost use Rattle.arena.specs.Runs.{Holds};
ghost use Rattle.nodes.specs.Builds.{nodes_of, Builds, term_reply};
ghost use Rattle.factory.specs.Fit.{Typed, OfKind, Options, Ready};
ghost use Rattle.factory.specs.SetSteps.{record_get};
ghost use Rattle.compiler.specs.Compiler.{fields_at, compiled_not, neg_unless, compiled_neg, compiled_is_empty, gotten, inner as inner_of, if_all_given, record_if_all, compiled_record, has_some, compiled_has_attr, optioned as optionedBy, compiled_get_attr};
ghost use Rattle.arena.specs.Lists.{field};
ghost use Rattle.runs.specs.Fields.{given};
ghost use Rattle.compiler.specs.Buffers.{fields_reply, HoldsInner, HasField, OptionalField};
ghost use Rattle.table.specs.Table.{row};
ghost use Rattle.table.specs.Forms.{Passes};

use arena::TermPos;
use factory_bitvectors::{bvneg, bvnego};
use factory_core::not;
use factory_data::{option_get, record_get, set_is_empty};
use factory_helpers::{if_all_some, if_false, is_some};
use factory_makers::{FALSE, TRUE, record_of, some_of};
use nodes::{Arena, Full};
use runs::{field, nth};

// ---------- compile_app1 ----------

pub fn compile_not(arena: &mut Arena<'_>, t: TermPos) -> Result<TermPos, Full>
    requires { Ready (λ a. Typed a tbool t.0) arena.old }
    ensures { Builds (λ a. compiled_not a t.0) arena.old (term_reply result) arena.new }
{
    let n = not(arena, t)?;
    some_of(arena, n)
}

// The negation, and the choice.
fn neg_unless(arena: &mut Arena<'_>, g: TermPos, t: TermPos) -> Result<TermPos, Full>
    requires { Ready (λ a. Typed a tbool g.0 × OfKind a 2 t.0) arena.old }
    ensures { Builds (λ a. neg_unless a g.0 t.0) arena.old (term_reply result) arena.new }
{
    let n = bvneg(arena, t)?;
    if_false(arena, g, n)
}

// Whether it overflows comes first.
pub fn compile_neg(arena: &mut Arena<'_>, t: TermPos) -> Result<TermPos, Full>
    requires { Ready (λ a. OfKind a 2 t.0) arena.old }
    ensures { Builds (λ a. compiled_neg a t.0) arena.old (term_reply result) arena.new }
{
    let g = bvnego(arena, t)?;
    neg_unless(arena, g, t)
}

pub fn compile_is_empty(arena: &mut Arena<'_>, t: TermPos) -> Result<TermPos, Full>
    requires { Ready (λ a. OfKind a 4 t.0) arena.old }
    ensures { Builds (λ a. compiled_is_empty a t.0) arena.old (term_reply result) arena.new }
{
    let e = set_is_empty(arena, t)?;
    some_of(arena, e)
}

// ---------- compile_record ----------

// `option_get` of every listed field, also of one that a later field replaces: the fields with the inner terms, at the front of `inner`.
fn get_fields(arena: &mut Arena<'_>, list: &[u64], inner: &mut [u64]) -> Result<(), Full>
    requires ready { Ready (λ a. Options a (odds list.now)) arena.old }
    requires list_len { length list.now % 2 ≡ 0 }
    requires list_in_bounds { length list.now ≤ length inner.old }
    ensures did { Builds (λ a. out (gotten a list.now) 0) arena.old (fields_reply result) arena.new }
    ensures holds_inner { HoldsInner (inner_of (nodes_of arena.old) list.now) inner.old (length list.now) result inner.new }
{
    // by place, since what is promised of `inner` is by place
    for i in 0..list.len() / 2 {
        let p = option_get(arena, TermPos(list[2 * i + 1]))?;
        inner[2 * i] = list[2 * i];
        inner[2 * i + 1] = p.0;
    }
    Ok(())
}

// What the listed fields hold, at the front of `held`; how many: memory is fixed.
fn listed_options(list: &[u64], held: &mut [u64]) -> usize
    requires { length list.now ≤ 2 * length held.old }
    ensures { Holds (odds list.now) held.old result held.new }
{
    for i in 0..list.len() / 2 {
        held[i] = list[2 * i + 1];
    }
    list.len() / 2
}

// Some of the record r, if all listed options are.
fn if_all_given(arena: &mut Arena<'_>, gs: &[u64], r: TermPos) -> Result<TermPos, Full>
    requires { Ready (λ a. Options a gs.now × is_term a r.0 ≡ true) arena.old }
    ensures { Builds (λ a. if_all_given a gs.now r.0) arena.old (term_reply result) arena.new }
{
    let s = some_of(arena, r)?;
    if_all_some(arena, gs, s)
}

// The record of the fields, if all listed options are.
fn record_if_all(arena: &mut Arena<'_>, gs: &[u64], list: &[u64]) -> Result<TermPos, Full>
    requires ready { Ready (λ a. Options a gs.now × all (is_term a) (odds list.now) ≡ true × all small (evens list.now) ≡ true) arena.old }
    requires list_len_bound { length list.now ≤ 128 }
    ensures { Builds (λ a. record_if_all a gs.now list.now) arena.old (term_reply result) arena.new }
{
    let r = record_of(arena, list)?;
    if_all_given(arena, gs, r)
}

// Attribute and option of each field in turn.
pub fn compile_record(arena: &mut Arena<'_>, list: &[u64]) -> Result<TermPos, Full>
    requires ready { Ready (λ a. Options a (odds list.now) × all small (evens list.now) ≡ true) arena.old }
    requires list_len { length list.now % 2 ≡ 0 }
    requires list_len_bound { length list.now ≤ 128 }
    ensures { Builds (λ a. compiled_record a list.now) arena.old (term_reply result) arena.new }
{
    let mut held = [0u64; 64];
    let n = listed_options(list, &mut held);
    let mut inner = [0u64; 128];
    get_fields(arena, list, &mut inner)?;
    record_if_all(arena, &held[..n], &inner[..list.len()])
}

// ---------- compile_has_attr and compile_get_attr ----------

// The type of the attribute k in the record t, where it has one.
fn field_type(arena: &Arena<'_>, k: u64, t: TermPos) -> Option<u64>
    requires { Ready (λ a. OfKind a 5 t.0) arena.now }
    ensures { result ≡ given (field (fields_at (nodes_of arena.now) t.0) k) }
{
    let ty = arena.type_of(t);
    field(arena.members_of(ty.0), k)
}

// An optional field is there if it is some.
fn has_some(arena: &mut Arena<'_>, p: TermPos) -> Result<TermPos, Full>
    requires { Ready (λ a. OfKind a 3 p.0) arena.old }
    ensures { Builds (λ a. has_some a p.0) arena.old (term_reply result) arena.new }
{
    let s = is_some(arena, p)?;
    some_of(arena, s)
}

// Whether the optional field k is some.
fn has_optional(arena: &mut Arena<'_>, k: u64, t: TermPos) -> Result<TermPos, Full>
    requires { Ready (λ a. OptionalField a k t.0) arena.old }
    ensures { Builds (λ a. record_get a k t.0 ⨟ has_some) arena.old (term_reply result) arena.new }
{
    let p = record_get(arena, k, t)?;
    has_some(arena, p)
}

pub fn compile_has_attr(arena: &mut Arena<'_>, k: u64, t: TermPos) -> Result<TermPos, Full>
    requires { Ready (λ a. OfKind a 5 t.0 × small k ≡ true) arena.old }
    ensures { Builds (λ a. compiled_has_attr a k t.0) arena.old (term_reply result) arena.new }
{
    let Some(of) = field_type(arena, k, t) else {
        return some_of(arena, FALSE);
    };
    if arena.kind_of(of) == 3 {
        return has_optional(arena, k, t);
    }
    some_of(arena, TRUE)
}

// Put in some unless it is an option, as the definition `optioned` is told.
fn optioned(arena: &mut Arena<'_>, option: bool, p: TermPos) -> Result<TermPos, Full>
    requires { Ready (λ a. is_term a p.0 ≡ true) arena.old }
    ensures { Builds (λ a. optionedBy option a p.0) arena.old (term_reply result) arena.new }
{
    if option {
        return Ok(p);
    }
    some_of(arena, p)
}

// The attribute k, which the record's type has.
pub fn compile_get_attr(arena: &mut Arena<'_>, k: u64, t: TermPos) -> Result<TermPos, Full>
    requires { Ready (λ a. HasField a k t.0) arena.old }
    ensures { Builds (λ a. compiled_get_attr a k t.0) arena.old (term_reply result) arena.new }
{
    let of = field_type(arena, k, t).unwrap();
    let option = arena.kind_of(of) == 3;
    let p = record_get(arena, k, t)?;
    optioned(arena, option, p)
}

// Operations 70 to 75 by number, as in `dispatch`.
pub fn build_compiled(arena: &mut Arena<'_>, op: u64, par: u64, xs: &[u64]) -> Result<TermPos, Full>
    requires ready { Ready (λ a. Passes a op par xs.now) arena.old }
    requires le_op { 70 ≤ op × op ≤ 75 }
    ensures { Builds (λ a. (row op).build a par xs.now) arena.old (term_reply result) arena.new }
{
    let x = TermPos(nth(xs, 0));
    match op {
        70 => compile_not(arena, x),
        71 => compile_neg(arena, x),
        72 => compile_is_empty(arena, x),
        73 => compile_record(arena, xs),
        74 => compile_has_attr(arena, par, x),
        _ => compile_get_attr(arena, par, x),
    }
}

// The dispatcher, the factory's operations: each is decided by its number, and builds as the table says. Its number, parameter and operands stay apart, since
// each function takes the instruction to pieces; the numbers are the table's.

#![tactic(auto, using(factory::proofs::Calls::term_pos))]

ghost use Rattle.std.specs.Prelude.{◌≡◌, ◌≤◌, drop};
ghost use Rattle.nodes.specs.Builds.{Builds, term_reply, type_reply};
ghost use Rattle.factory.specs.Fit.{Ready};
ghost use Rattle.table.specs.Table.{row};
ghost use Rattle.table.specs.Forms.{Passes};

use arena::{TermPos, TypePos};
use nodes::{Arena, Full};
use runs::nth;

// The operands after the first.
pub fn rest(xs: &[u64]) -> &[u64]
    ensures { result.now ≡ drop 1 xs.now }
{
    if xs.len() == 0 {
        return xs;
    }
    &xs[1..]
}

// Types: 1 to 5.
pub fn build_type(arena: &mut Arena<'_>, op: u64, par: u64, xs: &[u64]) -> Result<TypePos, Full>
    requires ready { Ready (λ a. Passes a op par xs.now) arena.old }
    requires le_op { 1 ≤ op × op ≤ 5 }
    ensures { Builds (λ a. (row op).build a par xs.now) arena.old (type_reply result) arena.new }
{
    let ty = TypePos(nth(xs, 0));
    match op {
        1 => arena.type_node(1, 0, &[]),
        2 => factory_makers::bitvec_type(arena, par),
        3 => factory_makers::option_type(arena, ty),
        4 => factory_makers::set_type(arena, ty),
        _ => factory_makers::record_type(arena, xs),
    }
}

// Makers: 10 to 16.
pub fn build_maker(arena: &mut Arena<'_>, op: u64, par: u64, xs: &[u64]) -> Result<TermPos, Full>
    requires ready { Ready (λ a. Passes a op par xs.now) arena.old }
    requires le_op { 10 ≤ op × op ≤ 16 }
    ensures { Builds (λ a. (row op).build a par xs.now) arena.old (term_reply result) arena.new }
{
    let x = nth(xs, 0);
    match op {
        10 => Ok(factory_makers::bool_at(par == 1)),
        11 => factory_makers::bitvec_lit(arena, TypePos(x), par),
        12 => factory_makers::none_of(arena, TypePos(x)),
        13 => factory_makers::some_of(arena, TermPos(x)),
        14 => factory_makers::set_of(arena, TypePos(x), rest(xs)),
        15 => factory_makers::record_of(arena, xs),
        _ => factory_makers::variable(arena, par, TypePos(x)),
    }
}

// Core: 20 to 26.
pub fn build_core(arena: &mut Arena<'_>, op: u64, par: u64, xs: &[u64]) -> Result<TermPos, Full>
    requires ready { Ready (λ a. Passes a op par xs.now) arena.old }
    requires le_op { 20 ≤ op × op ≤ 26 }
    ensures { Builds (λ a. (row op).build a par xs.now) arena.old (term_reply result) arena.new }
{
    let x = nth(xs, 0);
    let y = TermPos(nth(xs, 1));
    match op {
        20 => factory_core::not(arena, TermPos(x)),
        21 => factory_core::and(arena, TermPos(x), y),
        22 => factory_core::or(arena, TermPos(x), y),
        23 => factory_core::implies(arena, TermPos(x), y),
        24 => factory_core::eq(arena, TermPos(x), y),
        25 => factory_core::ite(arena, TermPos(x), y, TermPos(nth(xs, 2))),
        _ => factory_makers::uninterpreted(arena, par, TypePos(x), y),
    }
}

// Bitvectors: 30 to 49.
pub fn build_bitvector(
    arena: &mut Arena<'_>,
    op: u64,
    par: u64,
    xs: &[u64],
) -> Result<TermPos, Full>
    requires ready { Ready (λ a. Passes a op par xs.now) arena.old }
    requires le_op { 30 ≤ op × op ≤ 49 }
    ensures { Builds (λ a. (row op).build a par xs.now) arena.old (term_reply result) arena.new }
{
    let x = TermPos(nth(xs, 0));
    let y = TermPos(nth(xs, 1));
    if op <= 30 {
        return factory_bitvectors::bvneg(arena, x);
    }
    if op <= 40 {
        return factory_bitvectors::bvapp(arena, op, x, y);
    }
    if op <= 44 {
        return factory_bitvectors::bvcmp(arena, op, x, y);
    }
    if op <= 45 {
        return factory_bitvectors::bvnego(arena, x);
    }
    if op <= 48 {
        return factory_bitvectors::bvso(arena, op, x, y);
    }
    factory_bitvectors::zero_extend(arena, par, x)
}

// Sets, options and records: 50 to 56.
pub fn build_data(arena: &mut Arena<'_>, op: u64, par: u64, xs: &[u64]) -> Result<TermPos, Full>
    requires ready { Ready (λ a. Passes a op par xs.now) arena.old }
    requires le_op { 50 ≤ op × op ≤ 56 }
    ensures { Builds (λ a. (row op).build a par xs.now) arena.old (term_reply result) arena.new }
{
    let x = TermPos(nth(xs, 0));
    let y = TermPos(nth(xs, 1));
    match op {
        50 => factory_data::set_member(arena, x, y),
        51 => factory_data::set_subset(arena, x, y),
        52 => factory_data::set_inter(arena, x, y),
        53 => factory_data::set_is_empty(arena, x),
        54 => factory_data::set_intersects(arena, x, y),
        55 => factory_data::option_get(arena, x),
        _ => factory_data::record_get(arena, par, x),
    }
}

// Helpers: 60 to 66.
pub fn build_helper(arena: &mut Arena<'_>, op: u64, par: u64, xs: &[u64]) -> Result<TermPos, Full>
    requires ready { Ready (λ a. Passes a op par xs.now) arena.old }
    requires le_op { 60 ≤ op × op ≤ 66 }
    ensures { Builds (λ a. (row op).build a par xs.now) arena.old (term_reply result) arena.new }
{
    let x = TermPos(nth(xs, 0));
    let y = TermPos(nth(xs, 1));
    match op {
        60 => factory_helpers::is_none(arena, x),
        61 => factory_helpers::is_some(arena, x),
        62 => factory_helpers::if_false(arena, x, y),
        63 => factory_helpers::if_true(arena, x, y),
        64 => factory_helpers::if_some(arena, x, y),
        65 => factory_helpers::any_none(arena, xs),
        _ => factory_helpers::if_all_some(arena, rest(xs), x),
    }
}

// The checked constructors of factory.rs, the types and the literals, over a lent arena. Each function of the factory builds the nodes that the Rust's text
// names, in the order in which Rust evaluates it, and answers the term, or that there is no room.

#![tactic(auto, using(factory::proofs::Calls::term_pos))]

ghost use Rattle.std.specs.Prelude.{◌≡◌, true, ◌&&◌, [], ◌∷◌, ◌≤◌, ◌%◌, length};
ghost use Rattle.arena.specs.WellFormed.{small, is_type, is_term};
ghost use Rattle.arena.specs.Walks.{is_lit, set_free};
ghost use Rattle.arena.specs.Lists.{all, evens, odds};
ghost use Rattle.arena.specs.View.{nodes_of as seen_nodes};
ghost use Rattle.nodes.specs.Builds.{nodes_of, Formed, Builds, term_reply, type_reply};
ghost use Rattle.factory.specs.Fit.{Ready};
ghost use Rattle.factory.specs.Makers.{bool_at, bitvec_type, option_type, set_type, record_type, bitvec_lit, variable as variableOf, none_of, some_of, set_of, record_of, app};
ghost use Rattle.factory.specs.Core.{uninterpreted as uninterpretedOf};
ghost use Rattle.arena.specs.Nodes.{elem_at, field_types};
ghost use Rattle.arena.specs.Runs.{Holds};

use arena::cells::View;
use arena::{TermPos, TypePos};
use nodes::{Arena, Full};
use sorting::{fields, sorted};
use walks::is_literal;

// Where Bool, false and true stand in every arena.
pub const BOOL: TypePos = TypePos(0);

pub const FALSE: TermPos = TermPos(4);

pub const TRUE: TermPos = TermPos(8);

pub fn bool_at(b: bool) -> TermPos
    ensures { result.0 ≡ bool_at b }
{
    if b { TRUE } else { FALSE }
}

// Whether both are literals.
pub fn both_literal(nodes: &View<'_>, t: TermPos, u: TermPos) -> bool
    requires left { is_term (seen_nodes nodes.now) t.0 ≡ true }
    requires right { is_term (seen_nodes nodes.now) u.0 ≡ true }
    ensures { result ≡ (is_lit (seen_nodes nodes.now) t.0 && is_lit (seen_nodes nodes.now) u.0) }
{
    if is_literal(nodes, t.0 as usize) {
        return is_literal(nodes, u.0 as usize);
    }
    false
}

// The element type of an option or a set.
pub fn elem_of(nodes: &View<'_>, t: TermPos) -> TypePos
    requires { is_term (seen_nodes nodes.now) t.0 ≡ true }
    ensures { result.0 ≡ elem_at (seen_nodes nodes.now) t.0 }
{
    let ty = nodes.type_of(t);
    TypePos(nodes.arg_of(ty.0, 0))
}

// ---------- Types ----------

pub fn bitvec_type(arena: &mut Arena<'_>, width: u64) -> Result<TypePos, Full>
    requires { Formed arena.old }
    ensures { Builds (λ a. bitvec_type a width) arena.old (type_reply result) arena.new }
{
    arena.type_node(2, width, &[])
}

pub fn option_type(arena: &mut Arena<'_>, ty: TypePos) -> Result<TypePos, Full>
    requires { Formed arena.old }
    ensures { Builds (λ a. option_type a ty.0) arena.old (type_reply result) arena.new }
{
    arena.type_node(3, 0, &[ty.0])
}

pub fn set_type(arena: &mut Arena<'_>, ty: TypePos) -> Result<TypePos, Full>
    requires { Formed arena.old }
    ensures { Builds (λ a. set_type a ty.0) arena.old (type_reply result) arena.new }
{
    arena.type_node(4, 0, &[ty.0])
}

// Attribute and type of each field in turn.
pub fn record_type(arena: &mut Arena<'_>, fields: &[u64]) -> Result<TypePos, Full>
    requires { Formed arena.old }
    ensures { Builds (λ a. record_type a fields.now) arena.old (type_reply result) arena.new }
{
    arena.type_node(5, 0, fields)
}

// ---------- Checked term constructors ----------

// The run of fields with each term's type in the term's place, at the front of `types`.
fn field_types(arena: &Arena<'_>, run: &[u64], types: &mut [u64])
    requires ready { Ready (λ a. all (is_term a) (odds run.now) ≡ true) arena.now }
    requires run_len { length run.now % 2 ≡ 0 }
    requires run_in_bounds { length run.now ≤ length types.old }
    ensures { Holds (field_types (nodes_of arena.now) run.now) types.old (length run.now) types.new }
{
    // by place, since what is promised of `types` is by place
    for i in 0..run.len() / 2 {
        types[2 * i] = run[2 * i];
        types[2 * i + 1] = arena.type_of(TermPos(run[2 * i + 1])).0;
    }
}

pub fn none_of(arena: &mut Arena<'_>, ty: TypePos) -> Result<TermPos, Full>
    requires { Ready (λ a. is_type a ty.0 ≡ true) arena.old }
    ensures { Builds (λ a. none_of a ty.0) arena.old (term_reply result) arena.new }
{
    arena.typed_node(3, 0, &[ty.0], 18, 0, &[])
}

pub fn some_of(arena: &mut Arena<'_>, t: TermPos) -> Result<TermPos, Full>
    requires { Ready (λ a. is_term a t.0 ≡ true) arena.old }
    ensures { Builds (λ a. some_of a t.0) arena.old (term_reply result) arena.new }
{
    let of = [arena.type_of(t).0];
    arena.typed_node(3, 0, &of, 19, 0, &[t.0])
}

// Members by position, without duplicates. A run stands at the front of an array, since memory is fixed and there is no heap.
pub fn set_of(arena: &mut Arena<'_>, ty: TypePos, terms: &[u64]) -> Result<TermPos, Full>
    requires ready { Ready (λ a. is_type a ty.0 ≡ true × set_free a ty.0 ≡ true) arena.old }
    requires terms_len_bound { length terms.now ≤ 256 }
    ensures { Builds (λ a. set_of a ty.0 terms.now) arena.old (term_reply result) arena.new }
{
    let mut run = [0u64; 256];
    let n = sorted(terms, &mut run);
    arena.typed_node(4, 0, &[ty.0], 20, 0, &run[..n])
}

// Attribute and term of each field in turn; of equal attributes the last wins. Their runs stand as in `set_of`.
pub fn record_of(arena: &mut Arena<'_>, list: &[u64]) -> Result<TermPos, Full>
    requires ready { Ready (λ a. all (is_term a) (odds list.now) ≡ true × all small (evens list.now) ≡ true) arena.old }
    requires list_len_bound { length list.now ≤ 128 }
    ensures { Builds (λ a. record_of a list.now) arena.old (term_reply result) arena.new }
{
    let mut run = [0u64; 128];
    let n = fields(list, &mut run);
    let mut types = [0u64; 128];
    field_types(arena, &run[..n], &mut types);
    arena.typed_node(5, 0, &types[..n], 21, 0, &run[..n])
}

// A bitvector literal of a Bitvec type.
pub fn bitvec_lit(arena: &mut Arena<'_>, ty: TypePos, v: u64) -> Result<TermPos, Full>
    requires { Formed arena.old }
    ensures { Builds (λ a. bitvec_lit a ty.0 v) arena.old (term_reply result) arena.new }
{
    arena.term_node(17, ty, v, &[])
}

pub fn variable(arena: &mut Arena<'_>, id: u64, ty: TypePos) -> Result<TermPos, Full>
    requires { Formed arena.old }
    ensures { Builds (λ a. variableOf a id ty.0) arena.old (term_reply result) arena.new }
{
    arena.term_node(22, ty, id, &[])
}

// ---------- Applications ----------

// Term::App of an operation with no parameter.
pub fn app1(arena: &mut Arena<'_>, op: u64, ty: TypePos, t: TermPos) -> Result<TermPos, Full>
    requires arena { Formed arena.old }
    requires op_bound { op ≤ 99 }
    ensures { Builds (λ a. app a op ty.0 (t.0 ∷ [])) arena.old (term_reply result) arena.new }
{
    arena.term_node(100 + op, ty, 0, &[t.0])
}

pub fn app2(
    arena: &mut Arena<'_>,
    op: u64,
    ty: TypePos,
    t: TermPos,
    u: TermPos,
) -> Result<TermPos, Full>
    requires arena { Formed arena.old }
    requires op_bound { op ≤ 99 }
    ensures { Builds (λ a. app a op ty.0 (t.0 ∷ u.0 ∷ [])) arena.old (term_reply result) arena.new }
{
    arena.term_node(100 + op, ty, 0, &[t.0, u.0])
}

// `app` of an uninterpreted function.
pub fn uninterpreted(
    arena: &mut Arena<'_>,
    id: u64,
    ty: TypePos,
    t: TermPos,
) -> Result<TermPos, Full>
    requires { Formed arena.old }
    ensures { Builds (λ a. uninterpretedOf a id ty.0 t.0) arena.old (term_reply result) arena.new }
{
    arena.term_node(126, ty, id, &[t.0])
}

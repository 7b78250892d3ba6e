// The test of each kind of node over the nodes below it.

#![tactic(auto)]

ghost use Rattle.std.specs.Prelude.{◌≡◌, cond, length, get_or};
ghost use Rattle.arena.specs.Lists.{every};
ghost use Rattle.arena.specs.Nodes.{paired};
ghost use Rattle.arena.specs.View.{nodes_of};
ghost use Rattle.arena.specs.WellFormed.{field_run, placed, type_test, maker_test, core_test, bv_test, data_test, kind_test};
ghost use Rattle.node_tests.specs.Decide.{ElemType};

use arena::Node;
use node_tests::Want;
use node_tests::looks::Seen;
use node_tests::tests::{fits_width, is_sum};
use runs::{field, field_run, nth, rises};
use walks::{has_fields, set_free};

// 1 Bool, 2 Bitvec, 3 Option, 4 Set, 5 Record.
#[tactic(auto, unfolding(arena::specs::Lists::every, arena::specs::WellFormed::type_test))]
fn type_ok(seen: &Seen, n: &Node) -> bool
    requires { n.now.kind ≡ 4 → ElemType (nodes_of seen.now.nodes) n.now.members.now }
    ensures { result ≡ type_test (nodes_of seen.now.nodes) n.now.kind n.now.par n.now.members.now (get_or n.now.members.now 0 0) }
{
    let count = n.members.len();
    match n.kind {
        1 => count == 0 && n.par == 0,
        2 => count == 0 && 1 <= n.par && n.par <= 64,
        3 => count == 1 && n.par == 0,
        4 => count == 1 && n.par == 0 && set_free(&seen.nodes, n.members[0] as usize),
        _ => n.kind == 5 && n.par == 0 && field_run(n.members),
    }
}

// 16 bool literal, 17 bitvec literal, 18 None, 19 Some, 20 Set, 21 Record, 22 variable.
#[tactic(auto, unfolding(arena::specs::Lists::every, arena::specs::WellFormed::maker_test))]
fn maker_ok(seen: &Seen, n: &Node) -> bool
    ensures { result ≡ maker_test (nodes_of seen.now.nodes) n.now.kind n.now.ty n.now.par n.now.members.now (get_or n.now.members.now 0 0) }
{
    let count = n.members.len();
    match n.kind {
        16 => count == 0 && n.par <= 1 && n.ty == 0,
        17 => count == 0 && seen.kind_at(n.ty) == 2 && fits_width(n.par, seen.par_at(n.ty)),
        18 => count == 0 && n.par == 0 && seen.kind_at(n.ty) == 3,
        19 => count == 1
            && n.par == 0
            && seen.kind_at(n.ty) == 3
            && seen.type_at(nth(n.members, 0)) == seen.elem_at(n.ty),
        20 => count <= 256
            && n.par == 0
            && seen.kind_at(n.ty) == 4
            && rises(n.members, 1)
            && seen.all_suit(Want::Of(seen.elem_at(n.ty)), n.members, 1),
        21 => field_run(n.members)
            && n.par == 0
            && seen.kind_at(n.ty) == 5
            && seen.fields_typed(seen.members_at(n.ty), n.members),
        _ => n.kind == 22 && count == 0 && n.par < 4294967296,
    }
}

// 120 not, 121 and, 122 or, 124 eq, 125 ite, 126 uninterpreted.
#[tactic(auto, unfolding(arena::specs::Lists::every, arena::specs::WellFormed::core_test))]
fn core_ok(seen: &Seen, n: &Node) -> bool
    ensures { result ≡ core_test (nodes_of seen.now.nodes) n.now.kind n.now.ty n.now.par (length n.now.members.now) (get_or n.now.members.now 0 0) (get_or n.now.members.now 1 0) (get_or n.now.members.now 2 0) }
{
    let count = n.members.len();
    let tx = seen.type_at(nth(n.members, 0));
    let ty = seen.type_at(nth(n.members, 1));
    let tz = seen.type_at(nth(n.members, 2));
    match n.kind {
        120 => count == 1 && n.par == 0 && n.ty == 0 && tx == 0,
        121 => count == 2 && n.par == 0 && n.ty == 0 && tx == 0 && ty == 0,
        122 => count == 2 && n.par == 0 && n.ty == 0 && tx == 0 && ty == 0,
        124 => count == 2 && n.par == 0 && n.ty == 0 && ty == tx,
        125 => count == 3 && n.par == 0 && tx == 0 && ty == n.ty && tz == n.ty,
        _ => n.kind == 126 && count == 1 && n.par < 4294967296,
    }
}

// 130 neg, 131 to 140 with a bitvector, 141 to 148 with a Bool (145 nego has one operand), 149 zero_extend.
#[tactic(auto, unfolding(arena::specs::Lists::every, arena::specs::WellFormed::bv_test))]
fn bv_ok(seen: &Seen, n: &Node) -> bool
    ensures { result ≡ bv_test (nodes_of seen.now.nodes) n.now.kind n.now.ty n.now.par (length n.now.members.now) (get_or n.now.members.now 0 0) (get_or n.now.members.now 1 0) }
{
    let count = n.members.len();
    let tx = seen.type_at(nth(n.members, 0));
    let ty = seen.type_at(nth(n.members, 1));
    match n.kind {
        130 => count == 1 && n.par == 0 && seen.kind_at(n.ty) == 2 && tx == n.ty,
        ..=140 => count == 2 && n.par == 0 && seen.kind_at(n.ty) == 2 && tx == n.ty && ty == n.ty,
        145 => count == 1 && n.par == 0 && n.ty == 0 && seen.kind_at(tx) == 2,
        149 => count == 1
            && seen.kind_at(n.ty) == 2
            && seen.kind_at(tx) == 2
            && is_sum(seen.par_at(n.ty), seen.par_at(tx), n.par),
        _ => count == 2 && n.par == 0 && n.ty == 0 && seen.kind_at(tx) == 2 && ty == tx,
    }
}

// 150 member, 151 subset, 152 inter, 155 option_get, 156 record_get.
#[tactic(auto, using(runs::proofs::Given::given_holds), unfolding(arena::specs::Lists::every, arena::specs::WellFormed::data_test))]
fn data_ok(seen: &Seen, n: &Node) -> bool
    ensures { result ≡ data_test (nodes_of seen.now.nodes) n.now.kind n.now.ty n.now.par (length n.now.members.now) (get_or n.now.members.now 0 0) (get_or n.now.members.now 1 0) }
{
    let count = n.members.len();
    let tx = seen.type_at(nth(n.members, 0));
    let ty = seen.type_at(nth(n.members, 1));
    match n.kind {
        150 => count == 2
            && n.par == 0
            && n.ty == 0
            && seen.kind_at(ty) == 4
            && tx == seen.elem_at(ty),
        151 => count == 2 && n.par == 0 && n.ty == 0 && seen.kind_at(tx) == 4 && ty == tx,
        152 => count == 2 && n.par == 0 && seen.kind_at(n.ty) == 4 && tx == n.ty && ty == n.ty,
        155 => count == 1 && n.par == 0 && seen.kind_at(tx) == 3 && seen.elem_at(tx) == n.ty,
        _ => n.kind == 156
            && count == 1
            && n.par < 4294967296
            && seen.kind_at(tx) == 5
            && field(seen.members_at(tx), n.par) == Some(n.ty),
    }
}

// Types, counts and parameters, by ranges of kinds.
#[tactic(auto, unfolding(arena::specs::WellFormed::kind_test))]
pub fn kind_ok(seen: &Seen, n: &Node) -> bool
    requires { n.now.kind ≡ 4 → ElemType (nodes_of seen.now.nodes) n.now.members.now }
    ensures { result ≡ kind_test (nodes_of seen.now.nodes) n.now.kind n.now.ty n.now.par n.now.members.now (get_or n.now.members.now 0 0) (get_or n.now.members.now 1 0) (get_or n.now.members.now 2 0) }
{
    match n.kind {
        ..=15 => type_ok(seen, n),
        ..=99 => maker_ok(seen, n),
        ..=129 => core_ok(seen, n),
        ..=149 => bv_ok(seen, n),
        _ => data_ok(seen, n),
    }
}

// How far apart the positions among a node's members are.
fn stride(kind: u64) -> usize
    ensures { result ≡ cond (paired kind) 2 1 }
{
    if has_fields(kind) { 2 } else { 1 }
}

// Whether every position in the node is lower and of the right sort.
#[tactic(auto, using(node_tests::proofs::Arms::held_positions), unfolding(arena::specs::Lists::every, arena::specs::WellFormed::placed))]
pub fn placed_ok(seen: &Seen, n: &Node) -> bool
    ensures { result ≡ placed (nodes_of seen.now.nodes) n.now.kind n.now.ty n.now.members.now }
{
    let step = stride(n.kind);
    if n.kind <= 15 {
        n.ty == 0 && seen.all_suit(Want::Kind, n.members, step)
    } else {
        seen.suits(Want::Kind, n.ty) && seen.all_suit(Want::Term, n.members, step)
    }
}

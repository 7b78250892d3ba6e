// The two tests that recurse over members: is a term a literal, is a type free of sets. Shared nodes are visited once.

#![tactic(auto)]

ghost use Rattle.std.specs.Prelude.{◌≡◌, true, ◌<◌, ◌≤◌, length, get_or};
ghost use Rattle.arena.specs.Nodes.{kind_at, node_at, paired, args};
ghost use Rattle.arena.specs.View.{nodes_of};
ghost use Rattle.arena.specs.Walks.{is_lit, set_free};
ghost use Rattle.arena.specs.WellFormed.{is_type, is_term};
ghost use Rattle.arena.specs.Visit.{Known, Walked};

use arena::cells::View;

// Whether a node of this kind has fields, attribute and position in turn.
pub fn has_fields(kind: u64) -> bool
    ensures { result ≡ paired kind }
{
    kind == 5 || kind == 21
}

// How many positions the node at `at` has as members.
fn arg_count(nodes: &View<'_>, at: u64) -> usize
    requires { 1 ≤ kind_at (nodes_of nodes.now) at }
    ensures { result ≡ length (args (node_at (nodes_of nodes.now) at)) }
{
    let n = nodes.members_of(at).len();
    if has_fields(nodes.kind_of(at)) {
        return n / 2;
    }
    n
}

// The position that is member i of the node at `at`.
fn arg_at(nodes: &View<'_>, at: u64, i: usize) -> u64
    requires stands { 1 ≤ kind_at (nodes_of nodes.now) at }
    requires i_in_bounds { i < length (args (node_at (nodes_of nodes.now) at)) }
    ensures { result ≡ get_or (args (node_at (nodes_of nodes.now) at)) i 0 }
{
    if has_fields(nodes.kind_of(at)) {
        return nodes.arg_of(at, 2 * i + 1);
    }
    nodes.arg_of(at, i)
}

// Whether neither a set nor a variable or application is reached from `at` by way of members. A type's members are types, a
// term's are terms, so this one walk decides both tests. A node that has passed has its flag set.
fn walk(nodes: &View<'_>, flags: &mut [bool], at: u64) -> bool
    requires stands { 1 ≤ kind_at (nodes_of nodes.now) at }
    requires known { Known (nodes_of nodes.now) flags.old }
    ensures { Walked (nodes_of nodes.now) at result flags.new }
{
    let kind = nodes.kind_of(at);
    if kind == 4 {
        return false;
    }
    if kind > 21 {
        return false;
    }
    let slot = at as usize / 4;
    if flags[slot] {
        return true;
    }
    let n = arg_count(nodes, at);
    for i in 0..n {
        let x = arg_at(nodes, at, i);
        if !walk(nodes, flags, x) {
            return false;
        }
    }
    flags[slot] = true;
    true
}

// Whether the term at `at` is a literal.
pub fn is_literal(nodes: &View<'_>, at: usize) -> bool
    requires { is_term (nodes_of nodes.now) at ≡ true }
    ensures { result ≡ is_lit (nodes_of nodes.now) at }
{
    let kind = nodes.kind_of(at as u64);
    if kind <= 18 {
        return true;
    }
    if kind > 21 {
        return false;
    }
    let mut flags = [false; 16384];
    walk(nodes, &mut flags, at as u64)
}

// Whether the type at `at` contains no set at any depth.
pub fn set_free(nodes: &View<'_>, at: usize) -> bool
    requires { is_type (nodes_of nodes.now) at ≡ true }
    ensures { result ≡ set_free (nodes_of nodes.now) at }
{
    let kind = nodes.kind_of(at as u64);
    if kind == 4 {
        return false;
    }
    if kind <= 2 {
        return true;
    }
    let mut flags = [false; 16384];
    walk(nodes, &mut flags, at as u64)
}

// Whether lent cells are a well-formed arena: the test of refusal 1.

#![tactic(auto)]

ghost use Rattle.std.specs.Prelude.{◌≡◌, true, ◌≤◌, length, take};
ghost use Rattle.arena.specs.Lists.{same_list};
ghost use Rattle.arena.specs.Nodes.{fresh};
ghost use Rattle.arena.specs.Cells.{cells as cells_in, used, node_here, after};
ghost use Rattle.arena.specs.View.{nodes_of};
ghost use Rattle.arena.specs.WellFormed.{good_node, absent, formed, Below};
ghost use Rattle.node_tests.specs.Decide.{First};

use arena::cells::{View, read};
use node_kinds::{kind_ok, placed_ok};
use node_tests::looks::Seen;

// Whether no node below q has the cells of the good node at q. It would stand above the last member, so the search begins there; behind a count
// of 0 stands no member, and the count itself is where the first node starts. The search is most of the test's time, and a call of its own keeps
// what it compares with in registers.
#[inline(never)]
#[tactic(auto, using(arena::proofs::Scan::scan_fits))]
fn is_new(cells: &[u64], q: usize) -> bool
    requires below { Below cells.now q }
    requires q_in_bounds { after cells.now q ≤ length cells.now }
    requires q_value { good_node (used cells.now q) (node_here cells.now q) ≡ true }
    ensures { result ≡ absent (used cells.now q) (node_here cells.now q) }
{
    let node = read(cells, q);
    let last = q + 3 + cells[q + 3] as usize;
    let mut p = cells[last] as usize;
    // each node says how far the next is: an iterator would have this loop's body as its `next`, and be no plainer
    while p < q {
        let other = read(cells, p);
        if other.same(&node) {
            return false;
        }
        p += 4 + other.members.len();
    }
    true
}

// Whether the node at the mark is good over the nodes below it.
#[tactic(auto, using(node_tests::proofs::Arms::elem_type), unfolding(arena::specs::Lists::every, arena::specs::WellFormed::good_node))]
fn good_node(seen: &Seen) -> bool
    requires { after seen.now.nodes.cells.now seen.now.nodes.mark ≤ length seen.now.nodes.cells.now }
    ensures { result ≡ good_node (nodes_of seen.now.nodes) (node_here seen.now.nodes.cells.now seen.now.nodes.mark) }
{
    let node = read(seen.nodes.cells, seen.nodes.mark);
    placed_ok(seen, &node) && kind_ok(seen, &node)
}

// Whether good new nodes fill the cells from 12 up to the mark.
fn nodes_follow(cells: &[u64], mark: usize, starts: &mut [u8]) -> bool
    requires { First cells.now mark starts.old }
    ensures { result ≡ formed cells.now mark }
{
    let mut q: usize = 12;
    // the next node's place follows from this one's count, as in is_new
    while q < mark {
        if mark - q < 4 {
            return false;
        }
        let n = cells[q + 3];
        if n > (mark - q - 4) as u64 {
            return false;
        }
        let nodes = View { cells, mark: q };
        let seen = Seen { nodes, starts };
        if !good_node(&seen) || !is_new(cells, q) {
            return false;
        }
        starts[q / 4] = (q % 4 + 1) as u8;
        q += 4 + n as usize;
    }
    true
}

// Whether Bool, false and true stand first.
fn starts_fresh(cells: &[u64]) -> bool
    requires { 12 ≤ length cells.now }
    ensures { result ≡ same_list (take 12 cells.now) (cells_in fresh) }
{
    cells.starts_with(&[1, 0, 0, 0, 16, 0, 0, 0, 16, 0, 1, 0])
}

// Whether the lent cells and the mark are a well-formed arena. They come apart: a `View` is what they are once they have passed.
pub fn is_formed(cells: &[u64], mark: u64) -> bool
    ensures { result ≡ formed cells.now mark }
{
    if !(12..=65536).contains(&cells.len()) {
        return false;
    }
    if !(12..=cells.len() as u64).contains(&mark) {
        return false;
    }
    let m = mark as usize;
    if !runs::zeros_from(cells, m) {
        return false;
    }
    if !starts_fresh(cells) {
        return false;
    }
    // a byte for four cells: there is no heap, and an arena has 65,536 cells at most
    let mut starts = [0u8; 16384];
    starts[0] = 1;
    starts[1] = 1;
    starts[2] = 1;
    nodes_follow(cells, m, &mut starts)
}

// The lent cells: made fresh, cleared, and read. Every function here scans or reads; none but `fresh` and `clear_back` writes.
ghost use Rattle.std.specs.Prelude.{◌≡◌, ◌≤◌, length};
ghost use Rattle.arena.specs.Nodes.{kind_at, type_at, par_at, mem_at, arg_at};
ghost use Rattle.arena.specs.Cells.{node_here, after};
ghost use Rattle.arena.specs.WellFormed.{Below, is_term, is_type};
ghost use Rattle.arena.specs.Fresh.{cleared, fresh_answer, fresh_cells};
ghost use Rattle.arena.specs.Node.{node_of};

use crate::{HEADER, Node, TermPos, TypePos};

// Zeros from the mark on: where no cell below it changed, the arena is as it was.
pub fn clear_back(cells: &mut [u64], mark: usize)
    ensures { cells.new ≡ cleared cells.old mark }
{
    if mark < cells.len() {
        cells[mark..].fill(0);
    }
}

// Bool, false, true, and zeros. The answer is the mark; there is none for a length that is not allowed.
pub fn fresh(cells: &mut [u64]) -> Option<usize>
    ensures answer { result ≡ fresh_answer cells.old }
    ensures left { cells.new ≡ fresh_cells cells.old }
{
    if cells.len() < 12 {
        return None;
    }
    if cells.len() > 65536 {
        return None;
    }
    clear_back(cells, 0);
    cells[0] = 1;
    cells[4] = 16;
    cells[8] = 16;
    cells[10] = 1;
    Some(12)
}

// The node whose cells begin at p. The searches call it at each node, so it is inlined there.
#[inline]
#[tactic(auto, unfolding(crate::specs::Cells::node_here))]
pub fn read(cells: &[u64], p: usize) -> Node<'_>
    requires { after cells.now p ≤ length cells.now }
    ensures { node_of result ≡ node_here cells.now p }
{
    let from = p + HEADER;
    let end = from + cells[p + 3] as usize;
    Node {
        par: cells[p + 2],
        ty: cells[p + 1],
        kind: cells[p],
        members: &cells[from..end],
    }
}

// The cells below a mark are nodes, to read.
#[derive(Clone, Copy)]
pub struct View<'a> {
    pub cells: &'a [u64],
    pub mark: usize,
    ghost below: { Below cells.now mark },
}

impl<'a> View<'a> {
    ghost use Rattle.arena.specs.View.{nodes_of};

    // The kind of the node that starts at p, 0 where none does. The walk begins at the node that starts at `from`, where p is not below it. A node's
    // cells say how far the next one is: an iterator would hold this body as its `next`.
    #[tactic(auto, using(crate::proofs::Starts::past_fits))]
    pub fn kind_from(&self, from: u64, p: u64) -> u64
        requires { 1 ≤ kind_at (nodes_of self.now) from }
        ensures { result ≡ kind_at (nodes_of self.now) p }
    {
        let mut at: usize = if p < from { 0 } else { from as usize };
        while at < self.mark {
            if p < at as u64 {
                return 0;
            }
            if p == at as u64 {
                return self.cells[at];
            }
            at += HEADER + self.cells[at + 3] as usize;
        }
        0
    }

    // The kind of the node that starts at p, 0 where none does: p is any number. No kind is 0, and the definition `kind_at` gives it too.
    pub fn kind_at(&self, p: u64) -> u64
        ensures { result ≡ kind_at (nodes_of self.now) p }
    {
        self.kind_from(0, p)
    }

    // Whether a term starts at p.
    pub fn is_term(&self, p: u64) -> bool
        ensures { result ≡ is_term (nodes_of self.now) p }
    {
        16 <= self.kind_at(p)
    }

    // Whether a type starts at p.
    pub fn is_type(&self, p: u64) -> bool
        ensures { result ≡ is_type (nodes_of self.now) p }
    {
        let kind = self.kind_at(p);
        1 <= kind && kind <= 15
    }

    // The kind of the node that starts at p.
    pub fn kind_of(&self, p: u64) -> u64
        requires { 1 ≤ kind_at (nodes_of self.now) p }
        ensures { result ≡ kind_at (nodes_of self.now) p }
    {
        self.cells[p as usize]
    }

    // The type of the term that starts at t.
    pub fn type_of(&self, t: TermPos) -> TypePos
        requires { 1 ≤ kind_at (nodes_of self.now) t.0 }
        ensures { result.0 ≡ type_at (nodes_of self.now) t.0 }
    {
        TypePos(self.cells[t.0 as usize + 1])
    }

    // The parameter of the node that starts at p.
    pub fn par_of(&self, p: u64) -> u64
        requires { 1 ≤ kind_at (nodes_of self.now) p }
        ensures { result ≡ par_at (nodes_of self.now) p }
    {
        self.cells[p as usize + 2]
    }

    // The members of the node that starts at p.
    pub fn members_of(&self, p: u64) -> &'a [u64]
        requires { 1 ≤ kind_at (nodes_of self.now) p }
        ensures { result.now ≡ mem_at (nodes_of self.now) p }
    {
        let from = p as usize + HEADER;
        let end = from + self.cells[p as usize + 3] as usize;
        &self.cells[from..end]
    }

    // Member i of the node that starts at p, 0 past its members, as `arg_at` has it.
    pub fn arg_of(&self, p: u64, i: usize) -> u64
        requires { 1 ≤ kind_at (nodes_of self.now) p }
        ensures { result ≡ arg_at (nodes_of self.now) p i }
    {
        self.members_of(p).get(i).copied().unwrap_or(0)
    }
}

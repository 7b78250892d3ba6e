// A node is looked for before it is added; a found one is reused, so equal nodes are one position.

#![tactic(auto)]

ghost use Rattle.std.specs.Prelude.{◌≡◌, true, ◌++◌, ◌+◌, ◌≤◌, length, take, drop};
ghost use Rattle.std.proofs.Math.Seq.{paste};
ghost use Rattle.arena.specs.Nodes.{node, header, find as findNode, put, kind_at, type_at, par_at, mem_at, arg_at};
ghost use Rattle.arena.specs.Cells.{cells_of};
ghost use Rattle.arena.specs.Node.{node_of};
ghost use Rattle.arena.specs.WellFormed.{good_node};
ghost use Rattle.arena.specs.Did.{put_typed};
ghost use Rattle.arena.specs.View.{nodes_of as seen_nodes};

use arena::cells::{View, read};
use arena::{HEADER, Node, TermPos, TypePos};

// There is no room for a node.
#[derive(Clone, Copy, Debug, PartialEq, Eq)]
pub struct Full;

// Writes a run of cells, one by one: `copy_from_slice` would ask C for memmove, and a program that links the library may have none.
fn copy_in(cells: &mut [u64], from: usize, run: &[u64])
    requires { from + length run.now ≤ length cells.old }
    ensures { cells.new ≡ paste cells.old from run.now (length run.now) }
{
    for i in 0..run.len() {
        cells[from + i] = run[i];
    }
}

// Writes a node at the mark.
fn add(cells: &mut [u64], mark: usize, node: &Node<'_>)
    requires { mark + (header + length node.now.members.now) ≤ length cells.old }
    ensures { cells.new ≡ take mark cells.old ++ (cells_of (node_of node.now) ++ drop (mark + (header + length node.now.members.now)) cells.old) }
{
    cells[mark] = node.kind;
    cells[mark + 1] = node.ty;
    cells[mark + 2] = node.par;
    cells[mark + 3] = node.members.len() as u64;
    copy_in(cells, mark + HEADER, node.members);
}

// Lent cells in which nodes are built: the next one starts at the mark. That it is well formed is asked and not kept: `term_node` answers for any node,
// also for one that isn't good.
#[derive(Drop)]
pub struct Arena<'a> {
    pub cells: &'a mut [u64],
    pub mark: usize,
}

impl Arena<'_> {
    ghost use Rattle.nodes.specs.Builds.{nodes_of, Formed, IsRead, term_reply, type_reply, node_reply, spot, Builds};

    // The nodes, to read.
    pub fn view(&self) -> View<'_>
        requires { IsRead self.now }
        ensures { seen_nodes result ≡ nodes_of self.now }
    {
        View {
            cells: self.cells,
            mark: self.mark,
        }
    }

    // What a `View` reads, in one word, since each step of the factory reads. The kind of the node that starts at p.
    pub fn kind_of(&self, p: u64) -> u64
        requires below { IsRead self.now }
        requires bound { 1 ≤ kind_at (nodes_of self.now) p }
        ensures { result ≡ kind_at (nodes_of self.now) p }
    {
        self.view().kind_of(p)
    }

    // The type of the term that starts at t.
    pub fn type_of(&self, t: TermPos) -> TypePos
        requires below { IsRead self.now }
        requires bound { 1 ≤ kind_at (nodes_of self.now) t.0 }
        ensures { result.0 ≡ type_at (nodes_of self.now) t.0 }
    {
        self.view().type_of(t)
    }

    // The parameter of the node that starts at p.
    pub fn par_of(&self, p: u64) -> u64
        requires below { IsRead self.now }
        requires bound { 1 ≤ kind_at (nodes_of self.now) p }
        ensures { result ≡ par_at (nodes_of self.now) p }
    {
        self.view().par_of(p)
    }

    // The members of the node that starts at p.
    pub fn members_of(&self, p: u64) -> &[u64]
        requires below { IsRead self.now }
        requires bound { 1 ≤ kind_at (nodes_of self.now) p }
        ensures { result.now ≡ mem_at (nodes_of self.now) p }
    {
        self.view().members_of(p)
    }

    // Member i of the node that starts at p, 0 past its members.
    pub fn arg_of(&self, p: u64, i: usize) -> u64
        requires below { IsRead self.now }
        requires bound { 1 ≤ kind_at (nodes_of self.now) p }
        ensures { result ≡ arg_at (nodes_of self.now) p i }
    {
        self.view().arg_of(p, i)
    }

    // Where the node with these cells starts: from node to node, as in `View::kind_from`.
    fn find(&self, node: &Node<'_>) -> Option<usize>
        requires { IsRead self.now }
        ensures { result ≡ spot (findNode (nodes_of self.now) (node_of node.now)) }
    {
        let mut at: usize = 0;
        while at < self.mark {
            let there = read(self.cells, at);
            if there.same(node) {
                return Some(at);
            }
            at += HEADER + there.members.len();
        }
        None
    }

    // The node is looked for, and added where it is not there.
    fn place(&mut self, node: &Node<'_>) -> Result<u64, Full>
        requires { Formed self.old }
        ensures { Builds (λ a. put a (node_of node.now)) self.old (node_reply result) self.new }
    {
        if let Some(at) = self.find(node) {
            return Ok(at as u64);
        }
        let at = self.mark;
        let size = HEADER + node.members.len();
        if self.cells.len() - at < size {
            return Err(Full);
        }
        add(self.cells, at, node);
        self.mark = at + size;
        Ok(at as u64)
    }

    // The term of this kind, type, parameter and members.
    pub fn term_node(
        &mut self,
        kind: u64,
        ty: TypePos,
        par: u64,
        members: &[u64],
    ) -> Result<TermPos, Full>
        requires { Formed self.old }
        ensures { Builds (λ a. put a (node kind ty.0 par members.now)) self.old (term_reply result) self.new }
    {
        let ty = ty.0;
        let p = self.place(&Node {
            kind,
            ty,
            par,
            members,
        })?;
        Ok(TermPos(p))
    }

    // The type of this kind, parameter and members: it answers another kind of position.
    pub fn type_node(&mut self, kind: u64, par: u64, members: &[u64]) -> Result<TypePos, Full>
        requires { Formed self.old }
        ensures { Builds (λ a. put a (node kind 0 par members.now)) self.old (type_reply result) self.new }
    {
        let p = self.place(&Node {
            kind,
            ty: 0,
            par,
            members,
        })?;
        Ok(TypePos(p))
    }

    // The type is found or added before the term of it.
    pub fn typed_node(
        &mut self,
        tkind: u64,
        tpar: u64,
        tmembers: &[u64],
        kind: u64,
        par: u64,
        members: &[u64],
    ) -> Result<TermPos, Full>
        requires arena { Formed self.old }
        requires tmembers_value { good_node (nodes_of self.old) (node tkind 0 tpar tmembers.now) ≡ true }
        ensures { Builds (λ a. put_typed a (node tkind 0 tpar tmembers.now) kind par members.now) self.old (term_reply result) self.new }
    {
        let ty = self.type_node(tkind, tpar, tmembers)?;
        self.term_node(kind, ty, par, members)
    }
}

// The arena: nodes in lent cells. A position of a term and one of a type are two types, so neither passes for the other.

#![tactic(auto)]

ghost use Rattle.std.specs.Prelude.{◌≡◌};
ghost use Rattle.arena.specs.Lists.{same_list};

pub mod cells;

// The cells of a node before its members.
pub const HEADER: usize = 4;

// Where a term's node starts.
#[derive(Clone, Copy, Debug, PartialEq, Eq)]
pub struct TermPos(pub u64);

// Where a type's node starts.
#[derive(Clone, Copy, Debug, PartialEq, Eq)]
pub struct TypePos(pub u64);

// A node's cells, but for the count of its members. The kind is no enum: any number may stand in a cell, and document 01's tests, which the
// contracts name, are on numbers. The parameter stands first, since `==` and `same` compare in that order, and parameters differ most often.
#[derive(Clone, Copy, PartialEq)]
pub struct Node<'a> {
    pub par: u64,
    pub ty: u64,
    pub kind: u64,
    pub members: &'a [u64],
}

// Whether two runs are equal. The last numbers are looked at first, since runs of one length often begin alike: a request's fields, a set's members.
fn same_run(run: &[u64], other: &[u64]) -> bool
    ensures { result ≡ same_list run.now other.now }
{
    let n = run.len();
    if n != other.len() {
        return false;
    }
    if n > 0 && run[n - 1] != other[n - 1] {
        return false;
    }
    for i in 0..n {
        if run[i] != other[i] {
            return false;
        }
    }
    true
}

impl Node<'_> {
    ghost use Rattle.arena.specs.Nodes.{same};
    ghost use Rattle.arena.specs.Node.{node_of};

    // Whether the other has the same cells. The searches ask this of each node that they pass. `==` would compare members by fours, which takes
    // longer where many begin alike.
    #[tactic(auto, unfolding(crate::specs::Nodes::same, crate::specs::Lists::every))]
    pub fn same(&self, other: &Node<'_>) -> bool
        ensures { result ≡ same (node_of self.now) (node_of other.now) }
    {
        self.par == other.par
            && self.ty == other.ty
            && self.kind == other.kind
            && same_run(self.members, other.members)
    }
}

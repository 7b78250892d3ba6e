// What stands at a position below the mark. `starts` has, at a quarter of each node's position, its remainder by 4 and one more, so one
// look says whether a node starts there.
ghost use Rattle.std.specs.Prelude.{◌≡◌, ◌≤◌, get_or};
ghost use Rattle.arena.specs.Lists.{all, same_list};
ghost use Rattle.arena.specs.Nodes.{node_at, kind_at, type_at, par_at, mem_at, arg_at, field_types};
ghost use Rattle.arena.specs.Cells.{cells_of};
ghost use Rattle.arena.specs.View.{nodes_of};
ghost use Rattle.arena.specs.Lent.{Starts};
ghost use Rattle.runs.specs.Strides.{held};
ghost use Rattle.node_tests.specs.Decide.{wanted};

use super::Want;
use super::tests::of_type;
use arena::cells::View;
use runs::nth;

// The nodes below a mark, and where they start.
#[derive(Clone, Copy)]
pub struct Seen<'a, 's> {
    pub nodes: View<'a>,
    pub starts: &'s [u8],
    pub ghost known: { Starts (nodes_of nodes) starts.now },
}

impl<'a> Seen<'a, '_> {
    // Cell j of the header of the node at p; 0 where none starts, since the definitions' node there is all zeros.
    pub fn look(&self, p: u64, j: usize) -> u64
        requires { j ≤ 3 }
        ensures { result ≡ get_or (cells_of (node_at (nodes_of self.now.nodes) p)) j 0 }
    {
        if p >= self.nodes.mark as u64 {
            return 0;
        }
        let i = p as usize;
        if self.starts[i / 4] as u64 != p % 4 + 1 {
            return 0;
        }
        self.nodes.cells[i + j]
    }

    pub fn kind_at(&self, p: u64) -> u64
        ensures { result ≡ kind_at (nodes_of self.now.nodes) p }
    {
        self.look(p, 0)
    }

    pub fn type_at(&self, p: u64) -> u64
        ensures { result ≡ type_at (nodes_of self.now.nodes) p }
    {
        self.look(p, 1)
    }

    pub fn par_at(&self, p: u64) -> u64
        ensures { result ≡ par_at (nodes_of self.now.nodes) p }
    {
        self.look(p, 2)
    }

    // Its members, none where none starts.
    #[tactic(auto, using(crate::proofs::Stands::no_members))]
    pub fn members_at(&self, p: u64) -> &'a [u64]
        ensures { result.now ≡ mem_at (nodes_of self.now.nodes) p }
    {
        if self.kind_at(p) == 0 {
            return &[];
        }
        self.nodes.members_of(p)
    }

    // Its first member, or 0.
    pub fn elem_at(&self, p: u64) -> u64
        ensures { result ≡ arg_at (nodes_of self.now.nodes) p 0 }
    {
        nth(self.members_at(p), 0)
    }

    // Whether a type, a term, or a term of the type t stands at x.
    pub fn suits(&self, want: Want, x: u64) -> bool
        ensures { result ≡ wanted (nodes_of self.now.nodes) want x }
    {
        match want {
            Want::Kind => of_type(self.kind_at(x)),
            Want::Term => 16 <= self.kind_at(x),
            Want::Of(t) => self.type_at(x) == t,
        }
    }

    // Whether every number of the run, or with step 2 what every field holds, is as wanted.
    pub fn all_suit(&self, want: Want, run: &[u64], step: usize) -> bool
        requires { (1 ≤ step) × (step ≤ 2) }
        ensures { result ≡ all (wanted (nodes_of self.now.nodes) want) (held step run.now) }
    {
        run.iter()
            .skip(step - 1)
            .step_by(step)
            .all(|x| self.suits(want, *x))
    }

    // Whether `types` is the run of fields with each term's type in the term's place.
    pub fn fields_typed(&self, types: &[u64], run: &[u64]) -> bool
        ensures { result ≡ same_list types.now (field_types (nodes_of self.now.nodes) run.now) }
    {
        if types.len() != run.len() / 2 * 2 {
            return false;
        }
        for (ty, field) in types.chunks_exact(2).zip(run.chunks_exact(2)) {
            if ty[0] != field[0] || ty[1] != self.type_at(field[1]) {
                return false;
            }
        }
        true
    }
}

// Tests of the parts of one node in any cells, as the test of well-formedness wants them: looking at an earlier node, and numbers.

#![tactic(auto)]

pub mod looks;
pub mod tests;

// What has to stand at a position: a type, a term, a term of the type at the given position.
#[derive(Clone, Copy)]
pub enum Want {
    Kind,
    Term,
    Of(u64),
}

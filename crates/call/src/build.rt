// The whole dispatcher: every operation by number, as in the table.
ghost use Rattle.std.specs.Prelude.{◌≤◌};
ghost use Rattle.nodes.specs.Builds.{Builds, term_reply, node_reply};
ghost use Rattle.factory.specs.Fit.{Ready};
ghost use Rattle.table.specs.Table.{row};
ghost use Rattle.table.specs.Forms.{Passes};

use arena::TermPos;
use compiled::build_compiled;
use dispatch::{build_bitvector, build_core, build_data, build_helper, build_maker, build_type};
use nodes::{Arena, Full};

// A term: 10 to 75.
fn build_term(arena: &mut Arena<'_>, op: u64, par: u64, xs: &[u64]) -> Result<TermPos, Full>
    requires ready { Ready (λ a. Passes a op par xs.now) arena.old }
    requires le_op { 10 ≤ op }
    ensures { Builds (λ a. (row op).build a par xs.now) arena.old (term_reply result) arena.new }
{
    if op <= 16 {
        return build_maker(arena, op, par, xs);
    }
    if op <= 26 {
        return build_core(arena, op, par, xs);
    }
    if op <= 49 {
        return build_bitvector(arena, op, par, xs);
    }
    if op <= 56 {
        return build_data(arena, op, par, xs);
    }
    if op <= 66 {
        return build_helper(arena, op, par, xs);
    }
    build_compiled(arena, op, par, xs)
}

// What the operation builds, a type or a term.
pub fn build(arena: &mut Arena<'_>, op: u64, par: u64, xs: &[u64]) -> Result<u64, Full>
    requires { Ready (λ a. Passes a op par xs.now) arena.old }
    ensures { Builds (λ a. (row op).build a par xs.now) arena.old (node_reply result) arena.new }
{
    if op < 10 {
        let t = build_type(arena, op, par, xs)?;
        return Ok(t.0);
    }
    let t = build_term(arena, op, par, xs)?;
    Ok(t.0)
}

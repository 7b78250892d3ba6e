// One call on a lent arena: the instruction by value, any cells, any mark.

#![tactic(auto)]

ghost use Rattle.std.specs.Prelude.{◌≡◌, min};
ghost use Rattle.arena.specs.Cells.{used};
ghost use Rattle.arena.specs.WellFormed.{IsArena};
ghost use Rattle.instruction.specs.Instruction.{instr_of};
ghost use Rattle.table.specs.Forms.{instr, listed, Passes, Held};
ghost use Rattle.table.specs.Answers.{Answered};

use arena::cells::{View, clear_back};
use build::build;
use instruction::Instruction;
use nodes::{Arena, Full};
use refusals::refusal;
use table::{Accepted, Answer, Refusal};
use wellformed::is_formed;

mod build;

// An instruction that no test refuses: what it builds, where there is room.
fn built(cells: &mut [u64], mark: usize, op: u64, par: u64, xs: &[u64]) -> Answer
    requires arena { IsArena cells.old mark }
    requires passes { Passes (used cells.old mark) op par xs.now }
    ensures { Answered cells.old mark (listed op par xs.now) result cells.new }
{
    let mut arena = Arena { cells, mark };
    match build(&mut arena, op, par, xs) {
        Ok(position) => Ok(Accepted {
            position,
            mark: arena.mark,
        }),
        Err(Full) => {
            clear_back(arena.cells, mark);
            Err(Refusal::NoRoom)
        }
    }
}

// Cells and mark come apart, as C and scripts hold them. The numbers of an instruction, on an arena known to be well formed: xs has as many operands as the count says, or the count is above 257.
pub fn call_listed(
    cells: &mut [u64],
    mark: usize,
    op: u64,
    par: u64,
    count: u64,
    xs: &[u64],
) -> Answer
    requires arena { IsArena cells.old mark }
    requires held { Held count xs.now }
    ensures { Answered cells.old mark (instr op par count xs.now) result cells.new }
{
    refusal(&View { cells, mark }, op, par, count, xs)?;
    built(cells, mark, op, par, xs)
}

// How many operands of a count an instruction's array holds.
fn held(count: u64) -> usize
    ensures { result ≡ min count 257 }
{
    count.min(257) as usize
}

// On an arena known to be well formed.
pub fn call_known(cells: &mut [u64], mark: usize, instruction: Instruction) -> Answer
    requires { IsArena cells.old mark }
    ensures { Answered cells.old mark (instr_of instruction) result cells.new }
{
    let n = held(instruction.count);
    let operands = instruction.operands;
    call_listed(
        cells,
        mark,
        instruction.operation,
        instruction.parameter,
        instruction.count,
        &operands[..n],
    )
}

// On any cells with any mark.
pub fn call(cells: &mut [u64], mark: u64, instruction: Instruction) -> Answer
    ensures { Answered cells.old mark (instr_of instruction) result cells.new }
{
    if is_formed(cells, mark) {
        return call_known(cells, mark as usize, instruction);
    }
    Err(Refusal::NotAnArena)
}

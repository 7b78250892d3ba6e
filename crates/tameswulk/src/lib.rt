// The functions that a program in C or Rust links: slices and numbers, as C has them, and a name that begins with the library's.

#![tactic(auto)]

ghost use Rattle.std.specs.Prelude.{◌≡◌};
ghost use Rattle.arena.specs.Fresh.{Freshened};
ghost use Rattle.arena.specs.WellFormed.{IsArena};
ghost use Rattle.table.specs.Forms.{listed};
ghost use Rattle.table.specs.Answers.{reply_of};
ghost use Rattle.tameswulk.specs.Library.{noted, Tells, Gives, Scripted};

use table::{Answer, Refusal};
use wellformed::is_formed;

// What a script answers that is lent other cells than 8,192, or too few bytes for its lines.
pub const UNFIT: u64 = 18446744073709551615;

// Two numbers in front, as far as there is room.
fn note(told: &mut [u64], position: u64, mark: u64)
    ensures { told.new ≡ noted told.old position mark }
{
    if told.len() == 0 {
        return;
    }
    told[0] = position;
    if told.len() == 1 {
        return;
    }
    told[1] = mark;
}

// Document 01's number of an answer: 0 with the position and the new mark, or a refusal's with position 0 and the old mark.
fn tell(told: &mut [u64], mark: u64, answer: Answer) -> u64
    ensures { Tells told.old mark (reply_of answer) result told.new }
{
    match answer {
        Ok(accepted) => {
            note(told, accepted.position, accepted.mark as u64);
            0
        }
        Err(refusal) => {
            note(told, 0, mark);
            refusal.number()
        }
    }
}

// Makes the cells a fresh arena. The answer is the mark, or 0 for a length that is not allowed.
#[unsafe(no_mangle)]
pub extern "C" fn tameswulk_fresh(cells: &mut [u64]) -> u64
    ensures { Freshened cells.old result cells.new }
{
    arena::cells::fresh(cells).unwrap_or(0) as u64
}

// One call on an arena known to be well formed.
#[unsafe(no_mangle)]
pub extern "C" fn tameswulk_call_known(
    cells: &mut [u64],
    mark: u64,
    op: u64,
    par: u64,
    operands: &[u64],
    told: &mut [u64],
) -> u64
    requires { IsArena cells.old mark }
    ensures { Gives cells.old mark (listed op par operands.now) told.old result cells.new told.new }
{
    let answer = call::call_listed(
        cells,
        mark as usize,
        op,
        par,
        operands.len() as u64,
        operands,
    );
    tell(told, mark, answer)
}

// One call on any cells with any mark.
#[unsafe(no_mangle)]
pub extern "C" fn tameswulk_call(
    cells: &mut [u64],
    mark: u64,
    op: u64,
    par: u64,
    operands: &[u64],
    told: &mut [u64],
) -> u64
    ensures { Gives cells.old mark (listed op par operands.now) told.old result cells.new told.new }
{
    if is_formed(cells, mark) {
        return tameswulk_call_known(cells, mark, op, par, operands, told);
    }
    tell(told, mark, Err(Refusal::NotAnArena))
}

// A whole script in a fresh arena: how many bytes its lines have, at the front of `out`.
#[unsafe(no_mangle)]
pub extern "C" fn tameswulk_script(bytes: &[u8], cells: &mut [u64], out: &mut [u8]) -> u64
    ensures { Scripted bytes.now cells.old out.old result cells.new out.new }
{
    if cells.len() != 8192 {
        return UNFIT;
    }
    if out.len() < script::ROOM {
        return UNFIT;
    }
    script::run(bytes, cells, out) as u64
}

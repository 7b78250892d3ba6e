// A whole script: one instruction after the other in a fresh arena, and a line for each.

#![tactic(auto)]

ghost use Rattle.std.specs.Prelude.{◌≡◌, ◌+◌, ◌≤◌, length};
ghost use Rattle.arena.specs.WellFormed.{IsArena};
ghost use Rattle.script.specs.Script.{lent};
ghost use Rattle.script.specs.Running.{room, Stepped, Ready, Walked, Ran};

// Bytes that a script has at most.
pub const LONGEST: usize = 65536;

// Bytes that hold every script's lines.
pub const ROOM: usize = 284034;

// Where a script stands: the next byte, the mark, and the end of the lines.
#[derive(Clone, Copy)]
struct Place {
    at: usize,
    mark: usize,
    end: usize,
}

// One instruction. Where none can be read, the script stops: no byte is left.
fn step(bytes: &[u8], cells: &mut [u64], out: &mut [u8], place: Place) -> Place
    requires { IsArena cells.old place.mark × (place.end + 45 ≤ length out.old) }
    ensures { Stepped bytes.now cells.old out.old place result cells.new out.new }
{
    let Some(read) = codec::read_instruction(bytes, place.at) else {
        return Place {
            at: bytes.len(),
            mark: place.mark,
            end: answers::write_refused(out, place.end, 10),
        };
    };
    let answer = table::numbered(call::call_known(cells, place.mark, read.instruction));
    Place {
        at: read.next,
        mark: answers::next_mark(place.mark, answer),
        end: answers::write_answer(out, place.end, answer),
    }
}

// One instruction after the other, until no byte is left. A step says itself where the next begins, so no range counts the steps.
#[tactic(auto, using(crate::proofs::Going::going_none, crate::proofs::Going::going_length, crate::proofs::Going::going_stepped))]
fn walk(bytes: &[u8], cells: &mut [u64], out: &mut [u8], mark: usize) -> usize
    requires { Ready bytes.now cells.old mark out.old }
    ensures { Walked bytes.now cells.old mark out.old result cells.new out.new }
{
    let mut place = Place {
        at: 0,
        mark,
        end: 0,
    };
    while place.at < bytes.len() {
        place = step(bytes, cells, out, place);
    }
    place.end
}

// The lines that answer a script, at the front of `out`, in the arena that the script builds in `cells`. The answer is how many
// bytes they have. A script that is too long is answered by one line, and touches no cell.
pub fn run(bytes: &[u8], cells: &mut [u64], out: &mut [u8]) -> usize
    requires { (length cells.old ≡ lent) × (room ≤ length out.old) }
    ensures { Ran bytes.now cells.old out.old result cells.new out.new }
{
    if bytes.len() > LONGEST {
        return answers::write_refused(out, 0, 10);
    }
    let mark = arena::cells::fresh(cells).unwrap();
    walk(bytes, cells, out, mark)
}

// Builds scripts, each in a fresh arena, and writes each answer and then the cells, for the comparison with the original.
// tools/compare/README.md has the form of what is read and written.

#![tactic(auto)]

ghost use Rattle.std.specs.Prelude.{◌≡◌, ◌≤◌, ℕ, length, IfOk, OnErr};
ghost use Rattle.arena.specs.WellFormed.{IsArena};

use instruction::Instruction;
use std::io;
use std::io::Read;
use table::Accepted;

// Bytes that a script has at most.
const LONGEST: usize = 65536;

// Lines of a script whose results can be named.
const LINES: usize = 4096;

// The position of a line that gave none: a number, since the call is asked with it as with any other.
const NOWHERE: u64 = u64::MAX;

// Where a script stands: the next byte, and the mark. Each program has its own, with what it needs.
#[derive(Clone, Copy)]
struct Place {
    at: usize,
    mark: usize,
}

// ---- operands

// The number that an operand stands for: the result of an earlier line, or itself.
fn operand(results: &[u64], x: u64) -> u64 {
    if x % 2 == 0 {
        return x / 2;
    }
    let line = (x / 2) as usize;
    results.get(line).copied().unwrap_or(NOWHERE)
}

fn resolved(results: &[u64], instruction: Instruction) -> Instruction
    ensures { length result.operands ≡ 257 }
{
    let mut operands = instruction.operands;
    for x in operands.iter_mut() {
        *x = operand(results, *x);
    }
    Instruction {
        operation: instruction.operation,
        parameter: instruction.parameter,
        count: instruction.count,
        operands,
    }
}

// ---- lines

fn say_answer(rt: &impl Print, answer: Result<Accepted, u64>) -> io::Result<()> {
    rt.write_all(answers::answer_line(&mut [0u8; 45], answer))
}

// Writes the text where it gets full; answers where the next number goes.
fn flushed(rt: &impl Print, text: &[u8]) -> io::Result<usize>
    ensures { IfOk result (λ next. next ≤ 4000) }
{
    if text.len() <= 4000 {
        return Ok(text.len());
    }
    rt.write_all(text)?;
    Ok(0)
}

// The cells below the mark, some hundred at a time.
fn say_cells(rt: &impl Print, cells: &[u64], mark: usize) -> io::Result<()> {
    rt.write_all(b"cells")?;
    let mut text = [0u8; 4096];
    let mut end: usize = 0;
    for cell in cells.iter().take(mark) {
        let at = flushed(rt, &text[..end])?;
        text[at] = b' ';
        end = answers::write_decimal(&mut text, at + 1, *cell);
    }
    rt.write_all(&text[..end])?;
    rt.write_all(b"\n")
}

// ---- scripts

fn position(answer: Result<Accepted, u64>) -> u64 {
    answer.map_or(NOWHERE, |accepted| accepted.position)
}

fn put(results: &mut [u64], line: usize, position: u64) {
    if line < results.len() {
        results[line] = position;
    }
}

// One instruction. Where none can be read, no byte is left.
fn step(
    rt: &impl Print,
    bytes: &[u8],
    cells: &mut [u64],
    results: &mut [u64],
    line: usize,
    place: Place,
) -> io::Result<Place>
    requires { IsArena cells.old place.mark }
    ensures ok { IfOk result (λ next. IsArena cells.new next.mark) }
    ensures err { OnErr result ((mark : ℕ) × IsArena cells.new mark) }
{
    let Some(read) = codec::read_instruction(bytes, place.at) else {
        say_answer(rt, Err(10))?;
        return Ok(Place {
            at: bytes.len(),
            mark: place.mark,
        });
    };
    let instruction = resolved(results, read.instruction);
    let answer = table::numbered(call::call_known(cells, place.mark, instruction));
    say_answer(rt, answer)?;
    put(results, line, position(answer));
    Ok(Place {
        at: read.next,
        mark: answers::next_mark(place.mark, answer),
    })
}

// One instruction after the other. The answer is the mark.
fn walk(
    rt: &impl Print,
    bytes: &[u8],
    cells: &mut [u64],
    results: &mut [u64],
    mark: usize,
) -> io::Result<usize>
    requires { IsArena cells.old mark }
{
    let mut place = Place { at: 0, mark };
    for line in 0..LINES {
        if place.at >= bytes.len() {
            break;
        }
        place = step(rt, bytes, cells, results, line, place)?;
    }
    Ok(place.mark)
}

// A script in a fresh arena.
fn run(rt: &impl Print, bytes: &[u8], cells: &mut [u64], results: &mut [u64]) -> io::Result<()>
    requires { length cells.old ≡ 65536 }
{
    let mark = arena::cells::fresh(cells).unwrap();
    let end = walk(rt, bytes, cells, results, mark)?;
    say_cells(rt, cells, end)
}

// ---- the input

// How many bytes the next script has, where one is said.
fn next_size(stdin: &mut impl Read) -> io::Result<Option<usize>> {
    let mut head = [0u8; 4];
    if reading::read_full(stdin, &mut head)? < 4 {
        return Ok(None);
    }
    Ok(Some(u32::from_le_bytes(head) as usize))
}

// The next script, where there is one.
fn turn(
    rt: &impl Print,
    stdin: &mut impl Read,
    input: &mut [u8],
    cells: &mut [u64],
    results: &mut [u64],
) -> io::Result<bool>
    requires { length cells.old ≡ 65536 }
{
    let Some(size) = next_size(stdin)? else {
        return Ok(false);
    };
    if size > input.len() {
        return Ok(false);
    }
    let count = reading::read_full(stdin, &mut input[..size])?;
    run(rt, &input[..count], cells, results)?;
    Ok(true)
}

fn main(rt: HostRuntime) -> io::Result<()> {
    let mut input = [0u8; LONGEST];
    let mut cells = [0u64; 65536];
    let mut results = [0u64; LINES];
    for _ in 0..1000000 {
        if !turn(&rt, &mut rt.stdin(), &mut input, &mut cells, &mut results)? {
            break;
        }
    }
    Ok(())
}

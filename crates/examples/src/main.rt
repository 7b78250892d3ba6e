// Document 01's examples, each in a fresh arena of its own length: writes each answer, and then the node at one position.
// tools/examples/README.md has the form of what is read and written.

#![tactic(auto)]

use codec::Number;
use std::io;
use table::Accepted;

// Bytes that are read at most.
const LONGEST: usize = 4096;

// Examples that are read at most.
const ROWS: u64 = 4096;

// Where an example stands: the next byte, and the mark. Each program has its own, with what it needs.
#[derive(Clone, Copy)]
struct Place {
    at: usize,
    mark: u64,
}

// ---- lines

fn say_answer(rt: &impl Print, answer: Result<Accepted, u64>) -> io::Result<()> {
    rt.write_all(answers::answer_line(&mut [0u8; 45], answer))
}

// A blank, and a number.
fn say_number(rt: &impl Print, n: u64) -> io::Result<()> {
    let mut text = [0u8; 20];
    let end = answers::write_decimal(&mut text, 0, n);
    rt.write_all(b" ")?;
    rt.write_all(&text[..end])
}

// How many cells the node at a position has. None: no node can be there.
fn size(cells: &[u64], position: usize) -> Option<usize> {
    let members = *cells.get(position.checked_add(3)?)?;
    if members <= 65536 {
        Some(members as usize + 4)
    } else {
        None
    }
}

// The cells of the node at a position.
fn say_node(rt: &impl Print, cells: &[u64], position: usize) -> io::Result<()> {
    rt.write_all(b"node")?;
    let size = size(cells, position).unwrap_or(0);
    for cell in cells.iter().skip(position).take(size) {
        say_number(rt, *cell)?;
    }
    rt.write_all(b"\n")
}

// ---- examples

// The number at a place. Where none can be read, it is 0 and no byte is left.
fn number(bytes: &[u8], at: usize) -> Number {
    codec::read_number(bytes, at).unwrap_or(Number {
        value: 0,
        next: bytes.len(),
    })
}

// One instruction. Where none can be read, no byte is left.
fn step(rt: &impl Print, bytes: &[u8], cells: &mut [u64], place: Place) -> io::Result<Place> {
    let Some(read) = codec::read_instruction(bytes, place.at) else {
        say_answer(rt, Err(10))?;
        return Ok(Place {
            at: bytes.len(),
            mark: place.mark,
        });
    };
    let answer = table::numbered(call::call(cells, place.mark, read.instruction));
    say_answer(rt, answer)?;
    Ok(Place {
        at: read.next,
        mark: answers::next_mark(place.mark as usize, answer) as u64,
    })
}

// As many instructions as are said, in a fresh arena. The answer is the place behind them.
fn walk(
    rt: &impl Print,
    bytes: &[u8],
    cells: &mut [u64],
    count: u64,
    at: usize,
) -> io::Result<usize> {
    let mark = arena::cells::fresh(cells).unwrap_or(0) as u64;
    let mut place = Place { at, mark };
    for _ in 0..count {
        place = step(rt, bytes, cells, place)?;
    }
    Ok(place.at)
}

// One example. The answer is the place behind it.
fn row(rt: &impl Print, bytes: &[u8], cells: &mut [u64], at: usize) -> io::Result<usize> {
    let length = number(bytes, at);
    let position = number(bytes, length.next);
    let count = number(bytes, position.next);
    let n = length.value as usize;
    if n > cells.len() {
        return Ok(bytes.len());
    }
    let end = walk(rt, bytes, &mut cells[..n], count.value, count.next)?;
    say_node(rt, cells, position.value as usize)?;
    Ok(end)
}

fn rows(rt: &impl Print, bytes: &[u8], cells: &mut [u64]) -> io::Result<()> {
    let mut at: usize = 0;
    for _ in 0..ROWS {
        if at >= bytes.len() {
            break;
        }
        at = row(rt, bytes, cells, at)?;
    }
    Ok(())
}

fn main(rt: HostRuntime) -> io::Result<()> {
    let mut input = [0u8; LONGEST];
    let count = reading::read_full(&mut rt.stdin(), &mut input)?;
    let mut cells = [0u64; 8192];
    rows(&rt, &input[..count], &mut cells)
}

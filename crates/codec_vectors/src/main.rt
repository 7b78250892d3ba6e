// Reads every pair of bytes, and the byte strings of its standard input, and writes what they are read as.
// tools/codec/README.md has the form of both.

#![tactic(auto)]

ghost use Rattle.std.specs.Prelude.{◌≤◌, IfSome};

use arrayvec::ArrayVec;
use std::io;

fn say_ok(rt: &impl Print, first: u64, second: u64) -> io::Result<()> {
    let mut line = [0u8; 45];
    let n = answers::write_ok(&mut line, 0, first, second);
    rt.write_all(&line[..n])
}

fn say_refused(rt: &impl Print, number: u64) -> io::Result<()> {
    let mut line = [0u8; 29];
    let n = answers::write_refused(&mut line, 0, number);
    rt.write_all(&line[..n])
}

// A number that was read, written again at another place, has the bytes that were read: else `refused 1`.
fn write_again(rt: &impl Print, s: &[u8], value: u64, next: usize) -> io::Result<()> {
    let mut out = [0u8; 16];
    let Some(end) = codec::write_number(&mut out, 3, value) else {
        return say_refused(rt, 1);
    };
    if out.get(3..end) != s.get(..next) {
        return say_refused(rt, 1);
    }
    Ok(())
}

// The number at the start: its value, and where it ends.
fn say_number(rt: &impl Print, s: &[u8]) -> io::Result<()> {
    let Some(number) = codec::read_number(s, 0) else {
        return say_refused(rt, 10);
    };
    say_ok(rt, number.value, number.next as u64)?;
    write_again(rt, s, number.value, number.next)
}

fn say_operands(rt: &impl Print, operands: [u64; 257], count: u64) -> io::Result<()> {
    for (i, x) in operands.iter().enumerate().take(count as usize) {
        say_ok(rt, i as u64, *x)?;
    }
    Ok(())
}

// The instruction at the start: operation and parameter, count and end, then each operand behind its index.
fn say_instruction(rt: &impl Print, s: &[u8]) -> io::Result<()> {
    let Some(d) = codec::read_instruction(s, 0) else {
        return say_refused(rt, 10);
    };
    let i = d.instruction;
    say_ok(rt, i.operation, i.parameter)?;
    say_ok(rt, i.count, d.next as u64)?;
    let operands = i.operands;
    say_operands(rt, operands, i.count)
}

// The pairs that begin with a byte: the sum of their values and ends, and how many are numbers.
fn say_pairs(rt: &impl Print, first: u8) -> io::Result<()> {
    let mut sum: u64 = 0;
    let mut numbers: u64 = 0;
    for second in 0..=u8::MAX {
        if let Some(number) = codec::read_number(&[first, second], 0) {
            sum = sum
                .wrapping_add(number.value)
                .wrapping_add(number.next as u64);
            numbers = numbers.wrapping_add(1);
        }
    }
    say_ok(rt, sum, numbers)
}

fn say_all_pairs(rt: &impl Print) -> io::Result<()> {
    for first in 0..=u8::MAX {
        say_pairs(rt, first)?;
    }
    Ok(())
}

// The value of a hex digit.
fn hex(b: u8) -> Option<u8>
    ensures { IfSome result (λ digit. digit ≤ 15) }
{
    match b {
        b'0'..=b'9' => Some(b - b'0'),
        b'a'..=b'f' => Some(b - b'a' + 10),
        _ => None,
    }
}

// The bytes that hex stands for, 512 at most.
fn unhex(s: &[u8]) -> Option<ArrayVec<u8, 512>> {
    let mut bytes = ArrayVec::new();
    for pair in s.chunks(2) {
        let [high, low] = pair else {
            return None;
        };
        bytes.try_push(hex(*high)? * 16 + hex(*low)?).ok()?;
    }
    Some(bytes)
}

// A line: `n` or `i`, and the bytes in hex. Another is `refused 2`.
fn say_line(rt: &impl Print, s: &[u8]) -> io::Result<()> {
    let Some((kind, text)) = s.split_first() else {
        return say_refused(rt, 2);
    };
    let Some(bytes) = unhex(text) else {
        return say_refused(rt, 2);
    };
    match *kind {
        b'n' => say_number(rt, bytes.as_slice()),
        b'i' => say_instruction(rt, bytes.as_slice()),
        _ => say_refused(rt, 2),
    }
}

fn say_lines(rt: &impl Print, s: &[u8]) -> io::Result<()> {
    for line in s.split_inclusive(|b| *b == b'\n') {
        say_line(rt, line.strip_suffix(b"\n").unwrap_or(line))?;
    }
    Ok(())
}

fn main(rt: HostRuntime) -> io::Result<()> {
    say_all_pairs(&rt)?;
    let mut input = [0u8; 131072];
    let n = reading::read_full(&mut rt.stdin(), &mut input)?;
    say_lines(&rt, &input[..n])
}

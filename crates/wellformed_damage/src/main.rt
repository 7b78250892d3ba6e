// Every single-cell change of a small sound arena, to each number up to 160: which are still well formed.

#![tactic(auto)]

ghost use Rattle.std.specs.Prelude.{◌≤◌, ◌<◌};

use std::io;

// Bool, false, true; Bitvec 2, Option, Set and Record (1: Bool, 3: Bitvec 2); two literals, a Some, a set, a record, a variable, an
// add, a record_get; and four cells past the mark.
const SOUND: [u64; 80] = [
    1, 0, 0, 0, 16, 0, 0, 0, 16, 0, 1, 0, // 0
    2, 0, 2, 0, // 12
    3, 0, 0, 1, 12, // 16
    4, 0, 0, 1, 12, // 21
    5, 0, 0, 4, 1, 0, 3, 12, // 26
    17, 12, 1, 0, // 34
    17, 12, 2, 0, // 38
    19, 16, 0, 1, 34, // 42
    20, 21, 0, 2, 34, 38, // 47
    21, 26, 0, 4, 1, 4, 3, 38, // 53
    22, 12, 5, 0, // 61
    131, 12, 0, 2, 34, 61, // 65
    156, 12, 3, 1, 53, // 71
    0, 0, 0, 0, // 76: the mark
];

// Whether the arena with v in cell i, which had another number, is well formed.
fn accepted(i: usize, v: u64) -> bool
    requires { i < 80 }
{
    let mut cells = SOUND;
    if cells[i] == v {
        return false;
    }
    cells[i] = v;
    wellformed::is_formed(&cells, 76)
}

fn digit(n: u64, unit: u64) -> u8
    requires { 1 ≤ unit }
{
    (n / unit % 10) as u8 + 48
}

// The cell, how many numbers are accepted there, and their sum.
fn tell(rt: &impl Print, i: u64, count: u64, sum: u64) -> io::Result<()> {
    let line = [
        digit(i, 10),
        digit(i, 1),
        32,
        digit(count, 100),
        digit(count, 10),
        digit(count, 1),
        32,
        digit(sum, 10000),
        digit(sum, 1000),
        digit(sum, 100),
        digit(sum, 10),
        digit(sum, 1),
        10,
    ];
    rt.write_all(&line)
}

fn try_cell(rt: &impl Print, i: usize) -> io::Result<()>
    requires { i < 80 }
{
    let mut count: u64 = 0;
    let mut sum: u64 = 0;
    for v in 0..=160 {
        if accepted(i, v) {
            count += 1;
            sum += v;
        }
    }
    if count > 0 {
        tell(rt, i as u64, count, sum)?;
    }
    Ok(())
}

fn main(rt: HostRuntime) -> io::Result<()> {
    for i in 0..80 {
        try_cell(&rt, i)?;
    }
    Ok(())
}

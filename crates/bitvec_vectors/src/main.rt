// Replays the lists of bitvector answers on its standard input, and says how many answers differ from ours.
// tools/vectors/README.md has the lists' form.

#![tactic(auto)]

use std::io;
use std::io::Read;
use vectors::{Count, Replay};

// Reads once, and replays what came: None at the end.
fn read_some(input: &mut impl Read, replay: Replay) -> io::Result<Option<Replay>> {
    let mut buf = [0u8; 65536];
    let n = input.read(&mut buf)?;
    if n == 0 {
        return Ok(None);
    }
    Ok(Some(vectors::feed(replay, &buf[..n])))
}

// A proved loop has to end, and nothing says that the input does. So the loop counts its turns, to a number that no run reaches:
// one without an end would take a Wait, which this repository has not.
fn read_all(input: &mut impl Read) -> io::Result<Replay> {
    let mut replay = vectors::start();
    for _ in 0..u64::MAX {
        let Some(next) = read_some(input, replay)? else {
            break;
        };
        replay = next;
    }
    Ok(vectors::finish(replay))
}

fn print_count(rt: &impl Print, name: &str, count: Count) -> io::Result<()> {
    println!(rt;
        "{name}: {} compared, {} different",
        count.compared, count.different
    )
}

fn print_lines(rt: &impl Print, numbers: [Option<u64>; 8]) -> io::Result<()> {
    for number in numbers.iter().flatten() {
        println!(rt; "different: line {number}")?;
    }
    Ok(())
}

fn main(rt: HostRuntime) -> io::Result<()> {
    let replay = read_all(&mut rt.stdin())?;
    print_count(&rt, "original", replay.original)?;
    print_count(&rt, "solver", replay.solver)?;
    print_lines(&rt, replay.shown)
}

// Answers the script on standard input, in a fresh arena of 8,192 cells, on standard output.

#![tactic(auto)]

use std::io;

fn main(rt: HostRuntime) -> io::Result<()> {
    // one byte more than a script may have tells a longer one
    let mut input = [0u8; script::LONGEST + 1];
    let count = reading::read_full(&mut rt.stdin(), &mut input)?;
    let mut cells = [0u64; 8192];
    let mut out = [0u8; script::ROOM];
    let end = script::run(&input[..count], &mut cells, &mut out);
    rt.write_all(&out[..end])
}

// The walks on the worst arenas of 65,536 cells: records whose two fields hold the same, level on level, so that a walk which visits
// a node once for each way to it never ends; and the deepest chains of Options and Somes, which the recursion follows.

#![tactic(auto)]

ghost use Rattle.std.specs.Prelude.{◌+◌, ◌≤◌, ◌<◌};

use arena::cells::View;
use std::io;
use walks::{has_fields, is_literal, set_free};
use wellformed::is_formed;

// Cells at a place, where they have room.
fn put(cells: &mut [u64], at: usize, node: &[u64]) {
    for (cell, v) in cells.iter_mut().skip(at).zip(node) {
        *cell = *v;
    }
}

// A node with one member, or with two fields that hold the same; answers where the next starts.
fn node(cells: &mut [u64], at: usize, kind: u64, ty: u64, member: u64) -> usize
    requires { at ≤ 65544 }
    ensures { (at < result) × (result ≤ at + 8) }
{
    if has_fields(kind) {
        put(cells, at, &[kind, ty, 0, 4, 1, member, 2, member]);
        return at + 8;
    }
    put(cells, at, &[kind, ty, 0, 1, member]);
    at + 5
}

// Types of this kind, each over the one before and the first over t, until `room` is full; answers the mark. A node says where the
// next starts, so a range would name each node's size once more.
fn types(cells: &mut [u64], room: usize, from: usize, kind: u64, t: u64) -> usize
    requires { (from ≤ room) × (room ≤ 65536) }
    ensures { (from ≤ result) × (result ≤ room) }
{
    let mut at = from;
    let mut under = t;
    while at + 8 <= room {
        let next = node(cells, at, kind, 0, under);
        under = at as u64;
        at = next;
    }
    at
}

// The same with a term of each type over the one before, the first over x.
fn terms(cells: &mut [u64], room: usize, from: usize, kind: u64, t: u64, x: u64) -> usize
    requires { (from ≤ room) × (room ≤ 65536) × (kind ≤ 5) }
    ensures { (from ≤ result) × (result ≤ room) }
{
    let mut at = from;
    let mut ty = t;
    let mut under = x;
    while at + 16 <= room {
        let middle = node(cells, at, kind, 0, ty);
        let next = node(cells, middle, kind + 16, at as u64, under);
        ty = at as u64;
        under = middle as u64;
        at = next;
    }
    at
}

// Bool, false, true, and one node more: what the tower stands on.
fn base(cells: &mut [u64], kind: u64, par: u64, count: u64) {
    let nodes = [1, 0, 0, 0, 16, 0, 0, 0, 16, 0, 1, 0, kind, 0, par, count];
    put(cells, 0, &nodes);
}

// A letter, as it is printed. y or n: is the term at `at` a literal, does the type there contain a set. Else a mark of what is wrong.
fn answer(cells: &[u64], mark: usize, at: usize) -> u8 {
    if !is_formed(cells, mark as u64) {
        return b'!';
    }
    let nodes = View { cells, mark };
    if nodes.is_term(at as u64) {
        return letter(is_literal(&nodes, at));
    }
    if nodes.is_type(at as u64) {
        return letter(!set_free(&nodes, at));
    }
    b'?'
}

fn letter(b: bool) -> u8 {
    if b { b'y' } else { b'n' }
}

// The last of a tower of types in this many cells, over a bitvector or over a set of Bools.
fn top_type(room: usize, kind: u64, size: usize, set: bool) -> u8
    requires { (64 ≤ room) × (room ≤ 65536) × (size ≤ 8) }
{
    let mut cells = [0u64; 65536];
    if set {
        base(&mut cells, 4, 0, 1);
        let mark = types(&mut cells, room, 17, kind, 12);
        return answer(&cells, mark, mark - size);
    }
    base(&mut cells, 2, 8, 0);
    let mark = types(&mut cells, room, 16, kind, 12);
    answer(&cells, mark, mark - size)
}

// The last of a tower of terms in this many cells, over false or over a variable.
fn top_term(room: usize, kind: u64, size: usize, variable: bool) -> u8
    requires { (64 ≤ room) × (room ≤ 65536) × (size ≤ 8) × (kind ≤ 5) }
{
    let mut cells = [0u64; 65536];
    if variable {
        base(&mut cells, 22, 7, 0);
        let mark = terms(&mut cells, room, 16, kind, 0, 12);
        return answer(&cells, mark, mark - size);
    }
    base(&mut cells, 2, 8, 0);
    let mark = terms(&mut cells, room, 16, kind, 0, 4);
    answer(&cells, mark, mark - size)
}

fn tell(rt: &impl Print, text: &[u8], answer: u8) -> io::Result<()> {
    rt.write_all(text)?;
    rt.write_all(&[answer, b'\n'])
}

fn main(rt: HostRuntime) -> io::Result<()> {
    tell(
        &rt,
        b"a set in records of records: ",
        top_type(65536, 5, 8, false),
    )?;
    tell(
        &rt,
        b"a set in the deepest Option: ",
        top_type(65536, 3, 5, false),
    )?;
    tell(
        &rt,
        b"records of records over false, literal: ",
        top_term(65536, 5, 8, false),
    )?;
    tell(
        &rt,
        b"the deepest Some over false, literal: ",
        top_term(65536, 3, 5, false),
    )?;
    tell(
        &rt,
        b"a set in records of records over a set: ",
        top_type(8192, 5, 8, true),
    )?;
    tell(
        &rt,
        b"a set in a deep Option over a set: ",
        top_type(8192, 3, 5, true),
    )?;
    tell(
        &rt,
        b"records of records over a variable, literal: ",
        top_term(8192, 5, 8, true),
    )?;
    tell(
        &rt,
        b"a deep Some over a variable, literal: ",
        top_term(8192, 3, 5, true),
    )
}

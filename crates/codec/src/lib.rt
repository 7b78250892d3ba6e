// The bytes of a script: numbers in groups of seven bits, and instructions.

#![tactic(auto)]

ghost use Rattle.std.specs.Prelude.{◌≡◌, ◌&&◌, ◌+◌, ◌<◌, ◌≤◌, eqb, ltb, length};
ghost use Rattle.codec.specs.Digits.{digits};
ghost use Rattle.codec.specs.Numbers.{groups, number_at};
ghost use Rattle.codec.specs.Instructions.{numbers_at, operands_of, instruction_at, decoded_of};
ghost use Rattle.codec.specs.Writing.{Puts, written_of, with_number};

use instruction::Instruction;

// A number that was read, and the place behind it. What was read has a name of its own, here and in `Decoded` and `Operands`.
#[derive(Clone, Copy)]
pub struct Number {
    pub value: u64,
    pub next: usize,
}

// Whether a group passes 2^64: the tenth has one bit left, and no other follows it.
#[tactic(auto, using(std::proofs::lemmas::Bool::Decides::nat_tests))]
fn passes(shift: u64, group: u64) -> bool
    ensures { result ≡ (eqb shift 63 && ltb 1 group) }
{
    shift == 63 && group > 1
}

// Whether a last group is one too many: all zeros, and not the only one.
#[tactic(auto, using(std::proofs::lemmas::Bool::Decides::nat_tests))]
fn is_spare(shift: u64, group: u64) -> bool
    ensures { result ≡ (eqb group 0 && ltb 0 shift) }
{
    group == 0 && shift > 0
}

// The number at a place. None: the bytes end within it, it has more groups than it needs, or it is 2^64 or more.
pub fn read_number(bytes: &[u8], at: usize) -> Option<Number>
    ensures { result ≡ number_at bytes.now at }
{
    let mut shift: u64 = 0;
    let mut value: u64 = 0;
    for next in at..bytes.len() {
        let group = u64::from(bytes[next]);
        if passes(shift, group) {
            return None;
        }
        value |= (group & 127) << shift;
        if group < 128 {
            if is_spare(shift, group) {
                return None;
            }
            return Some(Number {
                value,
                next: next + 1,
            });
        }
        shift += 7;
    }
    None
}

// An instruction that was read, and the place behind it.
#[derive(Clone, Copy)]
pub struct Decoded {
    pub next: usize,
    pub instruction: Instruction,
}

// Operands that were read, and the place behind them.
#[derive(Clone, Copy)]
struct Operands {
    next: usize,
    values: [u64; 257],
}

// As many numbers as the count says.
fn read_operands(bytes: &[u8], at: usize, count: u64) -> Option<Operands>
    requires { count ≤ 257 }
    ensures { result ≡ operands_of (numbers_at count bytes.now at) }
{
    let mut values = [0u64; 257];
    let mut next = at;
    for read in 0..count as usize {
        let number = read_number(bytes, next)?;
        values[read] = number.value;
        next = number.next;
    }
    Some(Operands { next, values })
}

// The instruction at a place: operation, parameter, count, and as many operands, 257 at most.
#[tactic(auto, unfolding(crate::specs::Instructions::instruction_at, crate::specs::Instructions::after, crate::specs::Instructions::operands))]
pub fn read_instruction(bytes: &[u8], at: usize) -> Option<Decoded>
    ensures { result ≡ decoded_of (instruction_at bytes.now at) }
{
    let operation = read_number(bytes, at)?;
    let parameter = read_number(bytes, operation.next)?;
    let count = read_number(bytes, parameter.next)?;
    if count.value > 257 {
        return None;
    }
    let listed = read_operands(bytes, count.next, count.value)?;
    let operands = listed.values;
    Some(Decoded {
        next: listed.next,
        instruction: Instruction {
            operation: operation.value,
            parameter: parameter.value,
            count: count.value,
            operands,
        },
    })
}

// How many digits a number has in a base. What is counted is the loop's turns, so no range gives them.
pub fn digit_count(n: u64, base: u64) -> usize
    requires { 1 < base }
    ensures { result ≡ length (digits base n) }
{
    let mut rest = n;
    let mut count: usize = 1;
    while rest >= base {
        rest = rest / base;
        count += 1;
    }
    count
}

// How many groups a number has.
pub fn group_count(n: u64) -> usize
    ensures { result ≡ length (groups n) }
{
    digit_count(n, 128)
}

// A number's groups, for which there is room up to `end`.
fn put_groups(out: &mut [u8], at: usize, end: usize, n: u64)
    requires groups { end ≡ at + length (groups n) }
    requires room { end ≤ length out.old }
    ensures { Puts out.old at (groups n) end out.new }
{
    let last = end - 1;
    let mut rest = n;
    for next in at..last {
        out[next] = (128 + rest % 128) as u8;
        rest = rest / 128;
    }
    out[last] = rest as u8;
}

// A number's groups at a place, and the place behind them. None: they have no room, and nothing changes.
#[tactic(auto, unfolding(crate::specs::Writing::written_of, crate::specs::Writing::with_number, crate::specs::Writing::fits))]
pub fn write_number(out: &mut [u8], at: usize, n: u64) -> Option<usize>
    ensures { (result ≡ written_of out.old at n) × (out.new ≡ with_number out.old at n) }
{
    let end = at.checked_add(group_count(n))?;
    if end > out.len() {
        return None;
    }
    put_groups(out, at, end, n);
    Some(end)
}

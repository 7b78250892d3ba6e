// Replays lists of bitvector answers that others gave, a byte at a time, and counts where ours differ. A line that is no
// case counts as different, so that nothing is passed over.

#![tactic(auto)]

ghost use Rattle.std.specs.Prelude.{◌≡◌, true, ◌+◌, ◌<◌, ◌≤◌, ◌^◌};
ghost use Rattle.smtlib.specs.Logic.{zero_extend};
ghost use Rattle.vectors.specs.Answers.{plain_of, Right};

use bitvec::Width;

// A line of a list: an operation at a width, its operands, and the answer that another gave.
#[derive(Clone, Copy)]
struct Case {
    operation: u64,
    width: u64,
    first: u64,
    second: u64,
    answer: u64,
}

// What a line is: the heading of a list, or a case.
#[derive(Clone, Copy)]
enum Line {
    Original,
    Solver,
    Same,
    Different,
}

#[derive(Clone, Copy, Default)]
pub struct Count {
    pub compared: u64,
    pub different: u64,
}

// The line that is being read, and what the lines before it gave.
#[derive(Clone, Copy)]
pub struct Replay {
    // The line's first bytes, and how many it has so far, which may be more. A library has no heap, so the room is fixed.
    pub text: [u8; 80],
    pub used: usize,
    // How many lines have ended.
    pub line: u64,
    // which of the two lists is being read
    pub in_solver: bool,
    pub original: Count,
    pub solver: Count,
    // The numbers of the first lines that differ.
    pub shown: [Option<u64>; 8],
}

// The decimal number that a field is, of digits alone and below 2^64.
fn number(field: &str) -> Option<u64> {
    // parse takes a sign
    if field.starts_with('+') {
        return None;
    }
    field.parse().ok()
}

// The five numbers of a case, with a space between two, and nothing else.
fn parse(line: &[u8]) -> Option<Case> {
    let mut fields = str::from_utf8(line).ok()?.split(' ');
    let case = Case {
        operation: number(fields.next()?)?,
        width: number(fields.next()?)?,
        first: number(fields.next()?)?,
        second: number(fields.next()?)?,
        answer: number(fields.next()?)?,
    };
    if fields.next().is_some() {
        return None;
    }
    Some(case)
}

// Whether v is a bitvector of the width.
#[tactic(auto, unfolding(smtlib::specs::Theory::all_ones))]
fn fits(width: Width, v: u64) -> bool
    ensures { result ≡ true → v < 2 ^ width.bits }
{
    v <= bitvec::all_ones(width)
}

// Whether the operation is one from 30 to 48, and its second operand 0 where it takes none.
fn is_known(operation: u64, second: u64) -> bool
    ensures { result ≡ true → (30 ≤ operation) × (operation ≤ 48) }
{
    match operation {
        30 | 45 => second == 0,
        31..=48 => true,
        _ => false,
    }
}

// Our answer to an operation from 30 to 48, by document 01's number as the lists have it; that of a predicate is 0 or 1.
#[tactic(auto, unfolding(crate::specs::Answers::plain_of))]
fn answer(operation: u64, width: Width, first: u64, second: u64) -> u64
    requires le_operation { (30 ≤ operation) × (operation ≤ 48) }
    requires left { first < 2 ^ width.bits }
    requires right { second < 2 ^ width.bits }
    ensures { result ≡ plain_of operation width.bits first second }
{
    match operation {
        30 => bitvec::neg(width, first),
        31..=40 => bitvec_closures::bvapp(operation, width, first, second),
        41..=44 => u64::from(bitvec_closures::bvcmp(operation, width, first, second)),
        45 => u64::from(bitvec_closures::nego(width, first)),
        _ => u64::from(bitvec_closures::bvso(operation, width, first, second)),
    }
}

// Whether zero_extend by n is in range, and has our answer.
fn extends(width: Width, n: u64, v: u64, answer: u64) -> bool
    requires { v < 2 ^ width.bits }
    ensures { result ≡ true → (width.bits + n ≤ 64) × (answer ≡ zero_extend width.bits n v) }
{
    n <= 64 - width.bits && bitvec::zero_extend(width, n, v) == answer
}

// Whether the case is one of the operations on operands of its width, and has our answer.
fn agrees(c: Case) -> bool
    ensures { result ≡ true → Right c.operation c.width c.first c.second c.answer }
{
    let Ok(width) = Width::try_from(c.width) else {
        return false;
    };
    if !fits(width, c.first) {
        return false;
    }
    if c.operation == 49 {
        return extends(width, c.second, c.first, c.answer);
    }
    fits(width, c.second)
        && is_known(c.operation, c.second)
        && answer(c.operation, width, c.first, c.second) == c.answer
}

fn judge(line: &[u8]) -> Line {
    match line {
        b"original" => Line::Original,
        b"solver" => Line::Solver,
        _ => match parse(line) {
            Some(c) if agrees(c) => Line::Same,
            _ => Line::Different,
        },
    }
}

impl Count {
    fn add(&mut self, differs: bool) {
        self.compared = self.compared.saturating_add(1);
        self.different = self.different.saturating_add(u64::from(differs));
    }
}

impl Replay {
    // A case more in the list that is being read.
    fn compare(&mut self, differs: bool) {
        if self.in_solver {
            self.solver.add(differs);
        } else {
            self.original.add(differs);
        }
    }

    // The number of a line that differs goes to the first free place, if there is one.
    fn show(&mut self) {
        if let Some(free) = self.shown.iter().position(Option::is_none) {
            self.shown[free] = Some(self.line);
        }
    }

    // What the line is: a longer one than the room is no case.
    fn judged(&self) -> Line {
        match self.text.get(..self.used) {
            Some(line) => judge(line),
            None => Line::Different,
        }
    }

    // The line ends here.
    fn end_line(&mut self) {
        let line = self.judged();
        self.used = 0;
        self.line = self.line.saturating_add(1);
        match line {
            Line::Original => self.in_solver = false,
            Line::Solver => self.in_solver = true,
            Line::Same => self.compare(false),
            Line::Different => {
                self.show();
                self.compare(true);
            }
        }
    }

    // One byte more.
    fn push(&mut self, b: u8) {
        if b == b'\n' {
            self.end_line();
            return;
        }
        if let Some(place) = self.text.get_mut(self.used) {
            *place = b;
        }
        self.used = self.used.saturating_add(1);
    }
}

// Before the first byte.
pub fn start() -> Replay {
    Replay {
        text: [0; 80],
        used: 0,
        line: 0,
        in_solver: false,
        original: Count::default(),
        solver: Count::default(),
        shown: [None; 8],
    }
}

// The next bytes.
pub fn feed(mut r: Replay, s: &[u8]) -> Replay {
    for b in s {
        r.push(*b);
    }
    r
}

// After the last byte: a line without a line end counts too.
pub fn finish(mut r: Replay) -> Replay {
    if r.used > 0 {
        r.end_line();
    }
    r
}

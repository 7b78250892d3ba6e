// The table of operations, the refusals in their order, what a call answers and what is promised of it: definitions in specs/, laws in proofs/. The code
// stands in the crates refusals, dispatch and call.

#![tactic(auto)]

ghost use Rattle.std.specs.Prelude.{◌≡◌, Some};
ghost use Rattle.table.specs.Answers.{reply_of, said};
ghost use Rattle.table.specs.Refusals.{number_of, words_of};

use std::error::Error;
use std::fmt;

// Why a call changed nothing. The numbers are document 01's.
#[derive(Clone, Copy, Debug, PartialEq, Eq)]
pub enum Refusal {
    NotAnArena = 1,
    NotAnInstruction = 2,
    TooMany = 3,
    NotAPosition = 4,
    WrongType = 5,
    WrongWidth = 6,
    TooLarge = 7,
    AbsentAttribute = 8,
    NoRoom = 9,
}

impl Refusal {
    pub fn number(self) -> u64
        ensures { result ≡ number_of self }
    {
        self as u64
    }
}

impl fmt::Display for Refusal {
    ghost output = { λ e. Some (words_of e) };

    fn fmt<W: fmt::Write>(&self, f: &mut fmt::Formatter<W>) -> fmt::Result {
        f.write_str(match self {
            Refusal::NotAnArena =>
                "arena length outside 12 to 65,536, mark above it, or arena not well formed",
            Refusal::NotAnInstruction =>
                "unknown operation, wrong operand count, or a parameter not 0 where none is taken",
            Refusal::TooMany => "more set members, fields or options listed than the limit",
            Refusal::NotAPosition => "an operand is not the start of a term, or type, as needed",
            Refusal::WrongType =>
                "an operand's type is not the one named, the type given to a bitvec literal is no Bitvec, or an element type contains a set",
            Refusal::WrongWidth => "width 0 or above 64, also after zero_extend",
            Refusal::TooLarge =>
                "literal not below 2 to the width; bool literal above 1; attribute or id too large; unordered type fields",
            Refusal::AbsentAttribute => "absent attribute",
            Refusal::NoRoom => "a node that the steps add does not fit below the arena's end",
        })
    }
}

impl Error for Refusal {}

// Where a call found or built its node, and the new mark.
#[derive(Clone, Copy, Debug, PartialEq, Eq)]
pub struct Accepted {
    pub position: u64,
    pub mark: usize,
}

// What a call answers. A refusal leaves every cell and the mark as they were.
pub type Answer = Result<Accepted, Refusal>;

// An answer as a line says it: a refusal by its number.
pub fn numbered(answer: Answer) -> Result<Accepted, u64>
    ensures { said result ≡ reply_of answer }
{
    answer.map_err(Refusal::number)
}

// The operands of an operation: a type where `true` stands, and then so many terms; pairs of an attribute and a type or a term; the
// first again, with a run of terms behind it. `shape_of` says which of the table's shapes each is.
#[derive(Clone, Copy)]
pub enum Form {
    Fixed(bool, u8),
    Pairs(bool),
    Run(bool, u8),
}

// A term's type as an operation names it: the one at a position, or any of a kind.
#[derive(Clone, Copy)]
pub enum Named {
    Type(u64),
    Kind(u64),
}

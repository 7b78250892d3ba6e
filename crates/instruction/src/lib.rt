// One instruction of a script, as the decoder hands it to the dispatcher: by value, with room for 257 operands.

#![tactic(auto)]

ghost use Rattle.std.specs.Prelude.{◌≡◌};
ghost use Rattle.instruction.specs.Instruction.{held, without};

// The operands are the first `count` numbers of the array. The array and the count stay beside each other: memory is fixed, and the
// call takes every count, one above 257 too, which it refuses.
#[derive(Clone, Copy)]
pub struct Instruction {
    pub operation: u64,
    pub parameter: u64,
    pub count: u64,
    pub operands: [u64; 257],
}

// An instruction that lists no operands.
pub fn without_operands(operation: u64, parameter: u64) -> Instruction
    ensures { result ≡ held (without operation parameter) }
{
    Instruction {
        operation,
        parameter,
        count: 0,
        operands: [0u64; 257],
    }
}

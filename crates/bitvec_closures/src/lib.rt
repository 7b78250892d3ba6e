// What the factory hands to bvapp, bvcmp and bvso as a closure: the overflow predicates, and the operations by document 01's numbers.

#![tactic(auto)]

ghost use Rattle.std.specs.Prelude.{◌≡◌, ◌<◌, ◌≤◌, ◌^◌, unsigned_abs};
ghost use Rattle.smtlib.specs.Overflow.{bv2int, outside, bvnego, bvsaddo, bvssubo, bvsmulo};
ghost use Rattle.smtlib.specs.Numbered.{bvapp_of, bvcmp_of, bvso_of};

use bitvec::Width;

// Of bitvec.rs, its Int an i128: wide enough for a product of two 64-bit numbers.

// The signed value.
#[tactic(auto, using(crate::proofs::Signed::negative, crate::proofs::Signed::positive, std::proofs::lemmas::Int::ints))]
fn to_int(width: Width, v: u64) -> i128
    requires { v < 2 ^ width.bits }
    ensures value { result ≡ bv2int width.bits v }
    ensures bound { unsigned_abs result ≤ 2 ^ 63 }
{
    if bitvec::msb(width, v) {
        -i128::from(bitvec::neg(width, v))
    } else {
        i128::from(v)
    }
}

// Whether a whole number lies outside the signed numbers of the width.
#[tactic(auto, using(std::proofs::lemmas::Int::ints), unfolding(smtlib::specs::Overflow::outside))]
fn overflows(width: Width, i: i128) -> bool
    ensures { result ≡ outside width.bits i }
{
    let half = i128::from(bitvec::int_min(width));
    i < -half || half <= i
}

// The closures on Int, each as the exact result, which no 128 bits overflow, and then its test.

#[tactic(auto, unfolding(smtlib::specs::Overflow::bvnego))]
pub fn nego(width: Width, v: u64) -> bool
    requires { v < 2 ^ width.bits }
    ensures { result ≡ bvnego width.bits v }
{
    overflows(width, -to_int(width, v))
}

#[tactic(auto, unfolding(smtlib::specs::Overflow::bvsaddo))]
pub fn saddo(width: Width, lhs: u64, rhs: u64) -> bool
    requires left { lhs < 2 ^ width.bits }
    requires right { rhs < 2 ^ width.bits }
    ensures { result ≡ bvsaddo width.bits lhs rhs }
{
    overflows(width, to_int(width, lhs) + to_int(width, rhs))
}

#[tactic(auto, unfolding(smtlib::specs::Overflow::bvssubo))]
pub fn ssubo(width: Width, lhs: u64, rhs: u64) -> bool
    requires left { lhs < 2 ^ width.bits }
    requires right { rhs < 2 ^ width.bits }
    ensures { result ≡ bvssubo width.bits lhs rhs }
{
    overflows(width, to_int(width, lhs) - to_int(width, rhs))
}

pub fn smulo(width: Width, lhs: u64, rhs: u64) -> bool
    requires left { lhs < 2 ^ width.bits }
    requires right { rhs < 2 ^ width.bits }
    ensures { result ≡ bvsmulo width.bits lhs rhs }
{
    overflows(width, to_int(width, lhs) * to_int(width, rhs))
}

// Operations 31 to 40 by number: a decision stands for the Rust's closure. An enum would not do, here and in the two below: the contract has an answer for every number.
#[tactic(auto, unfolding(smtlib::specs::Numbered::bvapp_of))]
pub fn bvapp(op: u64, width: Width, lhs: u64, rhs: u64) -> u64
    requires left { lhs < 2 ^ width.bits }
    requires right { rhs < 2 ^ width.bits }
    ensures { result ≡ bvapp_of op width.bits lhs rhs }
{
    match op {
        31 => bitvec::add(width, lhs, rhs),
        32 => bitvec::sub(width, lhs, rhs),
        33 => bitvec::mul(width, lhs, rhs),
        34 => bitvec::sdiv(width, lhs, rhs),
        35 => bitvec::udiv(width, lhs, rhs),
        36 => bitvec::srem(width, lhs, rhs),
        37 => bitvec::smod(width, lhs, rhs),
        38 => bitvec::urem(width, lhs, rhs),
        39 => bitvec::shl(width, lhs, rhs),
        _ => bitvec::lshr(width, lhs, rhs),
    }
}

// Operations 41 to 44 by number.
#[tactic(auto, unfolding(smtlib::specs::Numbered::bvcmp_of))]
pub fn bvcmp(op: u64, width: Width, lhs: u64, rhs: u64) -> bool
    requires left { lhs < 2 ^ width.bits }
    requires right { rhs < 2 ^ width.bits }
    ensures { result ≡ bvcmp_of op width.bits lhs rhs }
{
    match op {
        41 => bitvec::slt(width, lhs, rhs),
        42 => bitvec::sle(width, lhs, rhs),
        43 => bitvec::ult(lhs, rhs),
        _ => bitvec::ule(lhs, rhs),
    }
}

// Operations 46 to 48 by number.
#[tactic(auto, unfolding(smtlib::specs::Numbered::bvso_of))]
pub fn bvso(op: u64, width: Width, lhs: u64, rhs: u64) -> bool
    requires left { lhs < 2 ^ width.bits }
    requires right { rhs < 2 ^ width.bits }
    ensures { result ≡ bvso_of op width.bits lhs rhs }
{
    match op {
        46 => saddo(width, lhs, rhs),
        47 => ssubo(width, lhs, rhs),
        _ => smulo(width, lhs, rhs),
    }
}

// Bitvectors of 1 to 64 bits, each a u64 below 2 to the width: bitvec.rs, in its order. SMT-LIB decides every result (the crate smtlib). What speaks of
// whole numbers, to_int and overflows, stands in bitvec_closures. An operand is no type of its own: `add`, `mul`, `not`, `shl` and `of_nat` take any word.

#![tactic(auto)]

ghost use Rattle.std.specs.Prelude.{◌≡◌, ◌<◌, ◌≤◌, ◌+◌, ◌-◌, ◌*◌, ◌^◌, ◌==◌, MatchResult};
ghost use Rattle.smtlib.specs.Theory.{IsWidth, nat2bv, all_ones, bvnot, bvneg, bvadd, bvmul, bvudiv, bvurem, bvshl, bvlshr, bvult};
ghost use Rattle.smtlib.specs.Logic.{top, by_top, bvabs, bvsub, bvsdiv, bvsrem, bvsmod, bvule, bvslt, bvsle, zero_extend};

// The number of bits, 1 to 64.
#[derive(Clone, Copy)]
pub struct Width {
    pub bits: u64,
    pub ghost is_width: { IsWidth bits },
}

// A number that is no width.
#[derive(Clone, Copy)]
pub struct NoWidth(pub u64);

impl TryFrom<u64> for Width {
    type Error = NoWidth;

    ghost try_from_gives = { λ n r. MatchResult r (λ width. width.bits ≡ n) (λ e. (e.0 ≡ n) × ¬ (IsWidth n)) };

    fn try_from(bits: u64) -> Result<Self, NoWidth> {
        match bits {
            1..=64 => Ok(Width { bits }),
            _ => Err(NoWidth(bits)),
        }
    }
}

// The number of the width's low bits of v.
#[tactic(auto, using(crate::proofs::Laws::masks), unfolding(smtlib::specs::Theory::all_ones, smtlib::specs::Theory::nat2bv))]
pub fn of_nat(width: Width, v: u64) -> u64
    ensures { result ≡ nat2bv width.bits v }
{
    v & all_ones(width)
}

// As many ones as the width: shifted right, since a word can't be shifted left by 64.
pub fn all_ones(width: Width) -> u64
    ensures { result ≡ all_ones width.bits }
{
    0xffff_ffff_ffff_ffff >> (64 - width.bits)
}

// The most significant bit, the sign.
#[tactic(auto, using(crate::proofs::Laws::tops))]
pub fn msb(width: Width, v: u64) -> bool
    requires { v < 2 ^ width.bits }
    ensures { result ≡ (top width.bits v == 1) }
{
    v >> (width.bits - 1) == 1
}

// Every bit flipped.
#[tactic(auto, unfolding(smtlib::specs::Theory::bvnot))]
pub fn not(width: Width, v: u64) -> u64
    ensures { result ≡ bvnot width.bits v }
{
    v ^ all_ones(width)
}

#[tactic(auto, using(smtlib::proofs::Negation::neg_not))]
pub fn neg(width: Width, v: u64) -> u64
    requires { v < 2 ^ width.bits }
    ensures { result ≡ bvneg width.bits v }
{
    add(width, not(width, v), 1)
}

// The smallest signed number, as a bitvector.
#[tactic(auto, using(smtlib::proofs::Word::half_fits))]
pub fn int_min(width: Width) -> u64
    ensures { result ≡ 2 ^ (width.bits - 1) }
{
    1 << (width.bits - 1)
}

// A signed order from one on the bits: of different signs the negative number is the smaller.
#[tactic(auto, using(crate::proofs::Laws::signs))]
fn by_sign(width: Width, lhs: u64, rhs: u64, unsigned: bool) -> bool
    requires left { lhs < 2 ^ width.bits }
    requires right { rhs < 2 ^ width.bits }
    ensures { result ≡ by_top (top width.bits lhs) (top width.bits rhs) unsigned }
{
    let lhs_msb = msb(width, lhs);
    if lhs_msb == msb(width, rhs) {
        unsigned
    } else {
        lhs_msb
    }
}

#[tactic(auto, unfolding(smtlib::specs::Logic::bvslt))]
pub fn slt(width: Width, lhs: u64, rhs: u64) -> bool
    requires left { lhs < 2 ^ width.bits }
    requires right { rhs < 2 ^ width.bits }
    ensures { result ≡ bvslt width.bits lhs rhs }
{
    by_sign(width, lhs, rhs, ult(lhs, rhs))
}

#[tactic(auto, unfolding(smtlib::specs::Logic::bvsle))]
pub fn sle(width: Width, lhs: u64, rhs: u64) -> bool
    requires left { lhs < 2 ^ width.bits }
    requires right { rhs < 2 ^ width.bits }
    ensures { result ≡ bvsle width.bits lhs rhs }
{
    by_sign(width, lhs, rhs, ule(lhs, rhs))
}

#[tactic(auto, using(smtlib::proofs::Orders::ule_le))]
pub fn ule(lhs: u64, rhs: u64) -> bool
    ensures { result ≡ bvule lhs rhs }
{
    lhs <= rhs
}

#[tactic(auto, unfolding(smtlib::specs::Theory::bvult))]
pub fn ult(lhs: u64, rhs: u64) -> bool
    ensures { result ≡ bvult lhs rhs }
{
    lhs < rhs
}

#[tactic(auto, using(crate::proofs::Laws::word), unfolding(smtlib::specs::Theory::bvadd, smtlib::specs::Theory::nat2bv))]
pub fn add(width: Width, lhs: u64, rhs: u64) -> u64
    ensures { result ≡ bvadd width.bits lhs rhs }
{
    of_nat(width, lhs.wrapping_add(rhs))
}

#[tactic(auto, unfolding(smtlib::specs::Logic::bvsub))]
pub fn sub(width: Width, lhs: u64, rhs: u64) -> u64
    requires left { lhs < 2 ^ width.bits }
    requires right { rhs < 2 ^ width.bits }
    ensures { result ≡ bvsub width.bits lhs rhs }
{
    add(width, lhs, neg(width, rhs))
}

pub fn mul(width: Width, lhs: u64, rhs: u64) -> u64
    ensures { result ≡ bvmul width.bits lhs rhs }
{
    let p = product(lhs, rhs);
    of_nat(width, p.low)
}

#[tactic(auto, using(smtlib::proofs::Division::udiv_zero, smtlib::proofs::Division::udiv_some))]
pub fn udiv(width: Width, lhs: u64, rhs: u64) -> u64
    requires { lhs < 2 ^ width.bits }
    ensures { result ≡ bvudiv width.bits lhs rhs }
{
    if rhs == 0 { all_ones(width) } else { lhs / rhs }
}

#[tactic(auto, using(smtlib::proofs::Division::urem_zero, smtlib::proofs::Division::urem_some))]
pub fn urem(width: Width, lhs: u64, rhs: u64) -> u64
    requires { lhs < 2 ^ width.bits }
    ensures { result ≡ bvurem width.bits lhs rhs }
{
    if rhs == 0 { lhs } else { lhs % rhs }
}

// The absolute value; that of the smallest signed number is its own bits, read unsigned.
#[tactic(auto, using(smtlib::proofs::Absolute::abs_high, smtlib::proofs::Absolute::abs_low))]
fn abs(width: Width, v: u64) -> u64
    requires { v < 2 ^ width.bits }
    ensures { result ≡ bvabs width.bits v }
{
    if msb(width, v) { neg(width, v) } else { v }
}

// The quotient of the absolute values, negative where the signs differ.
#[tactic(auto, using(crate::proofs::Laws::quotients))]
pub fn sdiv(width: Width, lhs: u64, rhs: u64) -> u64
    requires left { lhs < 2 ^ width.bits }
    requires right { rhs < 2 ^ width.bits }
    ensures { result ≡ bvsdiv width.bits lhs rhs }
{
    let u = udiv(width, abs(width, lhs), abs(width, rhs));
    if msb(width, lhs) == msb(width, rhs) {
        u
    } else {
        neg(width, u)
    }
}

// The remainder of the absolute values, with the dividend's sign.
#[tactic(auto, using(crate::proofs::Laws::remainders))]
pub fn srem(width: Width, lhs: u64, rhs: u64) -> u64
    requires left { lhs < 2 ^ width.bits }
    requires right { rhs < 2 ^ width.bits }
    ensures { result ≡ bvsrem width.bits lhs rhs }
{
    let u = urem(width, abs(width, lhs), abs(width, rhs));
    if msb(width, lhs) { neg(width, u) } else { u }
}

// The remainder with the divisor's sign: where srem has the other one, the divisor is added.
#[tactic(auto, using(crate::proofs::Laws::moduli))]
pub fn smod(width: Width, lhs: u64, rhs: u64) -> u64
    requires left { lhs < 2 ^ width.bits }
    requires right { rhs < 2 ^ width.bits }
    ensures { result ≡ bvsmod width.bits lhs rhs }
{
    let r = srem(width, lhs, rhs);
    if r == 0 {
        return 0;
    }
    if msb(width, lhs) == msb(width, rhs) {
        r
    } else {
        add(width, r, rhs)
    }
}

// A shift by the width or more leaves nothing, and no word can be shifted that far.
#[tactic(auto, using(crate::proofs::Laws::word, smtlib::proofs::Word::shl_out), unfolding(smtlib::specs::Theory::bvshl, smtlib::specs::Theory::nat2bv))]
pub fn shl(width: Width, lhs: u64, rhs: u64) -> u64
    ensures { result ≡ bvshl width.bits lhs rhs }
{
    if width.bits <= rhs {
        return 0;
    }
    of_nat(width, lhs << rhs)
}

#[tactic(auto, using(smtlib::proofs::Division::lshr_in, smtlib::proofs::Division::lshr_out))]
pub fn lshr(width: Width, lhs: u64, rhs: u64) -> u64
    requires { lhs < 2 ^ width.bits }
    ensures { result ≡ bvlshr width.bits lhs rhs }
{
    if rhs < width.bits { lhs >> rhs } else { 0 }
}

// Adds n to the width.
#[tactic(auto, using(smtlib::proofs::Division::extended))]
pub fn zero_extend(width: Width, n: u64, v: u64) -> u64
    requires below { v < 2 ^ width.bits }
    requires wider { width.bits + n ≤ 64 }
    ensures { result ≡ zero_extend width.bits n v }
{
    let wider = Width {
        bits: width.bits + n,
    };
    of_nat(wider, v)
}

// A number below 2^128.
#[derive(Clone, Copy)]
pub struct TwoWords {
    pub high: u64,
    pub low: u64,
}

// The whole product. Each factor is cut into halves of 32 bits, so that a product of two halves fits a word; the columns are added with their carries, as by hand in base 2^32.
// A product of u128 would say the same: the columns stay for the must-fail edit carry_dropped, which spoils one.
pub fn product(u: u64, v: u64) -> TwoWords
    ensures { result.high * 2 ^ 64 + result.low ≡ u * v }
{
    let u0 = u & 0xffff_ffff;
    let u1 = u >> 32;
    let v0 = v & 0xffff_ffff;
    let v1 = v >> 32;
    let w0 = u0 * v0;
    let t = u1 * v0 + (w0 >> 32);
    let w1 = (t & 0xffff_ffff) + u0 * v1;
    TwoWords {
        high: u1 * v1 + (t >> 32) + (w1 >> 32),
        low: (w1 << 32) + (w0 & 0xffff_ffff),
    }
}

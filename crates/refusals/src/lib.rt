// Document 01's refusals 2 to 8 of an instruction on a well-formed arena: its tests in the order of their numbers, of which the first that
// holds is given. An operation stays a number: C and scripts hand over any, and the table's rows have document 01's numbers. Conditions on it are
// joined by | and &, so that each is one value.

#![tactic(auto)]

ghost use Rattle.std.specs.Prelude.{◌≡◌, true, false, cond, ◌||◌, ◌≤◌, length, drop, leb};
ghost use Rattle.arena.specs.Lists.{all, any, odds, within};
ghost use Rattle.arena.specs.Nodes.{type_at, elem_at, width_at};
ghost use Rattle.arena.specs.View.{nodes_of};
ghost use Rattle.arena.specs.WellFormed.{is_term};
ghost use Rattle.table.specs.Table.{#0, known, row, not_of, not_kind, not_alike};
ghost use Rattle.table.specs.Call.{count_ok, too_many, sort_ok, sorts_ok, operands_ok, first_of, tests, refusal as refusalOf};
ghost use Rattle.table.specs.Refusals.{number_or_0};
ghost use Rattle.table.specs.Forms.{sort, sorts, shape_of, misfit, Terms, Suited, instr, listed};

use arena::TermPos;
use arena::cells::View;
use node_tests::tests::fits_width;
use runs::{field, keys_small, rises};
use table::{Form, Named, Refusal};
use walks::set_free;

// ---- refusals 2 and 3: the operation, its count and its parameter

// Whether the operation is in the table.
fn is_known(op: u64) -> bool
    ensures { result ≡ known op }
{
    (1 <= op) & (op <= 5)
        | (10 <= op) & (op <= 16)
        | (20 <= op) & (op <= 26)
        | (30 <= op) & (op <= 56)
        | (60 <= op) & (op <= 66)
        | (70 <= op) & (op <= 75)
}

// Whether it takes a parameter.
fn takes_parameter(op: u64) -> bool
    requires { known op ≡ true }
    ensures { result ≡ (row op).takes }
{
    (op == 2)
        | (op == 10)
        | (op == 11)
        | (op == 16)
        | (op == 26)
        | (op == 49)
        | (op == 56)
        | (op == 74)
        | (op == 75)
}

// What it lists.
fn form_of(op: u64) -> Form
    requires { known op ≡ true }
    ensures { shape_of result ≡ (row op).shape }
{
    if (op == 5) | (op == 15) | (op == 73) {
        return Form::Pairs(op == 5);
    }
    if (op == 14) | (op == 65) | (op == 66) {
        return Form::Run(op == 14, (op == 66) as u8);
    }
    if (op == 1) | (op == 2) | (op == 10) {
        return Form::Fixed(false, 0);
    }
    if (op == 3) | (op == 4) | (op == 11) | (op == 12) | (op == 16) {
        return Form::Fixed(true, 0);
    }
    if (21 <= op) & (op <= 24)
        | (31 <= op) & (op <= 44)
        | (46 <= op) & (op <= 48)
        | (50 <= op) & (op <= 52)
        | (op == 54)
        | (62 <= op) & (op <= 64)
    {
        return Form::Fixed(false, 2);
    }
    if op == 25 {
        return Form::Fixed(false, 3);
    }
    Form::Fixed(op == 26, 1)
}

// How many operands stand before a run: a type where `typed`, and the terms.
fn least(typed: bool, terms: u8) -> u64
    ensures value { result ≡ length (sorts typed terms) }
    ensures upper_bound { result ≤ 256 }
{
    let n = terms as u64;
    if typed { n + 1 } else { n }
}

// Whether n is the right number of operands.
fn count_ok(form: Form, n: u64) -> bool
    ensures { result ≡ count_ok (shape_of form) n }
{
    match form {
        Form::Fixed(typed, terms) => n == least(typed, terms),
        Form::Pairs(_) => n % 2 == 0,
        Form::Run(typed, terms) => least(typed, terms) <= n,
    }
}

// Whether n are more than the limit: 64 pairs, 256 in a run.
fn too_many(form: Form, n: u64) -> bool
    ensures { result ≡ too_many (shape_of form) n }
{
    match form {
        Form::Fixed(_, _) => false,
        Form::Pairs(_) => n > 128,
        Form::Run(typed, terms) => n > least(typed, terms) + 256,
    }
}

// ---- refusal 4: terms and types where they are needed

// Whether a node of this kind is of the sort: a type, or a term. 0 is neither.
fn fits_sort(typed: bool, kind: u64) -> bool
    ensures { result ≡ cond typed (within 1 15 kind) (leb 16 kind) }
{
    if typed {
        1 <= kind && kind <= 15
    } else {
        16 <= kind
    }
}

// Whether terms start at all of these. Each is looked for from the one before on.
#[tactic(auto, using(arena::proofs::Starts::first_kind))]
fn all_terms(nodes: &View<'_>, xs: &[u64]) -> bool
    ensures { result ≡ all (is_term (nodes_of nodes.now)) xs.now }
{
    let mut foot: u64 = 0;
    for &x in xs {
        if nodes.kind_from(foot, x) < 16 {
            return false;
        }
        foot = x;
    }
    true
}

// Whether nodes of the sort start at all that the pairs hold: `all_terms` over pairs, where a place is no step of a count.
#[tactic(auto, using(arena::proofs::Starts::first_kind))]
fn all_held(nodes: &View<'_>, typed: bool, pairs: &[u64]) -> bool
    ensures { result ≡ all (sort_ok (nodes_of nodes.now) (sort typed)) (odds pairs.now) }
{
    let mut foot: u64 = 0;
    for pair in pairs.chunks_exact(2) {
        if !fits_sort(typed, nodes.kind_from(foot, pair[1])) {
            return false;
        }
        foot = pair[1];
    }
    true
}

// Whether the first is a type where `typed`, so many terms follow, and all others are terms.
fn sorts_ok(nodes: &View<'_>, typed: bool, terms: u8, xs: &[u64]) -> bool
    ensures { result ≡ sorts_ok (nodes_of nodes.now) (sorts typed terms) xs.now }
{
    if (xs.len() as u64) < least(typed, terms) {
        return false;
    }
    if !typed {
        return all_terms(nodes, xs);
    }
    nodes.is_type(xs[0]) && all_terms(nodes, &xs[1..])
}

// Whether every operand is the start of a term or type, as needed.
fn operands_ok(nodes: &View<'_>, form: Form, xs: &[u64]) -> bool
    ensures { result ≡ operands_ok (nodes_of nodes.now) (shape_of form) xs.now }
{
    match form {
        Form::Fixed(typed, terms) => sorts_ok(nodes, typed, terms, xs),
        Form::Pairs(typed) => all_held(nodes, typed, xs),
        Form::Run(typed, terms) => sorts_ok(nodes, typed, terms, xs),
    }
}

// ---- refusal 5: types as named

// Whether the term's type is not the one named.
fn misfits(nodes: &View<'_>, named: Named, x: u64) -> bool
    requires { is_term (nodes_of nodes.now) x ≡ true }
    ensures { result ≡ misfit (nodes_of nodes.now) named x }
{
    let ty = nodes.type_of(TermPos(x)).0;
    match named {
        Named::Type(t) => ty != t,
        Named::Kind(k) => nodes.kind_of(ty) != k,
    }
}

// The same of one of these.
fn any_misfits(nodes: &View<'_>, named: Named, xs: &[u64]) -> bool
    requires { all (is_term (nodes_of nodes.now)) xs.now ≡ true }
    ensures { result ≡ any (misfit (nodes_of nodes.now) named) xs.now }
{
    for &x in xs {
        if misfits(nodes, named, x) {
            return true;
        }
    }
    false
}

// The same of one that the pairs hold.
fn held_misfits(nodes: &View<'_>, named: Named, pairs: &[u64]) -> bool
    requires { all (is_term (nodes_of nodes.now)) (odds pairs.now) ≡ true }
    ensures { result ≡ any (misfit (nodes_of nodes.now) named) (odds pairs.now) }
{
    for pair in pairs.chunks_exact(2) {
        if misfits(nodes, named, pair[1]) {
            return true;
        }
    }
    false
}

// The same of the first.
fn first_misfits(nodes: &View<'_>, named: Named, xs: &[u64]) -> bool
    requires { Terms (nodes_of nodes.now) 1 xs.now }
    ensures { result ≡ misfit (nodes_of nodes.now) named (#0 xs.now) }
{
    misfits(nodes, named, xs[0])
}

// Whether two terms are of two types.
fn differ(nodes: &View<'_>, x: u64, y: u64) -> bool
    requires x_value { is_term (nodes_of nodes.now) x ≡ true }
    requires y_value { is_term (nodes_of nodes.now) y ≡ true }
    ensures { result ≡ not_of (nodes_of nodes.now) (type_at (nodes_of nodes.now) x) y }
{
    let ty = nodes.type_of(TermPos(x)).0;
    misfits(nodes, Named::Type(ty), y)
}

// Whether the terms are not all of one type of this kind.
fn not_alike(nodes: &View<'_>, kind: u64, xs: &[u64]) -> bool
    requires { Terms (nodes_of nodes.now) 1 xs.now }
    ensures { result ≡ not_alike kind (nodes_of nodes.now) xs.now }
{
    let ty = nodes.type_of(TermPos(xs[0])).0;
    if nodes.kind_of(ty) != kind {
        return true;
    }
    any_misfits(nodes, Named::Type(ty), &xs[1..])
}

// Whether y is no set, or one of another type's elements than x.
fn no_member(nodes: &View<'_>, x: u64, y: u64) -> bool
    requires x_value { is_term (nodes_of nodes.now) x ≡ true }
    requires y_value { is_term (nodes_of nodes.now) y ≡ true }
    ensures { result ≡ (not_kind 4 (nodes_of nodes.now) y || not_of (nodes_of nodes.now) (elem_at (nodes_of nodes.now) y) x) }
{
    let set = nodes.type_of(TermPos(y)).0;
    let elem = nodes.arg_of(set, 0);
    (nodes.kind_of(set) != 4) | misfits(nodes, Named::Type(elem), x)
}

// The width of the first, a bitvector; of another term its type's parameter.
fn first_width(nodes: &View<'_>, xs: &[u64]) -> u64
    requires { Terms (nodes_of nodes.now) 1 xs.now }
    ensures { result ≡ width_at (nodes_of nodes.now) (#0 xs.now) }
{
    let ty = nodes.type_of(TermPos(xs[0])).0;
    nodes.par_of(ty)
}

// ---- refusals 5 to 8

// An instruction past refusals 2 to 4: its operation is in the table, and its operands are terms and types as the operation lists them.
#[derive(Clone, Copy)]
struct Suited<'a> {
    nodes: View<'a>,
    op: u64,
    par: u64,
    xs: &'a [u64],
    ghost known: { known op ≡ true },
    ghost suited: { Suited (nodes_of nodes) op xs.now },
}

impl Suited<'_> {
    // 1 to 16: the types given.
    fn wrong_in_makers(&self) -> bool
        requires { self.now.op ≤ 16 }
        ensures { result ≡ (row self.now.op).five (nodes_of self.now.nodes) self.now.xs.now }
    {
        if self.op == 4 {
            return !set_free(&self.nodes, self.xs[0] as usize);
        }
        if self.op == 11 {
            return self.nodes.kind_of(self.xs[0]) != 2;
        }
        if self.op == 14 {
            return !set_free(&self.nodes, self.xs[0] as usize)
                | any_misfits(&self.nodes, Named::Type(self.xs[0]), &self.xs[1..]);
        }
        false
    }

    // 20 to 26.
    fn wrong_in_core(&self) -> bool
        requires { (20 ≤ self.now.op) × (self.now.op ≤ 26) }
        ensures { result ≡ (row self.now.op).five (nodes_of self.now.nodes) self.now.xs.now }
    {
        if self.op <= 23 {
            return any_misfits(&self.nodes, Named::Type(0), self.xs);
        }
        if self.op == 24 {
            return differ(&self.nodes, self.xs[0], self.xs[1]);
        }
        if self.op == 25 {
            return first_misfits(&self.nodes, Named::Type(0), self.xs)
                | differ(&self.nodes, self.xs[1], self.xs[2]);
        }
        false
    }

    // 30 to 49.
    fn wrong_in_bitvectors(&self) -> bool
        requires { (30 ≤ self.now.op) × (self.now.op ≤ 49) }
        ensures { result ≡ (row self.now.op).five (nodes_of self.now.nodes) self.now.xs.now }
    {
        if (self.op == 30) | (self.op == 45) | (self.op == 49) {
            return first_misfits(&self.nodes, Named::Kind(2), self.xs);
        }
        not_alike(&self.nodes, 2, self.xs)
    }

    // 50 to 56: sets, options and records.
    fn wrong_in_data(&self) -> bool
        requires { (50 ≤ self.now.op) × (self.now.op ≤ 56) }
        ensures { result ≡ (row self.now.op).five (nodes_of self.now.nodes) self.now.xs.now }
    {
        if self.op == 50 {
            return no_member(&self.nodes, self.xs[0], self.xs[1]);
        }
        if self.op == 53 {
            return first_misfits(&self.nodes, Named::Kind(4), self.xs);
        }
        if self.op == 55 {
            return first_misfits(&self.nodes, Named::Kind(3), self.xs);
        }
        if self.op == 56 {
            return first_misfits(&self.nodes, Named::Kind(5), self.xs);
        }
        not_alike(&self.nodes, 4, self.xs)
    }

    // 60 to 66: helpers.
    fn wrong_in_helpers(&self) -> bool
        requires { (60 ≤ self.now.op) × (self.now.op ≤ 66) }
        ensures { result ≡ (row self.now.op).five (nodes_of self.now.nodes) self.now.xs.now }
    {
        if self.op == 65 {
            return any_misfits(&self.nodes, Named::Kind(3), self.xs);
        }
        if self.op == 66 {
            return any_misfits(&self.nodes, Named::Kind(3), &self.xs[1..]);
        }
        if (self.op == 62) | (self.op == 63) {
            return first_misfits(&self.nodes, Named::Type(0), self.xs);
        }
        first_misfits(&self.nodes, Named::Kind(3), self.xs)
    }

    // 70 to 75: compiled.
    fn wrong_in_compiled(&self) -> bool
        requires { (70 ≤ self.now.op) × (self.now.op ≤ 75) }
        ensures { result ≡ (row self.now.op).five (nodes_of self.now.nodes) self.now.xs.now }
    {
        if self.op == 70 {
            return any_misfits(&self.nodes, Named::Type(0), self.xs);
        }
        if self.op == 71 {
            return first_misfits(&self.nodes, Named::Kind(2), self.xs)
                | (first_width(&self.nodes, self.xs) != 64);
        }
        if self.op == 72 {
            return first_misfits(&self.nodes, Named::Kind(4), self.xs);
        }
        if self.op == 73 {
            return held_misfits(&self.nodes, Named::Kind(3), self.xs);
        }
        first_misfits(&self.nodes, Named::Kind(5), self.xs)
    }

    // Whether an operand's type is not the one named.
    fn wrong_type(&self) -> bool
        ensures { result ≡ (row self.now.op).five (nodes_of self.now.nodes) self.now.xs.now }
    {
        if self.op <= 16 {
            return self.wrong_in_makers();
        }
        if self.op <= 26 {
            return self.wrong_in_core();
        }
        if self.op <= 49 {
            return self.wrong_in_bitvectors();
        }
        if self.op <= 56 {
            return self.wrong_in_data();
        }
        if self.op <= 66 {
            return self.wrong_in_helpers();
        }
        self.wrong_in_compiled()
    }

    // Whether a width is 0 or above 64.
    fn wrong_width(&self) -> bool
        requires { (row self.now.op).five (nodes_of self.now.nodes) self.now.xs.now ≡ false }
        ensures { result ≡ (row self.now.op).six (nodes_of self.now.nodes) self.now.par self.now.xs.now }
    {
        if self.op == 2 {
            return self.par < 1 || 64 < self.par;
        }
        if self.op == 49 {
            return 64 - first_width(&self.nodes, self.xs) < self.par;
        }
        false
    }

    // Whether a literal, attribute or id is too large, or a type's fields are unordered.
    fn too_large(&self) -> bool
        ensures { result ≡ (row self.now.op).seven (nodes_of self.now.nodes) self.now.par self.now.xs.now }
    {
        if self.op == 5 {
            return !(keys_small(self.xs) & rises(self.xs, 2));
        }
        if (self.op == 15) | (self.op == 73) {
            return !keys_small(self.xs);
        }
        if self.op == 10 {
            return self.par > 1;
        }
        if self.op == 11 {
            return !fits_width(self.par, self.nodes.par_of(self.xs[0]));
        }
        if (self.op == 16) | (self.op == 26) | (self.op == 56) | (self.op == 74) | (self.op == 75) {
            return self.par >= 4294967296;
        }
        false
    }

    // Whether the record has no such attribute.
    fn absent_attribute(&self) -> bool
        ensures { result ≡ (row self.now.op).eight (nodes_of self.now.nodes) self.now.par self.now.xs.now }
    {
        if (self.op == 56) | (self.op == 75) {
            let ty = self.nodes.type_of(TermPos(self.xs[0])).0;
            return field(self.nodes.members_of(ty), self.par).is_none();
        }
        false
    }

    // Refusals 5 to 8.
    fn refusal(&self) -> Result<(), Refusal>
        ensures { number_or_0 result ≡ first_of (drop 3 (tests (nodes_of self.now.nodes) (listed self.now.op self.now.par self.now.xs.now) (row self.now.op))) }
    {
        if self.wrong_type() {
            return Err(Refusal::WrongType);
        }
        if self.wrong_width() {
            return Err(Refusal::WrongWidth);
        }
        if self.too_large() {
            return Err(Refusal::TooLarge);
        }
        if self.absent_attribute() {
            return Err(Refusal::AbsentAttribute);
        }
        Ok(())
    }
}

// Refusals 2 to 8 of an instruction whose numbers are any.
pub fn refusal(
    nodes: &View<'_>,
    op: u64,
    par: u64,
    count: u64,
    operands: &[u64],
) -> Result<(), Refusal>
    ensures { number_or_0 result ≡ refusalOf (nodes_of nodes.now) (instr op par count operands.now) }
{
    if !is_known(op) {
        return Err(Refusal::NotAnInstruction);
    }
    let form = form_of(op);
    if !count_ok(form, count) | !takes_parameter(op) & (par != 0) {
        return Err(Refusal::NotAnInstruction);
    }
    if too_many(form, count) {
        return Err(Refusal::TooMany);
    }
    if !operands_ok(nodes, form, operands) {
        return Err(Refusal::NotAPosition);
    }
    let suited = Suited {
        nodes: *nodes,
        op,
        par,
        xs: operands,
    };
    suited.refusal()
}

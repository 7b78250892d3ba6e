// What an answer says: its line as bytes, fixed byte strings and decimal numbers, and the mark that it leaves.

#![tactic(auto)]

ghost use Rattle.std.specs.Prelude.{◌≡◌, ◌+◌, ◌≤◌, length};
ghost use Rattle.codec.specs.Writing.{Puts};
ghost use Rattle.table.specs.Answers.{said, mark_after};
ghost use Rattle.answers.specs.Lines.{decimal, field, ok_line, refused_line};
ghost use Rattle.answers.specs.Replies.{line_of};

use table::Accepted;

// The writers go from a place in a lent buffer to the next: `Puts` says what each leaves, and where. A struct that held both would
// ask each function for one more clause, on the buffer that it stands for.

// Bytes at a place.
fn write_bytes(out: &mut [u8], at: usize, bytes: &[u8]) -> usize
    requires { at + length bytes.now ≤ length out.old }
    ensures { Puts out.old at bytes.now result out.new }
{
    let end = at + bytes.len();
    out[at..end].copy_from_slice(bytes);
    end
}

// A number in decimal, at most 20 digits, from the last digit to the first.
pub fn write_decimal(out: &mut [u8], at: usize, n: u64) -> usize
    requires { at + 20 ≤ length out.old }
    ensures { Puts out.old at (decimal n) result out.new }
{
    let end = at + codec::digit_count(n, 10);
    let mut rest = n;
    for place in (at..end).rev() {
        out[place] = (48 + rest % 10) as u8;
        rest = rest / 10;
    }
    end
}

// A fixed byte string, and a number behind it.
fn write_field(out: &mut [u8], at: usize, bytes: &[u8], n: u64) -> usize
    requires { at + length bytes.now + 20 ≤ length out.old }
    ensures { Puts out.old at (field bytes.now n) result out.new }
{
    let behind = write_bytes(out, at, bytes);
    write_decimal(out, behind, n)
}

// The line of an accepted instruction: its position and the mark.
#[tactic(auto, using(crate::proofs::Answers::field_most))]
pub fn write_ok(out: &mut [u8], at: usize, position: u64, mark: u64) -> usize
    requires { at + 45 ≤ length out.old }
    ensures { Puts out.old at (ok_line position mark) result out.new }
{
    let a = write_field(out, at, b"ok ", position);
    let b = write_field(out, a, b" ", mark);
    write_bytes(out, b, b"\n")
}

// The line of a refused one.
#[tactic(auto, using(crate::proofs::Answers::field_most))]
pub fn write_refused(out: &mut [u8], at: usize, number: u64) -> usize
    requires { at + 29 ≤ length out.old }
    ensures { Puts out.old at (refused_line number) result out.new }
{
    let a = write_field(out, at, b"refused ", number);
    write_bytes(out, a, b"\n")
}

// The line of an answer. A refusal is any number here: 10 answers a script, and no call.
#[tactic(auto, unfolding(crate::specs::Replies::line_of))]
pub fn write_answer(out: &mut [u8], end: usize, answer: Result<Accepted, u64>) -> usize
    requires { end + 45 ≤ length out.old }
    ensures { Puts out.old end (line_of (said answer)) result out.new }
{
    match answer {
        Ok(accepted) => write_ok(out, end, accepted.position, accepted.mark as u64),
        Err(number) => write_refused(out, end, number),
    }
}

// The line of an answer, in the room that was lent.
#[tactic(auto, using(codec::proofs::Putting::puts_inside, codec::proofs::Putting::puts_front))]
pub fn answer_line(room: &mut [u8; 45], answer: Result<Accepted, u64>) -> &[u8]
    ensures { result.now ≡ line_of (said answer) }
{
    let end = write_answer(room, 0, answer);
    &room[..end]
}

// The mark that an answer leaves.
pub fn next_mark(mark: usize, answer: Result<Accepted, u64>) -> usize
    ensures { result ≡ mark_after mark (said answer) }
{
    match answer {
        Ok(accepted) => accepted.mark,
        Err(_) => mark,
    }
}

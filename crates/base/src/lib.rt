// What every crate above shares: refusals, and how a question is asked (`refusal`); and copying into lent memory. In specs/
// also an answer in numbers (`Answer`) and how output fills a lent buffer (`Output`).
#![tactic(auto)]

ghost use Rattle.std.specs.Prelude.{◌≡◌, ◌≤◌, ◌++◌, length, drop};

pub mod refusal;

// Copies bytes to the front of a buffer; the bytes after them stay.
// Stays: the C interface: a method of the slice would be compiled to a call of memmove, which a small host does not have.
pub fn copy(from: &[u8], to: &mut [u8])
    requires { length from.now ≤ length to.old }
    ensures { to.new ≡ from.now ++ drop (length from.now) to.old }
{
    for i in 0..from.len() {
        to[i] = from[i];
    }
}

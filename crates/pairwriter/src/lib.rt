// Bytes written as pairs of capital hexadecimal digits, and what bytes add to. For the crates above it alone: its
// functions ask their caller for places within what is lent.
#![tactic(auto)]

ghost use Rattle.std.specs.Prelude.{◌≡◌, ◌+◌, ◌*◌, ◌<◌, ◌≤◌, [], ◌∷◌, length, get_or};
ghost use Rattle.std.proofs.Math.Seq.{paste};
ghost use Rattle.digits.specs.Digit.{digits, hex, byte_sum};

// The character of a digit. It is computed, not looked up: so the compiler makes the digits of eight bytes at once.
#[tactic(auto, using(crate::proofs::PairLaws::low_digit, crate::proofs::PairLaws::high_digit))]
fn character(value: u8) -> u8
    requires { value < 16 }
    ensures { result ≡ get_or digits value 0 }
{
    if value < 10 {
        b'0' + value
    } else {
        b'A' - 10 + value
    }
}

// A byte's two digits, at `at`.
#[tactic(auto, using(crate::proofs::PairLaws::put_digits))]
pub fn put_pair(out: &mut [u8], at: usize, byte: u8)
    requires { at + 2 ≤ length out.old }
    ensures { out.new ≡ paste out.old at (hex (byte ∷ [])) 2 }
{
    out[at] = character(byte / 16);
    out[at + 1] = character(byte % 16);
}

// The digits of bytes, at `at`.
#[tactic(auto, using(crate::proofs::SpanLaws::no_digits, crate::proofs::SpanLaws::next_put))]
pub fn put_pairs(bytes: &[u8], out: &mut [u8], at: usize)
    requires { at + 2 * length bytes.now ≤ length out.old }
    ensures { out.new ≡ paste out.old at (hex bytes.now) (2 * length bytes.now) }
{
    for (i, byte) in bytes.iter().enumerate() {
        put_pair(out, at + 2 * i, *byte);
    }
}

// What bytes add to.
// Stays: no plainer: that they are no more than 255 is asked of one slice on its way; a type for it would be made at each record and taken apart at once.
#[tactic(auto, using(crate::proofs::SpanLaws::no_sum, crate::proofs::SpanLaws::next_sum))]
pub fn byte_sum(bytes: &[u8]) -> u32
    requires { length bytes.now ≤ 255 }
    ensures value { result ≡ byte_sum bytes.now }
    ensures range { result ≤ 255 * length bytes.now }
{
    let mut sum = 0;
    for byte in bytes {
        sum += u32::from(*byte);
    }
    sum
}

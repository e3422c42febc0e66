// Text and numbers, written into a buffer one after the other. For the crates above it alone: its functions ask their caller
// for a buffer with room for what they write.
#![tactic(auto)]

ghost use Rattle.std.specs.Prelude.{◌≡◌, ◌+◌, ◌<◌, ◌≤◌, [], ◌∷◌, ◌++◌, length};
ghost use Rattle.fields.specs.Fields.{decimal};
ghost use Rattle.fields.specs.Page.{Wrote};
ghost use Rattle.digits.specs.Digit.{hexadecimal};

use digits::digit::characters;

// A buffer, and the place in it where the next text goes.
// Stays: no plainer: how much room a text needs differs from line to line; each method asks for its own, and no invariant says it.
#[derive(Drop)]
pub struct Page<'a> {
    pub out: &'a mut [u8],
    pub at: usize,
}

impl<'a> Page<'a> {
    // A buffer with nothing written yet.
    pub fn new(out: &'a mut [u8]) -> Page<'a>
        ensures same { result.out.ghost_name ≡ out.entry.ghost_name }
        ensures front { result.at ≡ 0 }
        ensures buffer { result.out.now ≡ out.old }
    {
        Page { out, at: 0 }
    }

    // Copies a text.
    pub fn put(&mut self, text: &[u8])
        requires { self.old.at + length text.now ≤ length self.old.out.now }
        ensures { Wrote self.old self.new text.now }
    {
        base::copy(text, &mut self.out[self.at..]);
        self.at += text.len();
    }

    // So many hexadecimal digits of a number, from the last to the first.
    // Stays: no heap, and the contract says every byte: numbers are written by hand here and in put_decimal, not by a Display.
    pub fn put_hexadecimal(&mut self, count: usize, value: usize)
        requires { self.old.at + count ≤ length self.old.out.now }
        ensures { Wrote self.old self.new (hexadecimal count value) }
    {
        let characters = characters();
        let mut rest = value;
        for i in (0..count).rev() {
            self.out[self.at + i] = characters[rest % 16];
            rest /= 16;
        }
        self.at += count;
    }

    // A number in decimal: the digits before the last, and the last. How many there are is not known before: so the function
    // calls itself, 20 calls deep at most.
    pub fn put_decimal(&mut self, value: usize)
        requires { self.old.at + length (decimal value) ≤ length self.old.out.now }
        ensures { Wrote self.old self.new (decimal value) }
    {
        if value >= 10 {
            self.put_decimal(value / 10);
        }
        self.put(&[b'0' + (value % 10) as u8]);
    }
}

// How many digits a number has in decimal.
#[tactic(auto, using(crate::proofs::FieldLaws::length_small, crate::proofs::FieldLaws::length_step, crate::proofs::FieldLaws::length_tenth))]
pub fn decimal_length(value: usize) -> usize
    ensures value { result ≡ length (decimal value) }
    ensures upper_bound { result ≤ 20 }
{
    if value < 10 {
        return 1;
    }
    decimal_length(value / 10) + 1
}

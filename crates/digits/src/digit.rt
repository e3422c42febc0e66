// The characters of capital hexadecimal digits.
ghost use Rattle.std.specs.Prelude.{◌≡◌};
ghost use Rattle.digits.specs.Digit.{digits};

// The characters of the digits, by value. Made once for many digits, they cost less than a comparison and a sum for each:
// of those the compiler makes many more instructions, all digits of a number at once.
#[tactic(auto, unfolding(crate::specs::Digit::digits))]
pub fn characters() -> [u8; 16]
    ensures { result ≡ digits }
{
    [
        b'0', b'1', b'2', b'3', b'4', b'5', b'6', b'7', b'8', b'9', b'A', b'B', b'C', b'D', b'E',
        b'F',
    ]
}

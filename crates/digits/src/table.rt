// The values of all characters as digits.
ghost use Rattle.std.specs.Prelude.{◌≡◌, ◌≤◌};
ghost use Rattle.digits.specs.Digit.{digit_of};
ghost use Rattle.digits.specs.Table.{DigitTable};

// The value of each character as a capital hexadecimal digit, 16 where it is none. It is a table
// because what digit a character is cannot be foreseen, so that a branch on it costs more than all
// else.
// Stays: no plainer: a table of Options would hold two bytes a character, and each pair of digits would take two of them apart.
const VALUES: [u8; 256] = [
    16, 16, 16, 16, 16, 16, 16, 16, 16, 16, 16, 16, 16, 16, 16, 16, 16, 16, 16, 16, 16, 16, 16, 16,
    16, 16, 16, 16, 16, 16, 16, 16, 16, 16, 16, 16, 16, 16, 16, 16, 16, 16, 16, 16, 16, 16, 16, 16,
    0, 1, 2, 3, 4, 5, 6, 7, 8, 9, 16, 16, 16, 16, 16, 16, 16, 10, 11, 12, 13, 14, 15, 16, 16, 16,
    16, 16, 16, 16, 16, 16, 16, 16, 16, 16, 16, 16, 16, 16, 16, 16, 16, 16, 16, 16, 16, 16, 16, 16,
    16, 16, 16, 16, 16, 16, 16, 16, 16, 16, 16, 16, 16, 16, 16, 16, 16, 16, 16, 16, 16, 16, 16, 16,
    16, 16, 16, 16, 16, 16, 16, 16, 16, 16, 16, 16, 16, 16, 16, 16, 16, 16, 16, 16, 16, 16, 16, 16,
    16, 16, 16, 16, 16, 16, 16, 16, 16, 16, 16, 16, 16, 16, 16, 16, 16, 16, 16, 16, 16, 16, 16, 16,
    16, 16, 16, 16, 16, 16, 16, 16, 16, 16, 16, 16, 16, 16, 16, 16, 16, 16, 16, 16, 16, 16, 16, 16,
    16, 16, 16, 16, 16, 16, 16, 16, 16, 16, 16, 16, 16, 16, 16, 16, 16, 16, 16, 16, 16, 16, 16, 16,
    16, 16, 16, 16, 16, 16, 16, 16, 16, 16, 16, 16, 16, 16, 16, 16, 16, 16, 16, 16, 16, 16, 16, 16,
    16, 16, 16, 16, 16, 16, 16, 16, 16, 16, 16, 16, 16, 16,
];

// The table. A caller makes one and lends it: a constant array is made anew at each use.
#[derive(Drop)]
pub struct Digits {
    pub values: [u8; 256],
    pub ghost are_digits: { DigitTable values },
}

impl Digits {
    #[tactic(auto, using(crate::proofs::TableLaws::digit_table), unfolding(crate::proofs::TableLaws::values))]
    pub fn new() -> Self {
        Digits { values: VALUES }
    }

    // The value of a character as a digit, 16 where it is none.
    #[tactic(auto, using(crate::proofs::DigitLaws::digit_most))]
    pub(crate) fn digit(&self, c: u8) -> u32
        ensures value { result ≡ digit_of c }
        ensures range { result ≤ 16 }
    {
        u32::from(self.values[usize::from(c)])
    }
}

// What writing MCS text came to, as numbers. For this crate's functions and for those above it alone.
ghost use Rattle.std.specs.Prelude.{◌≡◌};
ghost use Rattle.hosttexts.specs.Result.{text_result};

use base::refusal::Refusal;

// A refusal's number and place, or 0, 0 and how many characters the text has.
// Stays: the C interface gets an answer as a struct of numbers, with a refusal's number and place in front, and each struct calls its
// own number what it is: so those of one shape are no generic type.
#[repr(C)]
#[derive(Default, Drop)]
pub struct TealsettleText {
    pub number: u32,
    pub place: usize,
    pub length: usize,
}

impl From<Result<usize, Refusal>> for TealsettleText {
    ghost from_gives = { λ answer given. given ≡ text_result answer };

    #[tactic(auto, unfolding(crate::specs::Result::text_result, base::specs::Answer::in_numbers))]
    fn from(answer: Result<usize, Refusal>) -> TealsettleText {
        match answer {
            Ok(length) => TealsettleText {
                length,
                ..TealsettleText::default()
            },
            Err(refusal) => TealsettleText {
                number: refusal.reason.number(),
                place: refusal.place,
                ..TealsettleText::default()
            },
        }
    }
}

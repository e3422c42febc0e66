// What reading an image file came to, as numbers.
ghost use Rattle.std.specs.Prelude.{◌≡◌};
ghost use Rattle.results.specs.Text.{read_result};

use base::refusal::Refusal;

// A refusal's number and place, or 0, 0 and how many bytes were read.
// Stays: the C interface gets an answer as a struct of numbers, with a refusal's number and place in front, and each struct calls its
// own number what it is: so those of one shape are no generic type.
#[repr(C)]
#[derive(Default, Drop)]
pub struct TealsettleRead {
    pub number: u32,
    pub place: usize,
    pub length: usize,
}

impl From<Result<usize, Refusal>> for TealsettleRead {
    ghost from_gives = { λ answer given. given ≡ read_result answer };

    #[tactic(auto, unfolding(crate::specs::Text::read_result, base::specs::Answer::in_numbers))]
    fn from(answer: Result<usize, Refusal>) -> TealsettleRead {
        match answer {
            Ok(length) => TealsettleRead {
                length,
                ..TealsettleRead::default()
            },
            Err(refusal) => TealsettleRead {
                number: refusal.reason.number(),
                place: refusal.place,
                ..TealsettleRead::default()
            },
        }
    }
}

// The greatest number of writes, as numbers.
ghost use Rattle.std.specs.Prelude.{◌≡◌};
ghost use Rattle.results.specs.Most.{most_result};

use base::refusal::Refusal;

// A refusal's number and place, or 0, 0 and how many writes.
// Stays: the C interface gets an answer as a struct of numbers, with a refusal's number and place in front, and each struct calls its
// own number what it is: so those of one shape are no generic type.
#[repr(C)]
#[derive(Default, Drop)]
pub struct TealsettleMost {
    pub number: u32,
    pub place: usize,
    pub writes: usize,
}

impl From<Result<usize, Refusal>> for TealsettleMost {
    ghost from_gives = { λ answer given. given ≡ most_result answer };

    #[tactic(auto, unfolding(crate::specs::Most::most_result, base::specs::Answer::in_numbers))]
    fn from(answer: Result<usize, Refusal>) -> TealsettleMost {
        match answer {
            Ok(writes) => TealsettleMost {
                writes,
                ..TealsettleMost::default()
            },
            Err(refusal) => TealsettleMost {
                number: refusal.reason.number(),
                place: refusal.place,
                ..TealsettleMost::default()
            },
        }
    }
}

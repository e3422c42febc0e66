// Where a chip's update area begins, as numbers.
ghost use Rattle.std.specs.Prelude.{◌≡◌};
ghost use Rattle.fileresults.specs.Place.{place_result};

use base::refusal::Refusal;

// A refusal's number and place; or 0, 0, and whether segment 1 names an update place, and which.
// Stays: the C interface gets an answer as a struct of numbers, with a refusal's number and place in front.
#[repr(C)]
#[derive(Default, Drop)]
pub struct TealsettlePlace {
    pub number: u32,
    pub place: usize,
    pub found: u32,
    pub update: usize,
}

impl From<Result<Option<usize>, Refusal>> for TealsettlePlace {
    ghost from_gives = { λ answer given. given ≡ place_result answer };

    #[tactic(auto, unfolding(crate::specs::Place::place_result, chip::specs::UpdatePlace::place_values, base::specs::Answer::in_numbers))]
    fn from(answer: Result<Option<usize>, Refusal>) -> TealsettlePlace {
        match answer {
            Ok(Some(update)) => TealsettlePlace {
                found: 1,
                update,
                ..TealsettlePlace::default()
            },
            Ok(None) => TealsettlePlace::default(),
            Err(refusal) => TealsettlePlace {
                number: refusal.reason.number(),
                place: refusal.place,
                ..TealsettlePlace::default()
            },
        }
    }
}

// What building a chip came to, as numbers.
ghost use Rattle.std.specs.Prelude.{◌≡◌};
ghost use Rattle.results.specs.Build.{build_result};

use base::refusal::Refusal;

// A refusal's number and place, or 0 and 0.
// Stays: the C interface gets an answer as a struct of numbers, with a refusal's number and place.
#[repr(C)]
#[derive(Default, Drop)]
pub struct TealsettleBuild {
    pub number: u32,
    pub place: usize,
}

impl From<Result<(), Refusal>> for TealsettleBuild {
    ghost from_gives = { λ answer given. given ≡ build_result answer };

    #[tactic(auto, unfolding(crate::specs::Build::build_result, base::specs::Answer::in_numbers))]
    fn from(answer: Result<(), Refusal>) -> TealsettleBuild {
        match answer {
            Ok(()) => TealsettleBuild::default(),
            Err(refusal) => TealsettleBuild {
                number: refusal.reason.number(),
                place: refusal.place,
            },
        }
    }
}

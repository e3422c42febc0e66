// What a run that was cut came to, as numbers.
ghost use Rattle.std.specs.Prelude.{◌≡◌};
ghost use Rattle.runresults.specs.Cut.{bench_result};

use crate::run::TealsettleState;
use base::refusal::Refusal;
use updater::state::State;

// A refusal's number and place, or 0, 0 and the state before the cut order, or at the run's end.
// Stays: the C interface gets an answer as a struct of numbers, with a refusal's number and place in front.
#[repr(C)]
#[derive(Default, Drop)]
pub struct TealsettleBench {
    pub number: u32,
    pub place: usize,
    pub state: TealsettleState,
}

impl From<Result<State, Refusal>> for TealsettleBench {
    ghost from_gives = { λ answer given. given ≡ bench_result answer };

    #[tactic(auto, unfolding(crate::specs::Cut::bench_result, base::specs::Answer::in_numbers))]
    fn from(answer: Result<State, Refusal>) -> TealsettleBench {
        match answer {
            Ok(state) => TealsettleBench {
                state: state.into(),
                ..TealsettleBench::default()
            },
            Err(refusal) => TealsettleBench {
                number: refusal.reason.number(),
                place: refusal.place,
                ..TealsettleBench::default()
            },
        }
    }
}

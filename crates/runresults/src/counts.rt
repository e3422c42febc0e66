// How many orders a run has, and which of them one is, as numbers.
ghost use Rattle.std.specs.Prelude.{◌≡◌};
ghost use Rattle.runresults.specs.Counts.{total_result, progress_result};

use base::refusal::Refusal;
use starts::RunProgress;

// Stays: the C interface gets each answer as a struct of numbers, with a refusal's number and place in front, and each struct calls
// its own numbers what they are: so those of one shape are no generic type.

// A refusal's number and place, or 0, 0 and how many orders.
#[repr(C)]
#[derive(Default, Drop)]
pub struct TealsettleTotal {
    pub number: u32,
    pub place: usize,
    pub orders: usize,
}

// A refusal's number and place, or 0, 0, the order's number, counted from 1, and how many orders.
#[repr(C)]
#[derive(Default, Drop)]
pub struct TealsettleProgress {
    pub number: u32,
    pub place: usize,
    pub order: usize,
    pub orders: usize,
}

impl From<Result<usize, Refusal>> for TealsettleTotal {
    ghost from_gives = { λ answer given. given ≡ total_result answer };

    #[tactic(auto, unfolding(crate::specs::Counts::total_result, base::specs::Answer::in_numbers))]
    fn from(answer: Result<usize, Refusal>) -> TealsettleTotal {
        match answer {
            Ok(orders) => TealsettleTotal {
                orders,
                ..TealsettleTotal::default()
            },
            Err(refusal) => TealsettleTotal {
                number: refusal.reason.number(),
                place: refusal.place,
                ..TealsettleTotal::default()
            },
        }
    }
}

impl From<Result<RunProgress, Refusal>> for TealsettleProgress {
    ghost from_gives = { λ answer given. given ≡ progress_result answer };

    #[tactic(auto, unfolding(crate::specs::Counts::progress_result, base::specs::Answer::in_numbers))]
    fn from(answer: Result<RunProgress, Refusal>) -> TealsettleProgress {
        match answer {
            Ok(RunProgress { order, orders }) => TealsettleProgress {
                order,
                orders,
                ..TealsettleProgress::default()
            },
            Err(refusal) => TealsettleProgress {
                number: refusal.reason.number(),
                place: refusal.place,
                ..TealsettleProgress::default()
            },
        }
    }
}

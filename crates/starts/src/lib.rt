// The start of a run, how many orders it has, and the number of an order among them.
#![tactic(auto)]

ghost use Rattle.std.specs.Prelude.{◌≡◌};
ghost use Rattle.base.specs.Answer.{Gives};
ghost use Rattle.kind.specs.Spi.{spi};
ghost use Rattle.starts.specs.Starts.{start_numbers, start_answer, total_numbers, total_answer, progress_of, progress_numbers, progress_answer};

use base::refusal::{Reason, Refusal, ask};
use bootreader::image::check_within;
use kind::layout::Layout;
use orders::orders_before;
use updater::state::{Running, State};

// The number of a state's order in its run, counted from 1, and how many orders the run has.
#[derive(Clone, Copy)]
pub struct RunProgress {
    pub order: usize,
    pub orders: usize,
}

// Starts a run: its first state; or refusal 1 to 6.
#[tactic(auto, using(crate::proofs::StartLaws::start_layout, crate::proofs::StartLaws::start_image, crate::proofs::StartLaws::start_accepted, base::proofs::Laws::gives))]
pub fn start(layout: Layout, image: &[u8]) -> Result<State, Refusal>
    ensures { Gives start_numbers result (start_answer spi layout image.now) }
{
    layout.check()?;
    check_within(image, layout.update_length)?;
    Ok(State {
        layout,
        image_length: image.len(),
        phase: 0,
        index: 0,
        outcome: 0,
    })
}

// How many orders a run has with an image of this length; or refusal 1 to 4.
#[tactic(auto, using(crate::proofs::StartLaws::total_refused, crate::proofs::StartLaws::total_allowed, crate::proofs::StartLaws::total_small, base::proofs::Laws::gives))]
pub fn total(layout: Layout, image_length: usize) -> Result<usize, Refusal>
    ensures { Gives total_numbers result (total_answer layout image_length) }
{
    layout.check_with_image(image_length)?;
    Ok(orders_before(layout, image_length, 7))
}

// The number of the order that a state asks for, and how many there are.
#[tactic(auto, using(crate::proofs::ProgressLaws::countable))]
fn progress_running(run: Running) -> RunProgress
    ensures { result ≡ progress_of run.state }
{
    let state = run.state;
    let before = orders_before(state.layout, state.image_length, state.phase);
    RunProgress {
        order: before + state.index + 1,
        orders: orders_before(state.layout, state.image_length, 7),
    }
}

// The number of the order that a state asks for, counted from 1, and how many its run has; or refusal 7 or 8. No image
// is lent.
#[tactic(auto, unfolding(base::specs::Question::ask), using(crate::proofs::ProgressLaws::progress_refused, crate::proofs::ProgressLaws::progress_ended, crate::proofs::ProgressLaws::progress_goes_on, crate::proofs::ProgressLaws::runs, base::proofs::Laws::gives))]
pub fn progress(state: State) -> Result<RunProgress, Refusal>
    ensures { Gives progress_numbers result (progress_answer state) }
{
    let outcome = state.finished()?;
    ask(outcome.is_none(), Reason::RunEnded)?;
    Ok(progress_running(Running { state }))
}

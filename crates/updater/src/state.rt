// A run's state: where the run is, whether a state fits an image, its current order, and the state after that. State,
// order and run are document 01's terms. `Running` is for this crate, `starts` and `effects` alone.
ghost use Rattle.std.specs.Prelude.{ℕ, ◌≡◌, true, List, length};
ghost use Rattle.kind.specs.Spi.{spi};
ghost use Rattle.orders.specs.Orders.{operation_of, order_bytes};
ghost use Rattle.updater.specs.State.{outcome_allowed, phase_consistent, fits, running, after, current_order};

use base::refusal::Reason;
use kind::layout::Layout;
use orders::{Operation, bytes_at, operation_at, orders_in};

// Where a run is: its layout, the length of its image, phase, index of the order in the phase (0 in
// phase 7), and outcome (0; 10 to 12 in phase 7 after a stop).
// Stays: finished_answer, order_answer and reply_answer hold it that phase and outcome are numbers: the calls are promised for
// every number that a host hands in, and a state that does not fit is refused and handed back as it came.
#[derive(Clone, Copy)]
pub struct State {
    pub layout: Layout,
    pub image_length: usize,
    pub phase: u32,
    pub index: usize,
    pub outcome: u32,
}

#[tactic(auto, unfolding(crate::specs::State::outcome_allowed, base::specs::Question::ask))]
fn outcome_allowed(outcome: u32) -> bool
    ensures { result ≡ outcome_allowed outcome }
{
    if outcome == 0 {
        return true;
    }
    Reason::SwitchNotErased.number() <= outcome && outcome <= Reason::SwitchNotOn.number()
}

// Whether phase, index and outcome go together.
#[tactic(auto, unfolding(crate::specs::State::phase_consistent, base::specs::Question::ask))]
fn phase_consistent(state: State) -> bool
    ensures { result ≡ phase_consistent state }
{
    if state.phase < 7 {
        return state.index < orders_in(state.layout, state.image_length, state.phase)
            && state.outcome == 0;
    }
    state.phase == 7 && state.index == 0 && outcome_allowed(state.outcome)
}

// Question 6, for an image of `lent` bytes.
#[tactic(auto, unfolding(base::specs::Question::ask), using(crate::proofs::CallLaws::fits_allowed, crate::proofs::CallLaws::fits_refused))]
pub(crate) fn fits_image(state: State, lent: usize) -> bool
    ensures { result ≡ fits state lent }
{
    if state.layout.check_with_image(state.image_length).is_err() {
        return false;
    }
    phase_consistent(state) && state.image_length == lent
}

// A state that fits, of a run that goes on: questions 6 and 7 with a yes.
#[derive(Clone, Copy)]
pub struct Running {
    pub state: State,
    pub ghost fitting: { fits state state.image_length ≡ true },
    pub ghost going: { running state ≡ true },
}

impl Running {
    // The current order, as far as it can be said without the image.
    #[tactic(auto, using(crate::proofs::OrderLaws::own_order, crate::proofs::RunLaws::running_says, crate::proofs::CallLaws::places_small))]
    pub fn operation(self) -> Operation
        ensures { (image : List ℕ) → self.state.image_length ≡ length image → result ≡ operation_of (current_order spi self.state image) }
    {
        let state = self.state;
        operation_at(state.layout, state.image_length, state.phase, state.index)
    }

    // The bytes that the current order programs, then FF. The image is the run's.
    #[tactic(auto, using(crate::proofs::OrderLaws::own_order, crate::proofs::RunLaws::running_says, crate::proofs::CallLaws::places_small))]
    pub fn bytes(self, image: &[u8]) -> [u8; 256]
        requires { self.state.image_length ≡ length image.now }
        ensures { result ≡ order_bytes (current_order spi self.state image.now) }
    {
        bytes_at(image, self.state.phase, self.state.index)
    }

    // The state after the current order.
    #[tactic(auto, using(crate::proofs::RunLaws::running_says, crate::proofs::RunLaws::after_index, crate::proofs::RunLaws::after_phase, crate::proofs::CallLaws::places_small))]
    pub fn after_order(self) -> State
        ensures { result ≡ after self.state }
    {
        let state = self.state;
        if state.index + 1 < orders_in(state.layout, state.image_length, state.phase) {
            return State {
                index: state.index + 1,
                ..state
            };
        }
        State {
            phase: state.phase + 1,
            index: 0,
            ..state
        }
    }
}

// A run's state and answers as numbers, and a state that a host's numbers are.
ghost use Rattle.std.specs.Prelude.{◌≡◌};
ghost use Rattle.updater.specs.State.{state_numbers};
ghost use Rattle.runresults.specs.Run.{state_of, state_fields, start_result, order_result, reply_result, finished_result};

use base::refusal::Refusal;
use kind::spi::Spi;
use orders::Operation;
use updater::run::{OrderAnswer, RefusedReply, Reply};
use updater::state::State;

// Stays: the C interface gets a state and each answer as a struct of numbers, with a refusal's number and place in front of an
// answer's; and it hands a state in as seven numbers.

// Where a run is.
#[repr(C)]
#[derive(Default, Drop)]
pub struct TealsettleState {
    pub length: usize,
    pub update: usize,
    pub area: usize,
    pub image_length: usize,
    pub phase: u32,
    pub index: usize,
    pub outcome: u32,
}

// A refusal's number and place, or 0, 0 and the first state.
#[repr(C)]
#[derive(Default, Drop)]
pub struct TealsettleStart {
    pub number: u32,
    pub place: usize,
    pub state: TealsettleState,
}

// A refusal's number and place; or 0, 0 and the operation (1 erase, 2 program, 3 look), its span, and the
// bytes of a program.
// Stays: the C interface has a program's bytes as an array of 256.
#[repr(C)]
#[derive(Drop)]
pub struct TealsettleOrder {
    pub number: u32,
    pub place: usize,
    pub operation: u32,
    pub address: usize,
    pub length: usize,
    pub bytes: [u8; 256],
}

// What an order asks for, as a number.
// Stays: the C interface names an operation by a number.
const ERASE: u32 = 1;

const PROGRAM: u32 = 2;

const LOOK: u32 = 3;

// The number and place of a refusal or a stop, and the state handed back.
#[repr(C)]
#[derive(Default, Drop)]
pub struct TealsettleReply {
    pub number: u32,
    pub place: usize,
    pub stopped: u32,
    pub state: TealsettleState,
}

// A refusal's number and place; or 0, 0, and whether the run has ended, with which outcome.
#[repr(C)]
#[derive(Default, Drop)]
pub struct TealsettleFinished {
    pub number: u32,
    pub place: usize,
    pub ended: u32,
    pub outcome: u32,
}

// The state that a host's numbers are.
pub fn state_of(
    length: usize,
    update: usize,
    area: usize,
    n: usize,
    phase: u32,
    index: usize,
    outcome: u32,
) -> State
    ensures { result ≡ state_of length update area n phase index outcome }
{
    State {
        layout: Spi::layout(length, update, area),
        image_length: n,
        phase,
        index,
        outcome,
    }
}

impl From<State> for TealsettleState {
    ghost from_gives = { λ state given. given ≡ state_fields (state_numbers state) };

    fn from(state: State) -> TealsettleState {
        TealsettleState {
            length: state.layout.chip_length,
            update: state.layout.update_place,
            area: state.layout.update_length,
            image_length: state.image_length,
            phase: state.phase,
            index: state.index,
            outcome: state.outcome,
        }
    }
}

impl From<Result<State, Refusal>> for TealsettleStart {
    ghost from_gives = { λ answer given. given ≡ start_result answer };

    #[tactic(auto, unfolding(crate::specs::Run::start_result, base::specs::Answer::in_numbers))]
    fn from(answer: Result<State, Refusal>) -> TealsettleStart {
        match answer {
            Ok(state) => TealsettleStart {
                state: state.into(),
                ..TealsettleStart::default()
            },
            Err(refusal) => TealsettleStart {
                number: refusal.reason.number(),
                place: refusal.place,
                ..TealsettleStart::default()
            },
        }
    }
}

impl From<OrderAnswer> for TealsettleOrder {
    ghost from_gives = { λ answer given. given ≡ order_result answer };

    #[tactic(auto, unfolding(crate::specs::Run::order_result, updater::specs::Run::order_result_numbers, updater::specs::Run::operation_numbers))]
    fn from(answer: OrderAnswer) -> TealsettleOrder {
        let OrderAnswer { result, bytes } = answer;
        let (number, at, operation, address, length) = match result {
            Ok(Operation::Erase { place, length }) => (0, 0, ERASE, place, length),
            Ok(Operation::Program { place, length }) => (0, 0, PROGRAM, place, length),
            Ok(Operation::Look { place, length }) => (0, 0, LOOK, place, length),
            Err(refusal) => (refusal.reason.number(), refusal.place, 0, 0, 0),
        };
        TealsettleOrder {
            number,
            place: at,
            operation,
            address,
            length,
            bytes,
        }
    }
}

impl From<Result<Reply, RefusedReply>> for TealsettleReply {
    ghost from_gives = { λ answer given. given ≡ reply_result answer };

    #[tactic(auto, unfolding(crate::specs::Run::reply_result, updater::specs::Run::reply_numbers))]
    fn from(answer: Result<Reply, RefusedReply>) -> TealsettleReply {
        match answer {
            Ok(Reply::Next { state }) => TealsettleReply {
                state: state.into(),
                ..TealsettleReply::default()
            },
            Ok(
                Reply::Stopped {
                    number,
                    place,
                    state,
                },
            ) => TealsettleReply {
                number,
                place,
                stopped: 1,
                state: state.into(),
            },
            Err(RefusedReply { refusal, state }) => TealsettleReply {
                number: refusal.reason.number(),
                place: refusal.place,
                stopped: 0,
                state: state.into(),
            },
        }
    }
}

impl From<Result<Option<u32>, Refusal>> for TealsettleFinished {
    ghost from_gives = { λ answer given. given ≡ finished_result answer };

    #[tactic(auto, unfolding(crate::specs::Run::finished_result, updater::specs::Run::outcome_values, base::specs::Answer::in_numbers))]
    fn from(answer: Result<Option<u32>, Refusal>) -> TealsettleFinished {
        match answer {
            Ok(None) => TealsettleFinished::default(),
            Ok(Some(outcome)) => TealsettleFinished {
                ended: 1,
                outcome,
                ..TealsettleFinished::default()
            },
            Err(refusal) => TealsettleFinished {
                number: refusal.reason.number(),
                place: refusal.place,
                ..TealsettleFinished::default()
            },
        }
    }
}

// The calls on a run: its order, the reply that moves it on, whether it has ended. Run, order, reply and stop are document
// 01's terms. The run asks for an order (crate `orders`), the host carries it out and replies; a stop is a look that read
// something else than expected.
ghost use Rattle.std.specs.Prelude.{◌≡◌};
ghost use Rattle.base.specs.Answer.{Gives};
ghost use Rattle.kind.specs.Spi.{spi};
ghost use Rattle.updater.specs.State.{ended};
ghost use Rattle.updater.specs.Judging.{running_asked, state_of, on_judged};
ghost use Rattle.updater.specs.Run.{finished_numbers, finished_answer, order_numbers, order_answer, reply_numbers, stop_of, reply_answer};

use crate::state::{Running, State, fits_image};
use base::refusal::{Reason, Refusal, ask};
use orders::judging::{Judgement, judge};
use orders::{Operation, judging};

// The current order, or a refusal, with the bytes of a program, FF after them; all FF where nothing is programmed.
// Stays: order_numbers and order_answer (clause of State::order) hold the bytes beside a refusal too.
#[derive(Drop)]
pub struct OrderAnswer {
    pub result: Result<Operation, Refusal>,
    pub bytes: [u8; 256],
}

// What a reply comes to: the next state; or a stop, with its number, the first address that differs, and the state that
// has ended.
// Stays: a stop's number is 0 in a phase that does not look (stop_of holds it), so it is no Reason.
#[derive(Drop)]
pub enum Reply {
    Next {
        state: State,
    },
    Stopped {
        number: u32,
        place: usize,
        state: State,
    },
}

// A reply that is refused: why, and the state that was given.
#[derive(Drop)]
pub struct RefusedReply {
    pub refusal: Refusal,
    pub state: State,
}

// The number of a stop in a phase.
#[tactic(auto, unfolding(crate::specs::Run::stop_of, orders::specs::Table::by_phase), using(crate::proofs::CallLaws::stop_none))]
fn stop_number(phase: u32) -> u32
    ensures { result ≡ stop_of phase }
{
    match phase {
        1 => Reason::SwitchNotErased.number(),
        4 => Reason::UpdateDiffers.number(),
        6 => Reason::SwitchNotOn.number(),
        _ => 0,
    }
}

// The state that a stop hands back.
fn stopped(state: State, outcome: u32) -> State
    ensures { result ≡ ended state outcome }
{
    State {
        phase: 7,
        index: 0,
        outcome,
        ..state
    }
}

impl Running {
    // The answer to a reply that was judged.
    #[tactic(auto, unfolding(crate::specs::Judging::on_judged))]
    fn reply_judged(self, judgement: Judgement) -> Result<Reply, RefusedReply>
        ensures { result ≡ on_judged judgement self.state }
    {
        match judgement {
            Judgement::NotAsked => Err(RefusedReply {
                refusal: Refusal {
                    reason: Reason::BadReply,
                    place: 0,
                },
                state: self.state,
            }),
            Judgement::Agrees => Ok(Reply::Next {
                state: self.after_order(),
            }),
            Judgement::Differs { address } => {
                let number = stop_number(self.state.phase);
                Ok(Reply::Stopped {
                    number,
                    place: address,
                    state: stopped(self.state, number),
                })
            }
        }
    }
}

impl State {
    // What a reply says: an erase or program is done, or the bytes that a look read.
    pub const DONE: u32 = judging::DONE;

    pub const READ: u32 = judging::READ;

    // The outcome of a run that has ended, none of one that goes on; or refusal 7.
    #[tactic(auto, unfolding(crate::specs::Run::finished_answer, crate::specs::Run::finished_case, base::specs::Question::ask), using(base::proofs::Laws::gives))]
    pub fn finished(self) -> Result<Option<u32>, Refusal>
        ensures { Gives finished_numbers result (finished_answer self) }
    {
        ask(fits_image(self, self.image_length), Reason::BadState)?;
        if self.phase < 7 {
            return Ok(None);
        }
        Ok(Some(self.outcome))
    }

    // Questions 6 and 7, for an image of `lent` bytes.
    // Called out of line, a state goes to memory and comes back: each order and each reply took 1.2 to 1.5 times as long.
    #[inline(always)]
    #[tactic(auto, unfolding(crate::specs::Judging::running_asked, crate::specs::Judging::state_of, base::specs::Question::ask), using(base::proofs::Laws::asked_ok, crate::proofs::CallLaws::fits_own))]
    fn ask_running(self, lent: usize) -> Result<Running, Refusal>
        ensures { state_of result ≡ running_asked self lent }
    {
        ask(fits_image(self, lent), Reason::BadState)?;
        ask(self.phase < 7, Reason::RunEnded)?;
        Ok(Running { state: self })
    }

    // The order that the state asks for, with the bytes of a program; or refusal 7 or 8. The image is the run's.
    pub fn order(self, image: &[u8]) -> OrderAnswer
        ensures { Gives order_numbers result (order_answer spi self image.now) }
    {
        match self.ask_running(image.len()) {
            Ok(run) => OrderAnswer {
                result: Ok(run.operation()),
                bytes: run.bytes(image),
            },
            Err(refusal) => OrderAnswer {
                result: Err(refusal),
                bytes: [0xFF; 256],
            },
        }
    }

    // The next state; or a stop, 10 to 12, with the state that has ended; or refusal 7, 8 or 9 with the state that
    // was given. The image is the run's: it is lent again, so that what a look is to find is always the image's own
    // bytes.
    // Stays: no proof: tried map_err(..)? in place of the match: what it says of a refusal came out too long to prove with.
    pub fn reply(self, image: &[u8], reply_kind: u32, bytes: &[u8]) -> Result<Reply, RefusedReply>
        ensures { Gives reply_numbers result (reply_answer spi self image.now reply_kind bytes.now) }
    {
        match self.ask_running(image.len()) {
            Ok(run) => {
                let judgement = judge(
                    self.layout,
                    image,
                    self.phase,
                    self.index,
                    reply_kind,
                    bytes,
                );
                run.reply_judged(judgement)
            }
            Err(refusal) => Err(RefusedReply {
                refusal,
                state: self,
            }),
        }
    }
}

// A run on a printer's chip, order by order. Its state goes in and comes back as numbers.
ghost use Rattle.std.specs.Prelude.{◌≡◌};
ghost use Rattle.kind.specs.Layout.{layout_of};
ghost use Rattle.runresults.specs.Run.{state_of};
ghost use Rattle.host.specs.Run.{start_call, order_call, reply_call, finished_call};

use base::refusal::{Reason, ask};
use kind::spi::Spi;
use runresults::run::{
    TealsettleFinished, TealsettleOrder, TealsettleReply, TealsettleStart, state_of,
};
use starts::start;
use updater::run::{OrderAnswer, RefusedReply};

// Stays: the C interface names a kind of chip by a number, and hands a layout in as three and a state as seven.

// Starts a run.
#[unsafe(no_mangle)]
#[tactic(auto, unfolding(base::specs::Question::ask))]
pub extern "C" fn tealsettle_start(
    kind: u32,
    length: usize,
    update: usize,
    area: usize,
    image: &[u8],
) -> TealsettleStart
    ensures { result ≡ start_call kind (layout_of length update area) image.now }
{
    ask(Spi::has_number(kind), Reason::BadChipLength)
        .and_then(|()| start(Spi::layout(length, update, area), image))
        .into()
}

// The order that a state asks for.
#[unsafe(no_mangle)]
#[tactic(auto, unfolding(base::specs::Question::ask))]
pub extern "C" fn tealsettle_order(
    kind: u32,
    length: usize,
    update: usize,
    area: usize,
    n: usize,
    phase: u32,
    index: usize,
    outcome: u32,
    image: &[u8],
) -> TealsettleOrder
    ensures { result ≡ order_call kind (state_of length update area n phase index outcome) image.now }
{
    if let Err(refusal) = ask(Spi::has_number(kind), Reason::BadState) {
        return OrderAnswer {
            result: Err(refusal),
            bytes: [0xFF; 256],
        }
        .into();
    }
    let state = state_of(length, update, area, n, phase, index, outcome);
    state.order(image).into()
}

// The state after a reply to the order of a state.
#[unsafe(no_mangle)]
#[tactic(auto, unfolding(base::specs::Question::ask))]
pub extern "C" fn tealsettle_reply(
    kind: u32,
    length: usize,
    update: usize,
    area: usize,
    n: usize,
    phase: u32,
    index: usize,
    outcome: u32,
    image: &[u8],
    reply_kind: u32,
    bytes: &[u8],
) -> TealsettleReply
    ensures { result ≡ reply_call kind (state_of length update area n phase index outcome) image.now reply_kind bytes.now }
{
    let state = state_of(length, update, area, n, phase, index, outcome);
    // Stays: slower: `map_err` and `and_then` each move the answer once more, and a reply took a twentieth more instructions.
    if let Err(refusal) = ask(Spi::has_number(kind), Reason::BadState) {
        return Err(RefusedReply { refusal, state }).into();
    }
    state.reply(image, reply_kind, bytes).into()
}

// Whether a run has ended, and how.
#[unsafe(no_mangle)]
#[tactic(auto, unfolding(base::specs::Question::ask))]
pub extern "C" fn tealsettle_finished(
    kind: u32,
    length: usize,
    update: usize,
    area: usize,
    n: usize,
    phase: u32,
    index: usize,
    outcome: u32,
) -> TealsettleFinished
    ensures { result ≡ finished_call kind (state_of length update area n phase index outcome) }
{
    let state = state_of(length, update, area, n, phase, index, outcome);
    ask(Spi::has_number(kind), Reason::BadState)
        .and_then(|()| state.finished())
        .into()
}

// How a reply to an order is judged: questions 8 and 9.
ghost use Rattle.std.specs.Prelude.{◌+◌, ◌*◌, ◌<◌, ◌≤◌, ◌≡◌, length};
ghost use Rattle.kind.specs.Layout.{page, longest_chip};
ghost use Rattle.kind.specs.Spi.{spi};
ghost use Rattle.comparison.specs.Comparison.{padded, differs};
ghost use Rattle.orders.specs.Table.{count};
ghost use Rattle.orders.specs.Orders.{order_of};
ghost use Rattle.orders.specs.Carried.{carried};
ghost use Rattle.orders.specs.Replies.{asks_for};
ghost use Rattle.orders.specs.Judging.{judged_done, judged_look, judged};

use crate::{Operation, carried_bytes, operation_at};
use comparison::compare;
use kind::layout::Layout;
use kind::spi::Spi;

// What a reply says: an erase or program is done, or the bytes that a look read.
// Stays: State::reply (updater, reply_answer) holds it: it answers refusal 9 for every other number.
pub const DONE: u32 = 0;

pub const READ: u32 = 1;

// How a reply is judged: it is not the one asked for; it moves the run on; or a look read another byte at an
// address. It holds no state, so that little is carried through the questions.
// Stays: judged holds its three cases.
#[derive(Drop)]
pub enum Judgement {
    NotAsked,
    Agrees,
    Differs { address: usize },
}

// Question 8: does a reply say what is asked for, with as many bytes?
fn is_as_asked(what: u32, count: usize, reply_kind: u32, lent: usize) -> bool
    ensures { result ≡ asks_for what count reply_kind lent }
{
    reply_kind == what && lent == count
}

// Question 8, for the reply to an erase or program.
#[tactic(auto, unfolding(crate::specs::Judging::judged_done, base::specs::Question::ask))]
fn judge_done(reply_kind: u32, lent: usize) -> Judgement
    ensures { result ≡ judged_done reply_kind lent }
{
    if is_as_asked(DONE, 0, reply_kind, lent) {
        return Judgement::Agrees;
    }
    Judgement::NotAsked
}

// Question 9, for the first address at which a look read another byte than expected, if any.
#[tactic(auto, unfolding(crate::specs::Judging::judged_look))]
fn judge_look(difference: Option<usize>) -> Judgement
    ensures { result ≡ judged_look difference }
{
    match difference {
        None => Judgement::Agrees,
        Some(address) => Judgement::Differs { address },
    }
}

// Compares what a look at a place read with what is expected there.
fn compare_look(image: &[u8], phase: u32, index: usize, place: usize, bytes: &[u8]) -> Option<usize>
    requires { (page * index < longest_chip) × (place ≤ longest_chip) × (length (carried spi image.now phase index) ≤ length bytes.now) × (length bytes.now ≤ page) }
    ensures { result ≡ differs place bytes.now (padded (length bytes.now) (carried spi image.now phase index)) }
{
    let on = Spi::ON;
    compare(place, bytes, carried_bytes(image, phase, index, &on))
}

// Questions 8 and 9, for a reply to an order of a phase.
// Stays: no plainer: layout, image, phase and index in one struct would be the updater's State with its image, made of it at each
// call; `compare_look` takes all but the layout.
#[tactic(auto, using(crate::proofs::JudgingLaws::judged_erase, crate::proofs::JudgingLaws::judged_program, crate::proofs::JudgingLaws::judged_refused, crate::proofs::JudgingLaws::judged_compared, crate::proofs::JudgingLaws::asked_for, crate::proofs::CarriedLaws::looks))]
pub fn judge(
    layout: Layout,
    image: &[u8],
    phase: u32,
    index: usize,
    reply_kind: u32,
    bytes: &[u8],
) -> Judgement
    requires { (index < count layout (length image.now) phase) × (layout.update_place + page * index < longest_chip) }
    ensures { result ≡ judged (order_of spi layout image.now phase index) reply_kind bytes.now }
{
    match operation_at(layout, image.len(), phase, index) {
        Operation::Erase { .. } | Operation::Program { .. } => judge_done(reply_kind, bytes.len()),
        Operation::Look { place, length } => {
            if !is_as_asked(READ, length, reply_kind, bytes.len()) {
                return Judgement::NotAsked;
            }
            judge_look(compare_look(image, phase, index, place, bytes))
        }
    }
}

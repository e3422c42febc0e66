// An image read by itself. Its calls ask question 4 of its length, then whether it reads alone to
// Loaded: with no jump to give, an IPROG is refused with 6, every other fault with 5.
ghost use Rattle.std.specs.Prelude.{◌≡◌};
ghost use Rattle.base.specs.Answer.{Gives};
ghost use Rattle.base.specs.Refusal.{refused};
ghost use Rattle.kind.specs.Spi.{spi};
ghost use Rattle.packets.specs.Trace.{write_numbers};
ghost use Rattle.writes.specs.Cursor.{listing_numbers};
ghost use Rattle.bootreader.specs.Types.{ImageFault};
ghost use Rattle.bootreader.specs.Image.{accepted, alone_case, image_numbers, image_within, image_answer, image_write, image_listing};

use base::refusal::{Reason, Refusal, ask};
use configreader::{Outcome, read_alone};
use kind::layout::image_length_allowed;
use kind::spi::Spi;
use packets::trace::Write;
use writes::cursor::{Cursor, nth_from};

// What an image that is accepted loads by itself.
#[derive(Clone, Copy)]
pub struct Accepted {
    pub sync: usize,
    pub end: usize,
    pub writes: usize,
}

// The refusal of an image whose reading alone is not Loaded: 6 at an IPROG, 5 at every other fault.
#[tactic(auto, unfolding(crate::specs::Image::alone_case))]
fn fault_of(outcome: Outcome) -> Refusal
    ensures { result ≡ alone_case (λ reason place. record { reason = reason; place = place }) (λ sync end writes. record { reason = ImageFault; place = end }) outcome }
{
    match outcome {
        Outcome::Iprog { place } => Refusal {
            reason: Reason::ImageJumps,
            place,
        },
        Outcome::Stuck { place } => Refusal {
            reason: Reason::ImageFault,
            place,
        },
        // never asked: a reading that is Loaded is accepted
        Outcome::Loaded { end, .. } => Refusal {
            reason: Reason::ImageFault,
            place: end,
        },
    }
}

// What an image loads by itself, for an area of `longest` bytes: sync, end, writes; or refusal 4, 5 or 6.
#[tactic(auto, unfolding(crate::specs::Image::alone_case, base::specs::Question::ask), using(base::proofs::Laws::gives))]
pub fn check_within(image: &[u8], longest: usize) -> Result<Accepted, Refusal>
    ensures { Gives image_numbers result (image_within spi longest image.now) }
{
    ask(
        image_length_allowed(longest, image.len()),
        Reason::BadImageLength,
    )?;
    let outcome = read_alone(image);
    let Outcome::Loaded {
        sync,
        end,
        writes,
        jumped: _,
    } = outcome
    else {
        return Err(fault_of(outcome));
    };
    Ok(Accepted { sync, end, writes })
}

// What an image loads by itself, with no area that it must fit into: sync, end, writes; or refusal 4, 5 or 6.
#[tactic(auto, unfolding(crate::specs::Image::image_answer))]
pub fn check(image: &[u8]) -> Result<Accepted, Refusal>
    ensures { Gives image_numbers result (image_answer spi image.now) }
{
    check_within(image, Spi::LONGEST)
}

// The i-th write, counted from 0, of an image read by itself, or that there is none; or refusal 4, 5 or 6.
#[tactic(auto, using(crate::proofs::AnswerLaws::image_room, crate::proofs::AnswerLaws::write_refused, crate::proofs::AnswerLaws::write_accepted, base::proofs::Laws::gives))]
pub fn write(image: &[u8], i: usize) -> Result<Option<Write>, Refusal>
    ensures { Gives write_numbers result (image_write spi image.now i) }
{
    let accepted = check(image)?;
    Ok(nth_from(image, accepted.sync + 4, i))
}

// A cursor before the first write of an image read by itself; or refusal 4, 5 or 6.
#[tactic(auto, using(crate::proofs::AnswerLaws::image_room, crate::proofs::AnswerLaws::listing_refused, crate::proofs::AnswerLaws::listing_accepted, base::proofs::Laws::gives))]
pub fn writes(image: &[u8]) -> Result<Cursor, Refusal>
    ensures { Gives listing_numbers result (image_listing spi image.now) }
{
    let accepted = check(image)?;
    Ok(Cursor::new(accepted.sync + 4, accepted.writes))
}

// The report of a refusal.
ghost use Rattle.std.specs.Prelude.{◌≡◌, length};
ghost use Rattle.base.specs.Answer.{Gives};
ghost use Rattle.report.specs.Refusal.{report_numbers, refusal_answer, refusal_output};

use base::refusal::{Reason, Refusal, ask};
use fields::Page;
use reportlines::{put_refused, refused_length};

// The line `REFUSED`, number, place at the front of a buffer: how long it is; or refusal 19, and the buffer as it was.
// Stays: refusal_answer holds it: every number is reported, also one that is no reason's.
#[tactic(auto, unfolding(crate::specs::Refusal::written, base::specs::Output::front_filled, base::specs::Question::ask), using(base::proofs::Laws::gives))]
pub fn report(number: u32, place: usize, out: &mut [u8]) -> Result<usize, Refusal>
    ensures answer { Gives report_numbers result (refusal_answer number place (length out.old)) }
    ensures output { out.new ≡ refusal_output number place out.old }
{
    let length = refused_length(number, place);
    ask(length <= out.len(), Reason::NoRoom)?;
    let mut page = Page::new(out);
    put_refused(&mut page, number, place);
    Ok(page.at)
}

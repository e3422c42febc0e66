// Reading a whole text, in two passes: the first asks every question, the second writes the image.
ghost use Rattle.std.specs.Prelude.{◌≡◌, ◌^◌, ◌<◌, length};
ghost use Rattle.base.specs.Answer.{Gives};
ghost use Rattle.mcs.specs.Reading.{follows, read_text};
ghost use Rattle.mcs.specs.Reader.{read_numbers, read_answer, read_output};
ghost use Rattle.mcs.specs.Passes.{size_of, Fits};

use base::refusal::{Reason, Refusal, ask};
use digits::table::Digits;
use mcsline::line::{Line, parse, parse_sound};

// Addresses have an upper half and a lower one, which counts so many bytes.
pub const SEGMENT: usize = 65_536;

// The address rule. (Nothing wraps: a half and an address have 32 bits each at most, and a line is no longer than its text.)
#[tactic(auto, unfolding(crate::specs::Reading::follows, base::specs::Question::ask))]
fn follows_on(half: u32, address: u32, next: usize, count: usize) -> bool
    requires { count < 2 ^ 63 }
    ensures { result ≡ follows half address next count }
{
    let start = half as usize * SEGMENT + address as usize;
    if start != next {
        return false;
    }
    address as usize + count <= SEGMENT
}

// How many bytes the text holds, or the refusal of a question up to 18: the first pass. It writes nothing.
fn size_of(digits: &Digits, text: &[u8]) -> Result<usize, Refusal>
    ensures { result ≡ size_of (read_text text.now) }
{
    let mut at = 0;
    let mut upper = 0;
    let mut next = 0;
    // Stays: no plainer: an iterator of lines would carry each line's place and its end beside it, and promise all that `parse` does.
    while at < text.len() {
        let line = parse(digits, text, at).map_err(|reason| Refusal { reason, place: at })?;
        match line {
            Line::Data {
                address,
                count,
                end,
            } => {
                if !follows_on(upper, address, next, count) {
                    return Err(Refusal {
                        reason: Reason::BadAddress,
                        place: at,
                    });
                }
                next += count;
                at = end;
            }
            Line::ExtendedLinearAddress { half, end } => {
                upper = half;
                at = end;
            }
            Line::End { end } => {
                if end < text.len() {
                    return Err(Refusal {
                        reason: Reason::BadEnd,
                        place: end,
                    });
                }
                return Ok(next);
            }
        }
    }
    Err(Refusal {
        reason: Reason::BadEnd,
        place: at,
    })
}

// The second pass, over a text that holds an image for which there is room.
fn fill(digits: &Digits, text: &[u8], out: &mut [u8])
    requires { Fits (read_text text.now) (length out.old) }
    ensures { out.new ≡ read_output text.now out.old }
{
    let mut at = 0;
    let mut next = 0;
    // Stays: no plainer: an iterator of lines would carry each line's place and its end beside it, and promise all that `parse` does.
    while at < text.len() {
        match parse_sound(digits, text, at) {
            Line::Data { count, end, .. } => {
                digits.decode(text, at + 9, out, next, count);
                next += count;
                at = end;
            }
            Line::ExtendedLinearAddress { end, .. } => {
                at = end;
            }
            Line::End { .. } => return,
        }
    }
}

// Reads a text into a buffer: how many bytes of the image are at its front; or refusal 14 to 19, and the buffer as it
// was.
#[tactic(auto, unfolding(base::specs::Question::ask), using(crate::proofs::AnswerLaws::answers))]
pub fn read(text: &[u8], out: &mut [u8]) -> Result<usize, Refusal>
    ensures answer { Gives read_numbers result (read_answer text.now out.old) }
    ensures output { out.new ≡ read_output text.now out.old }
{
    let digits = Digits::new();
    let length = size_of(&digits, text)?;
    ask(length <= out.len(), Reason::NoRoom)?;
    fill(&digits, text, out);
    Ok(length)
}

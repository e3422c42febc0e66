// An image as MCS text, in its canonical form: how long the text is, and writing it.
#![tactic(auto)]

ghost use Rattle.std.specs.Prelude.{◌≡◌, ◌<◌, ◌≤◌, length};
ghost use Rattle.base.specs.Answer.{Gives};
ghost use Rattle.base.specs.Output.{front_filled};
ghost use Rattle.canonical.specs.Canonical.{canonical_text, shorter_length, canonical_length};
ghost use Rattle.mcswriter.specs.Mcswriter.{text_numbers, length_answer, write_answer, write_output, ReadsBack};

use base::refusal::{Reason, Refusal, ask};
use canonical::{AROUND, PER_RECORD, SEGMENT};
use kind::layout::image_length_allowed;
use kind::spi::Spi;
use recordwriter::part::{put_end, put_part};

// How long the line of a record shorter than 16 bytes is; 0 where there is none.
#[tactic(auto, using(canonical::proofs::Laws::shorter, crate::proofs::WriterLaws::no_shorter))]
fn shorter_length(count: usize) -> usize
    requires { count < 16 }
    ensures value { result ≡ shorter_length count }
    ensures range { result ≤ 42 }
{
    if count == 0 {
        return 0;
    }
    AROUND + 2 * count
}

// How long the text of so many bytes is: 16 characters for each upper half, 44 for each record of 16 bytes, then a shorter
// record and the end record.
fn length_of(image_length: usize) -> usize
    requires { image_length ≤ 16777216 }
    ensures { result ≡ canonical_length image_length }
{
    let uppers = (image_length + SEGMENT - 1) / SEGMENT;
    let whole = image_length / PER_RECORD;
    let shorter = shorter_length(image_length % PER_RECORD);
    (AROUND + 4) * uppers + (AROUND + 2 * PER_RECORD) * whole + shorter + AROUND
}

// Writes the text of an image that can be written into a buffer that it fits into.
fn put_text(image: &[u8], out: &mut [u8])
    requires { (length image.now ≤ 16777216) × (length (canonical_text image.now) ≤ length out.old) }
    ensures { out.new ≡ front_filled (canonical_text image.now) out.old }
{
    let end = put_part(image, 0, out, 0);
    put_end(out, end);
}

// How long the text of an image of so many bytes is; or refusal 4.
#[tactic(auto, unfolding(crate::specs::Mcswriter::length_answer, base::specs::Question::ask), using(base::proofs::Laws::gives, crate::proofs::WriterLaws::writable_short))]
pub fn text_length(image_length: usize) -> Result<usize, Refusal>
    ensures { Gives text_numbers result (length_answer image_length) }
{
    ask(
        image_length_allowed(Spi::LONGEST, image_length),
        Reason::BadImageLength,
    )?;
    Ok(length_of(image_length))
}

// Writes the text of an image to the front of a buffer; or refusal 4 or 19, and the buffer as it was.
pub fn write(image: &[u8], out: &mut [u8]) -> Result<usize, Refusal>
    ensures answer { Gives text_numbers result (write_answer image.now (length out.old)) }
    ensures output { out.new ≡ write_output image.now out.old }
    ensures back { ReadsBack image.now result out.new }
{
    let length = text_length(image.len())?;
    ask(length <= out.len(), Reason::NoRoom)?;
    put_text(image, out);
    Ok(length)
}

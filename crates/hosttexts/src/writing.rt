// An image as MCS text, and whether a text is as it would be written.
ghost use Rattle.std.specs.Prelude.{◌≡◌, length};
ghost use Rattle.mcswriter.specs.Mcswriter.{length_answer, write_answer, write_output};
ghost use Rattle.hosttexts.specs.Result.{text_result};
ghost use Rattle.hosttexts.specs.Writing.{WrittenBack, form_call};

use crate::result::TealsettleText;
use canonicaltest::is_canonical;
use mcswriter::{text_length, write};

// The text of an image at the front of a buffer. A refusal leaves the buffer as it was.
#[unsafe(no_mangle)]
pub extern "C" fn tealsettle_mcs_write(image: &[u8], out: &mut [u8]) -> TealsettleText
    ensures answer { result ≡ text_result (write_answer image.now (length out.old)) }
    ensures output { out.new ≡ write_output image.now out.old }
    ensures back { WrittenBack image.now result out.new }
{
    write(image, out).into()
}

// How long the text of an image of so many bytes is.
#[unsafe(no_mangle)]
pub extern "C" fn tealsettle_mcs_length(image_length: usize) -> TealsettleText
    ensures { result ≡ text_result (length_answer image_length) }
{
    text_length(image_length).into()
}

// Whether a text is the one that some image is written to: 1 or 0.
#[unsafe(no_mangle)]
#[tactic(auto, unfolding(crate::specs::Writing::form_call, base::specs::Question::ask))]
pub extern "C" fn tealsettle_mcs_form(text: &[u8]) -> u32
    ensures { result ≡ form_call text.now }
{
    u32::from(is_canonical(text))
}

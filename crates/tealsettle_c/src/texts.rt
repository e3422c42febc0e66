// MCS text: crate `hosttexts`.
ghost use Rattle.hosttexts.specs.Result.{text_result};
ghost use Rattle.hosttexts.specs.Writing.{WrittenBack, form_call};
ghost use Rattle.mcs.specs.Reader.{read_answer, read_output};
ghost use Rattle.mcswriter.specs.Mcswriter.{length_answer, write_answer, write_output};
ghost use Rattle.results.specs.Text.{read_result};
ghost use Rattle.std.specs.Prelude.{length, ◌≡◌};

use hosttexts::result::TealsettleText;
use results::text::TealsettleRead;

// Reads MCS text into a buffer. A refusal leaves the buffer as it was.
#[unsafe(no_mangle)]
pub extern "C" fn tealsettle_mcs_read(text: &[u8], out: &mut [u8]) -> TealsettleRead
    ensures answer { result ≡ read_result (read_answer text.now out.old) }
    ensures output { out.new ≡ read_output text.now out.old }
{
    hosttexts::reading::tealsettle_mcs_read(text, out)
}

// The text of an image at the front of a buffer. A refusal leaves the buffer as it was.
#[unsafe(no_mangle)]
pub extern "C" fn tealsettle_mcs_write(image: &[u8], out: &mut [u8]) -> TealsettleText
    ensures answer { result ≡ text_result (write_answer image.now (length out.old)) }
    ensures output { out.new ≡ write_output image.now out.old }
    ensures back { WrittenBack image.now result out.new }
{
    hosttexts::writing::tealsettle_mcs_write(image, out)
}

// How long the text of an image of so many bytes is.
#[unsafe(no_mangle)]
pub extern "C" fn tealsettle_mcs_length(image_length: usize) -> TealsettleText
    ensures { result ≡ text_result (length_answer image_length) }
{
    hosttexts::writing::tealsettle_mcs_length(image_length)
}

// Whether a text is the one that some image is written to: 1 or 0.
#[unsafe(no_mangle)]
pub extern "C" fn tealsettle_mcs_form(text: &[u8]) -> u32
    ensures { result ≡ form_call text.now }
{
    hosttexts::writing::tealsettle_mcs_form(text)
}

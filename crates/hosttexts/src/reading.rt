// Image files in MCS text.
ghost use Rattle.std.specs.Prelude.{◌≡◌};
ghost use Rattle.mcs.specs.Reader.{read_answer, read_output};
ghost use Rattle.results.specs.Text.{read_result};

use mcs::reader;
use results::text::TealsettleRead;

// Reads MCS text into a buffer. A refusal leaves the buffer as it was.
#[unsafe(no_mangle)]
pub extern "C" fn tealsettle_mcs_read(text: &[u8], out: &mut [u8]) -> TealsettleRead
    ensures answer { result ≡ read_result (read_answer text.now out.old) }
    ensures output { out.new ≡ read_output text.now out.old }
{
    reader::read(text, out).into()
}

// The report of an image file: a chip is built with its image as the golden one, and the report says
// what that chip loads.
#![tactic(auto)]

ghost use Rattle.std.specs.Prelude.{◌≡◌, length, MatchResult};
ghost use Rattle.base.specs.Answer.{Gives};
ghost use Rattle.base.specs.Output.{front_filled};
ghost use Rattle.base.specs.Refusal.{number_of};
ghost use Rattle.kind.specs.Spi.{spi};
ghost use Rattle.reportlines.specs.Reportlines.{refused_line};
ghost use Rattle.report.specs.Boot.{chip_report};
ghost use Rattle.report.specs.Refusal.{report_numbers};
ghost use Rattle.filereport.specs.Filereport.{file_report, file_answer, file_output};

use base::refusal::{Reason, Refusal, ask};
use builder::build;
use kind::spi::Spi;
use mcs::reader::read;
use report::{boot, refusal};

// The longest text that is read.
const LONGEST: usize = 65_536;

// Room for the chip, and for every image that so long a text can hold. Nothing counts on the zeros.
// Stays: fixed memory, of one size.
fn buffer() -> [u8; 32768]
    ensures { 32768 ≡ length result }
{
    [0; 32768]
}

// Builds a chip with the image that a text holds as its golden one; or the refusal of the text or of the image. Either is what
// the report says.
fn built(text: &[u8], chip: &mut [u8; 32768]) -> Result<(), Refusal>
    ensures { MatchResult result (λ done. file_report text.now ≡ chip_report spi chip.new) (λ r. file_report text.now ≡ refused_line (number_of r.reason) r.place) }
{
    ask(text.len() <= LONGEST, Reason::NoRoom)?;
    let mut image = buffer();
    let length = read(text, &mut image)?;
    build(Spi::layout(32_768, 16_384, 16_384), &image[..length], chip)
}

// The report of an image file's text. A refusal of the text or of its image is a report too; what is
// refused, with 19, is a buffer that the report does not fit into.
pub fn report(text: &[u8], out: &mut [u8]) -> Result<usize, Refusal>
    ensures answer { Gives report_numbers result (file_answer text.now (length out.old)) }
    ensures output { out.new ≡ file_output text.now out.old }
{
    let mut chip = buffer();
    match built(text, &mut chip) {
        Ok(()) => boot::report(&chip, out),
        Err(r) => refusal::report(r.reason.number(), r.place, out),
    }
}

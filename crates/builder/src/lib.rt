// The first chip of a printer: a golden image, segment 1's words, and nothing else.
#![tactic(auto)]

ghost use Rattle.std.specs.Prelude.{◌≡◌, ◌+◌, ◌≤◌, length};
ghost use Rattle.kind.specs.Spi.{spi};
ghost use Rattle.base.specs.Answer.{Gives};
ghost use Rattle.base.specs.Output.{front_filled};
ghost use Rattle.kind.specs.Layout.{golden_at};
ghost use Rattle.builder.specs.Builder.{built_chip, build_numbers, build_answer, build_output, LoadsGolden};

use base::refusal::{Reason, Refusal, ask};
use bootreader::image::check_within;
use flash::{erase, overwrite};
use kind::layout::Layout;
use kind::spi::Spi;

// Writes the chip into a buffer that it fits into.
fn write_chip(layout: Layout, golden: &[u8], out: &mut [u8])
    requires { (golden_at + length golden.now ≤ layout.chip_length) × (layout.chip_length ≤ length out.old) }
    ensures { out.new ≡ front_filled (built_chip spi layout golden.now) out.old }
{
    let words = Spi::warm_boot_words(layout.update_place);
    // The spans lie within the buffer, so none of the three is refused.
    let _ = erase(out, 0, layout.chip_length);
    let _ = overwrite(out, Spi::SEGMENT, &words);
    let _ = overwrite(out, Spi::GOLDEN, golden);
}

// Builds a chip at the front of a buffer: F bytes, and those after them are unchanged. Refusals 1 to 6 and 19 leave the
// buffer as it was.
pub fn build(layout: Layout, golden: &[u8], out: &mut [u8]) -> Result<(), Refusal>
    ensures answer { Gives build_numbers result (build_answer spi layout golden.now (length out.old)) }
    ensures output { out.new ≡ build_output spi layout golden.now out.old }
    ensures loads { LoadsGolden spi result layout golden.now out.new }
{
    layout.check()?;
    check_within(golden, layout.update_place - Spi::GOLDEN)?;
    ask(layout.chip_length <= out.len(), Reason::NoRoom)?;
    write_chip(layout, golden, out);
    Ok(())
}

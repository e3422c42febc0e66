// The report of what a chip loads: a line that names it, one for each write in order, and the end.
ghost use Rattle.std.specs.Prelude.{◌≡◌, length};
ghost use Rattle.base.specs.Answer.{Gives};
ghost use Rattle.kind.specs.Spi.{spi};
ghost use Rattle.bootreader.specs.Boot.{boot_answer};
ghost use Rattle.report.specs.Types.{BootLoaded};
ghost use Rattle.reportlines.specs.Reportlines.{stuck_line};
ghost use Rattle.report.specs.Refusal.{report_numbers, written};
ghost use Rattle.base.specs.Output.{front_filled};
ghost use Rattle.report.specs.Boot.{chip_answer, chip_output};

use base::refusal::{Reason, Refusal, ask};
use bootreader::boot;
use bootreader::boot::Boot;
use fields::Page;
use loadlines::{has_room, put_report};
use reportlines::{STUCK, put_stuck};
use writes::cursor::Cursor;

// The report of a chip that loads. The boot answer says where its writes begin, so the chip is not read again for them.
// Stays: BootLoaded of Boot (bootreader) holds them: the last four parameters are its fields, which theorems name one by one.
fn report_loaded(
    chip: &[u8],
    out: &mut [u8],
    sync: usize,
    end: usize,
    writes: usize,
    jumped: bool,
) -> Result<usize, Refusal>
    requires { Ok (BootLoaded sync end writes jumped) ≡ boot_answer spi chip.now }
    ensures value { result ≡ chip_answer spi chip.now (length out.old) }
    ensures out_after { out.new ≡ chip_output spi chip.now out.old }
{
    ask(has_room(writes, out.len()), Reason::NoRoom)?;
    let cursor = Cursor::new(sync + 4, writes);
    let mut page = Page::new(out);
    put_report(&mut page, chip, cursor, jumped, end, writes);
    Ok(page.at)
}

// The report of a chip that is stuck.
#[tactic(auto, unfolding(crate::specs::Refusal::written, base::specs::Output::front_filled, base::specs::Question::ask), using(base::proofs::Laws::gives, reportlines::proofs::Laws::length_stuck))]
fn report_stuck(place: usize, out: &mut [u8]) -> Result<usize, Refusal>
    ensures value { result ≡ written (stuck_line place) (length out.old) }
    ensures out_after { out.new ≡ front_filled (stuck_line place) out.old }
{
    ask(STUCK <= out.len(), Reason::NoRoom)?;
    let mut page = Page::new(out);
    put_stuck(&mut page, place);
    Ok(page.at)
}

// The report of a chip's bytes at the front of a buffer: how long it is; or refusal 1 or 19, and the buffer as it was.
pub fn report(chip: &[u8], out: &mut [u8]) -> Result<usize, Refusal>
    ensures answer { Gives report_numbers result (chip_answer spi chip.now (length out.old)) }
    ensures output { out.new ≡ chip_output spi chip.now out.old }
{
    match boot::answer(chip)? {
        Boot::Loaded {
            sync,
            end,
            writes,
            jumped,
        } => report_loaded(chip, out, sync, end, writes, jumped),
        Boot::Stuck { place } => report_stuck(place, out),
    }
}

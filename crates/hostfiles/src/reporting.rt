// What a chip loads, as text.
ghost use Rattle.std.specs.Prelude.{◌≡◌, length};
ghost use Rattle.base.specs.Refusal.{refused};
ghost use Rattle.kind.specs.Spi.{spi};
ghost use Rattle.report.specs.Boot.{chip_answer};
ghost use Rattle.results.specs.Kinds.{ask_kind};
ghost use Rattle.hostfiles.specs.Types.{BadChipLength};
ghost use Rattle.hostfiles.specs.Reporting.{report_call, report_call_output};

use base::refusal::{Reason, Refusal, ask};
use fileresults::reporting::TealsettleReport;
use kind::spi::Spi;
use report::boot;

// Asks for the kind, then reports.
#[tactic(auto, unfolding(base::specs::Question::ask))]
fn report(kind: u32, chip: &[u8], out: &mut [u8]) -> Result<usize, Refusal>
    ensures answer { result ≡ ask_kind kind (refused BadChipLength 0) (chip_answer spi chip.now (length out.old)) }
    ensures output { out.new ≡ report_call_output kind chip.now out.old }
{
    ask(Spi::has_number(kind), Reason::BadChipLength)?;
    boot::report(chip, out)
}

// The boot report of a chip at the front of a buffer. A refusal leaves the buffer as it was.
// Stays: the C interface names a kind of chip by a number.
#[unsafe(no_mangle)]
pub extern "C" fn tealsettle_report(kind: u32, chip: &[u8], out: &mut [u8]) -> TealsettleReport
    ensures answer { result ≡ report_call kind chip.now out.old }
    ensures output { out.new ≡ report_call_output kind chip.now out.old }
{
    report(kind, chip, out).into()
}

// The first chip of a printer.
ghost use Rattle.std.specs.Prelude.{◌≡◌, length};
ghost use Rattle.base.specs.Refusal.{refused};
ghost use Rattle.kind.specs.Layout.{layout_of};
ghost use Rattle.kind.specs.Spi.{spi};
ghost use Rattle.builder.specs.Builder.{build_answer};
ghost use Rattle.results.specs.Kinds.{ask_kind};
ghost use Rattle.host.specs.Types.{BadChipLength};
ghost use Rattle.host.specs.Build.{build_call, build_call_output};

use base::refusal::{Reason, Refusal, ask};
use builder;
use kind::layout::Layout;
use kind::spi::Spi;
use results::build::TealsettleBuild;

// Asks for the kind, then builds.
#[tactic(auto, unfolding(base::specs::Question::ask))]
fn build(kind: u32, layout: Layout, golden: &[u8], out: &mut [u8]) -> Result<(), Refusal>
    ensures answer { result ≡ ask_kind kind (refused BadChipLength 0) (build_answer spi layout golden.now (length out.old)) }
    ensures output { out.new ≡ build_call_output kind layout golden.now out.old }
{
    ask(Spi::has_number(kind), Reason::BadChipLength)?;
    builder::build(layout, golden, out)
}

// Builds a chip at the front of a buffer. A refusal leaves the buffer as it was.
// Stays: the C interface names a kind of chip by a number, and hands a layout in as three.
#[unsafe(no_mangle)]
pub extern "C" fn tealsettle_build(
    kind: u32,
    length: usize,
    update: usize,
    area: usize,
    golden: &[u8],
    out: &mut [u8],
) -> TealsettleBuild
    ensures answer { result ≡ build_call kind (layout_of length update area) golden.now out.old }
    ensures output { out.new ≡ build_call_output kind (layout_of length update area) golden.now out.old }
{
    build(kind, Spi::layout(length, update, area), golden, out).into()
}

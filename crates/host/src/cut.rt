// A run on the bytes of a chip, cut after the first `k` orders.
ghost use Rattle.std.specs.Prelude.{◌≡◌};
ghost use Rattle.base.specs.Refusal.{refused};
ghost use Rattle.kind.specs.Spi.{spi};
ghost use Rattle.bench.specs.Bench.{bench_layout, bench_answer};
ghost use Rattle.results.specs.Kinds.{ask_kind};
ghost use Rattle.host.specs.Types.{BadChipLength};
ghost use Rattle.host.specs.Cut.{bench_call, bench_call_output};

use base::refusal::{Reason, Refusal, ask};
use bench;
use kind::spi::Spi;
use runresults::cut::TealsettleBench;
use updater::state::State;

// Asks for the kind, then runs.
#[tactic(auto, unfolding(base::specs::Question::ask))]
fn cut_run(
    kind: u32,
    chip: &mut [u8],
    update: usize,
    area: usize,
    image: &[u8],
    k: usize,
    damage: &[u8],
) -> Result<State, Refusal>
    ensures answer { result ≡ ask_kind kind (refused BadChipLength 0) (bench_answer spi (bench_layout chip.old update area) chip.old image.now k damage.now) }
    ensures output { chip.new ≡ bench_call_output kind chip.old update area image.now k damage.now }
{
    ask(Spi::has_number(kind), Reason::BadChipLength)?;
    bench::cut_run(chip, update, area, image, k, damage)
}

// A run on a chip, whose first k orders are obeyed and whose next is cut. A refusal leaves the chip as it
// was.
// Stays: the C interface names a kind of chip by a number, and hands an update area in as two.
#[unsafe(no_mangle)]
pub extern "C" fn tealsettle_cut_run(
    kind: u32,
    chip: &mut [u8],
    update: usize,
    area: usize,
    image: &[u8],
    k: usize,
    damage: &[u8],
) -> TealsettleBench
    ensures answer { result ≡ bench_call kind chip.old update area image.now k damage.now }
    ensures output { chip.new ≡ bench_call_output kind chip.old update area image.now k damage.now }
{
    cut_run(kind, chip, update, area, image, k, damage).into()
}

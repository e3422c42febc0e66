// What a chip or an image loads, and building and updating a chip: crate `host`.
ghost use Rattle.host.specs.Boot.{boot_call, image_call, write_call};
ghost use Rattle.host.specs.Build.{build_call, build_call_output};
ghost use Rattle.host.specs.Cut.{bench_call, bench_call_output};
ghost use Rattle.host.specs.Run.{finished_call, order_call, reply_call, start_call};
ghost use Rattle.kind.specs.Layout.{layout_of};
ghost use Rattle.runresults.specs.Run.{state_of};
ghost use Rattle.std.specs.Prelude.{◌≡◌};

use results::boot::{TealsettleBoot, TealsettleImage, TealsettleWrite};
use results::build::TealsettleBuild;
use runresults::cut::TealsettleBench;
use runresults::run::{TealsettleFinished, TealsettleOrder, TealsettleReply, TealsettleStart};

// What a chip loads, or where it is stuck.
#[unsafe(no_mangle)]
pub extern "C" fn tealsettle_boot(kind: u32, chip: &[u8]) -> TealsettleBoot
    ensures { result ≡ boot_call kind chip.now }
{
    host::boot::tealsettle_boot(kind, chip)
}

// The i-th write, counted from 0, of what a chip loads.
#[unsafe(no_mangle)]
pub extern "C" fn tealsettle_write(kind: u32, chip: &[u8], i: usize) -> TealsettleWrite
    ensures { result ≡ write_call kind chip.now i }
{
    host::boot::tealsettle_write(kind, chip, i)
}

// What an image loads by itself.
#[unsafe(no_mangle)]
pub extern "C" fn tealsettle_image_check(kind: u32, image: &[u8]) -> TealsettleImage
    ensures { result ≡ image_call kind image.now }
{
    host::boot::tealsettle_image_check(kind, image)
}

// Builds a chip at the front of a buffer. A refusal leaves the buffer as it was.
#[unsafe(no_mangle)]
pub extern "C" fn tealsettle_build(
    kind: u32,
    length: usize,
    update: usize,
    area: usize,
    golden: &[u8],
    out: &mut [u8],
) -> TealsettleBuild
    ensures answer { result ≡ build_call kind (layout_of length update area) golden.now out.old }
    ensures output { out.new ≡ build_call_output kind (layout_of length update area) golden.now out.old }
{
    host::build::tealsettle_build(kind, length, update, area, golden, out)
}

// A run on a chip, whose first k orders are obeyed and whose next is cut. A refusal leaves the chip as it
// was.
#[unsafe(no_mangle)]
pub extern "C" fn tealsettle_cut_run(
    kind: u32,
    chip: &mut [u8],
    update: usize,
    area: usize,
    image: &[u8],
    k: usize,
    damage: &[u8],
) -> TealsettleBench
    ensures answer { result ≡ bench_call kind chip.old update area image.now k damage.now }
    ensures output { chip.new ≡ bench_call_output kind chip.old update area image.now k damage.now }
{
    host::cut::tealsettle_cut_run(kind, chip, update, area, image, k, damage)
}

// Starts a run.
#[unsafe(no_mangle)]
pub extern "C" fn tealsettle_start(
    kind: u32,
    length: usize,
    update: usize,
    area: usize,
    image: &[u8],
) -> TealsettleStart
    ensures { result ≡ start_call kind (layout_of length update area) image.now }
{
    host::run::tealsettle_start(kind, length, update, area, image)
}

// The order that a state asks for.
#[unsafe(no_mangle)]
pub extern "C" fn tealsettle_order(
    kind: u32,
    length: usize,
    update: usize,
    area: usize,
    n: usize,
    phase: u32,
    index: usize,
    outcome: u32,
    image: &[u8],
) -> TealsettleOrder
    ensures { result ≡ order_call kind (state_of length update area n phase index outcome) image.now }
{
    host::run::tealsettle_order(kind, length, update, area, n, phase, index, outcome, image)
}

// The state after a reply to the order of a state.
#[unsafe(no_mangle)]
pub extern "C" fn tealsettle_reply(
    kind: u32,
    length: usize,
    update: usize,
    area: usize,
    n: usize,
    phase: u32,
    index: usize,
    outcome: u32,
    image: &[u8],
    reply_kind: u32,
    bytes: &[u8],
) -> TealsettleReply
    ensures { result ≡ reply_call kind (state_of length update area n phase index outcome) image.now reply_kind bytes.now }
{
    host::run::tealsettle_reply(
        kind, length, update, area, n, phase, index, outcome, image, reply_kind, bytes,
    )
}

// Whether a run has ended, and how.
#[unsafe(no_mangle)]
pub extern "C" fn tealsettle_finished(
    kind: u32,
    length: usize,
    update: usize,
    area: usize,
    n: usize,
    phase: u32,
    index: usize,
    outcome: u32,
) -> TealsettleFinished
    ensures { result ≡ finished_call kind (state_of length update area n phase index outcome) }
{
    host::run::tealsettle_finished(kind, length, update, area, n, phase, index, outcome)
}

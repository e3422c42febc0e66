// The bench: a run on the bytes of a chip, whose power is cut after a number of orders. Bench is document
// 01's term.
#![tactic(auto)]

ghost use Rattle.std.specs.Prelude.{◌<◌, ◌≡◌, true, length, drop};
ghost use Rattle.base.specs.Answer.{Gives};
ghost use Rattle.base.specs.Question.{ask as question};
ghost use Rattle.base.specs.Refusal.{refused};
ghost use Rattle.kind.specs.Layout.{segment};
ghost use Rattle.flash.specs.Flash.{erased};
ghost use Rattle.kind.specs.Spi.{spi};
ghost use Rattle.orders.specs.Orders.{orders};
ghost use Rattle.updater.specs.State.{position, first};
ghost use Rattle.effects.specs.Progress.{chip_after, state_at};
ghost use Rattle.bench.specs.Bench.{mixture, span_allows, cut_allowed, cut_in, bench_numbers, bench_answer, bench_output, bench_layout};
ghost use Rattle.bench.specs.Types.{BadDamage};

use base::refusal::{Reason, Refusal, ask};
use effects::Run;
use flash::overwrite;
use kind::spi::Spi;
use orders::Operation;
use starts::start;
use updater::state::State;

// Whether each bit of the new bytes is 1 or that of the others.
fn mixes_with_erased(others: &[u8], new: &[u8]) -> bool
    requires { length others.now ≡ length new.now }
    ensures { result ≡ mixture others.now (erased (length others.now)) new.now }
{
    others
        .iter()
        .zip(new)
        .all(|(other, byte)| (*byte ^ *other) & (*byte ^ 0xFF) == 0)
}

// Question 10 for an erase or program of `count` bytes. In segment 0 either what is ordered (the erase)
// or what stands there before (the program of ON) is FF; the others are the bytes that need not be.
fn span_allowed(place: usize, count: usize, others: &[u8], damage: &[u8]) -> bool
    requires { place < segment → length others.now ≡ count }
    ensures { result ≡ span_allows place others.now (erased count) damage.now }
{
    if damage.len() < count {
        return false;
    }
    if place >= Spi::SEGMENT {
        return true;
    }
    mixes_with_erased(others, &damage[..count])
}

// Question 10 for the current order, before anything is written: the chip is the one before the run.
// Only the erase of segment 0 finds it as it was.
// Stays: no plainer: that the chip has the layout's length is asked here and in the two below: the chip is lent beside the run.
fn damage_allowed(chip: &[u8], run: &Run, damage: &[u8]) -> bool
    requires { run.now.state.layout.chip_length ≡ length chip.now }
    ensures { result ≡ cut_allowed (drop (position run.now.state) (orders spi run.now.state.layout run.now.image.now)) (chip_after spi run.now.state.layout run.now.image.now (position run.now.state) chip.now) damage.now }
{
    if !run.goes_on() {
        return true;
    }
    let on = Spi::ON;
    match run.operation() {
        Operation::Erase { place, length } => span_allowed(
            place,
            length,
            &chip[place..place + length],
            damage,
        ),
        Operation::Program { place, length } => span_allowed(place, length, &on, damage),
        Operation::Look { .. } => true,
    }
}

// What the cut order leaves. Its span lies within the chip, so nothing is refused.
fn write_damage(chip: &mut [u8], run: &Run, damage: &[u8])
    requires long { run.now.state.layout.chip_length ≡ length chip.old }
    requires allowed { cut_allowed (drop (position run.now.state) (orders spi run.now.state.layout run.now.image.now)) chip.old damage.now ≡ true }
    ensures { chip.new ≡ cut_in (drop (position run.now.state) (orders spi run.now.state.layout run.now.image.now)) chip.old damage.now }
{
    if !run.goes_on() {
        return;
    }
    match run.operation() {
        Operation::Erase { place, length } | Operation::Program { place, length } => {
            let _ = overwrite(chip, place, &damage[..length]);
        }
        Operation::Look { .. } => {}
    }
}

// Question 10, and the cut, for a run that is started: its state before the cut order, or at its end.
fn cut_begun(chip: &mut [u8], begun: Run, cut: usize, damage: &[u8]) -> Result<State, Refusal>
    requires begins { begun.state ≡ first begun.state.layout (length begun.image.now) }
    requires long { begun.state.layout.chip_length ≡ length chip.old }
    ensures answer { result ≡ question (cut_allowed (drop cut (orders spi begun.entry.state.layout begun.entry.image.now)) (chip_after spi begun.entry.state.layout begun.entry.image.now cut chip.old) damage.now) (refused BadDamage 0) (Ok (state_at begun.entry.state.layout begun.entry.image.now cut)) }
    ensures output { chip.new ≡ bench_output result spi begun.entry.state.layout chip.old begun.entry.image.now cut damage.now }
{
    let reached = begun.after(cut);
    ask(damage_allowed(chip, &reached, damage), Reason::BadDamage)?;
    begun.obey_orders(chip, cut);
    write_damage(chip, &reached, damage);
    Ok(reached.state)
}

// Runs an update on a chip and cuts the power in the order after the first `cut`: those are obeyed in full, and
// the first damage bytes stand in the span of the next. A cut at or above the total lets the run end. The answer is the
// run's state before the cut order, or at its end; refusals 1 to 6 and 13 leave the chip as it was.
pub fn cut_run(
    chip: &mut [u8],
    update_place: usize,
    update_length: usize,
    image: &[u8],
    cut: usize,
    damage: &[u8],
) -> Result<State, Refusal>
    ensures answer { Gives bench_numbers result (bench_answer spi (bench_layout chip.old update_place update_length) chip.old image.now cut damage.now) }
    ensures output { chip.new ≡ bench_output (bench_answer spi (bench_layout chip.old update_place update_length) chip.old image.now cut damage.now) spi (bench_layout chip.old update_place update_length) chip.old image.now cut damage.now }
{
    let layout = Spi::layout(chip.len(), update_place, update_length);
    let state = start(layout, image)?;
    cut_begun(chip, Run { state, image }, cut, damage)
}

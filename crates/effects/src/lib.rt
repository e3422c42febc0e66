// A run on the bytes of a chip that obeys: the run's state and the chip after a number of orders. For the bench
// alone: its functions ask their caller for a run that is at its start, and for a chip of its layout's length.
#![tactic(auto)]

ghost use Rattle.std.specs.Prelude.{min, ◌≡◌, true, length};
ghost use Rattle.kind.specs.Spi.{spi};
ghost use Rattle.orders.specs.Table.{total};
ghost use Rattle.orders.specs.Orders.{operation_of};
ghost use Rattle.updater.specs.State.{first, after, running, fits, current_order};
ghost use Rattle.effects.specs.Effects.{obeyed};
ghost use Rattle.effects.specs.Progress.{chip_after, state_after};

use flash::{erase, program};
use orders::Operation;
use updater::state::{Running, State};

// A run on an image: its state, which fits the image.
// Stays: no plainer: the chip is lent beside it, with its length in a requires: a struct with the caller's &mut in it has to
// say in every method that it still holds that reference.
#[derive(Clone, Copy)]
pub struct Run<'a> {
    pub state: State,
    pub image: &'a [u8],
    ghost fits: { fits state (length image.now) ≡ true },
}

impl<'a> Run<'a> {
    // Whether it goes on.
    pub fn goes_on(&self) -> bool
        ensures { result ≡ running self.now.state }
    {
        self.state.phase < 7
    }

    // Its state, which goes on.
    // Stays: no plainer: an Option of `Running` in place of `goes_on` would be without the image, so that `obey_order` would ask for
    // the image's length beside it; `fits` of `Run` holds that here.
    fn running(&self) -> Running
        requires { running self.now.state ≡ true }
        ensures { result.state ≡ self.now.state }
    {
        Running { state: self.state }
    }

    // Its current order.
    pub fn operation(&self) -> Operation
        requires { running self.now.state ≡ true }
        ensures { result ≡ operation_of (current_order spi self.now.state self.now.image.now) }
    {
        self.running().operation()
    }

    // The run after that order.
    fn next(self) -> Run<'a>
        requires { running self.state ≡ true }
        ensures state { result.state ≡ after self.entry.state }
        ensures image { result.image ≡ self.entry.image }
    {
        Run {
            state: self.running().after_order(),
            image: self.image,
        }
    }

    // The chip obeys the current order. Every order's span lies within the chip, so none is refused.
    fn obey_order(&self, chip: &mut [u8])
        requires goes_on { running self.now.state ≡ true }
        requires long { self.now.state.layout.chip_length ≡ length chip.old }
        ensures { chip.new ≡ obeyed (current_order spi self.now.state self.now.image.now) chip.old }
    {
        match self.operation() {
            Operation::Erase { place, length } => {
                let _ = erase(chip, place, length);
            }
            Operation::Program { place, length } => {
                let bytes = self.running().bytes(self.image);
                let _ = program(chip, place, &bytes[..length]);
            }
            Operation::Look { .. } => {}
        }
    }

    // The run after `cut` orders, or at its end.
    // Stays: no plainer: that it is at its start is asked of one run, that of the bench's call; a type for it would stand
    // around this one and be taken off at once.
    pub fn after(self, cut: usize) -> Run<'a>
        requires { self.state ≡ first self.state.layout (length self.image.now) }
        ensures state { result.state ≡ state_after (min cut (total self.entry.state.layout (length self.entry.image.now))) self.entry.state }
        ensures image { result.image ≡ self.entry.image }
    {
        let mut run = self;
        for _ in 0..cut {
            if !run.goes_on() {
                return run;
            }
            run = run.next();
        }
        run
    }

    // The chip obeys the first `cut` orders, or all of the run.
    pub fn obey_orders(self, chip: &mut [u8], cut: usize)
        requires begins { self.state ≡ first self.state.layout (length self.image.now) }
        requires long { self.state.layout.chip_length ≡ length chip.old }
        ensures { chip.new ≡ chip_after spi self.entry.state.layout self.entry.image.now cut chip.old }
    {
        let mut run = self;
        for _ in 0..cut {
            if !run.goes_on() {
                return;
            }
            run.obey_order(chip);
            run = run.next();
        }
    }
}

// Where a chip's update area begins, as the chip itself says.
ghost use Rattle.std.specs.Prelude.{◌≡◌};
ghost use Rattle.hostfiles.specs.Place.{place_call};

use base::refusal::{Reason, ask};
use chip::update_place;
use fileresults::place::TealsettlePlace;
use kind::spi::Spi;

// The update place that segment 1 of a chip names.
// Stays: the C interface names a kind of chip by a number.
#[unsafe(no_mangle)]
#[tactic(auto, unfolding(base::specs::Question::ask))]
pub extern "C" fn tealsettle_update_place(kind: u32, chip: &[u8]) -> TealsettlePlace
    ensures { result ≡ place_call kind chip.now }
{
    ask(Spi::has_number(kind), Reason::BadChipLength)
        .and_then(|()| update_place::read(chip))
        .into()
}

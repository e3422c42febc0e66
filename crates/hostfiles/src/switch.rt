// Whether a chip's switch is ON.
ghost use Rattle.std.specs.Prelude.{◌≡◌};
ghost use Rattle.hostfiles.specs.Switch.{switch_call};

use base::refusal::{Reason, ask};
use chip::switch;
use fileresults::switch::TealsettleSwitch;
use kind::spi::Spi;

// The switch of a chip.
// Stays: the C interface names a kind of chip by a number.
#[unsafe(no_mangle)]
#[tactic(auto, unfolding(base::specs::Question::ask))]
pub extern "C" fn tealsettle_switch(kind: u32, chip: &[u8]) -> TealsettleSwitch
    ensures { result ≡ switch_call kind chip.now }
{
    ask(Spi::has_number(kind), Reason::BadChipLength)
        .and_then(|()| switch::read(chip))
        .into()
}

// The switch of a chip.
ghost use Rattle.base.specs.Answer.{Gives};
ghost use Rattle.kind.specs.Spi.{spi};
ghost use Rattle.chip.specs.Switch.{switch_numbers, switch_answer};

use base::refusal::{Reason, Refusal, ask};
use kind::layout::chip_length_allowed;
use kind::spi::Spi;

// Which image a chip loads: ON is the update, OFF the golden image.
#[derive(Clone, Copy, PartialEq, Eq)]
pub enum Switch {
    On,
    Off,
}

// The switch of a chip's bytes: ON is the one word, and every other is OFF; or refusal 1.
#[tactic(auto, unfolding(crate::specs::Switch::switch_answer, base::specs::Question::ask), using(base::proofs::Laws::gives))]
pub fn read(chip: &[u8]) -> Result<Switch, Refusal>
    ensures { Gives switch_numbers result (switch_answer spi chip.now) }
{
    ask(chip_length_allowed(chip.len()), Reason::BadChipLength)?;
    if chip[Spi::SWITCH..].starts_with(&Spi::ON) {
        return Ok(Switch::On);
    }
    Ok(Switch::Off)
}

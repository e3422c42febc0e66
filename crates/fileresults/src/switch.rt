// Whether a chip's switch is ON, as numbers.
ghost use Rattle.std.specs.Prelude.{◌≡◌};
ghost use Rattle.fileresults.specs.Switch.{switch_result};

use base::refusal::Refusal;
use chip::switch::Switch;

// A refusal's number and place; or 0, 0, and whether the switch is ON.
// Stays: the C interface gets an answer as a struct of numbers, with a refusal's number and place in front.
#[repr(C)]
#[derive(Default, Drop)]
pub struct TealsettleSwitch {
    pub number: u32,
    pub place: usize,
    pub on: u32,
}

impl From<Result<Switch, Refusal>> for TealsettleSwitch {
    ghost from_gives = { λ answer given. given ≡ switch_result answer };

    #[tactic(auto, unfolding(crate::specs::Switch::switch_result, chip::specs::Switch::switch_values, base::specs::Answer::in_numbers))]
    fn from(answer: Result<Switch, Refusal>) -> TealsettleSwitch {
        match answer {
            Ok(Switch::On) => TealsettleSwitch {
                on: 1,
                ..TealsettleSwitch::default()
            },
            Ok(Switch::Off) => TealsettleSwitch::default(),
            Err(refusal) => TealsettleSwitch {
                number: refusal.reason.number(),
                place: refusal.place,
                ..TealsettleSwitch::default()
            },
        }
    }
}

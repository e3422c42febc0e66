// Refusals: why a call was refused, and at which place. docs/REFUSALS.md says what each reason means, and
// include/tealsettle.h has the same names for C; docs/refusals.py holds both to this file.
ghost use Rattle.std.specs.Prelude.{◌≡◌};
ghost use Rattle.base.specs.Question.{ask as question};
ghost use Rattle.base.specs.Refusal.{number_of, refused};

// Why a call was refused, or a run stopped, with the number that document 01 gives it: the only list of them in the code.
#[derive(Clone, Copy, PartialEq, Eq)]
pub enum Reason {
    BadChipLength = 1,
    BadUpdatePlace = 2,
    BadUpdateLength = 3,
    BadImageLength = 4,
    ImageFault = 5,
    ImageJumps = 6,
    BadState = 7,
    RunEnded = 8,
    BadReply = 9,
    // Stops: they end a run and leave what its orders wrote.
    SwitchNotErased = 10,
    UpdateDiffers = 11,
    SwitchNotOn = 12,
    // Refusals again.
    BadDamage = 13,
    BadLine = 14,
    BadSum = 15,
    BadRecord = 16,
    BadAddress = 17,
    BadEnd = 18,
    NoRoom = 19,
    BadHeaviestLength = 29,
}

// Why a call was refused, and at which place: 0 where the refusal has none.
#[derive(Clone, Copy, PartialEq, Eq)]
pub struct Refusal {
    pub reason: Reason,
    pub place: usize,
}

impl Reason {
    // Its number.
    pub fn number(self) -> u32
        ensures { result ≡ number_of self }
    {
        self as u32
    }
}

// One question: where the answer is no it is refused, at no place.
#[tactic(auto, unfolding(crate::specs::Question::ask))]
pub fn ask(allowed: bool, reason: Reason) -> Result<(), Refusal>
    ensures { result ≡ question allowed (refused reason 0) (Ok tt) }
{
    if allowed {
        return Ok(());
    }
    Err(Refusal { reason, place: 0 })
}

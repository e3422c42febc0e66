// How many words a cut can leave in the switch segment, and how many of them are ON on an SPI chip. A word is a number
// here, its high byte first on the chip.
#![tactic(auto)]

ghost use Rattle.std.specs.Prelude.{◌≡◌};
ghost use Rattle.kind.specs.Spi.{spi};
ghost use Rattle.outcomes.specs.Outcomes.{program_counts, erase_counts};
ghost use Rattle.outcomes.specs.Internal.{changing_counts};

use kind::spi::Spi;

// How many words, and how many of them are ON. There may be 2^32.
#[repr(C)]
#[derive(Drop)]
pub struct TealsettleCounts {
    pub words: u64,
    pub on: u64,
}

// Each bit that can change ends as 0 or as 1, whatever the others do, so n such bits give 2^n words. ON is one of them if
// it agrees with the old word in every other bit.
fn count_changing(old: u32, changing: u32) -> TealsettleCounts
    ensures { result ≡ changing_counts old changing }
{
    let words = 1u64 << changing.count_ones();
    let on = u64::from((u32::from_be_bytes(Spi::ON) ^ old) & !changing == 0);
    TealsettleCounts { words, on }
}

// How many switch words a program can leave, cut inside or called done, and how many of them are ON. It only clears bits, so
// those that are 1 and ordered to be 0 can change.
pub fn after_program(old: u32, ordered: u32) -> TealsettleCounts
    ensures { result ≡ program_counts spi old ordered }
{
    count_changing(old, old & !ordered)
}

// How many an erase can leave, cut inside or called done, and how many of them are ON. It only sets bits, so those that are 0
// can change.
pub fn after_erase(old: u32) -> TealsettleCounts
    ensures { result ≡ erase_counts spi old }
{
    count_changing(old, !old)
}

// Where a chip's update area begins, as its segment 1 says.
ghost use Rattle.base.specs.Answer.{Gives};
ghost use Rattle.kind.specs.Spi.{spi};
ghost use Rattle.chip.specs.UpdatePlace.{place_numbers, place_answer};

use base::refusal::{Reason, Refusal, ask};
use framing::words::word_at;
use kind::layout::chip_length_allowed;
use kind::spi::Spi;

// Where the update area of a chip's bytes begins: the U for which segment 1 begins with the warm-boot words; nothing
// where it does not begin so for any U; or refusal 1. Only the second word can be U, so one comparison tells.
#[tactic(auto, unfolding(crate::specs::UpdatePlace::place_answer, base::specs::Question::ask), using(base::proofs::Laws::gives))]
pub fn read(chip: &[u8]) -> Result<Option<usize>, Refusal>
    ensures { Gives place_numbers result (place_answer spi chip.now) }
{
    ask(chip_length_allowed(chip.len()), Reason::BadChipLength)?;
    let update_place = word_at(chip, Spi::SEGMENT + 4) as usize;
    let words = Spi::warm_boot_words(update_place);
    // Stays: slower: `starts_with` waits for the words, which were just made a byte at a time, and looks at all of them also where
    // the first byte differs: 2.8 times as long for a chip that names no place.
    for i in 0..words.len() {
        if chip[Spi::SEGMENT + i] != words[i] {
            return Ok(None);
        }
    }
    Ok(Some(update_place))
}

// What a chip loads: the calls on a chip's bytes. They ask question 1 of its length, and no more.
ghost use Rattle.base.specs.Answer.{Gives};
ghost use Rattle.kind.specs.Spi.{spi};
ghost use Rattle.packets.specs.Trace.{write_numbers};
ghost use Rattle.writes.specs.Cursor.{listing_numbers};
ghost use Rattle.bootreader.specs.Boot.{boot_numbers, boot_answer, chip_write, chip_listing};

use base::refusal::{Reason, Refusal, ask};
use configreader::{Outcome, read_chip};
use kind::layout::chip_length_allowed;
use packets::trace::Write;
use writes::cursor::{Cursor, nth_from};

// What a chip loads, or where it is stuck.
// Stays: Outcome::Loaded (configreader) and this Loaded have the same fields: theorems of both crates name the cases with their
// fields, so they hold it.
#[derive(Clone, Copy)]
pub enum Boot {
    Loaded {
        sync: usize,
        end: usize,
        writes: usize,
        jumped: bool,
    },
    Stuck {
        place: usize,
    },
}

// What a chip loads: the place of the last sync word, the place after the last word, the number of writes, jumped or
// not; or where it is stuck; or refusal 1.
#[tactic(auto, unfolding(crate::specs::Boot::boot_answer, crate::specs::Boot::boot_case, base::specs::Question::ask), using(base::proofs::Laws::gives))]
pub fn answer(chip: &[u8]) -> Result<Boot, Refusal>
    ensures { Gives boot_numbers result (boot_answer spi chip.now) }
{
    ask(chip_length_allowed(chip.len()), Reason::BadChipLength)?;
    Ok(match read_chip(chip) {
        Outcome::Loaded {
            sync,
            end,
            writes,
            jumped,
        } => Boot::Loaded {
            sync,
            end,
            writes,
            jumped,
        },
        Outcome::Iprog { place } => Boot::Stuck { place },
        Outcome::Stuck { place } => Boot::Stuck { place },
    })
}

// The i-th write, counted from 0, of what a chip loads: register, word, place; or that there is none; or refusal 1.
#[tactic(auto, unfolding(crate::specs::Boot::chip_write, base::specs::Question::ask, configreader::specs::Configreader::listed, packets::specs::Trace::nth_write), using(crate::proofs::AnswerLaws::chip_room, crate::proofs::AnswerLaws::lists_none, base::proofs::Laws::gives))]
pub fn write(chip: &[u8], i: usize) -> Result<Option<Write>, Refusal>
    ensures { Gives write_numbers result (chip_write spi chip.now i) }
{
    ask(chip_length_allowed(chip.len()), Reason::BadChipLength)?;
    let Outcome::Loaded { sync, .. } = read_chip(chip) else {
        return Ok(None);
    };
    Ok(nth_from(chip, sync + 4, i))
}

// A cursor before the first write of what a chip loads, which has none to give on a chip that is stuck; or refusal 1.
#[tactic(auto, unfolding(crate::specs::Boot::chip_listing, crate::specs::Boot::cursor_of, base::specs::Question::ask), using(crate::proofs::AnswerLaws::chip_room, crate::proofs::AnswerLaws::cursor_none, base::proofs::Laws::gives))]
pub fn writes(chip: &[u8]) -> Result<Cursor, Refusal>
    ensures { Gives listing_numbers result (chip_listing spi chip.now) }
{
    ask(chip_length_allowed(chip.len()), Reason::BadChipLength)?;
    let Outcome::Loaded { sync, writes, .. } = read_chip(chip) else {
        return Ok(Cursor::new(0, 0));
    };
    Ok(Cursor::new(sync + 4, writes))
}

// What a flash chip does to its bytes when it obeys. A span that does not lie within them is refused and changes nothing.
#![tactic(auto)]

ghost use Rattle.std.specs.Prelude.{◌≡◌, length, replicate};
ghost use Rattle.base.specs.Answer.{Gives};
ghost use Rattle.flash.specs.Flash.{erased, flash_numbers, flash_answer, after_program, overwrite_in_range};

use base::refusal::{Reason, Refusal, ask};

// Whether a span lies within so many bytes; or refusal 19. Asked of what is left after its place, so that no sum can wrap.
// Stays: no plainer: a place and a count go together through three functions, this, `fill` and `erase`; the other two have the
// count as the length of their bytes.
#[tactic(auto, unfolding(crate::specs::Flash::flash_answer, base::specs::Question::ask), using(std::proofs::lemmas::Bool::Decides::nat_tests))]
fn ask_room(length: usize, place: usize, count: usize) -> Result<(), Refusal>
    ensures { result ≡ flash_answer length place count }
{
    ask(place <= length && count <= length - place, Reason::NoRoom)
}

// Puts one byte at every place of a span, whatever stood there: an erase does so with FF. Or refusal 19, and the chip as it
// was.
pub fn fill(chip: &mut [u8], place: usize, count: usize, byte: u8) -> Result<(), Refusal>
    ensures answer { Gives flash_numbers result (flash_answer (length chip.old) place count) }
    ensures output { chip.new ≡ overwrite_in_range chip.old place count (replicate count byte) }
{
    ask_room(chip.len(), place, count)?;
    chip[place..place + count].fill(byte);
    Ok(())
}

// An erase sets every byte of its span to FF; or refusal 19, and the chip as it was.
pub fn erase(chip: &mut [u8], place: usize, count: usize) -> Result<(), Refusal>
    ensures answer { Gives flash_numbers result (flash_answer (length chip.old) place count) }
    ensures output { chip.new ≡ overwrite_in_range chip.old place count (erased count) }
{
    fill(chip, place, count, 0xFF)
}

// A program clears exactly the bits that are 0 in its bytes; or refusal 19, and the chip as it was.
pub fn program(chip: &mut [u8], place: usize, bytes: &[u8]) -> Result<(), Refusal>
    ensures answer { Gives flash_numbers result (flash_answer (length chip.old) place (length bytes.now)) }
    ensures output { chip.new ≡ overwrite_in_range chip.old place (length bytes.now) (after_program chip.old place bytes.now) }
{
    ask_room(chip.len(), place, bytes.len())?;
    for (i, &byte) in bytes.iter().enumerate() {
        chip[place + i] &= byte;
    }
    Ok(())
}

// Puts bytes over a span, whatever stood there: no order does this, a builder and a cut do. Or refusal 19, and the chip
// as it was.
pub fn overwrite(chip: &mut [u8], place: usize, bytes: &[u8]) -> Result<(), Refusal>
    ensures answer { Gives flash_numbers result (flash_answer (length chip.old) place (length bytes.now)) }
    ensures output { chip.new ≡ overwrite_in_range chip.old place (length bytes.now) bytes.now }
{
    ask_room(chip.len(), place, bytes.len())?;
    base::copy(bytes, &mut chip[place..]);
    Ok(())
}

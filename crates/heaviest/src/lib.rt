// The accepted image with most writes for its length, and how many it has.
#![tactic(auto)]

ghost use Rattle.std.specs.Prelude.{◌≡◌, ◌*◌, ◌≤◌, length};
ghost use Rattle.base.specs.Answer.{Gives};
ghost use Rattle.base.specs.Output.{front_filled};
ghost use Rattle.framing.specs.Words.{bytes_of_words};
ghost use Rattle.bootreader.specs.Image.{shortest_image, longest_image};
ghost use Rattle.flash.specs.Flash.{overwrite_in_range};
ghost use Rattle.heaviest.specs.Heaviest.{heaviest_length_allowed, most_in, most_writes, heaviest_image, most_numbers, most_answer, heaviest_answer, heaviest_output};
ghost use Rattle.heaviest.specs.Internal.{opening};

use base::refusal::{Reason, Refusal, ask};
use flash::{erase, fill, overwrite};
use kind::spi::Spi;
use packets::header::DESYNC;

// No accepted image is shorter.
const SHORTEST: usize = 12;

// Up to so many words one type 1 header has room for the count of all data words, 2,047; beyond, a type 2 header has it.
const TYPE1_WORDS: usize = 2_049;

// The sync word, and the headers of a write to CMD without their counts.
const SYNC: u32 = 0xAA99_5566;

const TYPE1: u32 = 0x3000_8000;

const TYPE2: u32 = 0x5000_0000;

// Can an accepted image have this length?
#[tactic(auto, unfolding(crate::specs::Heaviest::heaviest_length_allowed, base::specs::Question::ask), using(std::proofs::lemmas::Bool::Decides::nat_tests))]
fn length_allowed(length: usize) -> bool
    ensures { result ≡ heaviest_length_allowed length }
{
    SHORTEST <= length && length <= Spi::LONGEST
}

// The greatest number of writes in so many words: all but the sync word and the headers of one packet.
fn most_in(words: usize) -> usize
    requires { 3 ≤ words }
    ensures { result ≡ most_in words }
{
    if words <= TYPE1_WORDS {
        return words - 2;
    }
    words - 3
}

// Writes words to the front of a buffer, high byte first.
fn put_words(words: &[u32], out: &mut [u8])
    requires { 4 * length words.now ≤ length out.old }
    ensures { out.new ≡ overwrite_in_range out.old 0 (length (bytes_of_words words.now)) (bytes_of_words words.now) }
{
    for (i, word) in words.iter().enumerate() {
        // The span lies within the buffer, so this is not refused.
        let _ = overwrite(out, 4 * i, &word.to_be_bytes());
    }
}

// Writes what comes before the data words to the front of a buffer: the sync word, and the packet's header of type 1; or, where
// that has no room for the count, one of count 0 and the header of type 2 after it.
fn put_opening(words: usize, writes: usize, out: &mut [u8])
    requires { (writes ≡ most_in words) × (words ≤ longest_image) × (length (opening words) ≤ length out.old) }
    ensures { out.new ≡ overwrite_in_range out.old 0 (length (opening words)) (opening words) }
{
    let count = writes as u32;
    if words <= TYPE1_WORDS {
        put_words(&[SYNC, TYPE1 + count], out);
    } else {
        put_words(&[SYNC, TYPE1, TYPE2 + count], out);
    }
}

// Writes the image into a buffer that it fits into. Zeros come first, from the buffer's first byte up to the last word: the
// opening over them costs less than a start that is not aligned.
fn put_image(image_length: usize, writes: usize, out: &mut [u8])
    requires { (shortest_image ≤ image_length) × (image_length ≤ longest_image) × (writes ≡ most_writes image_length) × (image_length ≤ length out.old) }
    ensures { out.new ≡ front_filled (heaviest_image image_length) out.old }
{
    let words = image_length / 4;
    let last_at = 4 * (words - 1);
    // The spans lie within the buffer, so that nothing here is refused.
    let _ = fill(out, 0, last_at, 0);
    put_opening(words, writes, out);
    let _ = overwrite(out, last_at, &DESYNC.to_be_bytes());
    let _ = erase(out, last_at + 4, image_length % 4);
}

// The greatest number of writes that an accepted image of so many bytes can have; or refusal 29.
#[tactic(auto, unfolding(crate::specs::Heaviest::most_answer, base::specs::Question::ask), using(base::proofs::Laws::gives))]
pub fn most_writes(image_length: usize) -> Result<usize, Refusal>
    ensures { Gives most_numbers result (most_answer image_length) }
{
    ask(length_allowed(image_length), Reason::BadHeaviestLength)?;
    Ok(most_in(image_length / 4))
}

// Writes an image of so many bytes, with as many writes as an accepted one can have, to the front of a buffer; or refusal 29
// or 19, and the buffer as it was.
pub fn write_image(image_length: usize, out: &mut [u8]) -> Result<usize, Refusal>
    ensures answer { Gives most_numbers result (heaviest_answer image_length (length out.old)) }
    ensures output { out.new ≡ heaviest_output image_length out.old }
{
    let writes = most_writes(image_length)?;
    ask(image_length <= out.len(), Reason::NoRoom)?;
    put_image(image_length, writes, out);
    Ok(writes)
}

// What a file with an image is, told by its bytes, never by its name.
#![tactic(auto)]

ghost use Rattle.std.specs.Prelude.{◌≡◌, ◌+◌, ◌^◌, ◌<◌, ◌≤◌, length, drop};
ghost use Rattle.base.specs.Answer.{Gives};
ghost use Rattle.framing.specs.Search.{begins_with};
ghost use Rattle.imagefile.specs.Imagefile.{bit_start, content_length, has_field, image_field, letters, fields, is_text, form_numbers, form_answer};

use base::refusal::{Reason, Refusal};
use framing::words::word_at;

// The bytes that a BIT file begins with.
const BIT_START: [u8; 13] = [
    0x00, 0x09, 0x0F, 0xF0, 0x0F, 0xF0, 0x0F, 0xF0, 0x0F, 0xF0, 0x00, 0x00, 0x01,
];

// The letters of the fields before the image's, in order.
const LETTERS: [u8; 4] = [b'a', b'b', b'c', b'd'];

// MCS text; a BIT file, with the place and length of the image inside it; or the image itself, as plain bytes.
#[derive(Clone, Copy)]
pub enum FileForm {
    Text,
    Bit { first: usize, length: usize },
    Binary,
}

// Does a file begin as a BIT file does?
#[tactic(auto, using(framing::proofs::Laws::starts_short, framing::proofs::Laws::starts_differs, framing::proofs::Laws::starts_all))]
fn begins_as_bit(file: &[u8]) -> bool
    ensures { result ≡ begins_with bit_start file.now }
{
    if file.len() < BIT_START.len() {
        return false;
    }
    // Stays: slower: `starts_with` looks at all 13 bytes also where the first differs: 1.8 times as long for a file of 20 bytes.
    for (i, byte) in BIT_START.iter().enumerate() {
        if file[i] != *byte {
            return false;
        }
    }
    true
}

// The length that a field says of its content.
#[tactic(auto, unfolding(crate::specs::Imagefile::content_length))]
fn content_length(field: &[u8]) -> usize
    requires { 3 ≤ length field.now }
    ensures { result ≡ content_length field.now }
{
    usize::from(u16::from_be_bytes([field[1], field[2]]))
}

// Is a field with this letter at the front, whole? Asked of what is left of the file, so that no sum can wrap.
#[tactic(auto, using(crate::proofs::FieldLaws::has_short, crate::proofs::FieldLaws::has_other, crate::proofs::FieldLaws::has_here))]
fn has_field(bytes: &[u8], letter: u8) -> bool
    ensures { result ≡ has_field letter bytes.now }
{
    if bytes.len() < 3 {
        return false;
    }
    if bytes[0] != letter {
        return false;
    }
    content_length(bytes) <= bytes.len() - 3
}

// The image's own field, or the refusal of what is there instead. The bytes are those from its place on.
#[tactic(auto, using(crate::proofs::FieldLaws::image_short, crate::proofs::FieldLaws::image_other, crate::proofs::FieldLaws::image_cut, crate::proofs::FieldLaws::image_whole))]
fn image_field(bytes: &[u8], place: usize) -> Result<FileForm, Refusal>
    requires { place + length bytes.now < 2 ^ 64 }
    ensures { result ≡ image_field bytes.now place }
{
    let refused = Err(Refusal {
        reason: Reason::ImageFault,
        place,
    });
    if bytes.len() < 5 {
        return refused;
    }
    if bytes[0] != b'e' {
        return refused;
    }
    let length = word_at(bytes, 1) as usize;
    if bytes.len() - 5 < length {
        return refused;
    }
    Ok(FileForm::Bit {
        first: place + 5,
        length,
    })
}

// The fields of a BIT file, from after its first 13 bytes.
#[tactic(auto, using(crate::proofs::FieldLaws::from_place, crate::proofs::FieldLaws::field_fits, crate::proofs::FieldLaws::fields_stop, crate::proofs::FieldLaws::fields_on, crate::proofs::FieldLaws::fields_done))]
fn read_fields(file: &[u8]) -> Result<FileForm, Refusal>
    requires { 13 ≤ length file.now }
    ensures { result ≡ fields letters (drop 13 file.now) 13 }
{
    let mut at = BIT_START.len();
    for letter in LETTERS {
        let bytes = &file[at..];
        if !has_field(bytes, letter) {
            return Err(Refusal {
                reason: Reason::ImageFault,
                place: at,
            });
        }
        at += 3 + content_length(bytes);
    }
    image_field(&file[at..], at)
}

// How many bytes are asked at once whether they are text.
const BLOCK: usize = 4096;

// Have these bytes none above 7F? The loop is never left early, so that the compiler compares many at a time.
#[tactic(auto, using(crate::proofs::TextLaws::and_text_on, crate::proofs::TextLaws::and_text_stop, crate::proofs::TextLaws::and_text_end))]
fn block_is_text(block: &[u8]) -> bool
    ensures { result ≡ is_text block.now }
{
    let mut text = true;
    for byte in block {
        if *byte > 0x7F {
            text = false;
        }
    }
    text
}

// Has a file no byte above 7F? Block by block: most binary files are told by their first. Whole blocks have a length that the
// compiler knows: with `chunks`, whose last is shorter, text took a sixth longer.
#[tactic(auto, using(crate::proofs::TextLaws::text_parts, crate::proofs::TextLaws::tail_is, crate::proofs::TextLaws::tail_on, crate::proofs::TextLaws::tail_end))]
fn is_text(file: &[u8]) -> bool
    ensures { result ≡ is_text file.now }
{
    let blocks = file.chunks_exact(BLOCK);
    let rest = blocks.remainder();
    for block in blocks {
        if !block_is_text(block) {
            return false;
        }
    }
    block_is_text(rest)
}

// What a file is: a BIT file by its first 13 bytes, text where no byte is above 7F, else plain binary; or refusal 5, at
// the first field of a BIT file that is not the one to come there, whole.
#[tactic(auto, unfolding(crate::specs::Imagefile::form_answer, crate::specs::Imagefile::plain_form, base::specs::Question::ask), using(base::proofs::Laws::gives, framing::proofs::Laws::starts_length))]
pub fn form(file: &[u8]) -> Result<FileForm, Refusal>
    ensures { Gives form_numbers result (form_answer file.now) }
{
    if begins_as_bit(file) {
        return read_fields(file);
    }
    if is_text(file) {
        return Ok(FileForm::Text);
    }
    Ok(FileForm::Binary)
}

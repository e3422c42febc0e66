// What is printed of the answer to a case: words, numbers and bytes, each with a space before it. Each function
// writes to the writer that it is given, and fails where that fails. For the crates above it alone, which are the
// parts of a test program: of its functions no more is proved than that they are safe and end.
#![tactic(auto)]

use base::refusal::Refusal;
use runresults::run::TealsettleState;
use std::io;
use std::io::Write;

pub fn word(out: &mut impl Write, word: &str) -> io::Result<()> {
    write!(out, " {word}")
}

pub fn number(out: &mut impl Write, value: usize) -> io::Result<()> {
    write!(out, " {value}")
}

// One of two words, by a flag of the C host.
// Stays: the C interface: a flag, and below a number that is 0 where a call was not refused.
pub fn either<'a>(flag: u32, no: &'a str, yes: &'a str) -> &'a str {
    if flag == 0 { no } else { yes }
}

pub fn refused(out: &mut impl Write, refusal: Refusal) -> io::Result<()> {
    let number = refusal.reason.number();
    let place = refusal.place;
    write!(out, " refused {number} {place}")
}

// How a call ended: a word, and where it ended badly the number and the place.
pub fn result(
    out: &mut impl Write,
    good: &str,
    bad: &str,
    number: u32,
    place: usize,
) -> io::Result<()> {
    if number == 0 {
        return word(out, good);
    }
    write!(out, " {bad} {number} {place}")
}

// A word of a packet in hexadecimal.
pub fn packet_word(out: &mut impl Write, w: u32) -> io::Result<()> {
    write!(out, " {w:08X}")
}

// Bytes in a row that are all the same: the byte, and how often it stands.
fn row(out: &mut impl Write, same: &[u8]) -> io::Result<()> {
    match same {
        [] => Ok(()),
        [b] => write!(out, " {b:02X}"),
        [b, ..] => write!(out, " {b:02X}*{}", same.len()),
    }
}

// Every byte of a buffer, those that stand more than once in a row with their number.
pub fn bytes(out: &mut impl Write, buffer: &[u8]) -> io::Result<()> {
    if buffer.is_empty() {
        word(out, "nothing")?;
    }
    for same in buffer.chunk_by(|a, b| a == b) {
        row(out, same)?;
    }
    Ok(())
}

// The state of a run: F, U, A, n, phase, index, outcome.
pub fn state(out: &mut impl Write, state: &TealsettleState) -> io::Result<()> {
    let TealsettleState {
        length,
        update,
        area,
        image_length,
        phase,
        index,
        outcome,
    } = state;
    write!(
        out,
        " state {length} {update} {area} {image_length} {phase} {index} {outcome}",
    )
}

// The cases of calls that are lent bytes to change: a chip is built, a run on a chip is cut, a text is read. Each is
// called as the C host calls it, and its answer is printed, the bytes last, to the writer that is given; it fails
// where that fails. F, U and A are the last three numbers of a line. For the program above it alone: no more is
// proved here than that each call is safe and ends.
#![tactic(auto)]

use caseanswers as say;
use caseasks::{Case, copied};
use caselines::call::Call;
use caselines::{SPI, room};
use host::build::tealsettle_build;
use host::cut::tealsettle_cut_run;
use hosttexts::reading::tealsettle_mcs_read;
use std::io;
use std::io::Write;

fn build(
    out: &mut impl Write,
    numbers: [usize; 8],
    image: &[u8],
    lent: &mut [u8],
) -> io::Result<()> {
    let [_, _, _, _, _, f, u, a] = numbers;
    let answer = tealsettle_build(SPI, f, u, a, image, lent);
    say::result(out, "built", "refused", answer.number, answer.place)
}

fn read(out: &mut impl Write, text: &[u8], lent: &mut [u8]) -> io::Result<()> {
    let answer = tealsettle_mcs_read(text, lent);
    say::result(out, "read", "refused", answer.number, answer.place)?;
    say::number(out, answer.length)
}

// A run that is cut: U, A and the number of orders before the cut.
fn cut(
    out: &mut impl Write,
    numbers: [usize; 8],
    image: &[u8],
    damage: &[u8],
    chip: &mut [u8],
) -> io::Result<()> {
    let [_, _, _, _, _, u, a, k] = numbers;
    let answer = tealsettle_cut_run(SPI, chip, u, a, image, k, damage);
    say::result(out, "reached", "refused", answer.number, answer.place)?;
    say::state(out, &answer.state)
}

// A call that may change the bytes of the last field, and those bytes as they are then: it is lent a copy of them.
pub fn call(out: &mut impl Write, case: Case<'_>) -> io::Result<()> {
    let mut space = room();
    let lent = copied(case.third, &mut space);
    match case.call {
        Call::Build => build(out, case.numbers, case.second, lent)?,
        Call::Read => read(out, case.second, lent)?,
        _ => cut(out, case.numbers, case.first, case.second, lent)?,
    }
    say::bytes(out, lent)
}

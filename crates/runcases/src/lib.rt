// The cases of layouts and runs, most of them called as the C host calls them, in plain numbers: each call's
// answer is printed to the writer that is given, and fails where that fails. F, U and A are the last three numbers of
// a line, a state's seven the last seven. For the program above it alone: no more is proved here than that each call is
// safe and ends.
#![tactic(auto)]

use caseanswers as say;
use caseasks::Case;
use caselines::SPI;
use caselines::call::Call;
use host::run::{tealsettle_finished, tealsettle_order, tealsettle_reply, tealsettle_start};
use hostcounts::{tealsettle_progress, tealsettle_total};
use kind::spi::Spi;
use std::io;
use std::io::Write;

fn layout(out: &mut impl Write, numbers: [usize; 8]) -> io::Result<()> {
    let [_, _, _, _, _, f, u, a] = numbers;
    match Spi::layout(f, u, a).check() {
        Ok(()) => say::word(out, "allowed"),
        Err(refusal) => say::refused(out, refusal),
    }
}

fn start(out: &mut impl Write, numbers: [usize; 8], image: &[u8]) -> io::Result<()> {
    let [_, _, _, _, _, f, u, a] = numbers;
    let answer = tealsettle_start(SPI, f, u, a, image);
    say::result(out, "started", "refused", answer.number, answer.place)?;
    say::state(out, &answer.state)
}

fn total(out: &mut impl Write, numbers: [usize; 8]) -> io::Result<()> {
    let [_, _, _, _, f, u, a, n] = numbers;
    let answer = tealsettle_total(SPI, f, u, a, n);
    say::result(out, "total", "refused", answer.number, answer.place)?;
    say::number(out, answer.orders)
}

// A number of 32 bits, which phase, outcome and the kind of reply are: a line with a larger one asks nothing.
fn narrow(value: usize) -> u32 {
    u32::try_from(value).unwrap_or(u32::MAX)
}

// The name of an operation.
// Stays: the C interface names an operation by a number.
fn operation(number: u32) -> &'static str {
    match number {
        1 => "erase",
        2 => "program",
        _ => "look",
    }
}

fn order(out: &mut impl Write, numbers: [usize; 8], image: &[u8]) -> io::Result<()> {
    let [_, f, u, a, n, phase, index, outcome] = numbers;
    let answer = tealsettle_order(
        SPI,
        f,
        u,
        a,
        n,
        narrow(phase),
        index,
        narrow(outcome),
        image,
    );
    let name = operation(answer.operation);
    say::result(out, name, "refused", answer.number, answer.place)?;
    say::number(out, answer.address)?;
    say::number(out, answer.length)?;
    say::bytes(out, &answer.bytes)
}

fn reply(out: &mut impl Write, numbers: [usize; 8], image: &[u8], bytes: &[u8]) -> io::Result<()> {
    let [said, f, u, a, n, phase, index, outcome] = numbers;
    let answer = tealsettle_reply(
        SPI,
        f,
        u,
        a,
        n,
        narrow(phase),
        index,
        narrow(outcome),
        image,
        narrow(said),
        bytes,
    );
    let not = say::either(answer.stopped, "refused", "stopped");
    say::result(out, "next", not, answer.number, answer.place)?;
    say::state(out, &answer.state)
}

fn ended(out: &mut impl Write, numbers: [usize; 8]) -> io::Result<()> {
    let [_, f, u, a, n, phase, index, outcome] = numbers;
    let answer = tealsettle_finished(SPI, f, u, a, n, narrow(phase), index, narrow(outcome));
    let how = say::either(answer.ended, "running", "ended");
    say::result(out, how, "refused", answer.number, answer.place)?;
    say::number(out, answer.outcome as usize)
}

fn progress(out: &mut impl Write, numbers: [usize; 8]) -> io::Result<()> {
    let [_, f, u, a, n, phase, index, outcome] = numbers;
    let answer = tealsettle_progress(SPI, f, u, a, n, narrow(phase), index, narrow(outcome));
    say::result(out, "at", "refused", answer.number, answer.place)?;
    say::number(out, answer.order)?;
    say::number(out, answer.orders)
}

// A call that changes no byte.
pub fn call(out: &mut impl Write, case: Case<'_>) -> io::Result<()> {
    match case.call {
        Call::Layout => layout(out, case.numbers),
        Call::Total => total(out, case.numbers),
        Call::Ended => ended(out, case.numbers),
        Call::Progress => progress(out, case.numbers),
        Call::Start => start(out, case.numbers, case.third),
        Call::Order => order(out, case.numbers, case.third),
        _ => reply(out, case.numbers, case.second, case.third),
    }
}

// The specification's cases as data, a line each. The program reads lines from standard input and prints each
// as it is, and behind it ` = ` and the answer: so what it prints is what it read, with the answers. A line
// is a word, numbers, and up to three fields of bytes, each after a slash and maybe empty.
//
//     boot / CHIP                       what a chip loads: sync, end, writes, and jumped where it did
//     write I / CHIP                    its write of an index: register, word, place
//     list / CHIP                       all its writes, by a cursor
//     switch / CHIP                     its switch
//     check / IMAGE                     what an image loads by itself: sync, end, writes
//     item I / IMAGE                    its write of an index
//     items / IMAGE                     all its writes, by a cursor
//     packets / IMAGE                   the packets that a reader of the image gives, each with its writes: register,
//                                       place of the first data word, number of writes, the reader's place after it
//     layout F U A                      questions 1 to 3
//     build F U A / IMAGE / BUFFER      a chip with this golden image; the buffer's bytes then
//     start F U A / IMAGE               a run: its first state
//     total F U A N                     how many orders a run has with N bytes
//     order STATE / IMAGE               the order of a state: place, length, and its 256 bytes
//     reply SAID STATE / IMAGE / BYTES  the state after a reply, which said 0 (done) or 1 (read)
//     ended STATE                       whether a run has ended, and the outcome
//     cut U A K / IMAGE / DAMAGE / CHIP a run cut after K orders: its state, and the chip's bytes then
//     read / TEXT / BUFFER              MCS text: how many bytes; the buffer's bytes then
//
// Bytes are pairs of capital hexadecimal digits, with spaces between or not. `*N` after a pair is that byte
// N times in all, and what stands in quotes is a byte for each character, `|` for a line feed. A STATE is
// the numbers F, U, A, n, phase, index and outcome. Numbers are decimal, at most 18446744073709551615.
//
// A refusal is followed by its number and place, and then by the answer's other numbers, as the C host gets
// them. An empty line, and one that begins with # and a space, ask nothing. Every other line prints `?`: one
// with an unknown word, with more or fewer numbers or fields than its word wants, with something that is no
// number or no byte, or with a number or bytes that there is no room for.
#![tactic(auto)]

use caseanswers as say;
use caseasks::{Case, read_case};
use caselines::call::Call;
use caselines::room;
use input::read_full;
use std::io;
use std::io::{BufWriter, Write};

// The call of a case.
fn call(out: &mut impl Write, case: Case<'_>) -> io::Result<()> {
    match case.call {
        Call::Build | Call::Read | Call::Cut => lentcases::call(out, case),
        Call::Boot | Call::Switch | Call::Write | Call::List => chipcases::call_chip(out, case),
        Call::Check | Call::Item | Call::Items | Call::Packets => chipcases::call_image(out, case),
        _ => runcases::call(out, case),
    }
}

// Prints the answer to a line, where it asks something.
fn run_line(out: &mut impl Write, line: &[u8]) -> io::Result<()> {
    let mut given = room();
    match read_case(line, &mut given) {
        Ok(None) => Ok(()),
        Ok(Some(case)) => {
            say::word(out, "=")?;
            call(out, case)
        }
        Err(_) => write!(out, " = ?"),
    }
}

// Prints a line as it is, and its answer behind it.
fn print_line(out: &mut impl Write, line: &[u8]) -> io::Result<()> {
    out.write_all(line)?;
    run_line(out, line)?;
    out.write_all(b"\n")
}

fn run_lines(out: &mut impl Write, input: &[u8]) -> io::Result<()> {
    for line in input.split_inclusive(|b| *b == b'\n') {
        print_line(out, line.strip_suffix(b"\n").unwrap_or(line))?;
    }
    Ok(())
}

fn main(rt: HostRuntime) -> io::Result<()> {
    let mut input = room();
    let length = read_full(&mut rt.stdin(), &mut input);
    let mut out = BufWriter::new(rt.alloc(), rt.stdout())?;
    run_lines(&mut out, &input[..length])?;
    // there may be lines that were not read
    if length == input.len() {
        say::word(&mut out, "?")?;
    }
    out.flush()
}

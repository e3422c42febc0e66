// The cases of what loads: the calls on a chip's bytes and on an image by itself, each with its answer printed.
// Each is printed to the writer that is given, and fails where that fails. For the program above it alone: no
// more is proved here than that each call is safe and ends.
#![tactic(auto)]

ghost use Rattle.std.specs.Prelude.{◌+◌, ◌*◌, ◌≤◌, length};

use base::refusal::Refusal;
use bootreader::{boot as loader, image};
use caseanswers as say;
use caseasks::Case;
use caselines::SPI;
use caselines::call::Call;
use chip::switch;
use chip::switch::Switch;
use framing::words::word_at;
use host::boot::{tealsettle_boot, tealsettle_image_check};
use imagereader::{Packet, first_from, next_from};
use packets::trace::Write as Written;
use std::io;
use std::io::Write;
use writes::cursor::Cursor;

fn boot(out: &mut impl Write, chip: &[u8]) -> io::Result<()> {
    let answer = tealsettle_boot(SPI, chip);
    if answer.stuck != 0 {
        say::word(out, "stuck")?;
        return say::number(out, answer.place);
    }
    say::result(out, "loaded", "refused", answer.number, answer.place)?;
    say::number(out, answer.sync)?;
    say::number(out, answer.end)?;
    say::number(out, answer.writes)?;
    if answer.jumped != 0 {
        say::word(out, "jumped")?;
    }
    Ok(())
}

fn check(out: &mut impl Write, image: &[u8]) -> io::Result<()> {
    let answer = tealsettle_image_check(SPI, image);
    say::result(out, "accepted", "refused", answer.number, answer.place)?;
    say::number(out, answer.sync)?;
    say::number(out, answer.end)?;
    say::number(out, answer.writes)
}

fn switched(out: &mut impl Write, chip: &[u8]) -> io::Result<()> {
    match switch::read(chip) {
        Ok(Switch::On) => say::word(out, "on"),
        Ok(Switch::Off) => say::word(out, "off"),
        Err(refusal) => say::refused(out, refusal),
    }
}

// A write: register, word, place.
fn write(out: &mut impl Write, one: Written) -> io::Result<()> {
    say::word(out, "write")?;
    say::number(out, one.register as usize)?;
    say::packet_word(out, one.word)?;
    say::number(out, one.place)
}

fn written(out: &mut impl Write, answer: Result<Option<Written>, Refusal>) -> io::Result<()> {
    match answer {
        Ok(Some(one)) => write(out, one),
        Ok(None) => say::word(out, "nothing"),
        Err(refusal) => say::refused(out, refusal),
    }
}

// All writes that a cursor gives. There are fewer of them than bytes.
fn all_writes(out: &mut impl Write, bytes: &[u8], cursor: Cursor) -> io::Result<()> {
    let mut here = cursor;
    for _ in 0..=bytes.len() {
        let Some(step) = here.step(bytes) else {
            return say::word(out, "done");
        };
        write(out, step.write)?;
        here = step.cursor;
    }
    Ok(())
}

// A packet's writes: its data words, one after the other.
fn packet_writes(out: &mut impl Write, image: &[u8], packet: Packet) -> io::Result<()>
    requires { packet.first + 4 * packet.count ≤ length image.now }
{
    for i in 0..packet.count {
        let place = packet.first + 4 * i;
        let one = Written {
            register: packet.register,
            word: word_at(image, place),
            place,
        };
        write(out, one)?;
    }
    Ok(())
}

// A packet: register, place of the first data word, number of writes, place of the next; and the writes.
fn packet(out: &mut impl Write, image: &[u8], packet: Packet) -> io::Result<()>
    requires { packet.first + 4 * packet.count ≤ length image.now }
{
    say::word(out, "packet")?;
    say::number(out, packet.register as usize)?;
    say::number(out, packet.first)?;
    say::number(out, packet.count)?;
    say::number(out, packet.next)?;
    packet_writes(out, image, packet)
}

// All packets that a reader of an image gives. There are fewer of them than bytes.
fn all_packets(out: &mut impl Write, image: &[u8]) -> io::Result<()> {
    let mut answer = first_from(image);
    for _ in 0..=image.len() {
        match answer {
            Ok(Some(one)) => {
                packet(out, image, one)?;
                answer = next_from(image, one.next);
            }
            Ok(None) => return say::word(out, "done"),
            Err(refusal) => return say::refused(out, refusal),
        }
    }
    Ok(())
}

fn listed(out: &mut impl Write, bytes: &[u8], listing: Result<Cursor, Refusal>) -> io::Result<()> {
    match listing {
        Ok(cursor) => all_writes(out, bytes, cursor),
        Err(refusal) => say::refused(out, refusal),
    }
}

// A call on a chip's bytes. The last number of a line is the index where it is about one write.
pub fn call_chip(out: &mut impl Write, case: Case<'_>) -> io::Result<()> {
    let chip = case.third;
    match case.call {
        Call::Boot => boot(out, chip),
        Call::Switch => switched(out, chip),
        Call::Write => written(out, loader::write(chip, case.numbers[7])),
        _ => listed(out, chip, loader::writes(chip)),
    }
}

// A call on an image by itself.
pub fn call_image(out: &mut impl Write, case: Case<'_>) -> io::Result<()> {
    let bytes = case.third;
    match case.call {
        Call::Check => check(out, bytes),
        Call::Item => written(out, image::write(bytes, case.numbers[7])),
        Call::Items => listed(out, bytes, image::writes(bytes)),
        _ => all_packets(out, bytes),
    }
}

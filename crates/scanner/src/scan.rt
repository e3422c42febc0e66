// The packets from a place on: headers one by one, data words by the packet. Only the data words of
// CMD are looked at; of every other register they are counted, and the last WBSTAR word is kept.
ghost use Rattle.std.specs.Prelude.{◌≡◌, ℕ, ◌+◌, ◌-◌, ◌*◌, ◌^◌, ◌<◌, ◌≤◌, length, get_or, drop};
ghost use Rattle.framing.specs.Words.{words};
ghost use Rattle.packets.specs.Header.{effect_of};
ghost use Rattle.scanner.specs.Types.{GoesOn, Going};
ghost use Rattle.scanner.specs.Scan.{scanner_from, scanner_after_header, scanner_stopped, scanner_at_end, scanner_at_write, scanner_after_packet, StepKeeps, AtHeader};

use framing::words::{word_at, words_from};
use packets::header::{CMD, Effect, Header, WBSTAR, effect_of, header_of};
use std::cmp::min;

// Whether a scanner goes on, or what it is at.
#[derive(Clone, Copy, PartialEq, Eq)]
pub enum Status {
    Going,
    Reached,
    Ended,
    Iprog,
    Fault,
    Short,
}

// Where a scanner is: the next word's place; the packet's register, and whether the word just before
// opened it to a type 2 header; whether it goes on; the data words left in the packet; the writes
// to pass before the wanted one; the writes passed; the last WBSTAR word. It is a plain record with no
// wide gaps between its fields, so that it can stay in registers from step to step.
// Stays: no plainer: the bytes and a scanner go together through the steps; in one struct each step would hand the bytes back too.
// Stays: no plainer: that no more writes were passed than bytes (`w.writes ≤ w.at`) is asked where one is added. A ghost field
// would ask it of every scanner, also of one that is built field by field between two steps, so each would prove it.
// Stays: no plainer: `register` is also that of the packet whose data words are left, and then `opened` is false: no Option says
// both.
// Stays: no plainer: a type for a scanner before a header (`AtHeader`), as `Running` is one of a state, would be put around it and
// taken off at each step of the hot loop.
#[derive(Clone, Copy)]
pub struct Scanner {
    pub at: usize,
    pub register: u32,
    pub opened: bool,
    pub status: Status,
    pub left: usize,
    pub skip: usize,
    pub writes: usize,
    pub wbstar: usize,
}

// How many of the first `most` data words leave the reading going on, up to the first that does not.
#[tactic(auto, using(framing::proofs::Laws::room, framing::proofs::Laws::word_after, crate::proofs::ScanLaws::other_plain))]
pub fn count_plain_words(s: &[u8], at: usize, register: u32, most: usize) -> usize
    requires { most ≤ length (words (drop at s.now)) }
    ensures within { result ≤ most }
    ensures quiet { (i : ℕ) → i < result → effect_of register (get_or (words (drop at s.now)) i 0) ≡ GoesOn }
    ensures stops { result < most → effect_of register (get_or (words (drop at s.now)) result 0) ≡ GoesOn → ⊥ }
{
    if register != CMD {
        return most;
    }
    for i in 0..most {
        if effect_of(register, word_at(s, at + 4 * i)) != Effect::GoesOn {
            return i;
        }
    }
    most
}

// The scanner after a header at its place, with `left` data words for `register` to come.
pub fn after_header(w: Scanner, register: u32, left: usize, opened: bool) -> Scanner
    requires { w.at + 4 < 2 ^ 64 }
    ensures { result ≡ scanner_after_header w register left opened }
{
    Scanner {
        at: w.at + 4,
        register,
        left,
        opened,
        status: Status::Going,
        ..w
    }
}

// The scanner at an end.
fn stopped(w: Scanner, at: usize, writes: usize, status: Status) -> Scanner
    ensures { result ≡ scanner_stopped w at writes status }
{
    Scanner {
        at,
        opened: false,
        writes,
        status,
        ..w
    }
}

pub fn header_step(s: &[u8], w: Scanner) -> Scanner
    requires { AtHeader w }
    ensures { StepKeeps s.now w result }
{
    let at = w.at;
    if words_from(s, at) == 0 {
        return stopped(w, at, 0, Status::Short);
    }
    match header_of(word_at(s, at)) {
        Header::Nop => after_header(w, 0, 0, false),
        Header::Type1 { register, count } => after_header(w, register, count as usize, true),
        Header::Type2 { count } => {
            if !w.opened {
                return stopped(w, at, 0, Status::Fault);
            }
            after_header(w, w.register, count as usize, false)
        }
        Header::Fault => stopped(w, at, 0, Status::Fault),
    }
}

// The scanner at the end that the data word after `run` more brings.
#[tactic(auto, using(framing::proofs::Laws::word_after), unfolding(crate::specs::Scan::scanner_at_end))]
fn scan_end(s: &[u8], w: Scanner, run: usize) -> Scanner
    requires { (w.at + 4 * run + 4 ≤ length s.now) × (w.writes ≤ w.at) }
    ensures { result ≡ scanner_at_end w run (effect_of w.register (get_or (words (drop w.at s.now)) run 0)) }
{
    let place = w.at + 4 * run;
    match effect_of(w.register, word_at(s, place)) {
        Effect::Desync => stopped(w, place + 4, w.writes + run + 1, Status::Ended),
        Effect::Iprog => stopped(w, place, 0, Status::Iprog),
        // never met by `data_step`, which asks only at a word that does not let the reading go on
        Effect::GoesOn => stopped(w, place, 0, Status::Short),
    }
}

// The scanner at the write that it was sent for, `run` data words on.
fn reached(w: Scanner, run: usize) -> Scanner
    requires { (run < w.left) × (w.at + 4 * run < 2 ^ 64) }
    ensures { result ≡ scanner_at_write w run }
{
    Scanner {
        at: w.at + 4 * run,
        left: w.left - 1 - run,
        opened: false,
        skip: 0,
        writes: 0,
        wbstar: 0,
        status: Status::Reached,
        ..w
    }
}

// The scanner after all data words of its packet.
#[tactic(auto, using(framing::proofs::Laws::word_after))]
pub fn after_packet(s: &[u8], w: Scanner) -> Scanner
    requires { (1 ≤ w.left) × (w.at + 4 * w.left ≤ length s.now) × (w.left ≤ w.skip) × (w.writes ≤ w.at) }
    ensures { result ≡ scanner_after_packet s.now w }
{
    let at = w.at + 4 * w.left;
    let wbstar = if w.register == WBSTAR {
        word_at(s, at - 4) as usize
    } else {
        w.wbstar
    };
    Scanner {
        at,
        register: 0,
        left: 0,
        opened: false,
        skip: w.skip - w.left,
        writes: w.writes + w.left,
        wbstar,
        status: Status::Going,
    }
}

pub fn data_step(s: &[u8], w: Scanner) -> Scanner
    requires { (w.status ≡ Going) × (1 ≤ w.left) × (w.writes ≤ w.at) }
    ensures { StepKeeps s.now w result }
{
    let at = w.at;
    let here = min(w.left, words_from(s, at));
    let most = min(here, w.skip);
    let run = count_plain_words(s, at, w.register, most);
    if run < most {
        return scan_end(s, w, run);
    }
    if most < here {
        return reached(w, most);
    }
    if here < w.left {
        return stopped(w, at, 0, Status::Short);
    }
    after_packet(s, w)
}

// A scanner from just after a sync word, sent for the write after `skip` more.
pub fn from_sync(from: usize, skip: usize) -> Scanner
    ensures { result ≡ scanner_from from skip }
{
    Scanner {
        at: from,
        register: 0,
        left: 0,
        opened: false,
        skip,
        writes: 0,
        wbstar: 0,
        status: Status::Going,
    }
}

// A reader of an image that holds the image and the next place. It gives the packets of the image that
// have data words, one a call, and the fault that the image check finds, where it comes to it. No byte
// is copied, and of a packet's data words only those of CMD are looked at.
#![tactic(auto)]

ghost use Rattle.std.specs.Prelude.{◌≡◌, ◌+◌, ◌*◌, ◌≤◌, length, get_or, drop};
ghost use Rattle.framing.specs.Words.{words};
ghost use Rattle.base.specs.Answer.{Gives};
ghost use Rattle.packets.specs.Header.{effect_of};
ghost use Rattle.packets.specs.Trace.{payload, trace, trace_from};
ghost use Rattle.imagereader.specs.Imagereader.{packet_numbers, first_packet, packet_at, first_place, reader_at, next_of, reader_after};
ghost use Rattle.imagereader.specs.Internal.{stop_answer, end_answer};

use base::refusal::{Reason, Refusal, ask};
use framing::search::find_sync;
use framing::words::{word_at, words_from};
use kind::layout::image_length_allowed;
use kind::spi::Spi;
use packets::header::{Effect, effect_of};
use scanner::scan::{Scanner, Status, count_plain_words};
use std::cmp::min;
use writes::reading::scan;

// A packet with data words: its register, the place of its first data word, how many of its data words
// are written, and the reader's place after it. Of a packet with DESYNC the words after that are unread.
#[derive(Clone, Copy)]
pub struct Packet {
    pub register: u32,
    pub first: usize,
    pub count: usize,
    // Stays: place_after and reader_after hold it: a packet with DESYNC has the place after all bytes as its next.
    pub next: usize,
}

// An image, and where its next packet begins.
#[derive(Clone, Copy)]
pub struct Reader<'a> {
    pub image: &'a [u8],
    pub at: usize,
}

// The packet that ends with the data word after `run` more, one that does not let the reading go on.
#[tactic(auto, unfolding(crate::specs::Internal::end_answer), using(framing::proofs::Laws::word_after))]
fn ended_packet(
    image: &[u8],
    register: u32,
    first: usize,
    run: usize,
) -> Result<Option<Packet>, Refusal>
    requires { first + 4 * run + 4 ≤ length image.now }
    ensures { result ≡ end_answer image.now register first run (effect_of register (get_or (words (drop first image.now)) run 0)) }
{
    let place = first + 4 * run;
    match effect_of(register, word_at(image, place)) {
        Effect::Desync => Ok(Some(Packet {
            register,
            first,
            count: run + 1,
            next: image.len() + 1,
        })),
        Effect::Iprog => {
            let reason = Reason::ImageJumps;
            Err(Refusal { reason, place })
        }
        // never met by `whole_packet`, which asks only at a word that does not let the reading go on
        Effect::GoesOn => Ok(None),
    }
}

// The packet whose first data word is at `first`, with `left` more behind it.
#[tactic(auto, using(crate::proofs::PacketLaws::packet_whole, crate::proofs::PacketLaws::packet_short, framing::proofs::Laws::room))]
fn whole_packet(
    image: &[u8],
    register: u32,
    first: usize,
    left: usize,
) -> Result<Option<Packet>, Refusal>
    requires { first + 4 ≤ length image.now }
    ensures { result ≡ first_packet image.now (trace (words (drop first image.now)) first (payload register left)) }
{
    let here = min(left, words_from(image, first + 4)) + 1;
    let run = count_plain_words(image, first, register, here);
    if run < here {
        return ended_packet(image, register, first, run);
    }
    if run <= left {
        return Err(Refusal {
            reason: Reason::ImageFault,
            place: image.len(),
        });
    }
    let next = first + 4 * run;
    Ok(Some(Packet {
        register,
        first,
        count: run,
        next,
    }))
}

// What a scanner for the next write is at where there is none.
#[tactic(auto, unfolding(crate::specs::Internal::stop_by))]
fn stop_answer(image: &[u8], w: Scanner) -> Result<Option<Packet>, Refusal>
    ensures { result ≡ stop_answer image.now w }
{
    match w.status {
        Status::Fault => Err(Refusal {
            reason: Reason::ImageFault,
            place: w.at,
        }),
        Status::Short => Err(Refusal {
            reason: Reason::ImageFault,
            place: image.len(),
        }),
        Status::Iprog => Err(Refusal {
            reason: Reason::ImageJumps,
            place: w.at,
        }),
        Status::Ended => Ok(None),
        // neither is at an end: `first_packet` asks only of a scanner that is
        Status::Going => Ok(None),
        Status::Reached => Ok(None),
    }
}

// The first packet with data words from a place on.
#[tactic(auto, unfolding(scanner::specs::Scan::InBoundsBy), using(crate::proofs::PacketLaws::scan_reached, crate::proofs::PacketLaws::scan_stopped))]
fn first_packet(image: &[u8], at: usize) -> Result<Option<Packet>, Refusal>
    ensures { result ≡ first_packet image.now (trace_from image.now at) }
{
    let w = scan(image, at, 0);
    if w.status != Status::Reached {
        return stop_answer(image, w);
    }
    whole_packet(image, w.register, w.at, w.left)
}

// What is at a place of an image: the end of the packets, or the first packet from there; or refusal 4, 5 or 6.
#[tactic(auto, unfolding(crate::specs::Imagereader::packet_at, base::specs::Question::ask))]
fn packet_at(image: &[u8], at: usize) -> Result<Option<Packet>, Refusal>
    ensures { result ≡ packet_at image.now at }
{
    ask(
        image_length_allowed(Spi::LONGEST, image.len()),
        Reason::BadImageLength,
    )?;
    if image.len() < at {
        return Ok(None);
    }
    first_packet(image, at)
}

// Where the first packet of an image begins: after its sync word, or where its bytes run out.
#[tactic(auto, using(framing::proofs::Laws::find_within))]
fn first_place(image: &[u8]) -> usize
    ensures { result ≡ first_place image.now }
{
    match find_sync(image, 0) {
        Some(sync) => sync + 4,
        None => image.len(),
    }
}

impl<'a> Reader<'a> {
    // A reader before the first packet of an image.
    pub fn new(image: &'a [u8]) -> Reader<'a>
        ensures { result ≡ reader_at image.entry }
    {
        let at = first_place(image);
        Reader { image, at }
    }

    // The next packet, and the reader moves past it; or that all were given, or refusal 4, 5 or 6, and the reader stays.
    #[tactic(auto, unfolding(crate::specs::Imagereader::place_after), using(base::proofs::Laws::gives))]
    pub fn next(&mut self) -> Result<Option<Packet>, Refusal>
        ensures { Gives packet_numbers result (next_of self.old) × (self.new ≡ reader_after self.old) }
    {
        let next = packet_at(self.image, self.at)?;
        if let Some(packet) = next {
            self.at = packet.next;
        }
        Ok(next)
    }

    // The reader's place: where the next packet begins, or the place after all bytes where all were given.
    pub fn at(self) -> usize
        ensures { result ≡ self.entry.at }
    {
        self.at
    }
}

// What a reader of an image gives first: its first packet; or refusal 4, 5 or 6.
pub fn first_from(image: &[u8]) -> Result<Option<Packet>, Refusal>
    ensures { Gives packet_numbers result (packet_at image.now (first_place image.now)) }
{
    let mut reader = Reader::new(image);
    reader.next()
}

// What a reader of an image at a place gives next: the packet, or that all were given, or refusal 4, 5 or 6.
pub fn next_from(image: &[u8], at: usize) -> Result<Option<Packet>, Refusal>
    ensures { Gives packet_numbers result (packet_at image.now at) }
{
    let mut reader = Reader { image, at };
    reader.next()
}

// Whole packets passed at once, where packets are small. For the crate above it alone: its functions ask their
// caller for a scanner that goes on.
#![tactic(auto)]

ghost use Rattle.std.specs.Prelude.{◌≡◌, true, ℕ, ◌+◌, ◌<◌, ◌≤◌, length, get_or, drop};
ghost use Rattle.framing.specs.Words.{words, word_at};
ghost use Rattle.packets.specs.Header.{register_ok, head_of, effect_of};
ghost use Rattle.fastpath.specs.Types.{GoesOn, Type1};
ghost use Rattle.scanner.specs.Scan.{AtHeader};
ghost use Rattle.fastpath.specs.Fastpath.{NOP, PacketBegins, CountedBegins, HasRoom, SkipKeeps};

use framing::words::{word_at, words_from};
use packets::header::{CMD, NOP, is_plain_register, is_type1_form, is_type2_write, register_ok};
use scanner::scan::{Scanner, after_header, after_packet, count_plain_words};
use std::cmp::min;

// Up to so many words of CMD are looked at here. A longer packet of it is left to the steps: where a word of it ends the
// reading, those before it would be looked at twice.
const FEW: usize = 16;

// The header of a type 2 packet of one data word.
const TYPE2_OF_ONE: u32 = 0x5000_0001;

// Whether all of a packet's data words can be passed at once: there are some, no more than `room`, and
// none of them ends the reading. A yes is sure; after a no the steps decide.
#[tactic(auto, using(scanner::proofs::Laws::other_plain))]
fn may_skip(s: &[u8], at: usize, register: u32, count: usize, room: usize) -> bool
    requires { count ≤ room → count ≤ length (words (drop at s.now)) }
    ensures { result ≡ true → (1 ≤ count) × (count ≤ room) × ((i : ℕ) → i < count → effect_of register (get_or (words (drop at s.now)) i 0) ≡ GoesOn) }
{
    if count == 0 || room < count {
        return false;
    }
    if FEW < count {
        return register != CMD;
    }
    count_plain_words(s, at, register, count) == count
}

// The scanner after the packet of a header at its place; or as it was, where the packet cannot be skipped
// at once.
// Stays: SkipKeeps holds it that "or as it was" is an answer here and below, and no Option: a scanner is handed on in every case.
#[tactic(auto, using(framing::proofs::Laws::room, crate::proofs::SkipLaws::past_none, crate::proofs::SkipLaws::past_whole))]
fn skip_data(s: &[u8], w: Scanner, register: u32, count: usize, room: usize) -> Scanner
    requires { HasRoom s.now w count room × (1 ≤ count → PacketBegins s.now w register count) }
    ensures { SkipKeeps s.now w result }
{
    if !may_skip(s, w.at + 4, register, count, room) {
        return w;
    }
    after_packet(s, after_header(w, register, count, true))
}

// The same of a packet whose words are only counted. Its register is not kept, so it is passed as one of register 0: what
// would be asked of other registers falls away.
#[tactic(auto, using(framing::proofs::Laws::room, crate::proofs::SkipLaws::past_none, crate::proofs::SkipLaws::past_counted))]
fn skip_counted(s: &[u8], w: Scanner, count: usize, room: usize) -> Scanner
    requires { HasRoom s.now w count room × (1 ≤ count → CountedBegins s.now w count) }
    ensures { SkipKeeps s.now w result }
{
    if count == 0 || room < count {
        return w;
    }
    after_packet(s, after_header(w, 0, count, true))
}

// `skip_counted` or `skip_data`, by the register: the caller has asked that it may be named.
// Stays: no plainer: a struct of `count` and `room` would be taken apart at once; `HasRoom` says what is asked of them.
#[tactic(auto, using(crate::proofs::SkipLaws::plain_begins))]
fn skip_words(s: &[u8], w: Scanner, register: u32, count: usize, room: usize) -> Scanner
    requires { HasRoom s.now w count room × (register < 32) × (1 ≤ count → PacketBegins s.now w register count) }
    ensures { SkipKeeps s.now w result }
{
    if is_plain_register(register) {
        return skip_counted(s, w, count, room);
    }
    skip_data(s, w, register, count, room)
}

// The scanner after a type 1 header with no data words, and after the type 2 packet that it opens `register`
// to, where one follows that can be passed at once. A packet of one data word is told apart, so that there the next place does
// not wait for the count.
#[tactic(auto, using(framing::proofs::Laws::room, scanner::proofs::Laws::least, crate::proofs::SkipLaws::past_on, crate::proofs::SkipLaws::past_empty, crate::proofs::SkipLaws::begins_type2))]
fn skip_opening(s: &[u8], w: Scanner, register: u32) -> Scanner
    requires { AtHeader w × (w.at + 8 ≤ length s.now) × (register < 32) × (head_of (word_at s.now w.at) ≡ Type1 register 0) }
    ensures { SkipKeeps s.now w result }
{
    let opened = after_header(w, register, 0, true);
    let word = word_at(s, opened.at);
    if !is_type2_write(word) {
        return opened;
    }
    let room = min(opened.skip, words_from(s, opened.at + 4));
    if word == TYPE2_OF_ONE {
        return skip_words(s, opened, register, 1, room);
    }
    let count = (word % 0x0800_0000) as usize;
    skip_words(s, opened, register, count, room)
}

// The scanner after a packet of one data word; or as it was. CMD is asked first, so that its packets wait for no other test;
// of every other register one test says both that it may be named and that its word is only counted. So the commonest packets
// cost no more tests than if every register might be named.
// Stays: no plainer: that two words are there is tested once, by `skip_packets`, and asked of it by the three that go on from there.
#[tactic(auto, using(framing::proofs::Laws::room, crate::proofs::SkipLaws::past_none, crate::proofs::SkipLaws::plain_begins, crate::proofs::SkipLaws::begins_type1, packets::proofs::Laws::command_ok))]
fn skip_one(s: &[u8], w: Scanner, register: u32) -> Scanner
    requires { AtHeader w × (w.at + 8 ≤ length s.now) × (register < 32) × (register_ok register ≡ true → head_of (word_at s.now w.at) ≡ Type1 register 1) }
    ensures { SkipKeeps s.now w result }
{
    if register == CMD {
        return skip_data(s, w, register, 1, w.skip);
    }
    if is_plain_register(register) {
        return skip_counted(s, w, 1, w.skip);
    }
    if !register_ok(register) {
        return w;
    }
    skip_data(s, w, register, 1, w.skip)
}

// Is there a no-operation at a place? Where fewer than four bytes are left, there is none.
fn is_nop_at(s: &[u8], at: usize) -> bool
    requires { at ≤ length s.now }
    ensures { result ≡ true → (at + 4 ≤ length s.now) × (word_at s.now at ≡ NOP) }
{
    s.len() - at >= 4 && word_at(s, at) == NOP
}

// The scanner after the no-operation at its place and those that follow it. They come in rows, and this loop asks nothing else.
#[tactic(auto, using(crate::proofs::SkipLaws::past_none, crate::proofs::SkipLaws::past_on, crate::proofs::SkipLaws::past_nop))]
fn skip_nops(s: &[u8], start: Scanner) -> Scanner
    requires { AtHeader start × (start.at + 4 ≤ length s.now) × (word_at s.now start.at ≡ NOP) }
    ensures { SkipKeeps s.now start result }
{
    let mut w = after_header(start, 0, 0, false);
    while is_nop_at(s, w.at) {
        w = after_header(w, 0, 0, false);
    }
    w
}

// The scanner after the packet whose header is `word`, the word at its place, or after a row of no-operations; or as it
// was. Packets of one and of two data words are told apart, so that there the next place does not wait for the count.
#[tactic(auto, using(framing::proofs::Laws::room, scanner::proofs::Laws::least, crate::proofs::SkipLaws::past_none, crate::proofs::SkipLaws::begins_type1))]
fn skip_packet(s: &[u8], w: Scanner, word: u32) -> Scanner
    requires { AtHeader w × (w.at + 8 ≤ length s.now) × (word ≡ word_at s.now w.at) }
    ensures { SkipKeeps s.now w result }
{
    if word == NOP {
        return skip_nops(s, w);
    }
    if !is_type1_form(word) {
        return w;
    }
    let register = word / 0x2000 % 32;
    let count = word % 0x0800;
    if count == 1 {
        return skip_one(s, w, register);
    }
    if !register_ok(register) {
        return w;
    }
    if count == 0 {
        return skip_opening(s, w, register);
    }
    let room = min(w.skip, words_from(s, w.at + 4));
    if count == 2 {
        return skip_words(s, w, register, 2, room);
    }
    skip_words(s, w, register, count as usize, room)
}

// The scanner after as many whole packets and no-operations as can be skipped. It goes by a word at a
// time that is loaded ahead, and so spares `follow` its steps where packets are small.
#[tactic(auto, using(framing::proofs::Laws::room, crate::proofs::SkipLaws::past_none, crate::proofs::SkipLaws::past_on))]
pub fn skip_packets(s: &[u8], start: Scanner) -> Scanner
    requires { AtHeader start }
    ensures { SkipKeeps s.now start result }
{
    let mut w = start;
    if words_from(s, w.at) < 2 {
        return w;
    }
    let mut word = word_at(s, w.at);
    loop {
        let at = w.at;
        w = skip_packet(s, w, word);
        if w.at == at {
            return w;
        }
        if s.len() - w.at < 8 {
            return w;
        }
        word = word_at(s, w.at);
    }
}

// A cursor's step in two halves: where the next data word is, and the write that it is. Each is small enough to be inlined
// wherever it is called, as one function of both is not: and only then does a cursor stay in registers from write to write.
// For this crate and the report alone.
ghost use Rattle.std.specs.Prelude.{◌≡◌, true, ℕ, ◌/◌, ◌%◌, ◌<◌};
ghost use Rattle.packets.specs.Header.{head_of};
ghost use Rattle.packets.specs.Trace.{trace_from};
ghost use Rattle.writes.specs.Types.{Type1};
ghost use Rattle.writes.specs.Cursor.{trace_at, first_of};
ghost use Rattle.writes.specs.Next.{step_at, step_with};

use crate::cursor::{Cursor, Step, after_write};
use crate::reading::scan;
use framing::words::{word_at, words_from};
use packets::header::is_type1_write;
use packets::trace::Write;
use scanner::scan::Status;

// A data word's place, its packet's register, and how many more data words come after it.
#[derive(Clone, Copy)]
pub struct DataWord {
    pub at: usize,
    pub register: u32,
    pub more: usize,
}

// The first data word of the packets from `from` on, by a scan for it.
fn scan_for_data(s: &[u8], from: usize) -> Option<DataWord>
    ensures { (n : ℕ) → step_at s.now result n ≡ first_of (trace_from s.now from) n }
{
    let w = scan(s, from, 0);
    if w.status != Status::Reached {
        return None;
    }
    Some(DataWord {
        at: w.at,
        register: w.register,
        more: w.left,
    })
}

// Is this the header of a type 1 write with data words? A yes is sure.
fn begins_packet(word: u32) -> bool
    ensures { result ≡ true → (head_of word ≡ Type1 (word / 8192 % 32) (word % 2048)) × (0 < word % 2048) }
{
    word % 0x0800 != 0 && is_type1_write(word)
}

// The first data word of the packets from `from` on. Most often it comes after one header, and nothing is scanned for.
#[tactic(auto, using(framing::proofs::Laws::room, crate::proofs::NextLaws::past_header, crate::proofs::NextLaws::some_payload), unfolding(packets::specs::Trace::after_header, crate::specs::Next::step_at))]
fn next_data(s: &[u8], from: usize) -> Option<DataWord>
    ensures { (n : ℕ) → step_at s.now result n ≡ first_of (trace_from s.now from) n }
{
    if words_from(s, from) > 0 {
        let word = word_at(s, from);
        if begins_packet(word) {
            return Some(DataWord {
                at: from + 4,
                register: word / 0x2000 % 32,
                more: (word % 0x0800) as usize - 1,
            });
        }
    }
    scan_for_data(s, from)
}

// A cursor's next data word: where the cursor is, within a packet, or after headers.
#[tactic(auto, using(crate::proofs::NextLaws::some_payload), unfolding(packets::specs::Trace::mode_of, crate::specs::Next::step_at))]
pub fn next_of(s: &[u8], cursor: Cursor) -> Option<DataWord>
    ensures { (n : ℕ) → step_at s.now result n ≡ first_of (trace_at s.now cursor) n }
{
    if cursor.left == 0 {
        return next_data(s, cursor.at);
    }
    Some(DataWord {
        at: cursor.at,
        register: cursor.register,
        more: cursor.left - 1,
    })
}

// The step to a data word, of a cursor with `remaining` writes to come.
#[tactic(auto, using(framing::proofs::Laws::room, crate::proofs::NextLaws::no_word, crate::proofs::NextLaws::data_word, crate::proofs::NextLaws::no_data, crate::proofs::NextLaws::step_more_law), unfolding(crate::specs::Next::step_at, crate::specs::Next::step_with))]
pub fn step_at(s: &[u8], next: Option<DataWord>, remaining: usize) -> Option<Step>
    ensures { result ≡ step_with s.now next remaining }
{
    let DataWord { at, register, more } = next?;
    if remaining == 0 {
        return None;
    }
    if words_from(s, at) == 0 {
        return None;
    }
    let write = Write {
        register,
        word: word_at(s, at),
        place: at,
    };
    Some(Step {
        write,
        cursor: after_write(write, more, remaining - 1),
    })
}

// The writes that a reading lists: one by its index, or all in one pass by a cursor.
ghost use Rattle.std.specs.Prelude.{◌≡◌, ◌+◌, ◌^◌, ◌<◌};
ghost use Rattle.base.specs.Answer.{Gives};
ghost use Rattle.packets.specs.Trace.{nth_write, writes_from};
ghost use Rattle.writes.specs.Cursor.{cursor_at, remaining_writes, step_numbers, step_of, writes_after_step, after_write};

use crate::next::{next_of, step_at};
use crate::reading::{scan, write_at};
use packets::header::{Effect, effect_of};
use packets::trace::Write;
use scanner::scan::Status;

// A place among the writes of a chip or an image: the next word's place, the packet's register and
// the data words left in it, and how many writes are still to come.
#[derive(Clone, Copy)]
pub struct Cursor {
    pub at: usize,
    pub register: u32,
    pub left: usize,
    pub remaining: usize,
}

// A cursor's next write, with the cursor after it.
#[derive(Clone, Copy)]
pub struct Step {
    pub write: Write,
    pub cursor: Cursor,
}

impl Cursor {
    pub fn new(from: usize, remaining: usize) -> Self
        ensures { result ≡ cursor_at from remaining }
    {
        Cursor {
            at: from,
            register: 0,
            left: 0,
            remaining,
        }
    }

    // The next write of the bytes that the cursor was opened on. `writes_after_step` says it of all that are to
    // come: this write, and then those of the cursor handed back, are those of this cursor.
    #[tactic(auto, using(base::proofs::Laws::gives, crate::proofs::NextLaws::next_step, crate::proofs::CursorLaws::step_remaining))]
    pub fn step(self, s: &[u8]) -> Option<Step>
        ensures gives { Gives step_numbers result (step_of s.now self) }
        ensures lists { writes_after_step s.now result ≡ remaining_writes s.now self }
    {
        step_at(s, next_of(s, self), self.remaining)
    }
}

// The cursor after a write: nothing is to come after one that ends the reading or jumps.
#[tactic(auto, unfolding(crate::specs::Cursor::after_write))]
pub(crate) fn after_write(write: Write, left: usize, remaining: usize) -> Cursor
    requires { write.place + 4 < 2 ^ 64 }
    ensures { result ≡ after_write write left remaining }
{
    let more = match effect_of(write.register, write.word) {
        Effect::GoesOn => remaining,
        Effect::Desync => 0,
        Effect::Iprog => 0,
    };
    Cursor {
        at: write.place + 4,
        register: write.register,
        left,
        remaining: more,
    }
}

// The i-th write, counted from 0, of the packets from `from` on.
pub fn nth_from(s: &[u8], from: usize, i: usize) -> Option<Write>
    ensures { result ≡ nth_write (writes_from s.now from) i }
{
    let w = scan(s, from, i);
    if w.status != Status::Reached {
        return None;
    }
    Some(write_at(s, w))
}

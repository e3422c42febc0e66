// The configuration reader, from sync to sync: the search hands over to the reading of packets, and a jump hands
// back to the search. The number of jumps left falls. The calls on a chip and on an image stand above, in
// `bootreader`.
#![tactic(auto)]

ghost use Rattle.std.specs.Prelude.{◌≡◌, ◌+◌, ◌≤◌, length};
ghost use Rattle.configreader.specs.Configreader.{read_from, read_at, jump, read_chip, read_alone};

use framing::search::find_sync;
use packets::trace::Finish;
use writes::reading::finish_from;

// What a reading comes to. It is public for the laws that crates above cite; no public call answers it.
#[derive(Clone, Copy)]
pub enum Outcome {
    // DESYNC was met.
    Loaded {
        sync: usize,
        end: usize,
        writes: usize,
        jumped: bool,
    },
    // IPROG was met with no jump left.
    Iprog {
        place: usize,
    },
    // Every other fault.
    Stuck {
        place: usize,
    },
}

// A chip is read from byte 0, with one jump at most.
pub fn read_chip(chip: &[u8]) -> Outcome
    ensures { result ≡ read_chip chip.now }
{
    search(chip, 0, 1, false)
}

// An image read alone has no jump.
pub fn read_alone(image: &[u8]) -> Outcome
    ensures { result ≡ read_alone image.now }
{
    search(image, 0, 0, false)
}

#[cycle(read_search)]
#[tactic(auto, unfolding(crate::specs::Configreader::search_from), using(crate::proofs::ReadingLaws::sync_inside))]
fn search(s: &[u8], from: usize, jumps: u32, jumped: bool) -> Outcome
    requires { from ≤ length s.now }
    ensures { result ≡ read_from jumps jumped s.now from }
{
    match find_sync(s, from) {
        Some(sync) => read(s, sync, jumps, jumped),
        None => Outcome::Stuck { place: s.len() },
    }
}

#[cycle(read_search)]
#[tactic(auto, unfolding(crate::specs::Configreader::read_at), using(crate::proofs::ReadingLaws::jump_none, crate::proofs::ReadingLaws::jump_far, crate::proofs::ReadingLaws::jump_on))]
fn read(s: &[u8], sync: usize, jumps: u32, jumped: bool) -> Outcome
    requires { sync + 4 ≤ length s.now }
    ensures { result ≡ read_at (jump jumps s.now) jumped s.now sync }
{
    match finish_from(s, sync + 4) {
        Finish::Ended { end, writes } => Outcome::Loaded {
            sync,
            end,
            writes,
            jumped,
        },
        Finish::Iprog { place, target } => {
            if jumps == 0 {
                return Outcome::Iprog { place };
            }
            if s.len() <= target {
                return Outcome::Stuck { place };
            }
            search(s, target, jumps - 1, true)
        }
        Finish::Fault { place } => Outcome::Stuck { place },
        Finish::Short => Outcome::Stuck { place: s.len() },
    }
}

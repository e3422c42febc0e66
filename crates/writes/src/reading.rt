// The packets from a place on, to a write or to their end.
ghost use Rattle.std.specs.Prelude.{◌≡◌, List, ℕ, ◌+◌, ◌≤◌, length};
ghost use Rattle.packets.specs.Trace.{finish_from};
ghost use Rattle.scanner.specs.Scan.{ScanFinished, scan_of, scanner_from, InBounds};
ghost use Rattle.writes.specs.Types.{Going, AtWrite};
ghost use Rattle.writes.specs.Reading.{write_at};

use fastpath::skip_packets;
use framing::words::word_at;
use packets::trace::{Finish, Write};
use scanner::scan::{Scanner, Status, data_step, from_sync, header_step};

// The packets from `from` on, to the write after `skip` others or to their end: the scanner where it stops. It is made here,
// and not lent, so that a call is short and the first step goes by what is known of it.
#[tactic(auto, unfolding(scanner::specs::Scan::InBoundsBy, scanner::specs::Scan::bytes_left))]
pub fn scan(s: &[u8], from: usize, skip: usize) -> Scanner
    ensures stopped { result.status ≡ Going → ⊥ }
    ensures bounds { InBounds (length s.now) result }
    ensures comes { scan_of s.now result ≡ scan_of s.now (scanner_from from skip) }
{
    let mut w = from_sync(from, skip);
    while w.status == Status::Going {
        w = if w.left == 0 {
            header_step(s, skip_packets(s, w))
        } else {
            data_step(s, w)
        };
    }
    w
}

// The write at a scanner's place.
pub fn write_at(s: &[u8], w: Scanner) -> Write
    requires { w.at + 4 ≤ length s.now }
    ensures { result ≡ write_at s.now w }
{
    Write {
        register: w.register,
        word: word_at(s, w.at),
        place: w.at,
    }
}

// How the packets ended, of a scanner that has stopped and is at no write.
#[tactic(auto, unfolding(scanner::specs::Scan::scanned_by))]
fn finish_of(w: Scanner) -> Finish
    requires { (w.status ≡ Going → ⊥) × (w.status ≡ AtWrite → ⊥) }
    ensures { (s : List ℕ) → scan_of s w ≡ ScanFinished result }
{
    match w.status {
        Status::Ended => Finish::Ended {
            end: w.at,
            writes: w.writes,
        },
        Status::Iprog => Finish::Iprog {
            place: w.at,
            target: w.wbstar % 0x2000_0000,
        },
        Status::Fault => Finish::Fault { place: w.at },
        Status::Short => Finish::Short,
        // both ruled out by the `requires`
        Status::Going => Finish::Short,
        Status::Reached => Finish::Short,
    }
}

// How the packets from `from` on end. No scanner passes as many writes as there are bytes.
#[tactic(auto, using(scanner::proofs::Laws::finish_scan, scanner::proofs::Laws::at_write))]
pub fn finish_from(s: &[u8], from: usize) -> Finish
    ensures { result ≡ finish_from s.now from }
{
    finish_of(scan(s, from, s.len()))
}

// Where the sync word is: at any byte.
ghost use Rattle.std.specs.Prelude.{◌≡◌, ℕ, ◌-◌, ◌<◌, ◌≤◌, length, get_or, drop};
ghost use Rattle.framing.specs.Search.{sync_bytes, find};

const SYNC: [u8; 4] = [0xAA, 0x99, 0x55, 0x66];

// How far on the next place is at which a sync word can begin, when one that ends in `last` does
// not begin here: the bytes between cannot match `last`.
fn skip_after(last: u8) -> usize
    ensures range { (1 ≤ result) × (result ≤ 4) }
    ensures passed { (i : ℕ) → 1 ≤ i → i < result → last ≡ get_or sync_bytes (3 - i) 0 → ⊥ }
{
    match last {
        0x55 => 1,
        0x99 => 2,
        0xAA => 3,
        _ => 4,
    }
}

// The place after as many blocks of 32 bytes as no sync word can begin in. In each all bytes are compared at once. In bytes with
// many AA in them, longer blocks would cost more than they save.
// Stays: no plainer: with the slice from `from` on in place of both, the places that are answered would be counted from there.
fn past_clear(s: &[u8], from: usize) -> usize
    requires { from ≤ length s.now }
    ensures { (from ≤ result) × (result ≤ length s.now) × (find (drop result s.now) result ≡ find (drop from s.now) from) }
{
    let mut at = from;
    // Stays: no plainer: a chain over `chunks_exact(32)` counts the blocks, and a product makes a place of their number again,
    // whose bound would be one more proof; the loop's `at` is the place all along.
    while s.len() - at >= 32 && !s[at..at + 32].contains(&SYNC[0]) {
        at += 32;
    }
    at
}

// The first place at or after `from` where four bytes read AA 99 55 66, at any byte. Where they do
// not, the fourth says how far on the next place is at which they can: four bytes, mostly.
// Stays: docs/DECISIONS.md, "Language forms", holds it: a loop that yields the sync place by break, and in it a comparison of
// bytes that is left by a label.
pub fn find_sync(s: &[u8], from: usize) -> Option<usize>
    requires { from ≤ length s.now }
    ensures { result ≡ find (drop from s.now) from }
{
    let mut at = from;
    'search: loop {
        at = past_clear(s, at);
        if s.len() - at < 4 {
            break 'search None;
        }
        for i in 0..4 {
            if s[at + i] != SYNC[i] {
                at += skip_after(s[at + 3]);
                continue 'search;
            }
        }
        break 'search Some(at);
    }
}

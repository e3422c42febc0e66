// Pairs of digits: the byte that one makes, and of many, one after the other, what they add to and the bytes that they make.
ghost use Rattle.std.specs.Prelude.{◌≡◌, ◌+◌, ◌*◌, ◌≤◌, length};
ghost use Rattle.std.proofs.Math.Seq.{paste};
ghost use Rattle.digits.specs.Pairs.{pair_at, two_pairs_at, ArePairs, pairs_at, Summed};

use crate::table::Digits;

impl Digits {
    // The byte that two digits make. Where one of them is none, a number that no caller uses.
    pub fn pair(&self, text: &[u8], at: usize) -> u32
        requires { at + 2 ≤ length text.now }
        ensures value { result ≡ pair_at text.now at }
        ensures range { result ≤ 272 }
    {
        16 * self.digit(text[at]) + self.digit(text[at + 1])
    }

    // Two pairs as a number, high byte first.
    pub fn two_pairs(&self, text: &[u8], at: usize) -> u32
        requires { at + 4 ≤ length text.now }
        ensures { result ≡ two_pairs_at text.now at }
    {
        self.pair(text, at) * 256 + self.pair(text, at + 2)
    }

    // What `count` pairs from `at` on add to; none where one of them is no pair.
    pub fn sum_pairs(&self, text: &[u8], at: usize, count: usize) -> Option<u32>
        requires { (at + 2 * count ≤ length text.now) × (count ≤ 277) }
        ensures { Summed text.now at count result }
    {
        let mut sum = 0;
        for i in 0..count {
            let high = self.digit(text[at + 2 * i]);
            let low = self.digit(text[at + 2 * i + 1]);
            if 15 < high || 15 < low {
                return None;
            }
            sum += 16 * high + low;
        }
        Some(sum)
    }

    // Decodes pairs from `from` into as many bytes at `to`.
    // Stays: no plainer: as slices in place of the places in them, the caller would cut both out, the buffer's at bounds of its own to prove.
    pub fn decode(&self, text: &[u8], from: usize, out: &mut [u8], to: usize, bytes: usize)
        requires { (from + 2 * bytes ≤ length text.now) × (to + bytes ≤ length out.old) × ArePairs text.now from bytes }
        ensures { out.new ≡ paste out.old to (pairs_at text.now from bytes) bytes }
    {
        for i in 0..bytes {
            out[to + i] = (self.pair(text, from + 2 * i) % 256) as u8;
        }
    }
}

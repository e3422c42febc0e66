// The 32-bit words of bytes, high byte first.
ghost use Rattle.std.specs.Prelude.{◌≡◌, ◌+◌, ◌≤◌, length, drop};
ghost use Rattle.framing.specs.Words.{words, word_at};

// How many whole words there are from `at` on.
#[tactic(auto, using(crate::proofs::WordLaws::room))]
pub fn words_from(s: &[u8], at: usize) -> usize
    ensures { result ≡ length (words (drop at s.now)) }
{
    s.len().saturating_sub(at) / 4
}

// The word at `at`, high byte first.
#[tactic(auto, using(crate::proofs::WordLaws::word_of_law))]
pub fn word_at(s: &[u8], at: usize) -> u32
    requires { at + 4 ≤ length s.now }
    ensures { result ≡ word_at s.now at }
{
    u32::from_be_bytes([s[at], s[at + 1], s[at + 2], s[at + 3]])
}

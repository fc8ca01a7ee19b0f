// Sets of numbers as bits: 64 to a word, the lowest word and the lowest bit first; a relation among n nodes as n rows of four words.
// The definitions of specs/ and the laws of proofs/ are what the crates above stand on.
#![tactic(auto)]

ghost use Rattle.std.specs.Prelude.{◌≡◌, ◌<◌};
ghost use Rattle.bits.specs.Words.{test_bit};

// Bit k of a word.
pub fn test(w: u64, k: usize) -> bool
    requires { k < 64 }
    ensures { result ≡ test_bit w k }
{
    (w >> k) % 2 == 1
}

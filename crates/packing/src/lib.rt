// A relation's table of bytes as its table of bits, and back. Neither service has a precondition: what is malformed is refused, and
// then the buffer is left as it was.
#![tactic(auto)]

pub mod convert;
mod refusal;

ghost use Rattle.model.specs.Refusals.{told};
ghost use Rattle.packing.specs.Services.{PackLeaves, UnpackLeaves};

use model::Refusal;

// Bytes to bits. One pass over the bytes to check them and one to pack them.
pub fn pack(n: usize, bytes: &[u8], words: &mut [u64]) -> Result<(), Refusal>
    ensures { PackLeaves n bytes.now words.old (told result) words.new }
{
    refusal::check_pack(n, bytes, words.len())?;
    convert::pack_into(n, bytes, words);
    Ok(())
}

// Bits to bytes. One pass over the words to check them and one over the bits.
pub fn unpack(n: usize, words: &[u64], bytes: &mut [u8]) -> Result<(), Refusal>
    ensures { UnpackLeaves n words.now bytes.old (told result) bytes.new }
{
    refusal::check_unpack(n, words, bytes.len())?;
    convert::unpack_into(n, words, bytes);
    Ok(())
}

// Bits written as a text.
ghost use Rattle.std.specs.Prelude.{◌≡◌, min, ◌++◌, length, take, drop};
ghost use Rattle.texts.specs.Writing.{character_for, text_of};

// A bit's character, by a branch and not by adding: a byte that is no bit is written as 1.
pub fn character_for(bit: u8) -> u8
    ensures { result ≡ character_for bit }
{
    if bit == 0 { b'0' } else { b'1' }
}

// Writes as many bits as text has room for into its front, as characters, and answers how many.
pub fn write_text(bits: &[u8], text: &mut [u8]) -> usize
    ensures { (result ≡ min (length bits.now) (length text.old)) × (text.new ≡ text_of (take result bits.now) ++ drop result text.old) }
{
    let n = bits.len().min(text.len());
    for i in 0..n {
        text[i] = character_for(bits[i]);
    }
    n
}

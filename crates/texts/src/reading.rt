// Bits read from a text (document 01, "Bench sheet"): characters 0 and 1 are bits, bytes 10 and 13 are
// skipped, and any other makes the text bad. So does a bit for which the buffer has no room.
ghost use Rattle.std.specs.Prelude.{◌≡◌, ◌≤◌, [], ◌∷◌, length};
ghost use Rattle.refusals.specs.Outcome.{outcome};
ghost use Rattle.texts.specs.Reading.{character_of, taken_into};

// What a byte of a text is: three kinds, and so no Option.
#[derive(Clone, Copy)]
pub enum Character {
    Bit(u8),
    Skipped,
    Other,
}

// That a text is bad.
#[derive(Clone, Copy)]
pub struct BadText;

// What a byte is. No number or char of the library is parsed so.
pub fn character_of(byte: u8) -> Character
    ensures { result ≡ character_of byte }
{
    match byte {
        b'0' => Character::Bit(0),
        b'1' => Character::Bit(1),
        b'\n' | b'\r' => Character::Skipped,
        _ => Character::Other,
    }
}

// Takes one byte of a text. The first count bytes of the buffer hold the bits so far: it is the caller's, since the programs use no heap. The answer is how many they then are.
pub fn take_byte(byte: u8, bits: &mut [u8], count: usize) -> Result<usize, BadText>
    requires { count ≤ length bits.old }
    ensures { outcome result bits.new ≡ taken_into bits.old count (byte ∷ []) }
{
    match character_of(byte) {
        Character::Bit(bit) => {
            if count < bits.len() {
                bits[count] = bit;
                Ok(count + 1)
            } else {
                Err(BadText)
            }
        }
        Character::Skipped => Ok(count),
        Character::Other => Err(BadText),
    }
}

// Takes a text, or the next part of one. The first count bytes of the buffer hold the bits so far. The answer is how many
// they then are.
pub fn take_text(text: &[u8], bits: &mut [u8], count: usize) -> Result<usize, BadText>
    requires { count ≤ length bits.old }
    ensures { outcome result bits.new ≡ taken_into bits.old count text.now }
{
    let mut held = count;
    for byte in text {
        held = take_byte(*byte, bits, held)?;
    }
    Ok(held)
}

// A number in decimal digits, as an argument of a program gives it.
ghost use Rattle.std.specs.Prelude.{◌≡◌};
ghost use Rattle.texts.specs.Decimal.{decimal_of};

// The most digits that a number has.
pub const DIGITS: usize = 9;

// The number that a text of one to nine digits is. Another text is none.
pub fn number_in(text: &[u8]) -> Option<u32>
    ensures { result ≡ decimal_of text.now }
{
    if text.is_empty() || DIGITS < text.len() {
        return None;
    }
    let mut number = 0;
    for byte in text {
        number = match byte {
            b'0'..=b'9' => number * 10 + u32::from(byte - b'0'),
            _ => return None,
        };
    }
    Some(number)
}

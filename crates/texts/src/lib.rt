// The text of the bench's programs: bits read from characters and written as characters, numbers read from their
// digits, and the lines that the programs print.
#![tactic(auto)]

ghost use Rattle.std.specs.Prelude.{◌≡◌, take};

pub mod decimal;
mod faults;
pub mod input;
pub mod output;
pub mod reading;
pub mod writing;

// The first n bytes of a buffer, or all where it has fewer.
pub fn front(buffer: &[u8], n: usize) -> &[u8]
    ensures { result.now ≡ take n buffer.now }
{
    &buffer[..n.min(buffer.len())]
}

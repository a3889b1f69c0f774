// Where a text is bad (document 01, "Bench sheet"), and the line on standard error that says what is wrong. No contract
// can say what is written. A line that cannot be written is left out: the answer says too that the text is bad.
ghost use Rattle.std.specs.Prelude.{◌≡◌, ◌-◌, ◌≤◌, ◌<◌, length};
ghost use Rattle.texts.specs.Faults.{good_bytes};

use crate::reading::{Character, character_of};

// How many bytes of a text stand before its first fault, where there is room for so many bits: all of them where there is
// no fault.
pub fn good_bytes(text: &[u8], room: usize) -> usize
    ensures { result ≡ good_bytes room text.now }
{
    let mut left = room;
    for (i, byte) in text.iter().enumerate() {
        match character_of(*byte) {
            Character::Bit(_) => {
                if left == 0 {
                    return i;
                }
                left -= 1;
            }
            Character::Skipped => {}
            Character::Other => return i,
        }
    }
    text.len()
}

// The line for a byte that is no character of a text, at this place of the input, counted from 1.
fn print_other(rt: &impl Eprint, byte: u8, place: u64) {
    let _ = eprintln!(rt; "balise: character {byte} at byte {place}");
}

// The line for a bit for which a buffer of this length has no room.
fn print_full(rt: &impl Eprint, limit: usize) {
    let _ = eprintln!(rt; "balise: more than {limit} bits");
}

// The line for a read that fails.
pub fn print_unread(rt: &impl Eprint) {
    let _ = eprintln!(rt; "balise: the input cannot be read");
}

// The line for a part of a text that has a fault. Before the part, so many bytes of the input were seen, and a buffer
// with room for limit bits held so many.
pub fn print_fault(rt: &impl Eprint, part: &[u8], held: usize, limit: usize, seen: u64)
    requires { (held ≤ limit) × (good_bytes (limit - held) part.now < length part.now) }
{
    let good = good_bytes(part, limit - held);
    let byte = part[good];
    match character_of(byte) {
        Character::Bit(_) => print_full(rt, limit),
        _ => print_other(rt, byte, seen.saturating_add(good as u64 + 1)),
    }
}

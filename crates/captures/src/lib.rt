// Searching a capture (document 01, "Search, reading and place", and "When the bench says no").
#![tactic(auto)]

ghost use Rattle.std.specs.Prelude.{◌≡◌, List, ℕ, ◌≤◌, T, length};
ghost use Rattle.bits.specs.Bits.{all_bits};
ghost use Rattle.formats.specs.Numbers.{long, numbers_of};
ghost use Rattle.refusals.specs.Outcome.{outcome};
ghost use Rattle.captures.specs.Captures.{window_at, first_place, search_of, stretch_of, search_read_of};
ghost use Rattle.captures.specs.Attempts.{attempt_of, out_found};
ghost use Rattle.captures.specs.Tested.{TestedFor};

use formats::format::{Format, Long};
use reader::{Asked, Reading, Window, tested};
use refusals::Refusal;

// A capture has at most this many bits.
pub const LIMIT: usize = 7500;

// What searching a capture finds: the first place at which a window is read, with its reading.
#[derive(Clone, Copy)]
pub struct Found {
    pub place: usize,
    pub reading: Reading,
}

// The format's window at the place; empty where all of it does not fit in the capture, and not an Option, since document 01 has the stretch so.
pub fn window_at(format: Format, capture: &[u8], place: usize) -> &[u8]
    ensures { result.now ≡ window_at format capture.now place }
{
    let size = format.window_bits();
    if capture.len() < size {
        return &capture[..0];
    }
    if capture.len() - size < place {
        return &capture[..0];
    }
    let end = place + size;
    &capture[place..end]
}

// One try: reads the format's window at the place of a capture whose bytes are known to be bits. The ends are tested first: a place
// whose ends differ costs a comparison of r bytes at the most.
fn attempt(format: Format, capture: &[u8], place: usize, output: &mut [u8]) -> Option<Reading>
    requires are_bits { T (all_bits capture.now) }
    requires format_in_bounds { (numbers_of format).m ≤ length output.old }
    ensures { attempt_of format capture.now place output.old ≡ outcome result output.new }
{
    let bits = window_at(format, capture, place);
    if bits.len() == 0 {
        return None;
    }
    if !tested::ends_agree(format, bits) {
        return None;
    }
    let window = Window { format, bits };
    tested::read_bits(Asked::Proper, window, output).ok()
}

// The first place at which read accepts, of a capture of any length whose bytes are known to be bits: places from 0 up, long before
// short at one place, as far as a short window fits. Not a call of the bench.
pub fn search_bits(capture: &[u8], output: &mut [u8]) -> Result<Found, Refusal>
    requires are_bits { T (all_bits capture.now) }
    requires m_in_bounds { long.m ≤ length output.old }
    ensures { out_found capture.now output.old (first_place capture.now) ≡ outcome result output.new }
{
    let places = (capture.len() + 1).saturating_sub(Format::Short.window_bits());
    for place in 0..places {
        if let Some(reading) = attempt(Format::Long, capture, place, output) {
            return Ok(Found { place, reading });
        }
        if let Some(reading) = attempt(Format::Short, capture, place, output) {
            return Ok(Found { place, reading });
        }
    }
    Err(Refusal::NoPlace)
}

// Tests a capture, and the length of the output that is lent for the user bits of either format: refusal 1, 2 or 3.
pub fn test(capture: &[u8], room: usize) -> Result<(), Refusal>
    ensures { (out : List ℕ) → length out ≡ room → TestedFor capture.now out result }
{
    if LIMIT < capture.len() {
        return Err(Refusal::Length);
    }
    if !bits::all_bits(capture) {
        return Err(Refusal::NotBit);
    }
    if room < Long::M {
        return Err(Refusal::OutputShort);
    }
    Ok(())
}

// The first place at which read accepts, by the plain search, and the user bits of the window there over the front of output, which has
// room for those of either format. A refusal keeps every byte of output.
pub fn search_read(capture: &[u8], output: &mut [u8]) -> Result<Found, Refusal>
    ensures { search_read_of capture.now output.old ≡ outcome result output.new }
{
    test(capture, output.len())?;
    search_bits(capture, output)
}

// The first place at which read accepts, by the plain search.
pub fn search(capture: &[u8]) -> Result<Found, Refusal>
    ensures { result ≡ search_of capture.now }
{
    let mut output = [0u8; Long::M];
    search_read(capture, &mut output)
}

// The accepted stretch of the capture itself: the whole window that search found, or an empty part.
pub fn stretch(capture: &[u8]) -> &[u8]
    ensures { result.now ≡ stretch_of capture.now }
{
    match search(capture) {
        Ok(found) => window_at(found.reading.format, capture, found.place),
        Err(_) => &capture[..0],
    }
}

// Searching a capture by the quick search (document 01, "Search, reading and place", and "When the bench says no"): the answers and the bytes of
// captures::search and captures::search_read.
#![tactic(auto)]

ghost use Rattle.std.specs.Prelude.{◌≡◌, ◌≤◌, T, length};
ghost use Rattle.bits.specs.Bits.{all_bits};
ghost use Rattle.formats.specs.Numbers.{long};
ghost use Rattle.refusals.specs.Outcome.{outcome};
ghost use Rattle.captures.specs.Captures.{first_place, search_of, stretch_of, search_read_of};
ghost use Rattle.captures.specs.Attempts.{out_found};

use captures::Found;
use formats::format::{Format, Long};
use refusals::Refusal;
use walk::Walk;

mod pairs;
mod walk;

// The first place at which read accepts, of a capture of any length whose bytes are known to be bits: a walk for each format, of which
// the one at the lower place takes the next step, the long one where both are at one place. Not a call of the bench.
pub fn search_bits(capture: &[u8], output: &mut [u8]) -> Result<Found, Refusal>
    requires are_bits { T (all_bits capture.now) }
    requires m_in_bounds { long.m ≤ length output.old }
    ensures { out_found capture.now output.old (first_place capture.now) ≡ outcome result output.new }
{
    let mut long = Walk::at(0);
    let mut short = Walk::at(0);
    // A while, since a step goes on by as much as its walk passes over.
    while long.place < capture.len() || short.place < capture.len() {
        if long.place <= short.place {
            if let Some(found) = long.step(Format::Long, capture, output) {
                return Ok(found);
            }
        } else if let Some(found) = short.step(Format::Short, capture, output) {
            return Ok(found);
        }
    }
    Err(Refusal::NoPlace)
}

// The first place at which read accepts, and the user bits of the window there over the front of output, which has room for those
// of either format. A refusal keeps every byte of output. With search and stretch this is captures' own over search_bits of this crate: each
// is a call or two, so that one of both over the search, with clauses on what it finds, would be longer.
pub fn search_read(capture: &[u8], output: &mut [u8]) -> Result<Found, Refusal>
    ensures { search_read_of capture.now output.old ≡ outcome result output.new }
{
    captures::test(capture, output.len())?;
    search_bits(capture, output)
}

// The first place at which read accepts.
pub fn search(capture: &[u8]) -> Result<Found, Refusal>
    ensures { result ≡ search_of capture.now }
{
    let mut output = [0u8; Long::M];
    search_read(capture, &mut output)
}

// The accepted stretch of the capture itself: the whole window that search found, or an empty part.
pub fn stretch(capture: &[u8]) -> &[u8]
    ensures { result.now ≡ stretch_of capture.now }
{
    match search(capture) {
        Ok(found) => captures::window_at(found.reading.format, capture, found.place),
        Err(_) => &capture[..0],
    }
}

// Reading a window (document 01, "Search, reading and place"): its tests in the order of their numbers, and what it tells.
#![tactic(auto)]

ghost use Rattle.std.specs.Prelude.{◌≡◌, T, length};
ghost use Rattle.bits.specs.Bits.{all_bits};
ghost use Rattle.formats.specs.Numbers.{numbers_of, window_bits};
ghost use Rattle.refusals.specs.Outcome.{outcome};
ghost use Rattle.reader.specs.Reads.{read_by, read_of, read_well_formed_of};

use formats::format::{Format, Short};
use refusals::Refusal;

mod telegram;
pub mod tested;
mod turned;

// A window: as many bits as its format's window has.
#[derive(Clone, Copy)]
pub struct Window<'a> {
    pub format: Format,
    pub bits: &'a [u8],
    ghost are_bits: { T (all_bits bits.now) },
    ghost size: { length bits.now ≡ window_bits (numbers_of format) },
}

// What a call asks of the telegram in a window (document 02, No. 2). An enum, and not a test that is passed in: what both calls answer is
// defined over it (`read_by`), and everything proved of reading is proved over it.
#[derive(Clone, Copy)]
pub enum Asked {
    WellFormed,
    Proper,
}

// What a window tells besides the user bits.
#[derive(Clone, Copy)]
pub struct Reading {
    pub format: Format,
    pub scrambling: u16,
    pub shaping: u16,
    pub turn: usize,
    pub flipped: bool,
}

// Reads a window whose telegram is to be as asked. Read, output has the user bits in front and keeps the rest; refused, it keeps
// every byte.
pub fn read_as(asked: Asked, window: &[u8], output: &mut [u8]) -> Result<Reading, Refusal>
    ensures { read_by asked window.now output.old ≡ outcome result output.new }
{
    let format = Format::of_length(Short::N + Short::R, window.len());
    if window.len() != format.window_bits() {
        return Err(Refusal::Length);
    }
    if !bits::all_bits(window) {
        return Err(Refusal::NotBit);
    }
    let bits = window;
    tested::read_bits(asked, Window { format, bits }, output)
}

// Reads a window of a proper telegram.
pub fn read(window: &[u8], output: &mut [u8]) -> Result<Reading, Refusal>
    ensures { read_of window.now output.old ≡ outcome result output.new }
{
    read_as(Asked::Proper, window, output)
}

// Reads a window of a telegram that need only be well-formed.
pub fn read_well_formed(window: &[u8], output: &mut [u8]) -> Result<Reading, Refusal>
    ensures { read_well_formed_of window.now output.old ≡ outcome result output.new }
{
    read_as(Asked::WellFormed, window, output)
}

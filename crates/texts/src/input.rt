// The whole of standard input, read as bits.
ghost use Rattle.std.specs.Prelude.{◌≤◌, length};
ghost use Rattle.refusals.specs.Outcome.{outcome};
ghost use Rattle.texts.specs.Input.{progress_after, OfSomeText};

use crate::faults::{print_fault, print_unread};
use crate::reading::{BadText, take_text};
use std::io::{Input, Read};

// The most bytes that are read at once.
const CHUNK: usize = 4096;

// How far the reading is: how many bits the buffer holds and how many bytes are read.
#[derive(Clone, Copy)]
struct SoFar {
    count: usize,
    seen: u64,
}

// Reads once, and takes what came. At the end of the input nothing comes. A read that fails counts as a bad text. Of a bad
// text a line on standard error says what is wrong.
fn read_some(
    rt: &impl Eprint,
    reader: &mut impl Read,
    bits: &mut [u8],
    so_far: SoFar,
) -> Result<Option<SoFar>, BadText>
    requires { so_far.count ≤ length bits.old }
    ensures { OfSomeText (outcome (progress_after so_far.count result) bits.new) so_far.count bits.old }
{
    let SoFar { count, seen } = so_far;
    let mut chunk = [0u8; CHUNK];
    let Ok(n) = reader.read(&mut chunk) else {
        print_unread(rt);
        return Err(BadText);
    };
    if n == 0 {
        return Ok(None);
    }
    let Ok(more) = take_text(&chunk[..n], bits, count) else {
        print_fault(rt, &chunk[..n], count, bits.len(), seen);
        return Err(BadText);
    };
    Ok(Some(SoFar {
        count: more,
        seen: seen.saturating_add(n as u64),
    }))
}

// Reads standard input to its end into the front of bits, and answers how many they are. The text is bad where bits has too
// little room. No contract can name the text that is read: this one says that the answer and the buffer are those of some
// text. Nothing says that an input ends, so the loop goes over a range that no run uses up.
pub fn read_text<R: Input + Eprint>(rt: &R, bits: &mut [u8]) -> Result<usize, BadText>
    ensures { OfSomeText (outcome result bits.new) 0 bits.old }
{
    let mut reader = rt.reader();
    let mut so_far = SoFar { count: 0, seen: 0 };
    for _ in 0..u64::MAX {
        let Some(more) = read_some(rt, &mut reader, bits, so_far)? else {
            return Ok(so_far.count);
        };
        so_far = more;
    }
    print_unread(rt);
    Err(BadText)
}

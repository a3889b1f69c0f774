// Reads a block of user bits from standard input, characters 0 and 1, and writes the first hundred pairs of scrambling
// and extra shaping bits whose telegrams are proper, in counting order, and then whether there are more (document 02,
// No. 9).
#![tactic(auto)]

use formats::format::Long;
use lister::Listed;
use refusals::Refusal;
use std::io;
use telegrams::Pair;
use texts::{front, input, output};

// The most pairs that are written.
const LINES: usize = 100;

// The line of a pair.
fn print_pair(rt: &impl Print, b: u16, esb: u16) -> io::Result<()> {
    println!(rt; "{b} {esb}")
}

// The last line where every pair is written.
fn print_end(rt: &impl Print) -> io::Result<()> {
    println!(rt; "end")
}

// The last line where another pair is left.
fn print_more(rt: &impl Print) -> io::Result<()> {
    println!(rt; "more")
}

// The one line of a refused block, and what is wrong on standard error, which is left out where it cannot be written.
// Every byte that was read is a bit, and there is room for a telegram: only the number of bits is refused.
fn print_refused(rt: &(impl Print + Eprint), count: usize) -> io::Result<()> {
    output::print_bad(rt)?;
    let _ = eprintln!(rt; "balise: a block has 830 or 210 bits, and this has {count}");
    Ok(())
}

// The first pair from a given one on.
fn pair_from(block: &[u8], pair: Pair) -> Result<Option<Listed>, Refusal> {
    let mut telegram = [0u8; Long::N];
    lister::next(
        block,
        pair.scrambling as u64,
        pair.shaping as u64,
        &mut telegram,
    )
}

// The first pair after a given one.
fn pair_after(block: &[u8], pair: Pair) -> Result<Option<Listed>, Refusal> {
    match lister::just_after(pair) {
        Some(onward) => pair_from(block, onward),
        None => Ok(None),
    }
}

// Writes the first hundred pairs, and answers with what comes after them.
fn list_pairs(rt: &impl Print, block: &[u8]) -> io::Result<Result<Option<Listed>, Refusal>> {
    let mut answer = pair_from(
        block,
        Pair {
            scrambling: 0,
            shaping: 0,
        },
    );
    for _ in 0..LINES {
        let Ok(Some(listed)) = answer else {
            return Ok(answer);
        };
        print_pair(rt, listed.pair.scrambling, listed.pair.shaping)?;
        answer = pair_after(block, listed.pair);
    }
    Ok(answer)
}

// All lines.
fn report(rt: &(impl Print + Eprint), block: &[u8]) -> io::Result<()> {
    let after = list_pairs(rt, block)?;
    match after {
        Ok(Some(_)) => print_more(rt),
        Ok(None) => print_end(rt),
        Err(_) => print_refused(rt, block.len()),
    }
}

fn main(rt: HostRuntime) -> io::Result<()> {
    let mut block = [0u8; Long::M];
    let Ok(count) = input::read_text(&rt, &mut block) else {
        return output::print_bad(&rt);
    };
    report(&rt, front(&block, count))
}

// Reads a block of user bits from standard input, characters 0 and 1, and writes the telegram that is made from it and
// the two numbers that the first two arguments give, B and esb (document 02, No. 11).
#![tactic(auto)]

use formats::format::Long;
use std::env::Env;
use std::io;
use texts::{decimal, front, input, output};

// The number that the argument at this place is. One that is missing, or has more bytes than a number has digits, counts
// as an empty text.
fn argument(rt: &impl Env, place: usize) -> Option<u32> {
    let mut text = [0u8; decimal::DIGITS];
    let n = rt.arg(place, &mut text).unwrap_or(0);
    decimal::number_in(front(&text, n))
}

// Line two where an argument is no such number, and what is wrong on standard error. That line is left out where it cannot
// be written.
fn print_bad_argument(rt: &(impl Print + Eprint), wrong: &str) -> io::Result<()> {
    output::print_bad(rt)?;
    let _ = eprintln!(rt; "balise: {wrong}, one to nine digits");
    Ok(())
}

// Lines three and four.
fn report(rt: &impl Print, block: &[u8], b: u32, esb: u32) -> io::Result<()> {
    let mut telegram = [0u8; Long::N];
    let answer = maker::make(block, b as u64, esb as u64, &mut telegram);
    match answer {
        Ok(format) => {
            println!(rt; "{format} sb {b} esb {esb}")?;
            output::print_bits(rt, front(&telegram, format.telegram_bits()))
        }
        Err(refusal) => output::print_refused(rt, refusal),
    }
}

fn main(rt: HostRuntime) -> io::Result<()> {
    output::print_header(&rt, b"make")?;
    let Some(b) = argument(&rt, 1) else {
        return print_bad_argument(&rt, "the first argument must be B");
    };
    let Some(esb) = argument(&rt, 2) else {
        return print_bad_argument(&rt, "the second argument must be esb");
    };
    let mut block = [0u8; Long::M];
    let Ok(count) = input::read_text(&rt, &mut block) else {
        return output::print_bad(&rt);
    };
    output::print_count(&rt, count)?;
    report(&rt, front(&block, count), b, esb)
}

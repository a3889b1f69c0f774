// What programs print of a reading (document 01, "Bench sheet"; document 02, No. 11), and the program that reads a window from standard input,
// characters 0 and 1. No contract can say what is written. A line that cannot be written is an error.
#![tactic(auto)]

use formats::format::Long;
use reader::{Asked, Reading};
use std::io;
use std::io::Input;
use texts::{front, input, output};

// The end of line three, and the user bits, which stand at the front of a buffer, as line four.
pub fn print_reading(rt: &impl Print, reading: Reading, user_bits: &[u8]) -> io::Result<()> {
    let Reading {
        format,
        scrambling,
        shaping,
        turn,
        flipped,
    } = reading;
    let side = if flipped { "flipped" } else { "upright" };
    println!(rt; " turn {turn} sb {scrambling} {side} esb {shaping}")?;
    output::print_bits(rt, front(user_bits, format.user_bits()))
}

// Lines three and four.
fn report(rt: &impl Print, asked: Asked, window: &[u8]) -> io::Result<()> {
    let mut user_bits = [0u8; Long::M];
    let answer = reader::read_as(asked, window, &mut user_bits);
    match answer {
        Ok(reading) => {
            let format = reading.format;
            print!(rt; "{format}")?;
            print_reading(rt, reading, &user_bits)
        }
        Err(refusal) => output::print_refused(rt, refusal),
    }
}

// The program, whose telegram is to be as asked, and whose answers have this first word.
pub fn read_window<R: Input + Print + Eprint>(rt: &R, asked: Asked, word: &[u8]) -> io::Result<()> {
    output::print_header(rt, word)?;
    let mut window = [0u8; Long::N + Long::R];
    let Ok(count) = input::read_text(rt, &mut window) else {
        return output::print_bad(rt);
    };
    output::print_count(rt, count)?;
    report(rt, asked, front(&window, count))
}

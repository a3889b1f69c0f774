// Reads a capture from standard input, characters 0 and 1, and writes the first place at which a window is read
// (document 01, "Bench sheet").
#![tactic(auto)]

use captures::Found;
use formats::format::Long;
use std::io;
use texts::{front, input, output};

// Lines three and four.
fn report(rt: &impl Print, capture: &[u8]) -> io::Result<()> {
    let mut user_bits = [0u8; Long::M];
    let answer = quick_search::search_read(capture, &mut user_bits);
    match answer {
        Ok(Found { place, reading }) => {
            let format = reading.format;
            print!(rt; "{format} place {place}")?;
            readings::print_reading(rt, reading, &user_bits)
        }
        Err(_) => output::print_none(rt),
    }
}

fn main(rt: HostRuntime) -> io::Result<()> {
    output::print_header(&rt, b"capture")?;
    let mut capture = [0u8; captures::LIMIT];
    let Ok(count) = input::read_text(&rt, &mut capture) else {
        return output::print_bad(&rt);
    };
    output::print_count(&rt, count)?;
    report(&rt, front(&capture, count))
}

// Reads a telegram from standard input, characters 0 and 1, and writes what the checker answers.
#![tactic(auto)]

use formats::format::Long;
use std::io;
use texts::{front, input, output};

// Line three.
fn report(rt: &impl Print, telegram: &[u8]) -> io::Result<()> {
    let answer = checker::check(telegram);
    match answer {
        Ok(format) => println!(rt; "{format} proper"),
        Err(refusal) => output::print_refused(rt, refusal),
    }
}

fn main(rt: HostRuntime) -> io::Result<()> {
    output::print_header(&rt, b"check")?;
    let mut telegram = [0u8; Long::N];
    let Ok(count) = input::read_text(&rt, &mut telegram) else {
        return output::print_bad(&rt);
    };
    output::print_count(&rt, count)?;
    report(&rt, front(&telegram, count))
}

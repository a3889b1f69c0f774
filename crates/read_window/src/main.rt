// Reads a window of a proper telegram from standard input, characters 0 and 1, and writes what the reader finds in it.
#![tactic(auto)]

use reader::Asked;
use std::io;

fn main(rt: HostRuntime) -> io::Result<()> {
    readings::read_window(&rt, Asked::Proper, b"read")
}

// Reads a window of a telegram that need only be well-formed (document 02, No. 2), and writes what the reader finds in it.
#![tactic(auto)]

use reader::Asked;
use std::io;

fn main(rt: HostRuntime) -> io::Result<()> {
    readings::read_window(&rt, Asked::WellFormed, b"read-well-formed")
}

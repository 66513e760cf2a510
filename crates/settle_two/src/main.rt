// Settles the group of two by the journal on standard input.
#![tactic(auto)]

use std::io;
use two::settle_input;

fn main(rt: HostRuntime) -> io::Result<()> {
    settle_input(rt)
}

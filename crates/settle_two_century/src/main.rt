// The program settle_two once more, on the months until the book is over; what it must print is what the reference prints.
#![tactic(auto)]

use std::io;
use two::settle_input;

fn main(rt: HostRuntime) -> io::Result<()> {
    settle_input(rt)
}

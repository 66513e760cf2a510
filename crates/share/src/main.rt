// Prints, for the question on standard input, what each sharing rule gives every place.
#![tactic(auto)]

use comparison::report;
use std::io;
use std::io::Read;
use std::process::ExitCode;

fn main(rt: HostRuntime) -> io::Result<ExitCode> {
    let alloc = rt.alloc();
    let mut text = Vec::new(alloc);
    rt.stdin().read_to_end(&mut text)?;
    match report(alloc, &text) {
        Ok(table) => {
            print!(rt; "{table}")?;
            Ok(ExitCode::SUCCESS)
        }
        Err(problem) => {
            eprintln!(rt; "{problem}")?;
            Ok(ExitCode::FAILURE)
        }
    }
}

// Prints the branch report of what standard input has.
#![tactic(auto)]

use branch::report;
use std::io::{self, BufReader, Read};

fn read_and_report(rt: &HostRuntime) -> io::Result<String> {
    let mut input = Vec::new(rt.alloc());
    BufReader::new(rt.alloc(), rt.stdin())?.read_to_end(&mut input)?;
    Ok(report(rt.alloc(), input.as_slice())?)
}

// A report that cannot be made, for want of memory or of input, is a line too, and the status is 0 whatever happens.
fn main(rt: HostRuntime) {
    let _ = match read_and_report(&rt) {
        Ok(text) => print!(rt; "{text}"),
        Err(fault) => println!(rt; "no report: {fault}"),
    };
}

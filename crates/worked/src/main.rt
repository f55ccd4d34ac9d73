// Runs the branch report on cases with known answers, and says how many agree. The worked cases of the library are its tests.
#![tactic(auto)]

#[cfg(test)]
mod counting_cases;
#[cfg(test)]
mod drawing_cases;
#[cfg(test)]
mod file_cases;
#[cfg(test)]
mod scan_cases;

ghost use Rattle.std.specs.Prelude.{◌<◌, IfOk};

use anyhow::anyhow;
use branch::report;
use std::alloc::Global;
use std::io::{BufReader, Read};

fn digit(byte: u8) -> anyhow::Result<u8>
    ensures { IfOk result (λ d. d < 16) }
{
    match byte {
        b'0'..=b'9' => Ok(byte - b'0'),
        b'a'..=b'f' => Ok(byte - b'a' + 10),
        _ => Err(anyhow!("an input is not hexadecimal")),
    }
}

// The bytes that a line of a case writes, two digits each. Capitals are refused, and a lone last digit is ignored: a line that was
// taken or refused still is, which the kit's `hex` would not keep, since it takes capitals and refuses a lone digit.
fn bytes_of(heap: Global, line: &str) -> anyhow::Result<Vec<u8>> {
    let mut bytes = Vec::new(heap);
    if line == "(empty)" {
        return Ok(bytes);
    }
    let (pairs, _) = line.as_bytes().as_chunks::<2>();
    // A loop: a digit may be none and a push may find no memory, and with two kinds of error a chain is no plainer.
    for [high, low] in pairs {
        bytes.push(16 * digit(*high)? + digit(*low)?)?;
    }
    Ok(bytes)
}

// A case is a line with the input, and then the lines of the report; a line of two dashes ends it.
fn run(rt: &HostRuntime) -> anyhow::Result<()> {
    let heap = rt.alloc();
    let mut cases = String::new(heap);
    BufReader::new(heap, rt.stdin())?.read_to_string(&mut cases)?;
    let mut agree = 0u64;
    for case in cases.as_str().split("--\n") {
        let Some((line, expected)) = case.split_once('\n') else {
            continue;
        };
        let printed = report(heap, bytes_of(heap, line)?.as_slice())?;
        if printed.as_str() == expected {
            agree = agree.saturating_add(1);
        } else {
            println!(rt; "{line} is reported as {printed:?}")?;
        }
    }
    println!(rt; "{agree} cases agree")?;
    Ok(())
}

fn main(rt: HostRuntime) -> anyhow::Result<()> {
    run(&rt)
}

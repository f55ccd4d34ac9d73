// One slip from scan to stored rows, told step by step: `slip [GREYS] [TABLE PICTURE] < SCAN`. With two file names the
// table file and the reduced picture are written too.
#![tactic(auto)]

mod count;
mod stop;
mod store;
mod tell;

use std::io::{BufReader, Read};
use std::{env, fs, io};
use stop::Stop;

// In how many greys the slip is stored where no number is given.
const GREYS: u16 = 16;

// What the words of the command line ask for.
#[derive(Drop)]
struct Words {
    greys: u16,
    files: Option<(String, String)>,
}

fn asked_for(rt: &HostRuntime) -> io::Result<Words> {
    let mut words = env::args(rt)?.skip(1).peekable();
    let greys = words.peek().and_then(|word| word.as_str().parse().ok());
    if greys.is_some() {
        words.next();
    }
    Ok(Words {
        greys: greys.unwrap_or(GREYS),
        files: words.next().zip(words.next()),
    })
}

fn main(rt: HostRuntime) -> io::Result<()> {
    let mut bytes = Vec::new(rt.alloc());
    BufReader::new(rt.alloc(), rt.stdin())?.read_to_end(&mut bytes)?;
    let scan = match scans::read(rt.alloc(), bytes.as_slice()) {
        Ok(Ok(scan)) => scan,
        Ok(Err(_)) => return println!(rt; "no scan: there is no memory for its pixels"),
        Err(fault) => return println!(rt; "no scan: {fault}"),
    };
    let wanted = asked_for(&rt)?;
    let made = match tell::slip(&rt, &scan, wanted.greys) {
        Ok(made) => made,
        Err(Stop::Memory(error)) => return Err(error.into()),
        Err(Stop::Failed(error)) => return Err(error),
        Err(refused) => return println!(rt; "{refused}"),
    };
    if let Some((table, picture)) = wanted.files {
        fs::write(&rt, table.as_str(), made.table_file.as_slice())?;
        fs::write(&rt, picture.as_str(), made.picture.as_slice())?;
        println!(rt; "written: {table} and {picture}")?;
    }
    Ok(())
}

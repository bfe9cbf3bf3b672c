// Mileage: for each box of a script, how many of its trips hold in it and how many metres they drove.
#![tactic(auto)]

mod figures;
mod once;

use anyhow::anyhow;
use figures::figures;
use scripts::read::{MOST_BYTES, read_sections};
use scripts::read_error::ReadError;
use std::io::Read;

fn main(rt: HostRuntime) -> anyhow::Result<()> {
    let mut text = Vec::new(rt.alloc());
    // One byte more than a script may have, so that one that is too long shows.
    rt.stdin()
        .take(MOST_BYTES as u64 + 1)
        .read_to_end(&mut text)?;
    match read_sections(rt.alloc(), text.as_slice()) {
        Ok(sections) => {
            for line in figures(rt.alloc(), &sections)? {
                println!(rt; "{line}")?;
            }
            Ok(())
        }
        Err(ReadError::Fault(fault)) => Ok(println!(rt; "{fault}")?),
        Err(ReadError::NoMemory) => Err(anyhow!("no memory")),
    }
}

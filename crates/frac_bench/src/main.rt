// Calculates with exact fractions, for measuring: the words name a calculation, its numbers and how often it is done.
#![tactic(auto)]

mod dots;
mod eliminations;
mod numbers;
mod sums;

use anyhow::{Context, Result, bail};
use numbers::{Kind, kind_of};
use std::env;

fn main(rt: HostRuntime) -> Result<()> {
    let words: Vec<String> = env::args(&rt)?.collect(rt.alloc())?;
    let (Some(task), Some(numbers), Some(size), Some(count)) = (
        words.get(1),
        words.get(2),
        words.get(3),
        words.get(4),
    ) else {
        bail!("usage: frac_bench dot|eliminate NUMBERS SIZE COUNT");
    };
    let kind = kind_of(numbers.as_str()).context(
        "NUMBERS: whole, small, word, wide, dense or band",
    )?;
    let size = size.as_str().parse::<usize>()?;
    let count = count.as_str().parse::<u64>()?;
    let checksum = match task.as_str() {
        "dot" => dots::repeated(rt.alloc(), kind, size, count)?,
        "eliminate" => eliminations::repeated(rt.alloc(), kind, size, count)?,
        _ => bail!("no such task"),
    };
    println!(rt; "{checksum}")?;
    Ok(())
}

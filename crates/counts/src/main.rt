//! Writes counts in a code and reads them back, so that codes can be compared.
#![tactic(auto)]

mod output;
mod reply;
mod report;
mod request;
#[cfg(test)]
mod tests;

use std::io::Read;

fn main(rt: HostRuntime) -> anyhow::Result<()> {
    let heap = rt.alloc();
    let mut text = Vec::new(heap);
    rt.stdin().read_to_end(&mut text)?;
    rt.print(reply::reply(heap, &text)?)?;
    Ok(())
}

//! Looks for free big-blocks on the largest volume, so that another program can tell how long that
//! takes.
//!
//! `hm_freemap_bench CALL TIMES` makes the freemap of a volume of 1,048,576 big-blocks over a store of
//! pages, of which only the first are in use, and does so many calls. It prints what the last one
//! found, and how many pages were read. CALL is
//!
//! - `count`: count the free big-blocks;
//! - `renew`: let zone 8, which is full, begin a big-block, and fill it;
//! - `refuse`: ask for more than is free.
#![tactic(auto)]

mod calls;
mod store;
mod volume;

use crate::calls::Call;
use hm_types::Fault;
use std::alloc::Global;
use std::process::ExitCode;
use std::{env, io};

const USAGE: &str = "usage: hm_freemap_bench count|renew|refuse TIMES";

// Makes the volume and does the calls: what the last one found, and how many pages were read.
fn run(alloc: Global, call: Call, times: u32) -> Result<(u32, u64), Fault> {
    let mut freemap = volume::make(alloc)?;
    let found = calls::repeat(&mut freemap, call, times)?;
    let (pages, _) = freemap.into_parts();
    Ok((found, pages.reads()))
}

fn main(rt: HostRuntime) -> io::Result<ExitCode> {
    let mut words = env::args(&rt)?.skip(1);
    let call = words.next().and_then(|word| Call::named(word.as_str()));
    let times = words
        .next()
        .and_then(|word| word.as_str().parse::<u32>().ok());
    let (Some(call), Some(times)) = (call, times) else {
        eprintln!(&rt; "{USAGE}")?;
        return Ok(ExitCode::from(2));
    };
    match run(rt.alloc(), call, times) {
        Ok((found, reads)) => {
            println!(rt; "found {found}, pages read {reads}")?;
            Ok(ExitCode::SUCCESS)
        }
        Err(_) => {
            eprintln!(&rt; "hm_freemap_bench: a call of the freemap failed")?;
            Ok(ExitCode::from(1))
        }
    }
}

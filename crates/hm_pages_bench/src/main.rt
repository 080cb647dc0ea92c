//! Fills a store of pages, so that another program can tell how long that takes.
//!
//! `hm_pages_bench PAGES` puts so many new pages into a store, in calls of 1,000 that are kept, and
//! after each ten calls freezes and commits them. It prints how many pages are committed.
#![tactic(auto)]

mod fill;

use std::process::ExitCode;
use std::{env, io};

const USAGE: &str = "usage: hm_pages_bench PAGES";

fn main(rt: HostRuntime) -> io::Result<ExitCode> {
    let Some(word) = env::args(&rt)?.nth(1) else {
        eprintln!(&rt; "{USAGE}")?;
        return Ok(ExitCode::from(2));
    };
    let Ok(pages) = word.as_str().parse::<u32>() else {
        eprintln!(&rt; "{USAGE}")?;
        return Ok(ExitCode::from(2));
    };
    match fill::fill(rt.alloc(), pages) {
        Ok(()) => {
            println!(rt; "pages {pages}")?;
            Ok(ExitCode::SUCCESS)
        }
        Err(_) => {
            eprintln!(&rt; "hm_pages_bench: a call of the store failed")?;
            Ok(ExitCode::from(1))
        }
    }
}

// Scripts of calls on names beside the plain program of the model, by numbers drawn at random.
use crate::lines::command_of;
use crate::past_trees::PastTrees;
use crate::testing::{FRESH, reply_to, volume_of};
use hm_dirs::Fnv;
use hm_model::next_number;
use hm_types::GREATEST_ID;
use std::alloc::Global;
use std::test::Fail;

const SCRIPTS: u64 = 300;

const CALLS: u64 = 200;

const COMMANDS: [&str; 16] = [
    "mkdir",
    "mkdir",
    "cat",
    "touch",
    "symlink t",
    "snapshot",
    "ln",
    "mv",
    "mv",
    "rm",
    "rm",
    "rm",
    "rmdir",
    "ls",
    "stat",
    "readlink",
];

const WORDS: [&str; 16] = [
    "/a", "/a", "/b", "/b", "/c", "/d", "/a/a", "/a/b", "/a/c", "/b/a", "/b/b", "/c/a", "/a/b/c",
    "/b/a/c", "/", "/a//b",
];

// A line of the 4,096 that a number draws.
fn line_of(alloc: Global, number: u64) -> Result<String, Fail> {
    let command = COMMANDS[(number / 68_719_476_736 % 16) as usize];
    let first = WORDS[(number / 1_099_511_627_776 % 16) as usize];
    let second = WORDS[(number / 17_592_186_044_416 % 16) as usize];
    Ok(match command {
        "cat" => format!(in alloc; "{command} {first} 0 9")?,
        "ln" | "mv" => format!(in alloc; "{command} {first} {second}")?,
        _ => format!(in alloc; "{command} {first}")?,
    })
}

// The first line of a script whose reply is not that of the model, if there is one.
fn first_other_line(alloc: Global, seed: u64) -> Result<Option<String>, Fail> {
    let mut volume = volume_of(alloc, &Fnv, &FRESH)?;
    let mut trees = PastTrees::new(alloc, volume.next)?;
    let mut number = seed;
    for _ in 0..CALLS {
        number = next_number(number);
        let line = line_of(alloc, number)?;
        let command = command_of(alloc, &line)?;
        if volume.next == 0 || volume.next > GREATEST_ID {
            return Err("no id")?;
        }
        let due = trees.call(alloc, &command, volume.next)?;
        if reply_to(alloc, &mut volume, &Fnv, &command)? != due {
            return Ok(Some(line));
        }
    }
    Ok(None)
}

#[test]
fn random_scripts_are_answered_as_by_the_plain_program(rt: HostRuntime) -> Result<(), Fail> {
    for seed in 0..SCRIPTS {
        let other = first_other_line(rt.alloc(), seed)?;
        assert_eq!(rt; other, None, "script {seed}");
    }
    Ok(())
}

// Scripts of calls on two pseudo file systems, by numbers drawn at random, beside a list of the trees
// that the plain program of the model makes of each. The names of a directory have two hashes. The
// link from one to the other is asked for, and moved, as any object is.
ghost use Rattle.std.specs.Prelude.{IfOk};
ghost use Rattle.hm_calls_tests.specs.Tests.{IsReady};

mod systems;

use crate::lines::command_of;
use crate::testing::{ByLength, Item, Volume, ask, first_other, volume_of};
use hm_key::{ElementStore, Extents, HasElements, HasRoom};
use hm_model::{Reply, next_number, push_answer};
use hm_records::DIRECTORY;
use hm_types::Id;
use std::alloc::Global;
use std::test::Fail;
use systems::{LINK, Line, Systems};

const SCRIPTS: u64 = 100;

const CALLS: u64 = 100;

// PFS 0, in whose root `m` leads to PFS 1.
const SYSTEMS: [Item; 6] = [
    Item::Master(0),
    Item::Object(0, 1, DIRECTORY, 1),
    Item::Master(1),
    Item::Object(1, 1, DIRECTORY, 1),
    Item::Link(LINK, 1),
    Item::Entry(0, 1, "m", 0, LINK),
];

// The last id of `SYSTEMS`.
const LAST_ID: u64 = 6;

const COMMANDS: [&str; 16] = [
    "mkdir",
    "mkdir",
    "mkdir",
    "touch",
    "touch",
    "symlink t",
    "snapshot",
    "ln",
    "ln",
    "mv",
    "mv",
    "mv",
    "rm",
    "rmdir",
    "readlink",
    "stat",
];

// The calls on the link itself.
const LINK_COMMANDS: [&str; 16] = [
    "mv",
    "mv",
    "mv",
    "mv",
    "mv",
    "mv",
    "mv",
    "mv",
    "ln",
    "rm",
    "rmdir",
    "readlink",
    "stat",
    "mkdir",
    "touch",
    "symlink t",
];

const DIRECTORIES: [&str; 8] = ["", "", "", "", "/a", "/a", "/bb", "/a/b"];

const NAMES: [&str; 8] = ["a", "a", "b", "b", "c", "aa", "bb", "bb"];

// What is asked of each tree as of each id.
const LOOKS: [(&str, &str); 15] = [
    ("ls", "/"),
    ("ls", "/a"),
    ("ls", "/b"),
    ("ls", "/bb"),
    ("ls", "/a/b"),
    ("stat", "/a"),
    ("stat", "/b"),
    ("stat", "/c"),
    ("stat", "/aa"),
    ("stat", "/bb"),
    ("stat", "/a/a"),
    ("stat", "/a/b"),
    ("stat", "/bb/bb"),
    ("readlink", "/a"),
    ("readlink", "/c"),
];

// Whose path is drawn: the link's, or that of a name of PFS 0 or of PFS 1.
#[derive(Clone, Copy)]
enum Owner {
    Link,
    First,
    Second,
}

// A path of the volume.
#[derive(Clone, Copy)]
struct Place {
    owner: Owner,
    directory: &'static str,
    name: &'static str,
}

impl Place {
    // The one that a number draws, the link's path so often of sixteen times.
    fn drawn(number: u64, links: u64) -> Place {
        Place {
            owner: match number % 16 {
                kind if kind < links => Owner::Link,
                kind if kind % 2 == 0 => Owner::First,
                _ => Owner::Second,
            },
            directory: DIRECTORIES[(number / 16 % 8) as usize],
            name: NAMES[(number / 128 % 8) as usize],
        }
    }

    // Its path from the root of PFS 0, by that of the link.
    fn word(&self, alloc: Global, link: &str) -> Result<String, Fail> {
        let way = match self.owner {
            Owner::Link => return Ok(format!(in alloc; "{link}")?),
            Owner::First => "",
            Owner::Second => link,
        };
        Ok(format!(in alloc; "{way}{}/{}", self.directory, self.name)?)
    }
}

// The line that a number draws, where the link has this path.
fn line_of(alloc: Global, number: u64, link: &str) -> Result<Line, Fail> {
    let first = Place::drawn(number / 1_099_511_627_776, 4);
    let second = Place::drawn(number / 1_125_899_906_842_624, 1);
    let commands = match first.owner {
        Owner::Link => &LINK_COMMANDS,
        Owner::First | Owner::Second => &COMMANDS,
    };
    let command = commands[(number / 68_719_476_736 % 16) as usize];
    let has_two = command == "ln" || command == "mv";
    Ok(Line {
        command,
        first: first.word(alloc, link)?,
        second: if has_two {
            Some(second.word(alloc, link)?)
        } else {
            None
        },
    })
}

// The text of a reply to `ls`, or to any call on names.
fn text_of(alloc: Global, reply: &Reply) -> Result<Vec<u8>, Fail> {
    let mut text = Vec::new(alloc);
    push_answer(alloc, &mut text, &command_of(alloc, "ls /")?, reply)?;
    Ok(text)
}

// The first line of a script with another answer than the trees give, if there is one.
fn first_other_line<T: ElementStore + Extents>(
    alloc: Global,
    volume: &mut Volume<T>,
    systems: &mut Systems,
    seed: u64,
) -> Result<Option<String>, Fail>
    requires { IsReady (T.elements volume.old.store) (T.extents volume.old.store)
        volume.old.next }
    ensures { IfOk result (λ _. IsReady (T.elements volume.new.store)
        (T.extents volume.new.store) volume.new.next) }
{
    let mut number = seed;
    for _ in 0..CALLS {
        number = next_number(number);
        let line = line_of(alloc, number, systems.link(volume.next)?)?;
        let due = systems.call(alloc, &line, volume.next)?;
        let text = line.text(alloc)?;
        if ask(alloc, volume, &ByLength, &text)? != text_of(alloc, &due)? {
            return Ok(Some(text));
        }
    }
    Ok(None)
}

// The line that asks for a path of PFS 1 as it was: by the path that the link has now, or by the one
// that it had then.
fn second_line(
    alloc: Global,
    name: &str,
    links: (&str, &str),
    rest: &str,
    id: u64,
) -> Result<String, Fail> {
    let (now, then) = links;
    let at = Id(id);
    Ok(if id % 2 == 0 {
        format!(in alloc; "{name} {now}/@@{at}{rest}")?
    } else {
        format!(in alloc; "{name} /@@{at}{then}{rest}")?
    })
}

// The first look at the volume as of an id with another answer than the trees give, if there is one.
fn first_other_look<T: ElementStore + Extents>(
    alloc: Global,
    volume: &mut Volume<T>,
    systems: &Systems,
    now: &str,
    id: u64,
) -> Result<Option<String>, Fail>
    requires { IsReady (T.elements volume.old.store) (T.extents volume.old.store)
        volume.old.next }
    ensures { IfOk result (λ _. IsReady (T.elements volume.new.store)
        (T.extents volume.new.store) volume.new.next) }
{
    let then = systems.link(id)?;
    let at = Id(id);
    for (name, path) in &LOOKS {
        let rest = if *path == "/" { "" } else { *path };
        let first = format!(in alloc; "{name} /@@{at}{rest}")?;
        let due = systems.look(alloc, name, path, id)?;
        if ask(alloc, volume, &ByLength, &first)? != text_of(alloc, &due)? {
            return Ok(Some(first));
        }
        let second = second_line(alloc, name, (now, then), rest, id)?;
        let word = format!(in alloc; "{then}{rest}")?;
        let due = systems.look(alloc, name, &word, id)?;
        if ask(alloc, volume, &ByLength, &second)? != text_of(alloc, &due)? {
            return Ok(Some(second));
        }
    }
    Ok(None)
}

// The same as of each id of a script.
fn first_other_view<T: ElementStore + Extents>(
    alloc: Global,
    volume: &mut Volume<T>,
    systems: &Systems,
) -> Result<Option<String>, Fail>
    requires { IsReady (T.elements volume.old.store) (T.extents volume.old.store)
        volume.old.next }
    ensures { IfOk result (λ _. IsReady (T.elements volume.new.store)
        (T.extents volume.new.store) volume.new.next) }
{
    let now = systems.link(volume.next)?;
    for id in LAST_ID..LAST_ID + CALLS + 1 {
        let other = first_other_look(alloc, volume, systems, now, id)?;
        if other.is_some() {
            return Ok(other);
        }
    }
    Ok(None)
}

// The first line of a script, or look at what it left, with another answer, if there is one; and how
// often the link got a path.
fn run_script(alloc: Global, seed: u64) -> Result<(Option<String>, u64), Fail> {
    let mut volume = volume_of(alloc, &ByLength, &SYSTEMS)?;
    let mut systems = Systems::new(alloc)?;
    let other = first_other_line(alloc, &mut volume, &mut systems, seed)?;
    if other.is_some() {
        return Ok((other, systems.links()));
    }
    let other = first_other_view(alloc, &mut volume, &systems)?;
    Ok((other, systems.links()))
}

// Names of the link itself, from the id 7 on. It is no directory, so that a file and a softlink give
// way to it.
#[test]
fn a_link_is_an_object_of_its_own_system(rt: HostRuntime) -> Result<(), Fail> {
    let rows = [
        ("touch /f", "ok"),
        ("mv /m /f", "ok"),
        ("ls /", "ok 1 p:f"),
        ("ls /m", "not found"),
        ("touch /f/x", "ok"),
        ("ls /f", "ok 1 f:x"),
        ("symlink t /s", "ok"),
        ("mv /f /s", "ok"),
        ("ls /", "ok 1 p:s"),
        ("stat /s", "ok p 0x0000000000000005 1 1"),
        ("readlink /s", "ok @@-1:00001"),
        ("mkdir /d", "ok"),
        ("mv /s /d", "exists"),
        ("mv /s /d/m", "ok"),
        ("mv /d /d/m/d", "crosses a pfs"),
        ("mv /d/m/x /x", "crosses a pfs"),
        ("ln /d/m /n", "is a directory"),
        ("rm /d/m", "is a directory"),
        ("rmdir /d/m", "not a directory"),
        ("rmdir /d", "not empty"),
        ("ls /d/m", "ok 1 f:x"),
    ];
    let other = first_other(rt.alloc(), &ByLength, &SYSTEMS, &rows)?;
    assert_eq!(rt; other, None);
    Ok(())
}

#[test]
fn two_systems_and_all_their_past_are_those_of_the_plain_program(
    rt: HostRuntime,
) -> Result<(), Fail> {
    let mut links: u64 = 0;
    for seed in 0..SCRIPTS {
        let (other, paths) = run_script(rt.alloc(), seed)?;
        assert_eq!(rt; other, None, "script {seed}");
        links = links.saturating_add(paths);
    }
    assert!(rt; links >= 2 * SCRIPTS, "the link seldom moves");
    Ok(())
}

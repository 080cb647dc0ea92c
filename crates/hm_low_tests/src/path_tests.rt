// Values from the rule for paths: each text with what it gives. A path's parts are shown between bars,
// each as its name and, after `#`, its id in decimal; a bad one as its place.
use hm_path::{Path, PathFault, parse};
use std::alloc::{AllocError, Global};
use std::test::Fail;

fn shown(alloc: Global, answer: &Result<Path, PathFault>) -> Result<String, AllocError> {
    let path = match answer {
        Ok(path) => path,
        Err(PathFault::BadPath { place }) => return format!(in alloc; "bad at {place}"),
        Err(PathFault::NoMemory) => return format!(in alloc; "no memory"),
    };
    let mut line = String::from_str(alloc, "|")?;
    for part in path.parts() {
        if let Some(name) = &part.name {
            line.push_str(str::from_utf8(name.bytes()).unwrap_or("?"))?;
        }
        if let Some(id) = part.as_of {
            let number = id.0;
            line.push_str(format!(in alloc; "#{number}")?.as_str())?;
        }
        line.push('|')?;
    }
    Ok(line)
}

#[test]
fn texts_give_the_parts_or_the_place_of_the_rule(rt: HostRuntime) -> Result<(), Fail> {
    for (text, want) in [
        ("/", "|"),
        ("/a", "|a|"),
        ("/a/b", "|a|b|"),
        ("/a/b@@0x0000000000000001", "|a|b#1|"),
        ("/@@0x000000000000000A/f", "|#10|f|"),
        ("/d@@0x00000000deadBEEF", "|d#3735928559|"),
        ("/@@0xffffFFFFffffFFFF", "|#18446744073709551615|"),
        ("/@@0x0123456789abcdef", "|#81985529216486895|"),
        ("/a@", "|a@|"),
        ("/a@@@0x0000000000000002", "|a@#2|"),
        ("/0x0000000000000001", "|0x0000000000000001|"),
        ("/.a/..b/...", "|.a|..b|...|"),
        ("/\u{e9}", "|\u{e9}|"),
        ("", "bad at 0"),
        ("a", "bad at 0"),
        ("a/b", "bad at 0"),
        (" /a", "bad at 0"),
        ("//", "bad at 1"),
        ("//a", "bad at 1"),
        ("/a//b", "bad at 3"),
        ("/a/", "bad at 3"),
        ("/ab/c//", "bad at 6"),
        ("/@@0x", "bad at 1"),
        ("/a@@", "bad at 1"),
        ("/@@0x000000000000001", "bad at 1"),
        ("/@@0x00000000000000001", "bad at 1"),
        ("/@@0X0000000000000001", "bad at 1"),
        ("/a/b@@0x000000000000001", "bad at 3"),
        ("/a/b@@0x00000000000000001", "bad at 3"),
        ("/a/b@@0xzz00000000000001", "bad at 3"),
        ("/a/b@@0x+000000000000001", "bad at 3"),
        ("/a/@@0x0000000000000001x", "bad at 3"),
        ("/a@@0x0000000000000001@@0x0000000000000001", "bad at 1"),
        ("/.", "bad at 1"),
        ("/a/..", "bad at 3"),
        ("/a/.@@0x0000000000000001", "bad at 3"),
        ("/a b", "bad at 1"),
        ("/x/a\tb", "bad at 3"),
        ("/x/\u{7f}", "bad at 3"),
        ("/x/y\n", "bad at 3"),
    ] {
        let answer = parse(rt.alloc(), text.as_bytes());
        assert_eq!(rt; shown(rt.alloc(), &answer)?.as_str(), want, "{text:?}");
    }
    // A clone has the same parts.
    let path = parse(rt.alloc(), b"/a@@0x0000000000000001/b")?;
    let copy = path.clone()?;
    assert_eq!(rt; copy.parts(), path.parts());
    assert_eq!(rt; copy.parts().len(), 2);
    Ok(())
}

// `parts` components of one letter each, and then `end`.
fn many(alloc: Global, parts: usize, end: &str) -> Result<String, AllocError> {
    let mut text = "/a".repeat(alloc, parts)?;
    text.push_str(end)?;
    Ok(text)
}

#[test]
fn the_65th_component_is_bad_unless_an_earlier_one_is(rt: HostRuntime) -> Result<(), Fail> {
    for (parts, end, want) in [
        (64, "", None),
        (63, "/b@@0x0000000000000001", None),
        (65, "", Some(129)),
        (64, "/", Some(129)),
        (64, "/.", Some(129)),
        (66, "/.", Some(129)),
        (63, "/.", Some(127)),
        (63, "/./a/a", Some(127)),
    ] {
        let text = many(rt.alloc(), parts, end)?;
        let place = match parse(rt.alloc(), text.as_bytes()) {
            Err(PathFault::BadPath { place }) => Some(place),
            _ => None,
        };
        assert_eq!(rt; place, want, "{parts} and {end:?}");
    }
    Ok(())
}

#[test]
fn a_name_has_255_bytes_at_most_and_a_path_1023(rt: HostRuntime) -> Result<(), Fail> {
    let id = "@@0x0000000000000001";
    for (names, letters, end, want) in [
        (1, 255, "", None),
        (1, 256, "", Some(1)),
        (1, 255, id, None),
        (1, 256, id, Some(1)),
        (2, 256, "", Some(1)),
        (4, 250, "/abcdefghijklmnopqr", None),
        (4, 250, "/abcdefghijklmnopqrs", Some(1_023)),
        (4, 250, "/abcdefghijklmnopq/", Some(1_023)),
        (5, 250, "", Some(1_023)),
    ] {
        let name = "n".repeat(rt.alloc(), letters)?;
        let component = format!(in rt.alloc(); "/{name}")?;
        let mut text = component.as_str().repeat(rt.alloc(), names)?;
        text.push_str(end)?;
        let place = match parse(rt.alloc(), text.as_bytes()) {
            Err(PathFault::BadPath { place }) => Some(place),
            _ => None,
        };
        let bytes = text.len();
        assert_eq!(rt; place, want, "{bytes} bytes");
    }
    // The length counts before the first byte does.
    let long = "n".repeat(rt.alloc(), 1_024)?;
    let answer = parse(rt.alloc(), long.as_bytes());
    assert_eq!(rt; shown(rt.alloc(), &answer)?.as_str(), "bad at 1023");
    Ok(())
}

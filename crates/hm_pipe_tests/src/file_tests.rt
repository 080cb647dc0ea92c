// Sources and sinks over named files.
use hm_pipe::{FileSink, FileSource, Sink, Source};
use hm_types::{Counted, Failed};
use std::fs;
use std::test::Fail;

#[test]
fn gives_the_bytes_of_its_file(rt: HostRuntime) -> Result<(), Fail> {
    fs::write(&rt, "source", b"hello")?;
    // The file's name, what three calls give, and the count of faults after them.
    for (text, answers, faults) in [
        (Some("source"), [Ok(4), Ok(1), Ok(0)], 0),
        (Some("missing"), [Err(Failed), Err(Failed), Err(Failed)], 3),
        (Some(""), [Err(Failed), Err(Failed), Err(Failed)], 3),
        (None, [Ok(0), Ok(0), Ok(0)], 0),
    ] {
        let name = match text {
            Some(text) => Some(String::from_str(rt.alloc(), text)?),
            None => None,
        };
        let mut source = FileSource::named(rt, name);
        let mut given = Vec::new(rt.alloc());
        for want in answers {
            let mut buf = [0; 4];
            let answer = source.take(&mut buf);
            assert_eq!(rt; answer, want, "{text:?}");
            if let Ok(count) = answer {
                given.extend_from_slice(&buf[..count])?;
            }
        }
        let held = if faults == 0 && text.is_some() {
            "hello"
        } else {
            ""
        };
        assert_eq!(rt; given.as_slice(), held.as_bytes(), "{text:?}");
        assert_eq!(rt; source.faults(), faults, "{text:?}");
    }
    fs::remove_file(&rt, "source")?;
    Ok(())
}

#[test]
fn empties_its_file_and_appends_pieces(rt: HostRuntime) -> Result<(), Fail> {
    fs::write(&rt, "sink", b"what was there before")?;
    let name = String::from_str(rt.alloc(), "sink")?;
    let mut sink = FileSink::named(rt, Some(name));
    // Nothing is done before the first put.
    assert_eq!(rt;
        fs::read(&rt, "sink")?.as_slice(),
        b"what was there before".as_slice()
    );
    for (piece, held) in [("", ""), ("one", "one"), ("three", "onethree")] {
        assert_eq!(rt; sink.put(piece.as_bytes()), Ok(()), "{piece}");
        let bytes = fs::read(&rt, "sink")?;
        assert_eq!(rt; bytes.as_slice(), held.as_bytes(), "{piece}");
    }
    assert_eq!(rt; sink.faults(), 0);
    fs::remove_file(&rt, "sink")?;
    for text in [None, Some(""), Some("no/folder")] {
        let name = match text {
            Some(text) => Some(String::from_str(rt.alloc(), text)?),
            None => None,
        };
        let mut sink = FileSink::named(rt, name);
        for faults in [1, 2] {
            assert_eq!(rt; sink.put(b"piece"), Err(Failed), "{text:?}");
            assert_eq!(rt; sink.faults(), faults, "{text:?}");
        }
    }
    Ok(())
}

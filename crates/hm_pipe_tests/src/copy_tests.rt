// Sources and sinks through their bounds alone.
ghost use Rattle.std.specs.Prelude.{IfSome, OnOk};
ghost use Rattle.hm_pipe.specs.Pipe.{Gains, IsAtEnd};

use hm_pipe::{MemSink, MemSource, Sink, Source, StdSink, StdSource};
use hm_types::Failed;
use std::test::Fail;

// Copies what is left of a source into a sink, a few bytes at a time.
fn copy<S: Source, K: Sink>(source: &mut S, sink: &mut K) -> Result<(), Failed>
    ensures end { OnOk result (IsAtEnd (S.left source.new)) }
    ensures copied { OnOk result (IfSome (S.left source.old) (λ bytes.
        Gains (K.held sink.old) bytes (K.held sink.new))) }
{
    let mut buf = [0; 3];
    for _ in 0..u64::MAX {
        let count = source.take(&mut buf)?;
        if count == 0 {
            return Ok(());
        }
        sink.put(&buf[..count])?;
    }
    Err(Failed)
}

#[test]
fn any_source_is_copied_into_any_sink(rt: HostRuntime) -> Result<(), Fail> {
    let text = b"some text".as_slice();
    let mut held = MemSink::new(rt.alloc(), Vec::new(rt.alloc()));
    let mut written = Vec::new(rt.alloc());
    {
        let mut source = MemSource::new(text.to_vec(rt.alloc())?, Vec::new(rt.alloc()));
        let mut sink = StdSink::new(&mut written);
        assert_eq!(rt; copy(&mut source, &mut sink), Ok(()));
    }
    assert_eq!(rt; copy(&mut StdSource::new(text), &mut held), Ok(()));
    assert_eq!(rt; held.bytes(), text);
    assert_eq!(rt; written.as_slice(), text);
    Ok(())
}

#[test]
fn a_copy_ends_where_its_source_or_its_sink_fails(rt: HostRuntime) -> Result<(), Fail> {
    let cases: [(&[u64], &[u64], &str); 4] = [
        (&[1], &[], ""),
        (&[3], &[], "some t"),
        (&[], &[1], "s"),
        (&[], &[3], "some te"),
    ];
    for (takes, puts, held) in cases {
        let mut source = MemSource::new(
            b"some text".to_vec(rt.alloc())?,
            takes.to_vec(rt.alloc())?,
        );
        let mut sink = MemSink::new(rt.alloc(), puts.to_vec(rt.alloc())?);
        assert_eq!(rt; copy(&mut source, &mut sink), Err(Failed), "{held}");
        assert_eq!(rt; sink.bytes(), held.as_bytes());
        assert_eq!(rt; source.faults(), u64::from(!takes.is_empty()), "{held}");
        assert_eq!(rt; sink.faults(), u64::from(!puts.is_empty()), "{held}");
    }
    Ok(())
}

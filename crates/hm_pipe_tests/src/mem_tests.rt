// Sources and sinks in memory, with failures at chosen calls.
use hm_pipe::{MemSink, MemSource, Sink, Source};
use hm_types::Counted;
use std::test::Fail;

#[test]
fn gives_its_bytes_in_order_and_fails_at_the_listed_calls(rt: HostRuntime) -> Result<(), Fail> {
    let cases: [(&[u64], [Option<usize>; 5], u64); 5] = [
        (&[], [Some(2), Some(2), Some(1), Some(0), Some(0)], 0),
        (&[1], [None, Some(2), Some(2), Some(1), Some(0)], 1),
        (&[2], [Some(2), None, Some(2), Some(1), Some(0)], 1),
        (&[4, 0], [Some(2), Some(2), Some(1), None, Some(0)], 1),
        (&[3, 1, 3], [None, Some(2), None, Some(2), Some(1)], 2),
    ];
    for (fails, answers, faults) in cases {
        let mut source = MemSource::new(b"hello".to_vec(rt.alloc())?, fails.to_vec(rt.alloc())?);
        let mut given = Vec::new(rt.alloc());
        for want in answers {
            let mut buf = [0; 2];
            let answer = source.take(&mut buf);
            assert_eq!(rt; answer.ok(), want, "with {fails:?}");
            if let Ok(count) = answer {
                given.extend_from_slice(&buf[..count])?;
            }
        }
        assert_eq!(rt; given.as_slice(), b"hello".as_slice());
        assert_eq!(rt; source.faults(), faults, "with {fails:?}");
    }
    Ok(())
}

#[test]
fn appends_pieces_and_keeps_the_first_half_of_those_that_fail(rt: HostRuntime) -> Result<(), Fail> {
    let cases: [(&[u64], &str, [bool; 3], u64); 5] = [
        (&[], "onethreefive", [true, true, true], 0),
        (&[1], "othreefive", [false, true, true], 1),
        (&[2, 0], "onethfive", [true, false, true], 1),
        (&[3, 3], "onethreefi", [true, true, false], 1),
        (&[3, 2, 1], "othfi", [false, false, false], 3),
    ];
    for (fails, held, answers, faults) in cases {
        let mut sink = MemSink::new(rt.alloc(), fails.to_vec(rt.alloc())?);
        for (piece, want) in ["one", "three", "five"].iter().zip(answers) {
            let answer = sink.put(piece.as_bytes());
            assert_eq!(rt; answer.is_ok(), want, "{piece} with {fails:?}");
        }
        assert_eq!(rt; sink.bytes(), held.as_bytes());
        assert_eq!(rt; sink.faults(), faults, "with {fails:?}");
    }
    Ok(())
}

use crate::{CountSink, IoFault, MemSink, MemSource, Sink, Source, put_all};
use std::test::Fail;

#[test]
fn source_in_pieces(rt: HostRuntime) -> Result<(), Fail> {
    // the sizes, the calls that are to fail, the room of each call, and the answers
    let rows: &[(&[usize], &[u64], usize, &[Result<&[u8], IoFault>])] = &[
        (&[], &[], 8, &[Ok(b"abcdefgh"), Ok(b""), Ok(b"")]),
        (&[], &[], 5, &[Ok(b"abcde"), Ok(b"fgh"), Ok(b"")]),
        (
            &[3, 2],
            &[],
            8,
            &[Ok(b"abc"), Ok(b"de"), Ok(b"fg"), Ok(b"h"), Ok(b"")],
        ),
        (
            &[1, 7],
            &[0, 2],
            8,
            &[Err(IoFault), Ok(b"abcdefg"), Err(IoFault), Ok(b"h")],
        ),
    ];
    for &(sizes, fails, room, answers) in rows {
        assert!(rt; sizes.iter().all(|size| *size > 0));
        let mut source = MemSource::new(rt.alloc(), b"abcdefgh", sizes, fails)?;
        for answer in answers {
            let mut buf = [b'-'; 8];
            assert!(rt; 0 < room && room <= buf.len());
            let given = match source.read(&mut buf[..room]) {
                Ok(count) => Ok(&buf[..count]),
                Err(fault) => Err(fault),
            };
            assert_eq!(rt; given, *answer, "sizes {sizes:?} room {room}");
        }
        let faults = answers.iter().filter(|answer| answer.is_err()).count();
        assert_eq!(rt; source.faults(), faults as u64);
    }
    Ok(())
}

#[test]
fn sink_in_pieces(rt: HostRuntime) -> Result<(), Fail> {
    // the bytes of a call and in all, the calls that are to fail, the answers, and what is taken
    let rows: &[(usize, usize, &[u64], &[Result<usize, IoFault>], &[u8])] = &[
        (8, 8, &[], &[Ok(6)], b"abcdef"),
        (4, 8, &[], &[Ok(4), Ok(2)], b"abcdef"),
        (
            4,
            5,
            &[],
            &[Ok(4), Ok(1), Err(IoFault), Err(IoFault)],
            b"abcde",
        ),
        (2, 8, &[1], &[Ok(2), Err(IoFault), Ok(2), Ok(2)], b"abcdef"),
        (2, 0, &[], &[Err(IoFault)], b""),
    ];
    let text = b"abcdef".as_slice();
    for &(piece, room, fails, answers, taken) in rows {
        assert!(rt; piece > 0);
        let mut sink = MemSink::new(rt.alloc(), piece, room, fails)?;
        for answer in answers {
            let done = sink.bytes().len();
            assert!(rt; done < text.len());
            assert_eq!(rt;
                sink.write(&text[done..]),
                *answer,
                "piece {piece} room {room}"
            );
        }
        assert_eq!(rt; sink.bytes(), taken);
        let faults = answers.iter().filter(|answer| answer.is_err()).count();
        assert_eq!(rt; sink.faults(), faults as u64);
    }
    Ok(())
}

#[test]
fn puts_all(rt: HostRuntime) -> Result<(), Fail> {
    // the bytes of a call and in all, the calls that are to fail, the answer, what is taken, and the faults
    let rows: &[(usize, usize, &[u64], Result<(), IoFault>, &[u8], u64)] = &[
        (1, 6, &[], Ok(()), b"abcdef", 0),
        (4, 9, &[], Ok(()), b"abcdef", 0),
        (2, 9, &[1], Err(IoFault), b"ab", 1),
        (4, 5, &[], Err(IoFault), b"abcde", 1),
    ];
    for &(piece, room, fails, answer, taken, faults) in rows {
        assert!(rt; piece > 0);
        let mut sink = MemSink::new(rt.alloc(), piece, room, fails)?;
        assert_eq!(rt;
            put_all(&mut sink, b"abcdef"),
            answer,
            "piece {piece} room {room}"
        );
        assert_eq!(rt; sink.bytes(), taken);
        assert_eq!(rt; sink.faults(), faults);
    }
    Ok(())
}

#[test]
fn counts(rt: HostRuntime) {
    let mut sink = CountSink::new();
    assert_eq!(rt; sink.count(), Some(0));
    for (text, count) in [("abc", 3), ("", 3), ("defgh", 8)] {
        assert_eq!(rt; put_all(&mut sink, text.as_bytes()), Ok(()));
        assert_eq!(rt; sink.count(), Some(count));
    }
}

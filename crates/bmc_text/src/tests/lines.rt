use crate::tests::pieces::{Pieces, letters};
use crate::{Got, LineFault, Lines};
use std::alloc::Global;
use std::test::Fail;

// All that is got: a line and then `|`, `?` for a line that is too long, `$` for the end, twice,
// and `!` for a fault.
fn all_got(alloc: Global, source: &mut Pieces, buffered: bool) -> Result<Vec<u8>, Fail> {
    let mut lines = Lines::new(alloc)?;
    let mut text = Vec::new(alloc);
    for _ in 0..20 {
        let waiting = if buffered {
            lines.next_buffered()
        } else {
            None
        };
        let got = match waiting {
            Some(got) => Ok(got),
            None => lines.next(source),
        };
        match got {
            Ok(Got::Line) => {
                text.extend_from_slice(lines.line())?;
                text.push(b'|')?;
            }
            Ok(Got::LineTooLong) => text.push(b'?')?,
            Ok(Got::End) => text.push(b'$')?,
            Err(_) => text.push(b'!')?,
        }
        if text.ends_with(b"$$") || text.ends_with(b"!") {
            break;
        }
    }
    Ok(text)
}

#[test]
fn gets_the_lines(rt: HostRuntime) -> Result<(), Fail> {
    // letters and a text in the script, letters and a text in what is got
    let cases: &[(usize, &str, usize, &str)] = &[
        (0, "", 0, "$$"),
        (0, "a\nb\n", 0, "a|b|$$"),
        (0, "a\r\nb\r\n", 0, "a|b|$$"),
        (0, "a\nlast", 0, "a|last|$$"),
        (0, "a\nlast\r", 0, "a|last|$$"),
        (0, "a\r\r\n", 0, "a\r|$$"),
        (0, "\r\n\n\r", 0, "|||$$"),
        (0, "a\rb\n\nc", 0, "a\rb||c|$$"),
        (9000, "", 9000, "|$$"),
        (9000, "\n", 9000, "|$$"),
        (9001, "\n", 0, "?$$"),
        (9001, "", 0, "?$$"),
        (9000, "\r\nb\n", 0, "?b|$$"),
        (8999, "\r\nb\n", 8999, "|b|$$"),
        (20_000, "\r\nb\n", 0, "?b|$$"),
        (200_000, "\nb\nc", 0, "?b|c|$$"),
    ];
    for &(letters_in, text_in, letters_got, text_got) in cases {
        let script = letters(rt.alloc(), letters_in, text_in.as_bytes())?;
        let want = letters(rt.alloc(), letters_got, text_got.as_bytes())?;
        for size in [1, 7, usize::MAX] {
            for buffered in [false, true] {
                let mut source = Pieces::new(&script, size, u64::MAX);
                let got = all_got(rt.alloc(), &mut source, buffered)?;
                assert!(rt;
                    got.as_slice() == want.as_slice(),
                    "{letters_in} {text_in:?} {size} {buffered}"
                );
            }
        }
    }
    Ok(())
}

#[test]
fn keeps_any_bytes(rt: HostRuntime) -> Result<(), Fail> {
    let script = [0xff, 0xc3, b'\r', 0, b'\n', 0x80, b'\n'];
    let mut source = Pieces::new(&script, 2, u64::MAX);
    let got = all_got(rt.alloc(), &mut source, true)?;
    assert_eq!(rt;
        got.as_slice(),
        [0xff, 0xc3, b'\r', 0, b'|', 0x80, b'|', b'$', b'$'].as_slice()
    );
    Ok(())
}

// The pieces are "one\n", "two\r", "\nthr", "ee" and the end; a sixth call is never made.
#[test]
fn stops_at_a_fault(rt: HostRuntime) -> Result<(), Fail> {
    let cases = &[
        (0, "!", 1),
        (1, "one|!", 2),
        (2, "one|!", 3),
        (3, "one|two|!", 4),
        (4, "one|two|!", 5),
        (5, "one|two|three|$$", 5),
    ];
    for &(fails, want, calls) in cases {
        let mut source = Pieces::new(b"one\ntwo\r\nthree", 4, fails);
        let got = all_got(rt.alloc(), &mut source, false)?;
        assert_eq!(rt; got.as_slice(), want.as_bytes(), "at call {fails}");
        assert_eq!(rt; source.next, calls, "at call {fails}");
    }
    Ok(())
}

use crate::tests::pieces::{Pieces, letters};
use crate::{Items, NextItem};
use std::alloc::Global;
use std::test::Fail;

// All that comes: a line and then `|`, `?` for a line that is too long, a block in brackets, `^` for
// one that is too long, `~` for one that is cut short, `$` for the end, twice, and `!` for a fault.
fn all_items(alloc: Global, source: &mut Pieces, buffered: bool) -> Result<Vec<u8>, Fail> {
    let mut items = Items::new(alloc)?;
    let mut text = Vec::new(alloc);
    for _ in 0..20 {
        let waiting = if buffered {
            items.next_buffered(alloc)?
        } else {
            None
        };
        let next = match waiting {
            Some(next) => Ok(next),
            None => items.next(alloc, source),
        };
        match next {
            Ok(NextItem::Line) => {
                text.extend_from_slice(items.line())?;
                text.push(b'|')?;
            }
            Ok(NextItem::LineTooLong) => text.push(b'?')?,
            Ok(NextItem::Block) => {
                text.push(b'[')?;
                text.extend_from_slice(items.block())?;
                text.push(b']')?;
            }
            Ok(NextItem::BlockTooLong) => text.push(b'^')?,
            Ok(NextItem::BlockShort) => text.push(b'~')?,
            Ok(NextItem::End) => text.push(b'$')?,
            Err(_) => text.push(b'!')?,
        }
        if text.ends_with(b"$$") || text.ends_with(b"!") {
            break;
        }
    }
    Ok(text)
}

// A script, and all that comes of it.
const CASES: &[(&str, &str)] = &[
    ("", "$$"),
    ("a\nconfig 5\nabcde\nb\n", "a|[abcde]b|$$"),
    ("config 5\nabcdeb\n", "[abcde]b|$$"),
    ("config 5\nabcde\r\nb\n", "[abcde]|b|$$"),
    ("config 5\nabcde", "[abcde]$$"),
    ("config 5\nabcde\n", "[abcde]$$"),
    ("config 5\nabcde\n\nb", "[abcde]|b|$$"),
    ("config 0\n\nb", "[]b|$$"),
    ("config 0\nb\n", "[]b|$$"),
    ("config 0\n", "[]$$"),
    ("config 0", "[]$$"),
    ("config 5\nabcd", "~$$"),
    ("config 5\n", "~$$"),
    ("config 5", "~$$"),
    ("config 5\r\nabcde\r", "[abcde]|$$"),
    ("config 000000005\nabcde\n", "[abcde]$$"),
    ("config 5\nab\ncd\nb", "[ab\ncd]b|$$"),
    ("config 9\nconfig 1\n\nb", "[config 1\n]b|$$"),
    ("config 1\na\nconfig 1\nb\n", "[a][b]$$"),
    ("config 262145\nabc", "^$$"),
    ("config 999999999\nabc\n", "^$$"),
    ("config 262145", "^$$"),
    ("config\na", "config|a|$$"),
    ("config x\na", "config x|a|$$"),
    ("config 5 5\na", "config 5 5|a|$$"),
    ("config 0000000005\na", "config 0000000005|a|$$"),
    ("config  5\na", "config  5|a|$$"),
    ("config 5 \na", "config 5 |a|$$"),
    ("config +5\na", "config +5|a|$$"),
    ("config5\na", "config5|a|$$"),
    ("Config 5\na", "Config 5|a|$$"),
    (" config 5\na", " config 5|a|$$"),
];

#[test]
fn takes_lines_and_blocks(rt: HostRuntime) -> Result<(), Fail> {
    for &(script, want) in CASES {
        for size in 1..=32 {
            for buffered in [false, true] {
                let mut source = Pieces::new(script.as_bytes(), size, u64::MAX);
                let items = all_items(rt.alloc(), &mut source, buffered)?;
                assert_eq!(rt;
                    items.as_slice(),
                    want.as_bytes(),
                    "{script:?} {size} {buffered}"
                );
            }
        }
    }
    Ok(())
}

#[test]
fn takes_long_blocks(rt: HostRuntime) -> Result<(), Fail> {
    // a size and as many letters, then a line; the letters that come, and the rest
    let cases = &[
        ("config 100000\n", 100_000, true, "b|$$"),
        ("config 262144\n", 262_144, true, "b|$$"),
        ("config 262145\n", 262_145, false, "^b|$$"),
    ];
    for &(line, count, is_given, rest) in cases {
        let block = letters(rt.alloc(), count, b"\nb\n")?;
        let mut script = Vec::from_slice(rt.alloc(), line.as_bytes())?;
        script.extend_from_slice(&block)?;
        let mut want = Vec::new(rt.alloc());
        if is_given {
            let given = letters(rt.alloc(), count, b"]")?;
            want.push(b'[')?;
            want.extend_from_slice(&given)?;
        }
        want.extend_from_slice(rest.as_bytes())?;
        for size in [999, usize::MAX] {
            let mut source = Pieces::new(&script, size, u64::MAX);
            let items = all_items(rt.alloc(), &mut source, true)?;
            assert!(rt; items.as_slice() == want.as_slice(), "{line} {size}");
        }
    }
    Ok(())
}

// The pieces are "conf", "ig 5", "\nabc", "de\nb", "\n" and the end; a seventh call is never made.
#[test]
fn stops_at_a_fault(rt: HostRuntime) -> Result<(), Fail> {
    let cases = &[
        (0, "!", 1),
        (1, "!", 2),
        (2, "!", 3),
        (3, "!", 4),
        (4, "[abcde]!", 5),
        (5, "[abcde]b|!", 6),
        (6, "[abcde]b|$$", 6),
    ];
    for &(fails, want, calls) in cases {
        for buffered in [false, true] {
            let mut source = Pieces::new(b"config 5\nabcde\nb\n", 4, fails);
            let items = all_items(rt.alloc(), &mut source, buffered)?;
            assert_eq!(rt; items.as_slice(), want.as_bytes(), "at call {fails}");
            assert_eq!(rt; source.next, calls, "at call {fails}");
        }
    }
    Ok(())
}

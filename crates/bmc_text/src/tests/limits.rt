use crate::lines::LONGEST_SCRIPT;
use crate::tests::pieces::Pieces;
use crate::{Got, LineFault, Lines};
use std::test::Fail;

// Four bytes may still be read.
#[test]
fn stops_behind_the_longest_script(rt: HostRuntime) -> Result<(), Fail> {
    let mut source = Pieces::new(b"ab\ncd\n", 7, u64::MAX);
    let mut lines = Lines::behind(rt.alloc(), LONGEST_SCRIPT - 4)?;
    assert!(rt; lines.next(&mut source) == Ok(Got::Line));
    assert_eq!(rt; lines.line(), b"ab".as_slice());
    assert!(rt; lines.next(&mut source) == Err(LineFault::Spent));
    assert_eq!(rt; source.next, 1);
    let mut source = Pieces::new(b"abcde", 7, u64::MAX);
    let mut lines = Lines::behind(rt.alloc(), LONGEST_SCRIPT - 4)?;
    let fault = lines.block(rt.alloc(), &mut source, 4).err();
    assert!(rt; fault == Some(LineFault::Spent));
    assert_eq!(rt; source.next, 1);
    Ok(())
}

use crate::{HexFault, hex_bytes};
use std::test::Fail;

#[test]
fn decodes_digits(rt: HostRuntime) -> Result<(), Fail> {
    let cases: &[(&str, &[u8])] = &[
        ("", &[]),
        ("00ff", &[0x00, 0xff]),
        ("DEADbeef", &[0xde, 0xad, 0xbe, 0xef]),
        ("aA09", &[0xaa, 0x09]),
    ];
    for &(digits, want) in cases {
        let bytes = hex_bytes(rt.alloc(), digits.as_bytes())?;
        assert_eq!(rt; bytes.as_slice(), want, "{digits}");
    }
    for digits in ["0", "abc", "0g", "g0", " 00", "0x", "é"] {
        let fault = hex_bytes(rt.alloc(), digits.as_bytes()).err();
        assert_eq!(rt; fault, Some(HexFault::BadHex), "{digits}");
    }
    Ok(())
}

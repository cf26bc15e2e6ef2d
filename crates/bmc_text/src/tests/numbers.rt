use crate::{block_size, decimal, read_number, read_raw};
use std::test::Fail;

#[test]
fn reads_numbers(rt: HostRuntime) -> Result<(), Fail> {
    let rows = &[
        ("0", Some(0)),
        ("7", Some(7)),
        ("000000080", Some(80)),
        ("999999999", Some(999_999_999)),
        ("0000000001", None),
        ("", None),
        ("-1", None),
        ("+1", None),
        ("1 ", None),
        ("0x1", None),
    ];
    for &(text, want) in rows {
        assert_eq!(rt; read_number(text.as_bytes()), want, "{text:?}");
    }
    Ok(())
}

#[test]
fn reads_raw_readings(rt: HostRuntime) -> Result<(), Fail> {
    let rows = &[
        ("0", Some(0)),
        ("-0", Some(0)),
        ("007", Some(7)),
        ("-41000", Some(-41_000)),
        ("999999999999999999", Some(999_999_999_999_999_999)),
        ("-999999999999999999", Some(-999_999_999_999_999_999)),
        ("1000000000000000000", None),
        ("0000000000000000001", None),
        ("", None),
        ("-", None),
        ("--1", None),
        ("+1", None),
        ("1.0", None),
        (" 1", None),
    ];
    for &(text, want) in rows {
        assert_eq!(rt; read_raw(text.as_bytes()), want, "{text:?}");
    }
    Ok(())
}

#[test]
fn reads_decimals(rt: HostRuntime) -> Result<(), Fail> {
    // a text, the places, and the units
    let rows = &[
        ("0", 3, Some(0)),
        ("-0.3", 3, Some(-300)),
        ("0.05", 2, Some(5)),
        ("00.5", 3, Some(500)),
        ("40.001", 3, Some(40_001)),
        ("-12.5", 1, Some(-125)),
        ("1.000001", 6, Some(1_000_001)),
        ("9999999999", 6, Some(9_999_999_999_000_000)),
        ("-9999999999.999999", 6, Some(-9_999_999_999_999_999)),
        ("1.0001", 3, None),
        ("12345678901", 3, None),
        ("1.", 3, None),
        (".5", 3, None),
        ("-.5", 3, None),
        ("", 3, None),
        ("-", 3, None),
        ("+1", 3, None),
        ("1.2.3", 3, None),
        ("1e3", 3, None),
        ("1,5", 3, None),
    ];
    for &(text, places, want) in rows {
        assert!(rt; 1 <= places && places <= 6);
        assert_eq!(rt; decimal(text, places), want, "{text:?} {places}");
    }
    Ok(())
}

#[test]
fn reads_sizes_of_blocks(rt: HostRuntime) -> Result<(), Fail> {
    let rows = &[
        ("config 27", Some(27)),
        ("config 000000005", Some(5)),
        ("config 0000000005", None),
        ("config", None),
        ("config ", None),
        ("config x", None),
        ("config 5 5", None),
        ("Config 5", None),
        (" config 5", None),
        ("plug 1 80 00", None),
        ("", None),
    ];
    for &(line, want) in rows {
        assert_eq!(rt; block_size(line.as_bytes()), want, "{line:?}");
    }
    Ok(())
}

use crate::{Member, Pattern, PatternFault, PatternText, Want};
use bmc_base::{OutOfMemory, Place, Silent, Steps, Text};
use fru_record::FruRecord;
use pat_gate::{ListMaker, PatternMaker, RegexMaker};
use std::alloc::Global;
use std::process::Abort;
use std::test::Fail;

// A chassis of type 23 with the fields P1, S2 and X1, and a board with ACM, XRSR1, 8, 08 and an empty field.
const RECORD: &[u8; 48] = b"\x01\x00\x01\x03\x00\x00\x00\xFB\
    \x01\x02\x17\xC2P1\xC2S2\xC2X1\xC1\x00\x00P\
    \x01\x03\x00\x00\x00\x00\xC3ACM\xC5XRSR1\x81\x18\xC208\xC0\xC1\xDF";

#[derive(Clone, Copy)]
enum Wanted {
    Text(&'static str),
    Number(i128),
}

use Wanted::{Number, Text as Re};

type Row = (&'static [(&'static str, Wanted)], bool);

// Members, and whether they match the record at address 80 of bus 12.
const MATCHES: &[Row] = &[
    (&[], true),
    // within a text, and the whole of it
    (&[("BOARD_PRODUCT_NAME", Re("RSR1"))], true),
    (&[("BOARD_PRODUCT_NAME", Re("^RSR1$"))], false),
    (&[("BOARD_PRODUCT_NAME", Re("^XRSR1$"))], true),
    (&[("BOARD_PRODUCT_NAME", Re("^X.SR[12]$"))], true),
    (&[("BOARD_PRODUCT_NAME", Re("ACM"))], false),
    (&[("BOARD_FRU_VERSION_ID", Re("^$"))], true),
    (&[("BOARD_FRU_VERSION_ID", Re("."))], false),
    (&[("CHASSIS_INFO_AM1", Re("X1"))], true),
    // fields that are not there
    (&[("PRODUCT_MANUFACTURER", Re(".*"))], false),
    (&[("PRODUCT_MANUFACTURER", Re(""))], false),
    (&[("CHASSIS_INFO_AM2", Re(".*"))], false),
    (&[("BOARD_MANUFACTURE_DATE", Number(0))], false),
    // keys that name no field
    (&[("NAME", Re(".*"))], false),
    (&[("", Re(""))], false),
    (&[("bus", Re("12"))], false),
    (&[("board_product_name", Re("RSR1"))], false),
    (&[("CHASSIS_INFO_AM01", Re("X1"))], false),
    (&[("CHASSIS_INFO_AM0", Number(0))], false),
    // the place
    (&[("BUS", Re("^12$"))], true),
    (&[("BUS", Re("2"))], true),
    (&[("BUS", Re("80"))], false),
    (&[("BUS", Number(12))], true),
    (&[("BUS", Number(80))], false),
    (&[("BUS", Number(268))], false),
    (&[("ADDRESS", Re("^80$"))], true),
    (&[("ADDRESS", Re("50"))], false),
    (&[("ADDRESS", Number(80))], true),
    (&[("ADDRESS", Number(12))], false),
    // numbers as they are spelled
    (&[("BOARD_SERIAL_NUMBER", Number(8))], true),
    (&[("BOARD_SERIAL_NUMBER", Number(-8))], false),
    (&[("BOARD_SERIAL_NUMBER", Number(80))], false),
    (&[("BOARD_PART_NUMBER", Number(8))], false),
    (&[("BOARD_PART_NUMBER", Re("8"))], true),
    (&[("BOARD_FRU_VERSION_ID", Number(0))], false),
    (&[("CHASSIS_TYPE", Number(23))], true),
    (&[("CHASSIS_TYPE", Number(2))], false),
    (&[("CHASSIS_TYPE", Number(i128::MIN))], false),
    // each member decides
    (
        &[("BUS", Number(12)), ("BOARD_MANUFACTURER", Re("^ACM$"))],
        true,
    ),
    (
        &[("BUS", Number(12)), ("BOARD_MANUFACTURER", Re("RSR1"))],
        false,
    ),
    (
        &[("BUS", Number(13)), ("BOARD_MANUFACTURER", Re("^ACM$"))],
        false,
    ),
    (
        &[
            ("BOARD_MANUFACTURER", Re("ACM")),
            ("BOARD_PRODUCT_NAME", Re("RSR1")),
            ("BOARD_SERIAL_NUMBER", Number(9)),
        ],
        false,
    ),
    (
        &[
            ("BOARD_MANUFACTURER", Re("ACM")),
            ("BOARD_PRODUCT_NAME", Re("RSR1")),
            ("BOARD_SERIAL_NUMBER", Number(8)),
        ],
        true,
    ),
];

// Makes the pattern of these members.
fn made<M: PatternMaker>(
    alloc: Global,
    members: &[(&str, Wanted)],
    maker: &mut M,
) -> Result<Pattern<Silent>, PatternFault> {
    let mut text = PatternText::new(alloc)?;
    for (key, wanted) in members {
        let member = member(alloc, key, *wanted)?;
        text.push(alloc, member)?;
    }
    Pattern::make(alloc, &text, maker)
}

fn member(alloc: Global, key: &str, wanted: Wanted) -> Result<Member, OutOfMemory> {
    let key = Text::copy(alloc, key)?;
    let want = match wanted {
        Re(text) => Want::Pattern(Text::copy(alloc, text)?),
        Number(n) => Want::Number(n),
    };
    Ok(Member { key, want })
}

// Each row's pattern is made and matched against the record, which counts one match.
fn assert_matches(rt: &impl Abort, alloc: Global, rows: &[Row]) -> Result<(), Fail> {
    let place = Place::new(12, 80).unwrap();
    let fru = FruRecord::decode(alloc, RECORD)?;
    let mut maker = RegexMaker::new(alloc);
    let mut steps = Steps::new(Silent);
    for (row, (members, wanted)) in rows.iter().enumerate() {
        let pattern = made(alloc, members, &mut maker)?;
        let before = steps.matches();
        let matched = pattern.matches(alloc, place, &fru, &mut steps)?;
        assert_eq!(rt; matched, *wanted, "row {row}");
        assert_eq!(rt; steps.matches().checked_sub(before), Some(1));
    }
    assert_eq!(rt; steps.evals(), 0);
    Ok(())
}

#[test]
fn patterns_match(rt: HostRuntime) -> Result<(), Fail> {
    assert_matches(&rt, rt.alloc(), MATCHES)
}

// A text that the maker is told to refuse as too large.
const LARGE: &str = "^RSR1$";

// Texts that the grammar does not read.
const BAD: &[&str] = &["(?=a)", "(?!a)", "(?<=a)", "\\1", "a{,3}", "("];

fn is_bad<T>(made: &Result<T, PatternFault>, wanted: &str) -> bool {
    match made {
        Err(PatternFault::PatternSyntax(text)) => text.as_str() == wanted,
        _ => false,
    }
}

fn is_too_large<T>(made: &Result<T, PatternFault>, wanted: &str) -> bool {
    match made {
        Err(PatternFault::PatternTooLarge(text)) => text.as_str() == wanted,
        _ => false,
    }
}

#[test]
fn patterns_are_refused(rt: HostRuntime) -> Result<(), Fail> {
    let alloc = rt.alloc();
    let mut maker = ListMaker::new(alloc, &[LARGE])?;
    for &bad in BAD {
        let alone = made(alloc, &[("NAME", Re(bad))], &mut maker);
        assert!(rt; is_bad(&alone, bad), "{bad}");
        let second = made(alloc, &[("BUS", Re("1")), ("BUS", Re(bad))], &mut maker);
        assert!(rt; is_bad(&second, bad), "{bad}");
        let first = made(alloc, &[("BUS", Re(bad)), ("BUS", Re(LARGE))], &mut maker);
        assert!(rt; is_bad(&first, bad), "{bad}");
    }
    assert!(rt; maker.refused().is_empty());
    let large = made(
        alloc,
        &[("BUS", Number(1)), ("BUS", Re(LARGE)), ("BUS", Re("("))],
        &mut maker,
    );
    assert!(rt; is_too_large(&large, LARGE));
    assert_eq!(rt; maker.refused().len(), 1);
    Ok(())
}

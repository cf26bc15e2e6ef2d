ghost use Rattle.std.specs.Prelude.{◌≡◌, length, IfOk};
ghost use Rattle.fru_record.specs.Parts.{HasNames};

use crate::{
    BoardPart, BuildFault, ChassisPart, FieldTexts, FruRecord, Parts, ProductPart, build,
    built_is_read, check_record, faults_name_rules, field_faults_by_positions, one_record,
    worked_build_faults, worked_dates, worked_faults, worked_parts, worked_records,
};
use bmc_base::{OutOfMemory, Text};
use fru_area::{Area, FieldName, FruFault};
use std::alloc::Global;
use std::process::Abort;
use std::test::Fail;

// A board area at byte 8: ACM, RSR1, S1 and two empty fields.
const BOARD: &[u8; 32] =
    b"\x01\x00\x00\x01\x00\x00\x00\xFE\x01\x03\x00\x00\x00\x00\xC3ACM\xC4RSR1\xC2S1\xC0\xC0\xC1\x00\x00\xF5";

// A chassis area of type 23 with a custom field, a board area of minute 65,537 with a custom field of
// one character, and a product area.
const WHOLE: &[u8; 64] = b"\x01\x00\x01\x03\x06\x00\x00\xF5\
    \x01\x02\x17\xC2P1\xC2S2\xC2X1\xC1\x00\x00\x50\
    \x01\x03\x00\x01\x00\x01\xC3ACM\xC4RSR1\xC2S1\xC0\xC0\x81\x3A\xC1\x38\
    \x01\x02\x00\xC2n\xE9\xC0\xC0\xC0\xC0\x81\x21\x81\x00\xC1\x00";

fn assert_fault(rt: &impl Abort, alloc: Global, bytes: &[u8], fault: FruFault) {
    let given = FruRecord::decode(alloc, bytes).err();
    assert_eq!(rt; given, Some(fault), "at {bytes:?}");
    assert_eq!(rt; check_record(bytes), Err(fault), "at {bytes:?}");
}

fn assert_record(
    rt: &impl Abort,
    alloc: Global,
    bytes: &[u8],
    wanted: &[(&str, &str)],
) -> Result<(), FruFault> {
    let record = FruRecord::decode(alloc, bytes)?;
    assert_eq!(rt; check_record(bytes), Ok(()), "at {bytes:?}");
    let fields = record.fields();
    assert_eq!(rt; fields.len(), wanted.len(), "at {bytes:?}");
    for (field, (name, text)) in fields.iter().zip(wanted) {
        assert_eq!(rt; field.name.text().as_str(), *name);
        assert_eq!(rt; field.text.as_str(), *text);
    }
    Ok(())
}

macro_rules! fields {
    ($($name:ident = $text:literal),* $(,)?) => {
        &[$((stringify!($name), $text)),*]
    };
}

const BOARD_FIELDS: &[(&str, &str)] = fields![
    BOARD_MANUFACTURER = "ACM",
    BOARD_PRODUCT_NAME = "RSR1",
    BOARD_SERIAL_NUMBER = "S1",
    BOARD_PART_NUMBER = "",
    BOARD_FRU_VERSION_ID = "",
];

macro_rules! records {
    ($($bytes:expr => $fields:expr;)*) => {
        [$(($bytes, $fields)),*]
    };
}

// Bytes, and their fields.
const RECORDS: &[(&[u8], &[(&str, &str)])] = &records! {
    BOARD => BOARD_FIELDS;
    // no area
    b"\x01\x00\x00\x00\x00\x00\x00\xFF" => fields![];
    // a product area without fields behind a board area
    b"\x01\x00\x00\x01\x04\x00\x00\xFA\x01\x03\x00\x00\x00\x00\xC3ACM\xC4RSR1\xC2S1\xC0\xC0\xC1\x00\x00\xF5\x01\x01\x00\xC1\x00\x00\x00\x3D" =>
        BOARD_FIELDS;
    // binary, BCD plus and 6-bit ASCII, and a date
    b"\x01\x00\x00\x01\x00\x00\x00\xFE\x01\x03\x00\x20\x05\x08\x83)\xDC\xA6C\xAB\xCD\xEF\xC0\xC0\xC0\xC1\x00\x00\x00\x00\x00\xF6" => fields![
        BOARD_MANUFACTURE_DATE = "1996-12-31 00:00",
        BOARD_MANUFACTURER = "IPMI",
        BOARD_PRODUCT_NAME = " -.:,_",
        BOARD_SERIAL_NUMBER = "",
        BOARD_PART_NUMBER = "",
        BOARD_FRU_VERSION_ID = "",
    ];
    WHOLE => fields![
        CHASSIS_TYPE = "23",
        CHASSIS_PART_NUMBER = "P1",
        CHASSIS_SERIAL_NUMBER = "S2",
        CHASSIS_INFO_AM1 = "X1",
        BOARD_MANUFACTURE_DATE = "1996-02-15 12:17",
        BOARD_MANUFACTURER = "ACM",
        BOARD_PRODUCT_NAME = "RSR1",
        BOARD_SERIAL_NUMBER = "S1",
        BOARD_PART_NUMBER = "",
        BOARD_FRU_VERSION_ID = "",
        BOARD_INFO_AM1 = "Z",
        PRODUCT_MANUFACTURER = "né",
        PRODUCT_PRODUCT_NAME = "",
        PRODUCT_PART_NUMBER = "",
        PRODUCT_VERSION = "",
        PRODUCT_SERIAL_NUMBER = "",
        PRODUCT_ASSET_TAG = "A",
        PRODUCT_FRU_VERSION_ID = " ",
    ];
    // each type at the lengths 0, 1 and 2; a text by language of length 1 would be the end mark
    b"\x01\x00\x00\x01\x00\x00\x00\xFE\x01\x04\x00\x00\x00\x00\x00\x40\x80\xC0\x01A\x41A\x81A\x02AB\x42AB\x82AB\xC2AB\xC1\x00\x00\xA0" => fields![
        BOARD_MANUFACTURER = "",
        BOARD_PRODUCT_NAME = "",
        BOARD_SERIAL_NUMBER = "",
        BOARD_PART_NUMBER = "",
        BOARD_FRU_VERSION_ID = "41",
        BOARD_INFO_AM1 = "41",
        BOARD_INFO_AM2 = "!",
        BOARD_INFO_AM3 = "4142",
        BOARD_INFO_AM4 = "4142",
        BOARD_INFO_AM5 = "!)",
        BOARD_INFO_AM6 = "AB",
    ];
    // each type at the lengths 62 and 63
    b"\x01\x00\x00\x01\x00\x00\x00\xFE\x01\x41\x00\x00\x00\x00\
        \x3EABCDEFGHIJKLMNOPQRSTUVWXYZabcdefghijklmnopqrstuvwxyz0123456789\
        \x7EABCDEFGHIJKLMNOPQRSTUVWXYZabcdefghijklmnopqrstuvwxyz0123456789\
        \xBEABCDEFGHIJKLMNOPQRSTUVWXYZabcdefghijklmnopqrstuvwxyz0123456789\
        \xFEABCDEFGHIJKLMNOPQRSTUVWXYZabcdefghijklmnopqrstuvwxyz0123456789\
        \x3FABCDEFGHIJKLMNOPQRSTUVWXYZabcdefghijklmnopqrstuvwxyz0123456789-\
        \x7FABCDEFGHIJKLMNOPQRSTUVWXYZabcdefghijklmnopqrstuvwxyz0123456789-\
        \xBFABCDEFGHIJKLMNOPQRSTUVWXYZabcdefghijklmnopqrstuvwxyz0123456789-\
        \xFFABCDEFGHIJKLMNOPQRSTUVWXYZabcdefghijklmnopqrstuvwxyz0123456789-\
        \xC1\x00\x00\x00\x00\xFD" => fields![
        BOARD_MANUFACTURER = "4142434445464748494a4b4c4d4e4f505152535455565758595a6162636465666768696a6b6c6d6e6f707172737475767778797a30313233343536373839",
        BOARD_PRODUCT_NAME = "4142434445464748494 4-4.4:4,4_505152535455565758595 6162636465666768696 6-6.6:6,6_707172737475767778797 30313233343536373839",
        BOARD_SERIAL_NUMBER = "!)T0$5D1'A42*M$3-YT30%E431556=%69I58B-&9E9V9HEF:KQ6;N]&<Q)W<T5G=WA7>Z!3,R,#-U8S-XD",
        BOARD_PART_NUMBER = "ABCDEFGHIJKLMNOPQRSTUVWXYZabcdefghijklmnopqrstuvwxyz0123456789",
        BOARD_FRU_VERSION_ID = "4142434445464748494a4b4c4d4e4f505152535455565758595a6162636465666768696a6b6c6d6e6f707172737475767778797a303132333435363738392d",
        BOARD_INFO_AM1 = "4142434445464748494 4-4.4:4,4_505152535455565758595 6162636465666768696 6-6.6:6,6_707172737475767778797 303132333435363738392:",
        BOARD_INFO_AM2 = "!)T0$5D1'A42*M$3-YT30%E431556=%69I58B-&9E9V9HEF:KQ6;N]&<Q)W<T5G=WA7>Z!3,R,#-U8S-XD3+",
        BOARD_INFO_AM3 = "ABCDEFGHIJKLMNOPQRSTUVWXYZabcdefghijklmnopqrstuvwxyz0123456789-",
    ];
    // 2-byte Unicode, beside 6-bit ASCII
    b"\x01\x00\x00\x01\x00\x00\x00\xFE\x01\x03\x01\x00\x00\x00\xC4A\x00\xAC \xC2BC\x82)\xDC\xC1\x00\x00\x00\x00\x00\x9B" =>
        fields![BOARD_MANUFACTURER = "A€", BOARD_PRODUCT_NAME = "䍂", BOARD_SERIAL_NUMBER = "IP"];
    // surrogates: a pair, a lone high one, a lone low one, one before a pair; an odd byte
    b"\x01\x00\x00\x01\x00\x00\x00\xFE\x01\x05\x01\x00\x00\x00\xC4\x3D\xD8\x00\xDE\xC4\x3D\xD8\x41\x00\
        \xC4\x00\xDE\x41\x00\xC6\x3D\xD8\x3D\xD8\x00\xDE\xC3\x41\x00\x3D\xC1\x00\x00\x00\x00\x00\x00\x75" => fields![
        BOARD_MANUFACTURER = "\u{1F600}",
        BOARD_PRODUCT_NAME = "\u{FFFD}A",
        BOARD_SERIAL_NUMBER = "\u{FFFD}A",
        BOARD_PART_NUMBER = "\u{FFFD}\u{1F600}",
        BOARD_FRU_VERSION_ID = "A\u{FFFD}",
    ];
    // English by number 25
    b"\x01\x00\x00\x01\x00\x00\x00\xFE\x01\x02\x19\x00\x00\x00\xC4A\xE9\xACB\xC1\x00\x00\x00G" =>
        fields![BOARD_MANUFACTURER = "Aé¬B"];
    // each area has its own language
    b"\x01\x00\x00\x01\x03\x00\x00\xFB\x01\x02\x00\x00\x00\x00\xC2AB\xC1\x00\x00\x00\x00\x00\xF7\x01\x01\x01\xC2AB\xC1\xF7" =>
        fields![BOARD_MANUFACTURER = "AB", PRODUCT_MANUFACTURER = "䉁"];
    b"\x01\x00\x00\x01\x03\x00\x00\xFB\x01\x02\x01\x00\x00\x00\xC2AB\xC1\x00\x00\x00\x00\x00\xF6\x01\x01\x19\xC2AB\xC1\xDF" =>
        fields![BOARD_MANUFACTURER = "䉁", PRODUCT_MANUFACTURER = "AB"];
    // the chassis area has no language
    b"\x01\x00\x01\x00\x02\x00\x00\xFC\x01\x01\x01\xC2A\xE9\xC1\x50\x01\x01\xFF\xC2AB\xC1\xF9" =>
        fields![CHASSIS_TYPE = "1", CHASSIS_PART_NUMBER = "Aé", PRODUCT_MANUFACTURER = "䉁"];
    // an early end mark
    b"\x01\x00\x00\x01\x00\x00\x00\xFE\x01\x03\x00\x00\x00\x00\xC3ACM\xC1\xC2S1\xFF\xFF\x00\x00\x00\x00\x00\x00\x00c" =>
        fields![BOARD_MANUFACTURER = "ACM"];
    // end marks before the first field
    b"\x01\x00\x01\x02\x03\x00\x00\xF9\x01\x01\x03\xC1\x00\x00\x00\x3A\x01\x01\x00\x00\x00\x00\xC1\x3D\x01\x01\x00\xC1\x00\x00\x00\x3D" =>
        fields![CHASSIS_TYPE = "3"];
    // areas that overlap
    b"\x01\x00\x01\x00\x01\x00\x00\xFD\x01\x01\x00\xC1\x00\x00\x00=" => fields![CHASSIS_TYPE = "0"];
    // one area as board and product
    b"\x01\x00\x00\x01\x01\x00\x00\xFD\x01\x01\x00\xC2AB\xC1\xF8" =>
        fields![BOARD_MANUFACTURE_DATE = "2004-04-03 10:10", PRODUCT_MANUFACTURER = "AB"];
    // a product area inside a field of the board area
    b"\x01\x00\x00\x01\x02\x00\x00\xFC\x01\x03\x00\x00\x00\x00\x09\x00\x01\x01\x00\xC2AB\xC1\xF8\xC1\x00\x00\x00\x00\x00\x00\x32" =>
        fields![BOARD_MANUFACTURER = "00010100c24142c1f8", PRODUCT_MANUFACTURER = "AB"];
    // dates, from none to the last
    b"\x01\x00\x00\x01\x00\x00\x00\xFE\x01\x01\x00\x00\x00\x00\xC1\x3D" => fields![];
    b"\x01\x00\x00\x01\x00\x00\x00\xFE\x01\x01\x00\x01\x00\x00\xC1\x3C" =>
        fields![BOARD_MANUFACTURE_DATE = "1996-01-01 00:01"];
    b"\x01\x00\x00\x01\x00\x00\x00\xFE\x01\x01\x00\xC0\xA8\x00\xC1\xD5" =>
        fields![BOARD_MANUFACTURE_DATE = "1996-01-31 00:00"];
    b"\x01\x00\x00\x01\x00\x00\x00\xFE\x01\x01\x00\xE0\x4B\x01\xC1\x11" =>
        fields![BOARD_MANUFACTURE_DATE = "1996-02-29 00:00"];
    b"\x01\x00\x00\x01\x00\x00\x00\xFE\x01\x01\x00\x1F\x1A\x20\xC1\xE4" =>
        fields![BOARD_MANUFACTURE_DATE = "1999-12-31 23:59"];
    b"\x01\x00\x00\x01\x00\x00\x00\xFE\x01\x01\x00\x20\x1A\x20\xC1\xE3" =>
        fields![BOARD_MANUFACTURE_DATE = "2000-01-01 00:00"];
    b"\x01\x00\x00\x01\x00\x00\x00\xFE\x01\x01\x00\x9F\x6B\x21\xC1\x12" =>
        fields![BOARD_MANUFACTURE_DATE = "2000-02-29 23:59"];
    b"\x01\x00\x00\x01\x00\x00\x00\xFE\x01\x01\x00\x40\x1F\x28\xC1\xB6" =>
        fields![BOARD_MANUFACTURE_DATE = "2000-12-31 00:00"];
    b"\x01\x00\x00\x01\x00\x00\x00\xFE\x01\x01\x00\x90\x05\xE2\xC1\xC6" =>
        fields![BOARD_MANUFACTURE_DATE = "2024-02-29 12:00"];
    b"\x01\x00\x00\x01\x00\x00\x00\xFE\x01\x01\x00\xFF\xFF\xFF\xC1\x40" =>
        fields![BOARD_MANUFACTURE_DATE = "2027-11-24 20:15"];
};

#[test]
fn records(rt: HostRuntime) -> Result<(), Fail> {
    one_record();
    worked_records();
    worked_dates();
    for &(bytes, wanted) in RECORDS {
        assert_record(&rt, rt.alloc(), bytes, wanted)?;
    }
    Ok(())
}

macro_rules! refusals {
    ($($bytes:expr => $fault:ident($area:ident);)*) => {
        [$(($bytes, FruFault::$fault(Area::$area))),*]
    };
}

// Bytes, and the first rule that they break.
const REFUSALS: &[(&[u8], FruFault)] = &refusals! {
    b"\x01\x00\x00\x01\x00\x00\x00\xFE\x01\x00\x00\x00\x00\x00\xC1\x3E" => AreaLength(Board);
    b"\x01\x00\x00\x01\x00\x00\x00\xFE\x02\x00\x00\x00\x00\x00\xC1\x3D" => AreaVersion(Board);
    b"\x01\x00\x01\x00\x00\x00\x00\xFE\x01\x01\x17\xC0\xC0\xC0\xC0\xE7" => NoEnd(Chassis);
    b"\x01\x00\x01\x00\x00\x00\x00\xFE\x01\x01\x17\xC4\xC0\xC0\xC1\xE2" => FieldOutside(Chassis);
    // the first broken area is named
    b"\x01\x00\x01\x02\x00\x00\x00\xFC\x01\x01\x17\xC4\xC0\xC0\xC1\xE2" => FieldOutside(Chassis);
    b"\x01\x00\x00\x01\x04\x00\x00\xFA\x01\x03\x00\x00\x00\x00\xC3ACM\xC4RSR1\xC2S1\xC0\xC0\xC1\x00\x00\xF5\x01\x01\x00\xC1\x00\x00\x00\x3E" =>
        AreaChecksum(Product);
    b"\x01\x00\x00\x01\x02\x00\x00\xFC\x01\x01\x00\x00\x00\x00\xC1\x3D\x02\x01\x00\xC1\x00\x00\x00\x3D" =>
        AreaVersion(Product);
    b"\x01\x00\x00\x01\x02\x00\x00\xFC\x01\x01\x00\x00\x00\x00\xC1\x3D" => AreaOutside(Product);
    b"\x01\x00\x00\x01\x00\x00\x00\xFE\x01\x01\x00\x00\x00\x00\xC2\x3C" => FieldOutside(Board);
    b"\x01\x00\x00\x00\x01\x00\x00\xFE\x01\x01\x00\x00\x00\x00\x00\xFE" => NoEnd(Product);
    b"\x01\x00\x02\x01\x00\x00\x00\xFC\x01\x01\x00\x00\x00\x00\xC1\x3D" => AreaOutside(Chassis);
    // an area that overlaps a sound one
    b"\x01\x00\x00\x01\x02\x00\x00\xFC\x01\x03\x00\x00\x00\x00\x09\x00\x00\x00\x00\x00\x00\x00\x00\x01\xC1\x00\x00\x00\x00\x00\x00\x31" =>
        AreaVersion(Product);
};

#[test]
fn refused(rt: HostRuntime) {
    faults_name_rules();
    field_faults_by_positions();
    worked_faults();
    for &(bytes, fault) in REFUSALS {
        assert_fault(&rt, rt.alloc(), bytes, fault);
    }
}

#[test]
fn cut_or_changed_anywhere(rt: HostRuntime) {
    for end in 0..BOARD.len() {
        let fault = if end < 8 {
            FruFault::FruShort
        } else {
            FruFault::AreaOutside(Area::Board)
        };
        assert_fault(&rt, rt.alloc(), &BOARD[..end], fault);
    }
    for at in 0..BOARD.len() {
        let fault = match at {
            0 => FruFault::HeaderVersion,
            1..=7 => FruFault::HeaderChecksum,
            8 => FruFault::AreaVersion(Area::Board),
            9 => FruFault::AreaOutside(Area::Board),
            _ => FruFault::AreaChecksum(Area::Board),
        };
        let mut bytes = *BOARD;
        bytes[at] = bytes[at].wrapping_add(1);
        assert_fault(&rt, rt.alloc(), &bytes, fault);
    }
}

#[test]
fn long_records(rt: HostRuntime) -> Result<(), Fail> {
    let board: &[u8] = BOARD;
    let mut bytes = [0; 4097];
    bytes[..32].copy_from_slice(board);
    assert_record(&rt, rt.alloc(), &bytes[..4096], BOARD_FIELDS)?;
    assert_fault(&rt, rt.alloc(), &bytes, FruFault::FruTooLong);
    // the highest offset, with the area up to the last byte
    bytes[3] = 255;
    bytes[7] = 0;
    bytes[2040..2064].copy_from_slice(&board[8..]);
    assert_record(&rt, rt.alloc(), &bytes[..2064], BOARD_FIELDS)?;
    assert_fault(
        &rt,
        rt.alloc(),
        &bytes[..2063],
        FruFault::AreaOutside(Area::Board),
    );
    Ok(())
}

fn assert_text(rt: &impl Abort, given: Option<&str>, wanted: Option<&str>, name: &str) {
    match (given, wanted) {
        (Some(given), Some(wanted)) => assert_eq!(rt; given, wanted, "at {name}"),
        (None, None) => {}
        _ => assert!(rt; false, "at {name}"),
    }
}

#[test]
fn fields_by_name(rt: HostRuntime) -> Result<(), Fail> {
    let record = FruRecord::decode(rt.alloc(), WHOLE)?;
    let names = &[
        (FieldName::BoardSerialNumber, Some("S1")),
        (FieldName::Custom(Area::Board, 1), Some("Z")),
        (FieldName::BoardPartNumber, Some("")),
        (FieldName::Custom(Area::Board, 2), None),
        (FieldName::Custom(Area::Product, 1), None),
    ];
    for &(name, text) in names {
        assert_text(&rt, record.field_named(name), text, "a name");
    }
    let rows = &[
        ("BOARD_SERIAL_NUMBER", Some("S1")),
        ("BOARD_INFO_AM1", Some("Z")),
        ("BOARD_PART_NUMBER", Some("")),
        ("BOARD_INFO_AM2", None),
        ("BOARD_INFO_AM01", None),
        ("BOARD_INFO_AM", None),
        ("board_info_am1", None),
        ("", None),
    ];
    for &(name, text) in rows {
        assert_text(&rt, record.field(name), text, name);
    }
    Ok(())
}

fn texts(alloc: Global, from: &[&str]) -> Result<FieldTexts, OutOfMemory>
    ensures { IfOk result (λ texts. length texts ≡ length from.now) }
{
    let mut texts = FieldTexts::new(alloc)?;
    for text in from {
        texts.push(alloc, Text::copy(alloc, text)?)?;
    }
    Ok(texts)
}

fn repeated(alloc: Global, text: &str, count: u32) -> Result<FieldTexts, OutOfMemory> {
    let mut texts = FieldTexts::new(alloc)?;
    for _ in 0..count {
        texts.push(alloc, Text::copy(alloc, text)?)?;
    }
    Ok(texts)
}

fn board_of(
    alloc: Global,
    minutes: u32,
    named: &[&str],
    custom: FieldTexts,
) -> Result<Parts, OutOfMemory>
    requires { length named.now ≡ 5 }
    ensures { IfOk result HasNames }
{
    let named = texts(alloc, named)?;
    Ok(Parts {
        chassis: None,
        board: Some(BoardPart {
            minutes,
            named,
            custom,
        }),
        product: None,
    })
}

fn assert_built(rt: &impl Abort, alloc: Global, parts: &Parts, wanted: Result<&[u8], BuildFault>)
    requires { HasNames parts.now }
{
    match (build(alloc, parts), wanted) {
        (Ok(bytes), Ok(wanted)) => assert_eq!(rt; bytes.as_slice(), wanted),
        (Err(fault), Err(wanted)) => assert_eq!(rt; fault, wanted),
        (Ok(_), Err(wanted)) => assert!(rt; false, "no {wanted}"),
        (Err(fault), Ok(_)) => assert!(rt; false, "{fault}"),
    }
}

const LONG: &str = "xxxxxxxxxxxxxxxxxxxxxxxxxxxxxxxxxxxxxxxxxxxxxxxxxxxxxxxxxxxxxxx";

const TOO_LONG: &str = "xxxxxxxxxxxxxxxxxxxxxxxxxxxxxxxxxxxxxxxxxxxxxxxxxxxxxxxxxxxxxxxx";

macro_rules! boards {
    ($($minutes:expr, $named:expr => $wanted:expr;)*) => {
        [$(($minutes, $named, $wanted)),*]
    };
}

// Minutes and named texts of a board, and its record or why there is none.
const BOARDS: &[(u32, &[&str], Result<&[u8], BuildFault>)] = &boards! {
    0, &["ACM", "RSR1", "S1", "", ""] => Ok(BOARD);
    0xFF_FFFF, &["", "", "", "", ""] =>
        Ok(b"\x01\x00\x00\x01\x00\x00\x00\xFE\x01\x02\x00\xFF\xFF\xFF\xC0\xC0\xC0\xC0\xC0\xC1\x00\x00\x00\x7F");
    0x100_0000, &["ACM", "RSR1", "S1", "", ""] => Err(BuildFault::DateRange);
    0, &["\u{FF}\u{FF}", "", "", "", ""] =>
        Ok(b"\x01\x00\x00\x01\x00\x00\x00\xFE\x01\x02\x00\x00\x00\x00\xC2\xFF\xFF\xC0\xC0\xC0\xC0\xC1\x00\x7C");
    0, &["\u{100}\u{100}", "", "", "", ""] => Err(BuildFault::TextNotLatin);
    0, &[LONG, "", "", "", ""] =>
        Ok(b"\x01\x00\x00\x01\x00\x00\x00\xFE\x01\x0A\x00\x00\x00\x00\xFF\
            xxxxxxxxxxxxxxxxxxxxxxxxxxxxxxxxxxxxxxxxxxxxxxxxxxxxxxxxxxxxxxx\
            \xC0\xC0\xC0\xC0\xC1\x00\x00\x00\x00\xAD");
    0, &["ACM", TOO_LONG, "S1", "", ""] => Err(BuildFault::TextTooLong);
    0, &["\x1F", "", "", "", ""] => Err(BuildFault::OneByte);
    0, &[" ", "", "", "", ""] =>
        Ok(b"\x01\x00\x00\x01\x00\x00\x00\xFE\x01\x02\x00\x00\x00\x00\x81\x00\xC0\xC0\xC0\xC0\xC1\x00\x00\xBB");
    0, &["_", "", "", "", ""] =>
        Ok(b"\x01\x00\x00\x01\x00\x00\x00\xFE\x01\x02\x00\x00\x00\x00\x81\x3F\xC0\xC0\xC0\xC0\xC1\x00\x00\x7C");
    0, &["`", "", "", "", ""] => Err(BuildFault::OneByte);
    0, &["ACM", "RSR1", "S1", "", "\u{FF}"] => Err(BuildFault::OneByte);
    0, &["ACM", "\u{100}", "S1", "", ""] => Err(BuildFault::TextNotLatin);
    // rule by rule, whichever text comes first
    0x100_0000, &["\u{100}", "", "", "", ""] => Err(BuildFault::DateRange);
    0, &[TOO_LONG, "RSR1", "\u{100}", "", ""] => Err(BuildFault::TextNotLatin);
    0, &["a", "RSR1", TOO_LONG, "", ""] => Err(BuildFault::TextTooLong);
    0, &["a", "RSR1", "S1", "", ""] => Err(BuildFault::OneByte);
};

#[test]
fn built_boards(rt: HostRuntime) -> Result<(), Fail> {
    worked_parts();
    worked_build_faults();
    let alloc = rt.alloc();
    for &(minutes, named, wanted) in BOARDS {
        assert_eq!(rt; named.len(), 5);
        let parts = board_of(alloc, minutes, named, FieldTexts::new(alloc)?)?;
        assert_built(&rt, rt.alloc(), &parts, wanted);
    }
    Ok(())
}

#[test]
fn built_whole(rt: HostRuntime) -> Result<(), Fail> {
    built_is_read();
    let alloc = rt.alloc();
    let parts = Parts {
        chassis: Some(ChassisPart {
            chassis_type: 23,
            named: texts(alloc, &["P1", "S2"])?,
            custom: texts(alloc, &["X1"])?,
        }),
        board: Some(BoardPart {
            minutes: 65_537,
            named: texts(alloc, &["ACM", "RSR1", "S1", "", ""])?,
            custom: texts(alloc, &["Z"])?,
        }),
        product: Some(ProductPart {
            named: texts(alloc, &["n\u{E9}", "", "", "", "", "A", " "])?,
            custom: FieldTexts::new(alloc)?,
        }),
    };
    assert_built(&rt, rt.alloc(), &parts, Ok(WHOLE));
    Ok(())
}

#[test]
fn built_sizes(rt: HostRuntime) -> Result<(), Fail> {
    let alloc = rt.alloc();
    // custom texts of 63 characters, and the size of the record or the fault
    let rows = &[
        (0, Ok(152)),
        (29, Ok(2008)),
        (30, Err(BuildFault::AreaTooLong)),
    ];
    for &(count, wanted) in rows {
        let custom = repeated(alloc, LONG, count)?;
        let parts = board_of(alloc, 0, &[LONG, LONG, "", "", ""], custom)?;
        let size = build(alloc, &parts).map(|bytes| bytes.as_slice().len());
        assert_eq!(rt; size, wanted, "at {count}");
    }
    Ok(())
}

// A chassis area that holds 1,990 bytes and a text of so many letters.
fn long_chassis(alloc: Global, letters: u32) -> Result<ChassisPart, OutOfMemory>
    ensures { IfOk result (λ part. length part.named ≡ 2) }
{
    let named = texts(alloc, &[LONG, LONG])?;
    let mut custom = repeated(alloc, LONG, 29)?;
    let mut last = String::new(alloc);
    for _ in 0..letters {
        last.push('x')?;
    }
    custom.push(alloc, Text::copy(alloc, &last)?)?;
    Ok(ChassisPart {
        chassis_type: 1,
        named,
        custom,
    })
}

fn bare_board(alloc: Global) -> Result<BoardPart, OutOfMemory>
    ensures { IfOk result (λ part. length part.named ≡ 5) }
{
    Ok(BoardPart {
        minutes: 0,
        named: texts(alloc, &["", "", "", "", ""])?,
        custom: FieldTexts::new(alloc)?,
    })
}

#[test]
fn built_behind_long(rt: HostRuntime) -> Result<(), Fail> {
    let alloc = rt.alloc();
    // letters, whether a board area follows, and the size of the record or the fault
    let rows = &[
        (50, false, Ok(2048)),
        (51, false, Err(BuildFault::AreaTooLong)),
        (42, true, Ok(2056)),
        (43, true, Err(BuildFault::RecordTooLong)),
    ];
    for &(letters, followed, wanted) in rows {
        let board = if followed {
            Some(bare_board(alloc)?)
        } else {
            None
        };
        let parts = Parts {
            chassis: Some(long_chassis(alloc, letters)?),
            board,
            product: None,
        };
        let size = build(alloc, &parts).map(|bytes| bytes.as_slice().len());
        assert_eq!(rt; size, wanted, "at {letters}");
    }
    Ok(())
}

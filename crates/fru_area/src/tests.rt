use crate::{
    Area, Field, FieldList, FieldName, FieldText, FruFault, Header, append_area, area_bytes,
    area_sum, check_fields, field_text, is_english_language, read_area, read_header,
};
use std::alloc::Global;
use std::process::Abort;
use std::test::Fail;

// A record with a board area at byte 8: ACM, RSR1, S1 and two empty fields.
const RECORD: [u8; 32] = [
    0x01, 0x00, 0x00, 0x01, 0x00, 0x00, 0x00, 0xFE, 0x01, 0x03, 0x00, 0x00, 0x00, 0x00, 0xC3, 0x41,
    0x43, 0x4D, 0xC4, 0x52, 0x53, 0x52, 0x31, 0xC2, 0x53, 0x31, 0xC0, 0xC0, 0xC1, 0x00, 0x00, 0xF5,
];

const BOARD: Area = Area::Board;

const CHASSIS: Area = Area::Chassis;

#[test]
fn headers(rt: HostRuntime) {
    let one = Header {
        chassis: 0,
        board: 1,
        product: 0,
        multi: 0,
    };
    assert_eq!(rt; read_header(&RECORD), Ok(one));
    let four = Header {
        chassis: 2,
        board: 3,
        product: 4,
        multi: 5,
    };
    assert_eq!(rt; read_header(&[1, 0, 2, 3, 4, 5, 0, 0xF1]), Ok(four));
    let mut longest = [0; 4096];
    longest[0] = 1;
    longest[7] = 0xFF;
    assert!(rt; read_header(&longest).is_ok());
    assert_eq!(rt; area_sum(&RECORD[8..]), 0);
    assert_eq!(rt; area_sum(&[0xFF, 0x03]), 2);
}

// What is refused: a header, the board area of `RECORD`, or the fields of a chassis area. Of the record
// some bytes are written over, it ends before a byte, and the area begins at one.
#[derive(Clone, Copy, Debug)]
enum Given<'a> {
    Header(&'a [u8]),
    Record(&'a [(usize, u8)], usize, usize),
    Fields(&'a [u8]),
}

fn refusal(rt: &impl Abort, alloc: Global, given: Given<'_>) -> Option<FruFault> {
    match given {
        Given::Header(bytes) => read_header(bytes).err(),
        Given::Record(writes, end, start) => {
            let mut bytes = RECORD;
            for (at, value) in writes {
                assert!(rt; *at < bytes.len());
                bytes[*at] = *value;
            }
            assert!(rt; end <= bytes.len() && start <= 2040);
            area_bytes(BOARD, &bytes[..end], start).err()
        }
        Given::Fields(bytes) => {
            assert!(rt; !bytes.is_empty() && bytes.len() <= 2040);
            let checked = check_fields(CHASSIS, bytes, 0).err();
            let read = read_area(alloc, CHASSIS, bytes, 0, true, []).err();
            assert_eq!(rt; read, checked, "at {bytes:?}");
            checked
        }
    }
}

macro_rules! refusals {
    ($($given:ident($($part:expr),*) => $fault:ident$(($area:ident))?;)*) => {
        [$((Given::$given($($part),*), FruFault::$fault$(($area))?)),*]
    };
}

#[test]
fn refused(rt: HostRuntime) {
    let mut long = [0; 4097];
    long[0] = 1;
    long[7] = 0xFF;
    let rows = refusals! {
        Header(&[]) => FruShort;
        Header(&[2, 0, 0, 0, 0, 0, 0]) => FruShort;
        Header(&long) => FruTooLong;
        Header(&[2, 0, 0, 0, 0, 0, 0, 0]) => HeaderVersion;
        Header(&[0, 0, 0, 0, 0, 0, 0, 0]) => HeaderVersion;
        Header(&[1, 0, 0, 1, 0, 0, 0, 0xFF]) => HeaderChecksum;
        Record(&[], 31, 8) => AreaOutside(BOARD);
        Record(&[], 15, 8) => AreaOutside(BOARD);
        Record(&[], 32, 32) => AreaOutside(BOARD);
        Record(&[(8, 0)], 15, 8) => AreaOutside(BOARD);
        Record(&[(8, 0), (9, 4)], 32, 8) => AreaOutside(BOARD);
        Record(&[(8, 0)], 32, 8) => AreaVersion(BOARD);
        Record(&[(8, 2), (9, 0)], 32, 8) => AreaVersion(BOARD);
        Record(&[(9, 0)], 32, 8) => AreaLength(BOARD);
        Record(&[(31, 0)], 32, 8) => AreaChecksum(BOARD);
        Record(&[(9, 2)], 32, 8) => AreaChecksum(BOARD);
        Fields(&[0xC3, b'A', b'B', 0x00]) => FieldOutside(CHASSIS);
        Fields(&[0xFF, b'A', 0xC1, 0x00]) => FieldOutside(CHASSIS);
        Fields(&[0xC2, b'A', b'B', 0xC1]) => NoEnd(CHASSIS);
        Fields(&[0xC1]) => NoEnd(CHASSIS);
        Fields(&[0x00]) => NoEnd(CHASSIS);
    };
    for (given, fault) in rows {
        assert_eq!(rt;
            refusal(&rt, rt.alloc(), given),
            Some(fault),
            "at {given:?}"
        );
    }
}

fn assert_fields(rt: &impl Abort, fields: &FieldList, wanted: &[(FieldName, &str)]) {
    let fields = fields.as_slice();
    assert_eq!(rt; fields.len(), wanted.len());
    for (field, (name, text)) in fields.iter().zip(wanted) {
        assert_eq!(rt; field.name, *name);
        assert!(rt; field.is_named(*name) && !field.is_named(FieldName::Custom(CHASSIS, 0)));
        assert_eq!(rt; field.text.as_str(), *text);
    }
}

const SEVEN: [FieldName; 7] = [
    FieldName::BoardManufacturer,
    FieldName::BoardProductName,
    FieldName::BoardSerialNumber,
    FieldName::BoardPartNumber,
    FieldName::BoardFruVersionId,
    FieldName::ProductAssetTag,
    FieldName::ProductVersion,
];

#[test]
fn named_fields(rt: HostRuntime) -> Result<(), Fail> {
    let [first, second, third, fourth, fifth, _, _] = SEVEN;
    let area = area_bytes(BOARD, &RECORD, 8)?;
    assert_eq!(rt; area, &RECORD[8..]);
    let five = read_area(
        rt.alloc(),
        BOARD,
        area,
        6,
        true,
        [first, second, third, fourth, fifth],
    )?;
    let wanted = [
        (first, "ACM"),
        (second, "RSR1"),
        (third, "S1"),
        (fourth, ""),
        (fifth, ""),
    ];
    assert_fields(&rt, &five, &wanted);
    let seven = read_area(rt.alloc(), BOARD, area, 6, true, SEVEN)?;
    assert_fields(&rt, &seven, &wanted);
    let mut two = FieldList::new(rt.alloc())?;
    let text = FieldText::new("17").unwrap();
    two.push(
        rt.alloc(),
        Field {
            name: FieldName::ChassisType,
            text,
        },
    )?;
    append_area(
        &mut two,
        rt.alloc(),
        Area::Product,
        area,
        6,
        true,
        [first, second],
    )?;
    let wanted = [
        (FieldName::ChassisType, "17"),
        (first, "ACM"),
        (second, "RSR1"),
        (FieldName::Custom(Area::Product, 1), "S1"),
        (FieldName::Custom(Area::Product, 2), ""),
        (FieldName::Custom(Area::Product, 3), ""),
    ];
    assert_fields(&rt, &two, &wanted);
    Ok(())
}

macro_rules! rows {
    ($($given:expr => $wanted:expr;)*) => {
        [$(($given, $wanted)),*]
    };
}

#[test]
fn fields(rt: HostRuntime) -> Result<(), Fail> {
    // the bytes from the first field on, and the texts
    let rows: [(&[u8], &[&str]); 5] = rows! {
        &[0xC1, 0x00] => &[];
        &[0xC2, b'A', b'B', 0xC1, 0x00] => &["AB"];
        &[0xC0, 0xC0, 0xC1, 0xC0, 0x00] => &["", ""];
        &[0xC0, 0x01, 0xFF, 0xC1, 0x00] => &["", "ff"];
        &[0x01, 0xC1, 0xC1, 0x00] => &["c1"];
    };
    for (bytes, wanted) in rows {
        assert!(rt; !bytes.is_empty() && bytes.len() <= 2040);
        assert_eq!(rt; check_fields(CHASSIS, bytes, 0), Ok(()), "at {bytes:?}");
        let fields = read_area(rt.alloc(), CHASSIS, bytes, 0, true, [])?;
        let fields = fields.as_slice();
        assert_eq!(rt; fields.len(), wanted.len(), "at {bytes:?}");
        for (field, text) in fields.iter().zip(wanted) {
            assert_eq!(rt; field.text.as_str(), *text, "at {bytes:?}");
        }
    }
    Ok(())
}

// The types of a field, and whether its area counts as English. Only text by language looks at that.
const BINARY: &[(u8, bool)] = &[(0, true), (0, false)];

const BCD_PLUS: &[(u8, bool)] = &[(1, true), (1, false)];

const SIX_BIT: &[(u8, bool)] = &[(2, true), (2, false)];

const LATIN: &[(u8, bool)] = &[(3, true)];

const UNICODE: &[(u8, bool)] = &[(3, false)];

// As many bytes as a field can have, and one less.
const LONGEST: [u8; 63] = *b"ABCDEFGHIJKLMNOPQRSTUVWXYZabcdefghijklmnopqrstuvwxyz0123456789-";

const ALMOST_LONGEST: [u8; 62] = *b"ABCDEFGHIJKLMNOPQRSTUVWXYZabcdefghijklmnopqrstuvwxyz0123456789";

macro_rules! texts {
    ($($types:ident $bytes:expr => $text:literal;)*) => {
        [$(($types, $bytes, $text)),*]
    };
}

// Types and bytes of a field, and its text.
const TEXTS: &[(&[(u8, bool)], &[u8], &str)] = &texts! {
    BINARY &[0x0A, 0xFF] => "0aff";
    BINARY &[] => "";
    BINARY b"A" => "41";
    BINARY b"AB" => "4142";
    BINARY &ALMOST_LONGEST =>
        "4142434445464748494a4b4c4d4e4f505152535455565758595a6162636465666768696a6b6c6d6e6f707172737475767778797a30313233343536373839";
    BINARY &LONGEST =>
        "4142434445464748494a4b4c4d4e4f505152535455565758595a6162636465666768696a6b6c6d6e6f707172737475767778797a303132333435363738392d";
    BINARY &[0xFF; 63] =>
        "ffffffffffffffffffffffffffffffffffffffffffffffffffffffffffffffffffffffffffffffffffffffffffffffffffffffffffffffffffffffffffffff";
    BCD_PLUS &[0xAB, 0xCD, 0xEF] => " -.:,_";
    BCD_PLUS &[0x12, 0x90] => "1290";
    BCD_PLUS &[] => "";
    BCD_PLUS b"A" => "41";
    BCD_PLUS b"AB" => "4142";
    BCD_PLUS &ALMOST_LONGEST =>
        "4142434445464748494 4-4.4:4,4_505152535455565758595 6162636465666768696 6-6.6:6,6_707172737475767778797 30313233343536373839";
    BCD_PLUS &LONGEST =>
        "4142434445464748494 4-4.4:4,4_505152535455565758595 6162636465666768696 6-6.6:6,6_707172737475767778797 303132333435363738392:";
    BCD_PLUS &[0xFF; 63] =>
        "______________________________________________________________________________________________________________________________";
    SIX_BIT &[0x29, 0xDC, 0xA6] => "IPMI";
    SIX_BIT &[0x29, 0xDC, 0xA6, 0x29] => "IPMII";
    SIX_BIT &[0x29, 0xDC] => "IP";
    SIX_BIT &[0xFF, 0xFF, 0xFF] => "____";
    SIX_BIT &[] => "";
    SIX_BIT b"A" => "!";
    SIX_BIT b"AB" => "!)";
    SIX_BIT &ALMOST_LONGEST =>
        "!)T0$5D1'A42*M$3-YT30%E431556=%69I58B-&9E9V9HEF:KQ6;N]&<Q)W<T5G=WA7>Z!3,R,#-U8S-XD";
    SIX_BIT &LONGEST =>
        "!)T0$5D1'A42*M$3-YT30%E431556=%69I58B-&9E9V9HEF:KQ6;N]&<Q)W<T5G=WA7>Z!3,R,#-U8S-XD3+";
    SIX_BIT &[0xFF; 63] =>
        "____________________________________________________________________________________";
    LATIN b"A B" => "A B";
    LATIN &[0xE9, 0x00, 0x7F, 0x80] => "é\u{0}\u{7F}\u{80}";
    LATIN &[] => "";
    LATIN b"A" => "A";
    LATIN b"AB" => "AB";
    LATIN &ALMOST_LONGEST =>
        "ABCDEFGHIJKLMNOPQRSTUVWXYZabcdefghijklmnopqrstuvwxyz0123456789";
    LATIN &LONGEST =>
        "ABCDEFGHIJKLMNOPQRSTUVWXYZabcdefghijklmnopqrstuvwxyz0123456789-";
    LATIN &[0xFF; 63] =>
        "ÿÿÿÿÿÿÿÿÿÿÿÿÿÿÿÿÿÿÿÿÿÿÿÿÿÿÿÿÿÿÿÿÿÿÿÿÿÿÿÿÿÿÿÿÿÿÿÿÿÿÿÿÿÿÿÿÿÿÿÿÿÿÿ";
    UNICODE &[0x41, 0x00, 0xAC, 0x20] => "A€";
    UNICODE &[0x41, 0x00, 0x00, 0xD8, 0xFF] => "A\u{FFFD}\u{FFFD}";
    UNICODE &[0x3D, 0xD8, 0x00, 0xDE] => "\u{1F600}";
    UNICODE &[0x3D, 0xD8, 0x3D, 0xD8, 0x00, 0xDE] => "\u{FFFD}\u{1F600}";
    UNICODE &[0x3D, 0xD8, 0x00, 0xDE, 0x00, 0xDE] => "\u{1F600}\u{FFFD}";
    UNICODE &[0x3D, 0xD8, 0x00, 0xDE, 0x41] => "\u{1F600}\u{FFFD}";
    UNICODE &[0x3D, 0xD8, 0x41, 0x00] => "\u{FFFD}A";
    UNICODE &[0x3D, 0xD8, 0x00] => "\u{FFFD}\u{FFFD}";
    UNICODE &[0x00, 0xDE, 0x41, 0x00] => "\u{FFFD}A";
    UNICODE &[0x00, 0xDE, 0x3D, 0xD8] => "\u{FFFD}\u{FFFD}";
    UNICODE &[0x00, 0xD8, 0x00, 0xDC] => "\u{10000}";
    UNICODE &[0xFF, 0xDB, 0xFF, 0xDF] => "\u{10FFFF}";
    UNICODE &[0xFF, 0xDF, 0x00, 0xE0] => "\u{FFFD}\u{E000}";
    UNICODE &[0xFF, 0xD7, 0x00, 0xDC] => "\u{D7FF}\u{FFFD}";
    UNICODE &[] => "";
    UNICODE b"A" => "\u{FFFD}";
    UNICODE b"AB" => "䉁";
    UNICODE &ALMOST_LONGEST => "䉁䑃䙅䡇䩉䱋乍偏剑呓噕塗婙扡摣晥桧橩汫湭灯牱瑳癵硷穹\u{3130}㌲㔴㜶㤸";
    UNICODE &LONGEST => "䉁䑃䙅䡇䩉䱋乍偏剑呓噕塗婙扡摣晥桧橩汫湭灯牱瑳癵硷穹\u{3130}㌲㔴㜶㤸\u{FFFD}";
    UNICODE &[0xFF; 63] =>
        "\u{FFFF}\u{FFFF}\u{FFFF}\u{FFFF}\u{FFFF}\u{FFFF}\u{FFFF}\u{FFFF}\
            \u{FFFF}\u{FFFF}\u{FFFF}\u{FFFF}\u{FFFF}\u{FFFF}\u{FFFF}\u{FFFF}\
            \u{FFFF}\u{FFFF}\u{FFFF}\u{FFFF}\u{FFFF}\u{FFFF}\u{FFFF}\u{FFFF}\
            \u{FFFF}\u{FFFF}\u{FFFF}\u{FFFF}\u{FFFF}\u{FFFF}\u{FFFF}\u{FFFD}";
};

fn assert_text(rt: &impl Abort, types: &[(u8, bool)], bytes: &[u8], wanted: &str) {
    for (kind, english) in types {
        assert!(rt; *kind <= 3 && bytes.len() <= 63);
        let text = field_text(*kind, *english, bytes);
        assert_eq!(rt; text.as_str(), wanted, "type {kind} at {bytes:?}");
        assert_eq!(rt; text.copied().as_str(), wanted);
    }
}

#[test]
fn languages(rt: HostRuntime) {
    for (language, english) in [
        (0, true),
        (1, false),
        (24, false),
        (25, true),
        (26, false),
        (255, false),
    ] {
        assert_eq!(rt; is_english_language(language), english, "at {language}");
    }
}

#[test]
fn texts(rt: HostRuntime) {
    for &(types, bytes, wanted) in TEXTS {
        assert_text(&rt, types, bytes, wanted);
    }
}

// Names and their texts.
const NAMES: &[(FieldName, &str)] = &rows! {
    FieldName::ChassisType => "CHASSIS_TYPE";
    FieldName::ChassisPartNumber => "CHASSIS_PART_NUMBER";
    FieldName::ChassisSerialNumber => "CHASSIS_SERIAL_NUMBER";
    FieldName::BoardManufactureDate => "BOARD_MANUFACTURE_DATE";
    FieldName::BoardManufacturer => "BOARD_MANUFACTURER";
    FieldName::BoardProductName => "BOARD_PRODUCT_NAME";
    FieldName::BoardSerialNumber => "BOARD_SERIAL_NUMBER";
    FieldName::BoardPartNumber => "BOARD_PART_NUMBER";
    FieldName::BoardFruVersionId => "BOARD_FRU_VERSION_ID";
    FieldName::ProductManufacturer => "PRODUCT_MANUFACTURER";
    FieldName::ProductProductName => "PRODUCT_PRODUCT_NAME";
    FieldName::ProductPartNumber => "PRODUCT_PART_NUMBER";
    FieldName::ProductVersion => "PRODUCT_VERSION";
    FieldName::ProductSerialNumber => "PRODUCT_SERIAL_NUMBER";
    FieldName::ProductAssetTag => "PRODUCT_ASSET_TAG";
    FieldName::ProductFruVersionId => "PRODUCT_FRU_VERSION_ID";
    FieldName::Custom(Area::Chassis, 1) => "CHASSIS_INFO_AM1";
    FieldName::Custom(Area::Board, 10) => "BOARD_INFO_AM10";
    FieldName::Custom(Area::Product, 2040) => "PRODUCT_INFO_AM2040";
};

#[test]
fn names(rt: HostRuntime) -> Result<(), Fail> {
    for &(name, text) in NAMES {
        assert_eq!(rt; name.text().as_str(), text);
        let shown = format!(in rt.alloc(); "{name}")?;
        assert_eq!(rt; shown.as_str(), text);
        assert_eq!(rt; FieldName::read(text), Some(name));
    }
    let others = &[
        "",
        "BOARD",
        "board_part_number",
        "BOARD_PART_NUMBER ",
        "BOARD_INFO_AM",
        "BOARD_INFO_AM0",
        "BOARD_INFO_AM01",
        "BOARD_INFO_AM+1",
        "BOARD_INFO_AM2041",
        "BOARD_INFO_AM65537",
        "BOARD_INFO_AM1 ",
    ];
    for &text in others {
        assert_eq!(rt; FieldName::read(text), None, "at {text}");
    }
    let fault = FruFault::AreaOutside(BOARD);
    let shown = format!(in rt.alloc(); "{fault}")?;
    assert_eq!(rt; shown.as_str(), "the Board area reaches past the end");
    Ok(())
}

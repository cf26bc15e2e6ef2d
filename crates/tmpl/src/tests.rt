use crate::{Rendered, Spot, Template, TmplFault, fixed_number};
use bmc_base::Place;
use fru_record::FruRecord;
use std::alloc::Global;
use std::process::Abort;
use std::test::Fail;

// A chassis and a board. Their custom fields are X1, and 1234567890, 4294967295, 9876543210, é5, 60
// times A and 63 times B.
const RECORD: &[u8; 224] = b"\x01\x00\x01\x03\x00\x00\x00\xFB\
    \x01\x02\x17\xC2P1\xC242\xC2X1\xC1\x00\x00o\
    \x01\x19\x00\x00\x00\x00\xC3ACM\xC5RSR\x201\xC3007\xC9123456789\xC0\
    \xCA1234567890\xCA4294967295\xCA9876543210\xC2\xE95\
    \xFCAAAAAAAAAAAAAAAAAAAAAAAAAAAAAAAAAAAAAAAAAAAAAAAAAAAAAAAAAAAA\
    \xFFBBBBBBBBBBBBBBBBBBBBBBBBBBBBBBBBBBBBBBBBBBBBBBBBBBBBBBBBBBBBBBB\
    \xC1\x00\x00\x00\x00\x00\x00\xDE";

// A template in each line, and behind the arrow the name that it is rendered as, or what comes.

// Words and plain text, at address 80 of bus 1 under index 3.
const WORDS: &str = "CPU 1 => CPU 1
$ => $
$$ => $$
a$ => a$
$5 => $5
$9bus => $9bus
$ bus => $ bus
${bus} => ${bus}
$@$[$`${ => $@$[$`${
$é => $é
$bus$address$index => 1803
$BUS.$ADDRESS => 1.80
$$bus => $1
$bus$ => 1$
é$busé => é1é
$foo => (fault)
$Bus => (fault)
$INDEX => (fault)
$bus_1 => (fault)
$busy => (fault)
$bus1 => (fault)
$_ => (fault)
$a => (fault)
$z => (fault)
$A => (fault)
$Z => (fault)
CPU $bus $foo => (fault)";

// Operations there.
const OPERATIONS: &str = "A $address / 7 * 2 => A 22
S $address - 80 * 2 => S 0
$index + 1 => 4
$index - 3 => 0
$index * 99999 => 299997
$index / 2 => 1
$index % 2 => 1
$index + 5 - 2 * 9 / 4 % 7 => 6
$index + 1 * 2 => 8
$index + 00007 => 10
$index / 01 => 3
$index + 1$bus - 1 => 40
$index + 123456 => 123486
$index + 000007 => 37
$bus / 0 => (fault)
$bus % 0 => (fault)
$bus / 00000 => (fault)
$bus + 1 % 00 + 1 => (fault)
$bus / 000001 => (fault)
$bus * 0 => 0
$bus - 2 + 5 => (skip)
$address - 81 => (skip)
$address * 53687 * 1000 + 7295 => 4294967295
$address * 53687 * 1000 + 7296 => (skip)
$address * 53687 * 1001 => (skip)
$address * 53687 * 1001 / 1001 => (skip)";

// What is no operation there, and fields without a record.
const NEITHER: &str = "$index% => 3%
$bus +1 => 1 +1
$index+ 1 => 3+ 1
$index +  1 => 3 +  1
$index  + 1 => 3  + 1
$index +\t1 => 3 +\t1
$index + x => 3 + x
$index +  => 3 + 
$index + => 3 +
$index  => 3 
$index ^ 2 => 3 ^ 2
$index , 2 => 3 , 2
$index . 2 => 3 . 2
$index + 1 + x => 4 + x
$index + 1+ 1 => 4+ 1
$index + $bus => 3 + 1
$BOARD_PART_NUMBER => (skip)
$PRODUCT_ASSET_TAG + 1 => (skip)
CPU $CHASSIS_TYPE => (skip)
$BOARD_INFO_AM1 => (skip)
$CHASSIS_INFO_AM999 => (skip)
$PRODUCT_INFO_AM2040 => (skip)
$PRODUCT_INFO_AM2041 => (fault)
$BOARD_INFO_AM65537 => (fault)
$BOARD_INFO_AM0 => (fault)
$BOARD_INFO_AM01 => (fault)
$BOARD_INFO_AM => (fault)
$BOARD_INFO_AM+1 => (fault)
$board_serial_number => (fault)
$BOARD_SERIAL_NUMBER_ => (fault)";

// At address 127 of bus 255, with the record, under the highest index.
const WITH_A_RECORD: &str = "$bus/$address/$index => 255/127/4294967295
$index + 0 => 4294967295
$index + 1 => (skip)
$index * 2 => (skip)
$index - 99999 => 4294867296
$index / 99999 % 100 => 50
$BOARD_MANUFACTURER $BOARD_PRODUCT_NAME => ACM RSR 1
$CHASSIS_INFO_AM1-$CHASSIS_PART_NUMBER => X1-P1
$BOARD_SERIAL_NUMBER => 007
$BOARD_INFO_AM1 => 1234567890
$BOARD_INFO_AM4 => é5
A$BOARD_FRU_VERSION_ID. => A.
$BOARD_FRU_VERSION_ID => (skip)
$BOARD_MANUFACTURE_DATE => (skip)
$PRODUCT_VERSION => (skip)
$BOARD_INFO_AM7 => (skip)
$CHASSIS_INFO_AM2 => (skip)
$BOARD_SERIAL_NUMBER + 0 => 7
$CHASSIS_TYPE + 1 => 24
$CHASSIS_SERIAL_NUMBER * 100 % 9 => 6
$BOARD_PART_NUMBER * 34 => 4197530826
$BOARD_PART_NUMBER * 35 => (skip)
$BOARD_INFO_AM1 - 1 => (skip)
$BOARD_INFO_AM4 + 1 => (skip)
$BOARD_FRU_VERSION_ID + 1 => (skip)
$BOARD_PRODUCT_NAME + 1 => (skip)
$BOARD_PART_NUMBER +1 => 123456789 +1
$BOARD_INFO_AM6. => BBBBBBBBBBBBBBBBBBBBBBBBBBBBBBBBBBBBBBBBBBBBBBBBBBBBBBBBBBBBBBB.
$BOARD_INFO_AM6.. => (skip)
$BOARD_INFO_AM5$BOARD_INFO_AM4$BOARD_INFO_AM4 => (skip)";

// Without a place and without a record, under index 0.
const NOWHERE: &str = "$index => 0
$index - 1 => (skip)
$index % 7 => 0
$bus => (skip)
$ADDRESS => (skip)
$address * 0 => (skip)
$BOARD_PART_NUMBER * 0 => (skip)
CPU => CPU";

// Templates of numbers, and the number that each is up to a maximum, with the record.
const NUMBERS: &[(&str, u32, Option<u32>)] = &[
    ("0", 0, Some(0)),
    ("12", 12, Some(12)),
    ("12", 11, None),
    ("007", 7, Some(7)),
    ("4294967295", 4294967295, Some(4294967295)),
    ("4294967296", 4294967295, None),
    ("9999999999", 4294967295, None),
    ("00000000001", 4294967295, None),
    ("0x4C", 255, None),
    ("-1", 255, None),
    ("+1", 255, None),
    ("1 ", 255, None),
    ("one", 255, None),
    ("$bus", 255, Some(255)),
    ("$bus", 254, None),
    ("$address - 60", 255, Some(67)),
    ("$address - 128", 255, None),
    ("$address + 129", 255, None),
    ("$address + 128", 255, Some(255)),
    ("$index", 4294967295, Some(4294967295)),
    ("$index", 4294967294, None),
    ("$BOARD_SERIAL_NUMBER", 127, Some(7)),
    ("$BOARD_INFO_AM1", 4294967295, Some(1234567890)),
    ("$BOARD_INFO_AM2", 4294967295, Some(4294967295)),
    ("$BOARD_INFO_AM3", 4294967295, None),
    ("$BOARD_INFO_AM1 + 1", 4294967295, None),
    ("$BOARD_PART_NUMBER + 1", 4294967295, Some(123456790)),
    ("$BOARD_MANUFACTURER", 255, None),
    ("$BOARD_FRU_VERSION_ID", 255, None),
    ("$PRODUCT_VERSION", 255, None),
];

// Texts, and the number that each is without substitutions.
const FIXED: &[(&str, Option<u32>)] = &[
    ("0", Some(0)),
    ("007", Some(7)),
    ("255", Some(255)),
    ("000000001", Some(1)),
    ("999999999", Some(999999999)),
    ("1234567890", None),
    ("0000000001", None),
    ("0x4C", Some(76)),
    ("0x4c", Some(76)),
    ("0xaF", Some(175)),
    ("0x0", Some(0)),
    ("0x0000", Some(0)),
    ("0xFFFF", Some(65535)),
    ("0x10000", None),
    ("0x00001", None),
    ("0x", None),
    ("x4C", None),
    ("4C", None),
    ("0X4C", None),
    ("00x4", None),
    ("0x4G", None),
    ("0xg", None),
    ("0x/", None),
    ("0x:", None),
    ("0x@", None),
    ("0x`", None),
    ("0x+4", None),
    ("0x 4", None),
    ("0x٣", None),
    ("٣", None),
    ("-1", None),
    ("+5", None),
    (" 5", None),
    ("5 ", None),
    ("", None),
    ("$bus", None),
    ("1_000", None),
];

// Templates, whether each is fixed, whether it is one substitution, and whether it uses the index.
const KINDS: &[(&str, bool, bool, bool)] = &[
    ("CPU", true, false, false),
    ("$", true, false, false),
    ("$5 index", true, false, false),
    ("index", true, false, false),
    ("$bus", false, true, false),
    ("$index", false, true, true),
    ("$index + 1 % 2", false, true, true),
    ("$index ", false, false, true),
    (" $index", false, false, true),
    ("$index + 123456", false, false, true),
    ("$bus$index", false, false, true),
    ("$bus$address", false, false, false),
    ("$bus - 1", false, true, false),
    ("$bus -1", false, false, false),
    ("$BOARD_PART_NUMBER", false, true, false),
    ("$BOARD_PART_NUMBER$", false, false, false),
];

// Texts by length: the letter, how often it stands there, what stands behind it, and how many
// bytes the name has that it comes to.
const LENGTHS: &[(&str, usize, &str, Option<usize>)] = &[
    ("x", 64, "", Some(64)),
    ("x", 65, "", None),
    ("x", 128, "", None),
    ("é", 32, "", Some(64)),
    ("é", 32, "x", None),
    ("é", 64, "", None),
    ("x", 63, "$bus", Some(64)),
    ("x", 64, "$bus", None),
    ("x", 62, "$address", Some(64)),
    ("x", 63, "$address", None),
    ("x", 54, "$index", Some(55)),
    ("x", 124, "$bus", None),
    ("$$", 32, "", Some(64)),
    ("$$", 32, "$", None),
];

fn assert_line(rt: &impl Abort, alloc: Global, spot: &Spot<'_>, line: &str) {
    let (text, wanted) = line.split_once(" => ").unwrap_or((line, ""));
    match Template::parse(alloc, text) {
        Ok(template) => match template.render(spot) {
            Rendered::Given(name) => assert_eq!(rt; name.as_str(), wanted, "{text}"),
            Rendered::Skip => assert_eq!(rt; "(skip)", wanted, "{text}"),
        },
        Err(fault) => {
            assert_eq!(rt; fault, TmplFault::TemplateSyntax, "{text}");
            assert_eq!(rt; "(fault)", wanted, "{text}");
        }
    }
}

fn assert_lines(rt: &impl Abort, alloc: Global, spot: &Spot<'_>, lines: &str) {
    for line in lines.lines() {
        assert_line(rt, alloc, spot, line);
    }
}

#[test]
fn names(rt: HostRuntime) -> Result<(), Fail> {
    let alloc = rt.alloc();
    let spot = Spot {
        place: Place::new(1, 80),
        fru: None,
        index: 3,
    };
    assert_lines(&rt, alloc, &spot, WORDS);
    assert_lines(&rt, alloc, &spot, OPERATIONS);
    assert_lines(&rt, alloc, &spot, NEITHER);
    Ok(())
}

#[test]
fn names_with_a_record(rt: HostRuntime) -> Result<(), Fail> {
    let alloc = rt.alloc();
    let record = FruRecord::decode(alloc, RECORD)?;
    let spot = Spot {
        place: Place::new(255, 127),
        fru: Some(&record),
        index: u32::MAX,
    };
    assert_lines(&rt, alloc, &spot, WITH_A_RECORD);
    Ok(())
}

#[test]
fn names_nowhere(rt: HostRuntime) -> Result<(), Fail> {
    let spot = Spot {
        place: None,
        fru: None,
        index: 0,
    };
    assert_lines(&rt, rt.alloc(), &spot, NOWHERE);
    Ok(())
}

#[test]
fn numbers(rt: HostRuntime) -> Result<(), Fail> {
    let alloc = rt.alloc();
    let record = FruRecord::decode(alloc, RECORD)?;
    let spot = Spot {
        place: Place::new(255, 127),
        fru: Some(&record),
        index: u32::MAX,
    };
    for (text, max, wanted) in NUMBERS {
        let template = Template::parse(alloc, text)?;
        assert_eq!(rt; template.render_number(&spot, *max), *wanted, "{text}");
    }
    Ok(())
}

#[test]
fn fixed_numbers(rt: HostRuntime) -> Result<(), Fail> {
    for (text, wanted) in FIXED {
        assert_eq!(rt; fixed_number(text), *wanted, "{text}");
    }
    Ok(())
}

#[test]
fn kinds(rt: HostRuntime) -> Result<(), Fail> {
    let alloc = rt.alloc();
    for (text, fixed, single, index) in KINDS {
        let template = Template::parse(alloc, text)?;
        assert_eq!(rt; template.is_fixed(), *fixed, "{text}");
        assert_eq!(rt; template.is_single(), *single, "{text}");
        assert_eq!(rt; template.uses_index(), *index, "{text}");
    }
    Ok(())
}

#[test]
fn lengths(rt: HostRuntime) -> Result<(), Fail> {
    let alloc = rt.alloc();
    let spot = Spot {
        place: Place::new(1, 80),
        fru: None,
        index: 3,
    };
    for (letter, count, behind, wanted) in LENGTHS {
        let mut text = letter.repeat(alloc, *count)?;
        text.push_str(behind)?;
        let given = match Template::parse(alloc, text.as_str())?.render(&spot) {
            Rendered::Given(name) => Some(name.as_str().len()),
            Rendered::Skip => None,
        };
        assert_eq!(rt; given, *wanted, "{text}");
    }
    Ok(())
}

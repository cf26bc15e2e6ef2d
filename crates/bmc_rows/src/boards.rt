use crate::cases::{Shape, play_cases};
use crate::play::ALWAYS;
use std::test::Fail;

// Documents whose patterns match the board record.
const PRODUCT: &str =
    r#"{"Name":"R","Probe":"xyz.openbmc_project.FruDevice({'BOARD_PRODUCT_NAME': 'RSR'})"}"#;

const PRODUCT_END: &str =
    r#"{"Name":"P","Probe":"xyz.openbmc_project.FruDevice({'BOARD_PRODUCT_NAME': 'R1'})"}"#;

const SERIAL: &str =
    r#"{"Name":"S","Probe":"xyz.openbmc_project.FruDevice({'BOARD_SERIAL_NUMBER': 'S1'})"}"#;

const MAKER: &str =
    r#"{"Name":"M","Probe":"xyz.openbmc_project.FruDevice({'BOARD_MANUFACTURER': 'CM'})"}"#;

// Documents whose patterns do not: of another number, for an empty field, for another field, in lower case, and longer.
const OTHER_PRODUCT: &str =
    r#"{"Name":"N","Probe":"xyz.openbmc_project.FruDevice({'BOARD_PRODUCT_NAME': 'RSR2'})"}"#;

const OTHER_PART: &str =
    r#"{"Name":"B","Probe":"xyz.openbmc_project.FruDevice({'BOARD_PART_NUMBER': 'S1'})"}"#;

const OTHER_VERSION: &str =
    r#"{"Name":"C","Probe":"xyz.openbmc_project.FruDevice({'BOARD_FRU_VERSION_ID': 'S1'})"}"#;

const OTHER_MAKER: &str =
    r#"{"Name":"D","Probe":"xyz.openbmc_project.FruDevice({'BOARD_MANUFACTURER': 'RSR1'})"}"#;

const LOWER_MAKER: &str =
    r#"{"Name":"E","Probe":"xyz.openbmc_project.FruDevice({'BOARD_MANUFACTURER': 'acm'})"}"#;

const LONGER_MAKER: &str =
    r#"{"Name":"F","Probe":"xyz.openbmc_project.FruDevice({'BOARD_MANUFACTURER': 'ACMA'})"}"#;

const SCRIPTS: &str = r#"
== a FRU on a root bus has a board, and the same on bus 20 has none
block PRODUCT
plug 1 80 $
plug 20 80 $
unplug 1 80
-> Done
0 new board "R" 1 at 1 80
0 gone board "R" 1 at 1 80
fru 20 80$
== the last root bus, and the first bus that is none
block PRODUCT
plug 15 0 $
plug 16 0 $
unplug 15 0
unplug 16 0
-> Done
0 new board "R" 1 at 15 0
0 gone board "R" 1 at 15 0
== a board that comes back has its index again, and a new one gets the next
block PRODUCT
plug 1 81 $
plug 1 80 $
unplug 1 81
plug 1 79 $
plug 1 81 $
unplug 1 80
unplug 1 79
unplug 1 81
-> Done
0 new board "R" 1 at 1 81
0 new board "R" 2 at 1 80
0 gone board "R" 1 at 1 81
0 new board "R" 3 at 1 79
0 new board "R" 1 at 1 81
0 gone board "R" 2 at 1 80
0 gone board "R" 3 at 1 79
0 gone board "R" 1 at 1 81
== a FRU has a board of each configuration that its record matches, in the order of these
block SERIAL
block ALWAYS
block MAKER
block OTHER_PRODUCT
block PRODUCT_END
plug 0 0 $
unplug 0 0
-> Done
0 new board "A" 1
0 new board "S" 1 at 0 0
0 new board "M" 1 at 0 0
0 new board "P" 1 at 0 0
0 gone board "S" 1 at 0 0
0 gone board "M" 1 at 0 0
0 gone board "P" 1 at 0 0
== an empty field has no text in it, and another field does not count
block OTHER_PART
block OTHER_VERSION
block OTHER_MAKER
block LOWER_MAKER
block LONGER_MAKER
plug 1 80 $
-> Done
fru 1 80$
== the name of a configuration is quoted
block {"Name":"a\"\\\u0007é","Probe":"TRUE"}
-> Done
0 new board "a\"\\\x07é" 1
== each configuration counts its boards for itself
block PRODUCT
block SERIAL
plug 3 1 $
plug 2 1 $
plug 2 1 $
unplug 2 2
-> Refused
0 new board "R" 1 at 3 1
0 new board "S" 1 at 3 1
0 new board "R" 2 at 2 1
0 new board "S" 2 at 2 1
line 5 refused Occupied
line 6 refused NotPresent
fru 2 1$
fru 3 1$
== a record that is refused has no board
block PRODUCT
plug 1 80 00
plug 1 80 $
-> Refused
line 2 refused FruShort
0 new board "R" 1 at 1 80
fru 1 80$
== a configuration that is refused has none
block PRODUCT
block PRODUCT
block {}
plug 1 80 $
block ALWAYS
-> Refused
line 2 refused DuplicateName
line 3 refused MissingKey
0 new board "R" 1 at 1 80
line 5 refused ConfigAfterPlug
fru 1 80$
"#;

// Documents by their names.
const SHAPES: &[Shape] = &[
    ("PRODUCT", PRODUCT, ""),
    ("SERIAL", SERIAL, ""),
    ("ALWAYS", ALWAYS, ""),
    ("MAKER", MAKER, ""),
    ("OTHER_PRODUCT", OTHER_PRODUCT, ""),
    ("PRODUCT_END", PRODUCT_END, ""),
    ("OTHER_PART", OTHER_PART, ""),
    ("OTHER_VERSION", OTHER_VERSION, ""),
    ("OTHER_MAKER", OTHER_MAKER, ""),
    ("LOWER_MAKER", LOWER_MAKER, ""),
    ("LONGER_MAKER", LONGER_MAKER, ""),
];

#[test]
fn boards_come_and_go(rt: HostRuntime) -> Result<(), Fail> {
    play_cases(&rt, rt.alloc(), SCRIPTS, SHAPES)
}

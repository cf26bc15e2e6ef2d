use crate::play::Part::{Config, Many, Text, Times};
use crate::play::{ALWAYS, BOARD_FIELDS, BOARD_RECORD, Row, filled, play, play_rows, script_of};
use bmc_base::OutOfMemory;
use bmc_replay::Status::{self, Done, Refused};
use std::alloc::Global;
use std::fmt::Write;
use std::test::Fail;

// A FRU with the product name `RSR9` comes, goes and comes again.
const RETURNING: &str = "plug 1 80 01000001000000FE010300000000C341434DC452535239C25331C0C0C10000ED
unplug 1 80
plug 1 80 01000001000000FE010300000000C341434DC452535239C25331C0C0C10000ED
";

// Its row.
const RETURNED: &str =
    "fru 1 80 BOARD_MANUFACTURER=\"ACM\" BOARD_PRODUCT_NAME=\"RSR9\" BOARD_SERIAL_NUMBER=\"S1\" \
    BOARD_PART_NUMBER=\"\" BOARD_FRU_VERSION_ID=\"\"\n";

const SCRIPTS: &[Row] = &[
    (&[], Done, ""),
    (&[Text("plug 1 80 $\n")], Done, "fru 1 80$\n"),
    (&[Text("# nothing\n\n#\n")], Done, ""),
    // a comment, an empty line and a carriage return among commands, and a last line without a newline
    (
        &[Text("# a riser\n\nplug 1 80 $\r\n\r\nunplug 1 81")],
        Refused,
        "line 5 refused NotPresent\nfru 1 80$\n",
    ),
    // FRUs in another order than that of their places
    (
        &[Text("plug 1 81 $\nplug 1 80 $\nplug 0 127 $")],
        Done,
        "fru 0 127$\nfru 1 80$\nfru 1 81$\n",
    ),
    (
        &[Text(
            "plug 10 9 $\nplug 9 100 $\n\nplug 9 20 $\nplug 255 0 $\njump\nplug 0 127 $\nunplug 9 19\nplug 9 20 $",
        )],
        Refused,
        "line 6 refused UnknownCommand\nline 8 refused NotPresent\nline 9 refused Occupied\nfru 0 127$\nfru 9 20$\nfru 9 100$\nfru 10 9$\nfru 255 0$\n",
    ),
    // a place that is taken, and one that is free again
    (
        &[Text("plug 1 80 $\nplug 1 80 $\nunplug 1 80\nunplug 1 80\n")],
        Refused,
        "line 2 refused Occupied\nline 4 refused NotPresent\n",
    ),
    (
        &[Text("plug 1 80 $\nplug 2 0 $\nunplug 2 0\n")],
        Done,
        "fru 1 80$\n",
    ),
    (
        &[Text("plug 3 3 01000001000000FE\nunplug 3 3\nplug 3 3 $\nunplug 3 3\nplug 3 3 $\n")],
        Refused,
        "line 1 refused AreaOutside Board\nline 2 refused NotPresent\nfru 3 3$\n",
    ),
    // a record with a wrong sum, and one without its last byte, before one that is whole
    (
        &[Text(
            "plug 1 80 01000001000000FE010300000000C341434DC452535231C25331C0C0C10000F4\nplug 1 80 $",
        )],
        Refused,
        "line 1 refused AreaChecksum Board\nfru 1 80$\n",
    ),
    (
        &[Text(
            "plug 1 80 01000001000000FE010300000000C341434DC452535231C25331C0C0C10000\nplug 1 80 $",
        )],
        Refused,
        "line 1 refused AreaOutside Board\nfru 1 80$\n",
    ),
    // a taken place is said before a broken rule
    (
        &[Text("plug 1 80 $\nplug 1 80 00\n")],
        Refused,
        "line 2 refused Occupied\nfru 1 80$\n",
    ),
];

// Each reason why an item is refused, in the order of the items behind 256 configurations.
const REFUSALS: &[Row] = &[(
    &[
        Many(256),
        Times(9001, "#"),
        Text("\njump\n"),
        Text("plug 256 80\n"),
        Text("plug 256 80 0\n"),
        Text("plug 1 80 0\n"),
        Text("config 262145\n"),
        Times(262_145, "x"),
        Text("\n"),
        Config("{"),
        Config("0.5"),
        Config("[]"),
        Config("{}"),
        Config(r#"{"Name":""}"#),
        Config(r#"{"Name":"A","Probe":"TRU"}"#),
        Config(r#"{"Name":"A","Probe":"TRUE","Exposes":[{"Name":"$x","Type":"Fan"}]}"#),
        Config(
            r#"{"Name":"A","Probe":["TRUE","MATCH_ONE"],"Exposes":[{"Name":"x","Type":"Mux","Channels":["$bus"]}]}"#,
        ),
        Config(r#"{"Name":"A","Probe":"xyz.openbmc_project.FruDevice({'BUS': '('})"}"#),
        Config(r#"{"Name":"1","Probe":"TRUE"}"#),
        Config(ALWAYS),
        Text("unplug 1 80\n"),
        Text("plug 1 80 01000000000000\n"),
        Text("plug 1 80 $"),
        Times(4065, "00"),
        Text("\n"),
        Text("plug 1 80 02000000000000FE\n"),
        Text("plug 1 80 01000000000000FE\n"),
        Text("plug 1 80 01000100000000FE\n"),
        Text("plug 1 80 01000001000000FE020100000000C13C\n"),
        Text("plug 1 80 01000000010000FE010000C10000003E\n"),
        Text("plug 1 80 01000100000000FE010117C100000027\n"),
        Text("plug 1 80 01000001000000FE010100000000C33B\n"),
        Text("plug 1 80 01000000010000FE010100C0C0C0C0FE\n"),
        Text("plug 1 80 $\n"),
        Text("plug 1 80 $\n"),
        Config(ALWAYS),
        Text("config 1\n"),
    ],
    Refused,
    r#"line 257 refused LineTooLong
line 258 refused UnknownCommand
line 259 refused BadArguments
line 260 refused PlaceRange
line 261 refused BadHex
line 262 refused ConfigTooLong
line 263 refused NotJson
line 264 refused Fraction
line 265 refused WrongKind
line 266 refused MissingKey
line 267 refused OutOfRange
line 268 refused ProbeSyntax
line 269 refused TemplateSyntax
line 270 refused MuxMatchOne
line 271 refused PatternSyntax
line 272 refused DuplicateName
line 273 refused ConfigLimit
line 274 refused NotPresent
line 275 refused FruShort
line 276 refused FruTooLong
line 277 refused HeaderVersion
line 278 refused HeaderChecksum
line 279 refused AreaOutside Chassis
line 280 refused AreaVersion Board
line 281 refused AreaLength Product
line 282 refused AreaChecksum Chassis
line 283 refused FieldOutside Board
line 284 refused NoEnd Product
line 286 refused Occupied
line 287 refused ConfigAfterPlug
line 288 refused ConfigShort
fru 1 80$
"#,
)];

#[test]
fn whole_scripts(rt: HostRuntime) -> Result<(), Fail> {
    play_rows(&rt, rt.alloc(), SCRIPTS)?;
    play_rows(&rt, rt.alloc(), REFUSALS)
}

// Lines behind 256 FRUs: no other may come before one goes, and a broken record or a taken place is said first.
const BEHIND_THE_LAST: &str =
    "plug 2 2 $\nplug 2 2 00\nplug 20 0 $\nunplug 20 0\nplug 2 2 $\nplug 20 0 $\n";

const REFUSED_BEHIND: &str =
    "line 3515 refused FruLimit\nline 3516 refused FruShort\nline 3517 refused Occupied\n\
    line 3520 refused FruLimit\n";

// The record of a board with a manufacturer of 63 times `A`, and a product name of 63 times `B`.
fn long_record(alloc: Global) -> Result<String, OutOfMemory> {
    let mut record = String::from_str(alloc, "01000001000000FE011200000000FF")?;
    for _ in 0..63 {
        record.push_str("41")?;
    }
    record.push_str("FF")?;
    for _ in 0..63 {
        record.push_str("42")?;
    }
    record.push_str("C0C0C0C10000000000B1")?;
    Ok(record)
}

// The fields of its row.
fn long_fields(alloc: Global) -> Result<String, OutOfMemory> {
    let mut fields = String::from_str(alloc, " BOARD_MANUFACTURER=\"")?;
    for _ in 0..63 {
        fields.push('A')?;
    }
    fields.push_str("\" BOARD_PRODUCT_NAME=\"")?;
    for _ in 0..63 {
        fields.push('B')?;
    }
    fields.push_str(
        "\" BOARD_SERIAL_NUMBER=\"\" BOARD_PART_NUMBER=\"\" BOARD_FRU_VERSION_ID=\"\"",
    )?;
    Ok(fields)
}

// A script whose texts are longer than what is gathered: many refused lines, many boards that come, go and come again
// with their FRU, and as many FRUs as may be, of which the last one in the list comes first.
#[test]
fn long_texts(rt: HostRuntime) -> Result<(), Fail> {
    let mut script = script_of(
        rt.alloc(),
        &[Many(256), Times(3000, "x\n"), Text(RETURNING)],
    )?;
    let mut text = String::new(rt.alloc());
    for number in 257..3257 {
        write!(text, "line {number} refused UnknownCommand\n")?;
    }
    for change in ["new", "gone", "new"] {
        for number in 1..=256 {
            write!(text, "0 {change} board \"{number}\" 1 at 1 80\n")?;
        }
    }
    text.push_str(REFUSED_BEHIND)?;
    text.push_str(RETURNED)?;
    write!(text, "fru 2 2{BOARD_FIELDS}\n")?;
    let record = long_record(rt.alloc())?;
    let fields = long_fields(rt.alloc())?;
    for bus in 20..25u32 {
        for address in 0..51u32 {
            if (bus, address) != (20, 0) {
                write!(text, "fru {bus} {address}{fields}\n")?;
            }
            let line = format!(in rt.alloc(); "plug {} {} {record}\n", 44 - bus, 50 - address)?;
            script.extend_from_slice(line.as_bytes())?;
        }
    }
    let behind = filled(rt.alloc(), BEHIND_THE_LAST, BOARD_RECORD)?;
    script.extend_from_slice(behind.as_bytes())?;
    play(
        &rt,
        rt.alloc(),
        script.as_slice(),
        Status::Refused,
        text.as_str(),
    )
}

use crate::play::Part::{Config, Many, Text, Times};
use crate::play::{ALWAYS, ALWAYS_BOARD, Row, UNKNOWN, play_rows};
use bmc_replay::Status::{Done, Refused};
use std::test::Fail;

// How many bytes a line has before its newline, a block, and a record, and how many configurations there are, at most.
const LONGEST_LINE: usize = 9000;

const LONGEST_BLOCK: usize = 262_144;

const LONGEST_RECORD: usize = 4096;

const MOST_CONFIGURATIONS: usize = 256;

// The spaces behind a document that make it the longest block.
const SPACES: usize = LONGEST_BLOCK - ALWAYS.len();

// The bytes behind the 32 of the board record that make it the longest record.
const ZEROS: usize = LONGEST_RECORD - 32;

// What is printed of a first line that is too long.
const TOO_LONG: &str = "line 1 refused LineTooLong\n";

const LINES: &[Row] = &[
    (&[Times(LONGEST_LINE, "#")], Done, ""),
    (&[Times(LONGEST_LINE, "#"), Text("\n")], Done, ""),
    (&[Times(LONGEST_LINE - 1, "#"), Text("\r\n")], Done, ""),
    (&[Times(LONGEST_LINE - 1, "#"), Text("\r")], Done, ""),
    (&[Times(LONGEST_LINE + 1, "#")], Refused, TOO_LONG),
    (
        &[Times(LONGEST_LINE + 1, "#"), Text("\n")],
        Refused,
        TOO_LONG,
    ),
    (&[Times(LONGEST_LINE, "#"), Text("\r\n")], Refused, TOO_LONG),
    (&[Times(200_000, "#"), Text("\n#")], Refused, TOO_LONG),
    (
        &[Times(70_000, "#"), Text("\n#\n\njump")],
        Refused,
        "line 1 refused LineTooLong\nline 4 refused UnknownCommand\n",
    ),
    // with other faults besides, and as long as may be with them
    (&[Times(LONGEST_LINE, "j")], Refused, UNKNOWN),
    (&[Times(LONGEST_LINE + 1, "j")], Refused, TOO_LONG),
    (
        &[Text("unplug 1 "), Times(LONGEST_LINE - 9, "0")],
        Refused,
        "line 1 refused BadArguments\n",
    ),
    (
        &[Text("unplug 1 "), Times(LONGEST_LINE - 8, "0")],
        Refused,
        TOO_LONG,
    ),
    (
        &[
            Text("plug 256 80 "),
            Times(LONGEST_LINE - 12, "z"),
            Text("\n"),
        ],
        Refused,
        "line 1 refused PlaceRange\n",
    ),
    (
        &[
            Text("plug 256 80 "),
            Times(LONGEST_LINE - 11, "z"),
            Text("\n"),
        ],
        Refused,
        TOO_LONG,
    ),
    // a record, in a line that is as long as may be, and in one that is longer
    (
        &[Text("plug 1 80 "), Times(LONGEST_LINE - 10, "0")],
        Refused,
        "line 1 refused FruTooLong\n",
    ),
    (
        &[
            Text("plug 1 80 "),
            Times(LONGEST_LINE - 10, "0"),
            Text("0\n"),
        ],
        Refused,
        TOO_LONG,
    ),
    // no block belongs to a line that is too long
    (
        &[Text("config 2"), Times(LONGEST_LINE, " "), Text("\n{}\n")],
        Refused,
        "line 1 refused LineTooLong\nline 2 refused UnknownCommand\n",
    ),
];

const BLOCKS: &[Row] = &[
    (
        &[Text("config 262144\n"), Text(ALWAYS), Times(SPACES, " ")],
        Done,
        ALWAYS_BOARD,
    ),
    (
        &[
            Text("config 262144\n"),
            Text(ALWAYS),
            Times(SPACES, " "),
            Text("\n"),
        ],
        Done,
        ALWAYS_BOARD,
    ),
    (
        &[
            Text("config 262144\n"),
            Text(ALWAYS),
            Times(SPACES, " "),
            Text("\njump"),
        ],
        Refused,
        "0 new board \"A\" 1\nline 2 refused UnknownCommand\n",
    ),
    (
        &[
            Text("config 262144\n"),
            Text(ALWAYS),
            Times(SPACES, " "),
            Text("\r\njump"),
        ],
        Refused,
        "0 new board \"A\" 1\nline 3 refused UnknownCommand\n",
    ),
    (
        &[
            Text("config 262144\n"),
            Text(ALWAYS),
            Times(SPACES - 1, " "),
        ],
        Refused,
        "line 1 refused ConfigShort\n",
    ),
    (
        &[
            Text("config 262145\n"),
            Text(ALWAYS),
            Times(SPACES + 1, " "),
            Text("\njump"),
        ],
        Refused,
        "line 1 refused ConfigTooLong\nline 2 refused UnknownCommand\n",
    ),
    (
        &[
            Text("config 262145\n"),
            Text(ALWAYS),
            Times(SPACES + 1, " "),
            Text("jump"),
        ],
        Refused,
        "line 1 refused ConfigTooLong\nline 2 refused UnknownCommand\n",
    ),
    (
        &[Text("config 262145\n"), Text(ALWAYS), Times(SPACES, " ")],
        Refused,
        "line 1 refused ConfigTooLong\n",
    ),
];

const RECORDS: &[Row] = &[
    (
        &[Text("plug 5 0 $"), Times(ZEROS, "00")],
        Done,
        "fru 5 0$\n",
    ),
    (
        &[Text("plug 5 0 $"), Times(ZEROS + 1, "00")],
        Refused,
        "line 1 refused FruTooLong\n",
    ),
];

const CONFIGURATIONS: &[Row] = &[
    (&[Many(MOST_CONFIGURATIONS)], Done, ""),
    (
        &[Many(MOST_CONFIGURATIONS), Config(ALWAYS)],
        Refused,
        "line 257 refused ConfigLimit\n",
    ),
    // a name that was given, and a document that is refused by itself
    (
        &[
            Many(MOST_CONFIGURATIONS),
            Config(r#"{"Name":"256","Probe":"TRUE"}"#),
        ],
        Refused,
        "line 257 refused DuplicateName\n",
    ),
    (
        &[Many(MOST_CONFIGURATIONS), Config("{}")],
        Refused,
        "line 257 refused MissingKey\n",
    ),
    (
        &[
            Many(MOST_CONFIGURATIONS),
            Text("plug 1 80 $\n"),
            Config(ALWAYS),
        ],
        Refused,
        "line 258 refused ConfigAfterPlug\nfru 1 80$\n",
    ),
    // a configuration that was refused does not count
    (
        &[
            Many(MOST_CONFIGURATIONS - 1),
            Config("{}"),
            Config(ALWAYS),
            Config(r#"{"Name":"B","Probe":"TRUE"}"#),
        ],
        Refused,
        "line 256 refused MissingKey\n0 new board \"A\" 1\nline 258 refused ConfigLimit\n",
    ),
];

#[test]
fn long_blocks(rt: HostRuntime) -> Result<(), Fail> {
    play_rows(&rt, rt.alloc(), BLOCKS)
}

#[test]
fn limits(rt: HostRuntime) -> Result<(), Fail> {
    play_rows(&rt, rt.alloc(), LINES)?;
    play_rows(&rt, rt.alloc(), RECORDS)?;
    play_rows(&rt, rt.alloc(), CONFIGURATIONS)
}

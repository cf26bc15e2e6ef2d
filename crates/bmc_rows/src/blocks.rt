use crate::play::Part::{Config, Text};
use crate::play::{ALWAYS, ALWAYS_BOARD, Row, play_rows};
use bmc_replay::Status::{Done, Refused};
use std::test::Fail;

// A document of more than one line, and documents with other names.
const LINES: &str = "{\n\"Name\":\"A\",\n\"Probe\":\"TRUE\"}";

const OTHER: &str = r#"{"Name":"B","Probe":"TRUE"}"#;

const LOWER: &str = r#"{"Name":"a","Probe":"TRUE"}"#;

const ESCAPED: &str = r#"{"Name":"\u0041","Probe":"TRUE"}"#;

const EXPOSING: &str = r#"{"Name":"A","Probe":"TRUE","Exposes":[{"Name":"x","Type":"Pid"}]}"#;

// What stands behind a block.
const ENDS: &[Row] = &[
    (&[Config(ALWAYS), Text("\n")], Done, ALWAYS_BOARD),
    (&[Config(ALWAYS)], Done, ALWAYS_BOARD),
    (&[Config(ALWAYS), Text("\n\n")], Done, ALWAYS_BOARD),
    (&[Config(ALWAYS), Text("\r")], Done, ALWAYS_BOARD),
    (&[Config(LINES), Text("\n\n")], Done, ALWAYS_BOARD),
    (
        &[Config(LINES), Text("\njump\n")],
        Refused,
        "0 new board \"A\" 1\nline 2 refused UnknownCommand\n",
    ),
    (
        &[Config(ALWAYS), Text("\r\njump\n")],
        Refused,
        "0 new board \"A\" 1\nline 3 refused UnknownCommand\n",
    ),
    (
        &[Config(ALWAYS), Text("\n\njump\n")],
        Refused,
        "0 new board \"A\" 1\nline 3 refused UnknownCommand\n",
    ),
    (
        &[Config(ALWAYS), Text("\njump")],
        Refused,
        "0 new board \"A\" 1\nline 2 refused UnknownCommand\n",
    ),
    (
        &[Config(ALWAYS), Text("jump\n")],
        Refused,
        "0 new board \"A\" 1\nline 2 refused UnknownCommand\n",
    ),
    (
        &[Config(ALWAYS), Text("\rjump\n")],
        Refused,
        "0 new board \"A\" 1\nline 2 refused UnknownCommand\n",
    ),
    // blocks that look like lines
    (
        &[Config("config 1\n"), Text("\njump")],
        Refused,
        "line 1 refused NotJson\nline 2 refused UnknownCommand\n",
    ),
    (
        &[Config("plug 1 80 00"), Text("\njump\n")],
        Refused,
        "line 1 refused NotJson\nline 2 refused UnknownCommand\n",
    ),
];

// Sizes that are asked for.
const SIZES: &[Row] = &[
    // none
    (&[Text("config 0")], Refused, "line 1 refused NotJson\n"),
    (&[Text("config 0\n")], Refused, "line 1 refused NotJson\n"),
    (
        &[Text("config 0\n\njump\n")],
        Refused,
        "line 1 refused NotJson\nline 2 refused UnknownCommand\n",
    ),
    (
        &[Text("config 0\njump\n")],
        Refused,
        "line 1 refused NotJson\nline 2 refused UnknownCommand\n",
    ),
    (
        &[Text("config 0\n\r\njump\n")],
        Refused,
        "line 1 refused NotJson\nline 3 refused UnknownCommand\n",
    ),
    // as many as there are, and more
    (
        &[Text("config 2\n{}")],
        Refused,
        "line 1 refused MissingKey\n",
    ),
    (
        &[Text("config 3\n{}")],
        Refused,
        "line 1 refused ConfigShort\n",
    ),
    (
        &[Text("config 2\n{")],
        Refused,
        "line 1 refused ConfigShort\n",
    ),
    (&[Text("config 1")], Refused, "line 1 refused ConfigShort\n"),
    (
        &[Text("config 1\n")],
        Refused,
        "line 1 refused ConfigShort\n",
    ),
    (
        &[Text("config 1\r")],
        Refused,
        "line 1 refused ConfigShort\n",
    ),
    (
        &[Text("config 262144\n{}\njump\n")],
        Refused,
        "line 1 refused ConfigShort\n",
    ),
    // too many, whether they come or not
    (
        &[Text("config 262145\n{}\njump\n")],
        Refused,
        "line 1 refused ConfigTooLong\n",
    ),
    (
        &[Text("config 999999999")],
        Refused,
        "line 1 refused ConfigTooLong\n",
    ),
    (
        &[Text("jump\n#\nconfig 262145\n")],
        Refused,
        "line 1 refused UnknownCommand\nline 3 refused ConfigTooLong\n",
    ),
    // in other forms
    (
        &[Text("config 000000002\n{}\njump")],
        Refused,
        "line 1 refused MissingKey\nline 2 refused UnknownCommand\n",
    ),
    (
        &[Text("config 2\r\n{}\r\njump")],
        Refused,
        "line 1 refused MissingKey\nline 3 refused UnknownCommand\n",
    ),
    (
        &[Text("#config 1\njump\n")],
        Refused,
        "line 2 refused UnknownCommand\n",
    ),
];

// More than one configuration, and FRUs before and behind them.
const ORDERS: &[Row] = &[
    (
        &[Config(ALWAYS), Text("\n"), Config(OTHER), Text("\n")],
        Done,
        "0 new board \"A\" 1\n0 new board \"B\" 1\n",
    ),
    (
        &[Config(ALWAYS), Config(OTHER), Config(ALWAYS), Text("\n")],
        Refused,
        "0 new board \"A\" 1\n0 new board \"B\" 1\nline 3 refused DuplicateName\n",
    ),
    (
        &[Config(ALWAYS), Text("\n"), Config(ESCAPED), Text("\n")],
        Refused,
        "0 new board \"A\" 1\nline 2 refused DuplicateName\n",
    ),
    (
        &[Config(ALWAYS), Text("\n"), Config(LOWER), Text("\n")],
        Done,
        "0 new board \"A\" 1\n0 new board \"a\" 1\n",
    ),
    (
        &[Config(EXPOSING), Text("\n"), Config(ALWAYS), Text("\n")],
        Refused,
        "line 1 refused MissingKey\n0 new board \"A\" 1\n",
    ),
    (
        &[Config(ALWAYS), Text("\n"), Config(EXPOSING), Text("\n")],
        Refused,
        "0 new board \"A\" 1\nline 2 refused MissingKey\n",
    ),
    (
        &[
            Config(ALWAYS),
            Text("\n\n# x\n"),
            Config("[]"),
            Text("\n"),
            Config(ALWAYS),
        ],
        Refused,
        "0 new board \"A\" 1\nline 4 refused WrongKind\nline 5 refused DuplicateName\n",
    ),
    (
        &[Config(ALWAYS), Text("\nconfig 40\n{}\n")],
        Refused,
        "0 new board \"A\" 1\nline 2 refused ConfigShort\n",
    ),
    (
        &[Config(ALWAYS), Text("\nplug 1 80 $\n")],
        Done,
        "0 new board \"A\" 1\nfru 1 80$\n",
    ),
    (
        &[
            Config(ALWAYS),
            Text("plug 1 80 $\n"),
            Config(OTHER),
            Text("\n"),
        ],
        Refused,
        "0 new board \"A\" 1\nline 3 refused ConfigAfterPlug\nfru 1 80$\n",
    ),
    (
        &[Text("plug 1 80 $\n"), Config(ALWAYS), Text("\n")],
        Refused,
        "line 2 refused ConfigAfterPlug\nfru 1 80$\n",
    ),
    (
        &[
            Text("plug 1 80 $\nunplug 1 80\n"),
            Config(ALWAYS),
            Text("\n"),
        ],
        Refused,
        "line 3 refused ConfigAfterPlug\n",
    ),
    (
        &[
            Text("plug 1 80 00\nunplug 1 80\n"),
            Config(ALWAYS),
            Config(ALWAYS),
        ],
        Refused,
        "line 1 refused FruShort\nline 2 refused NotPresent\n0 new board \"A\" 1\nline 4 refused DuplicateName\n",
    ),
    (
        &[Text("plug 1 80 $\n"), Config("{}"), Text("\nunplug 1 80\n")],
        Refused,
        "line 2 refused MissingKey\n",
    ),
    (
        &[
            Config(ALWAYS),
            Text("\nplug 1 80 $\n"),
            Config(ALWAYS),
            Text("\nunplug 1 80\n"),
        ],
        Refused,
        "0 new board \"A\" 1\nline 3 refused ConfigAfterPlug\n",
    ),
    (
        &[Text("plug 1 80 $\nconfig 1\n")],
        Refused,
        "line 2 refused ConfigShort\nfru 1 80$\n",
    ),
];

#[test]
fn blocks(rt: HostRuntime) -> Result<(), Fail> {
    play_rows(&rt, rt.alloc(), ENDS)?;
    play_rows(&rt, rt.alloc(), SIZES)?;
    play_rows(&rt, rt.alloc(), ORDERS)
}

use crate::cases::{Shape, play_cases};
use std::test::Fail;

// Multiplexers with moving channels: of each board record, and of FRUs at address 112 alone.
const RISER: &str =
    r#"{"Name":"W","Probe":"xyz.openbmc_project.FruDevice({'BOARD_PRODUCT_NAME': '^RSR1$'})",
    "Exposes":[{"Name":"Slot $bus","Type":"Mux","Channels":["$address - 60"]}]}"#;

const RISER_112: &str =
    r#"{"Name":"V","Probe":["TRUE","OR","xyz.openbmc_project.FruDevice({'ADDRESS': 112})"],
    "Exposes":[{"Name":"Slot","Type":"Mux","Channels":["$address - 60"]}]}"#;

// A card, which is found by its product name `RSR3`, and one that is found at address 1.
const LEAF: &str =
    r#"{"Name":"L","Probe":"xyz.openbmc_project.FruDevice({'BOARD_PRODUCT_NAME': '^RSR3$'})"}"#;

const CARD: &str = r#"{"Name":"C","Probe":"xyz.openbmc_project.FruDevice({'ADDRESS': 1})"}"#;

const SCRIPTS: &str = r#"
== a card that was plugged before comes with the riser that leads to its bus
block RISER
block LEAF
plug 20 80 01000001000000FE010300000000C341434DC452535233C25333C10000000071
plug 1 80 $
-> Done
0 new board "W" 1 at 1 80
0 new board "L" 1 at 20 80
fru 1 80$
fru 20 80 BOARD_MANUFACTURER="ACM" BOARD_PRODUCT_NAME="RSR3" BOARD_SERIAL_NUMBER="S3"
== each place leads to a bus of its own, and one to which two places lead is open as long as one of them is there
block CARD
block RISER
plug 20 1 01000000000000FF
plug 21 1 01000000000000FF
plug 1 80 $
plug 15 81 $
plug 0 80 $
unplug 1 80
unplug 15 81
unplug 0 80
-> Done
0 new board "C" 1 at 20 1
0 new board "W" 1 at 1 80
0 new board "C" 2 at 21 1
0 new board "W" 2 at 15 81
0 new board "W" 3 at 0 80
0 gone board "W" 1 at 1 80
0 gone board "C" 2 at 21 1
0 gone board "W" 2 at 15 81
0 gone board "C" 1 at 20 1
0 gone board "W" 3 at 0 80
fru 20 1
fru 21 1
== a place that matches no pattern of the configuration leads nowhere, though the configuration is found
block CARD
block RISER_112
plug 20 1 01000000000000FF
plug 52 1 01000000000000FF
plug 1 80 $
plug 1 112 $
-> Done
0 new board "V" 1
0 gone board "V" 1
0 new board "C" 1 at 52 1
0 new board "V" 2 at 1 112
fru 1 80$
fru 1 112$
fru 20 1
fru 52 1
== also where it matches a pattern of another configuration with a channel
block RISER
block CARD
block {"Name":"D","Probe":["xyz.openbmc_project.FruDevice({'BUS': 3})","OR","FOUND('W')"],
    "Exposes":[{"Name":"x","Type":"Mux","Channels":["$bus + 30"]}]}
plug 31 1 01000000000000FF
plug 33 1 01000000000000FF
plug 1 80 $
plug 3 0 01000000000000FF
-> Done
0 new board "W" 1 at 1 80
0 new board "D" 1
0 gone board "D" 1
0 new board "C" 1 at 33 1
0 new board "D" 2 at 3 0
fru 1 80$
fru 3 0
fru 31 1
fru 33 1
== 255 is the last bus: 256 leads nowhere, and so does a number that is below 0 on the way
block CARD
block {"Name":"E","Probe":"xyz.openbmc_project.FruDevice({'BUS': 1})",
    "Exposes":[{"Name":"x","Type":"Mux","Channels":["$address + 176","$address - 80 + 40"]}]}
plug 0 1 01000000000000FF
plug 39 1 01000000000000FF
plug 40 1 01000000000000FF
plug 255 1 01000000000000FF
plug 1 79 01000000000000FF
plug 1 80 01000000000000FF
unplug 1 79
-> Done
0 new board "C" 1 at 0 1
0 new board "C" 2 at 255 1
0 new board "E" 1 at 1 79
0 new board "C" 3 at 40 1
0 new board "E" 2 at 1 80
0 gone board "C" 2 at 255 1
0 gone board "E" 1 at 1 79
fru 0 1
fru 1 80
fru 39 1
fru 40 1
fru 255 1
== a FRU off the root buses leads nowhere, also where it is a board
block CARD
block {"Name":"E","Probe":"xyz.openbmc_project.FruDevice({'ADDRESS': 80})",
    "Exposes":[{"Name":"x","Type":"Mux","Channels":["$bus + 1"]}]}
plug 17 1 01000000000000FF
plug 16 80 01000000000000FF
plug 15 80 01000000000000FF
unplug 15 80
-> Done
0 new board "E" 1 at 15 80
0 new board "E" 2 at 16 80
0 gone board "E" 1 at 15 80
0 gone board "E" 2 at 16 80
fru 16 80
fru 17 1
== a configuration that is not found over the root buses leads nowhere
block CARD
block {"Name":"E","Probe":["xyz.openbmc_project.FruDevice({'ADDRESS': 80})","AND","xyz.openbmc_project.FruDevice({'BUS': 16})"],
    "Exposes":[{"Name":"x","Type":"Mux","Channels":["$bus + 19"]}]}
block {"Name":"O","Probe":"TRUE","Exposes":[{"Name":"x","Type":"Mux","Channels":["0x10"]}]}
plug 20 1 01000000000000FF
plug 1 80 01000000000000FF
plug 16 1 01000000000000FF
-> Done
0 new board "O" 1
0 new board "C" 1 at 16 1
0 new board "E" 1 at 1 80
0 new board "E" 2 at 16 1
fru 1 80
fru 16 1
fru 20 1
== without patterns none leads anywhere, and fixed channels beside it do
block CARD
block {"Name":"O","Probe":"TRUE","Exposes":[{"Name":"x","Type":"Mux","Channels":["$bus + 15","020",30]}]}
plug 16 1 01000000000000FF
plug 20 1 01000000000000FF
plug 30 1 01000000000000FF
plug 1 1 01000000000000FF
-> Done
0 new board "O" 1
0 new board "C" 1 at 20 1
0 new board "C" 2 at 30 1
0 new board "C" 3 at 1 1
fru 1 1
fru 16 1
fru 20 1
fru 30 1
== fields: a number with operations and without, and texts that are none
block CARD
block {"Name":"E","Probe":"xyz.openbmc_project.FruDevice({'ADDRESS': 80})",
    "Exposes":[{"Name":"x","Type":"Mux","Channels":["$CHASSIS_TYPE - 3","$CHASSIS_TYPE","$BOARD_PRODUCT_NAME"]}]}
plug 20 1 01000000000000FF
plug 23 1 01000000000000FF
plug 1 80 $
unplug 1 80
plug 1 80 01000100000000FE010117C100000026
-> Done
0 new board "E" 1 at 1 80
0 gone board "E" 1 at 1 80
0 new board "C" 1 at 20 1
0 new board "C" 2 at 23 1
0 new board "E" 1 at 1 80
fru 1 80 CHASSIS_TYPE="23"
fru 20 1
fru 23 1
== a text of 10 digits is a bus, and no number for operations; one of 11 digits is neither
block CARD
block {"Name":"E","Probe":"xyz.openbmc_project.FruDevice({'BUS': 1})",
    "Exposes":[{"Name":"x","Type":"Mux","Channels":["$BOARD_SERIAL_NUMBER","$BOARD_SERIAL_NUMBER + 1"]}]}
plug 20 1 01000000000000FF
plug 21 1 01000000000000FF
plug 1 80 01000001000000FE010300000000C0C0CB3030303030303030303230C10000DE
plug 1 81 01000001000000FE010300000000C0C0CA30303030303030303230C10000000F
-> Done
0 new board "E" 1 at 1 80
0 new board "C" 1 at 20 1
0 new board "E" 2 at 1 81
fru 1 80 BOARD_MANUFACTURER="" BOARD_PRODUCT_NAME="" BOARD_SERIAL_NUMBER="00000000020"
fru 1 81 BOARD_MANUFACTURER="" BOARD_PRODUCT_NAME="" BOARD_SERIAL_NUMBER="0000000020"
fru 20 1
fru 21 1
== the name of a multiplexer need not give a text
block CARD
block {"Name":"E","Probe":"xyz.openbmc_project.FruDevice({'BUS': 1})",
    "Exposes":[{"Name":"$PRODUCT_VERSION","Type":"Mux","Channels":["$bus + 29"]}]}
plug 30 1 01000000000000FF
plug 1 80 $
-> Done
0 new board "C" 1 at 30 1
0 new board "E" 1 at 1 80
fru 1 80$
fru 30 1
"#;

// Documents by their names.
const SHAPES: &[Shape] = &[
    ("RISER", RISER, ""),
    ("LEAF", LEAF, ""),
    ("CARD", CARD, ""),
    ("RISER_112", RISER_112, ""),
];

#[test]
fn moving_channels(rt: HostRuntime) -> Result<(), Fail> {
    play_cases(&rt, rt.alloc(), SCRIPTS, SHAPES)
}

ghost use Rattle.std.specs.Prelude.{map};
ghost use Rattle.bmc_core.specs.Cores.{IsStated};

use crate::bank::bank;
use bmc_base::{OutOfMemory, Silent, Steps};
use bmc_io::{MemFiles, MemSink, MemSource};
use bmc_replay::{Status, replay};
use ctl_face::Controller;
use pat_gate::{ListMaker, PatternMaker, RegexMaker};
use std::alloc::Global;
use std::process::Abort;
use std::str;
use std::test::Fail;

/// A record with a board area, in hexadecimal.
pub const BOARD_RECORD: &str = "01000001000000FE010300000000C341434DC452535231C25331C0C0C10000F5";

/// What stands in its row behind the place.
pub const BOARD_FIELDS: &str =
    r#" BOARD_MANUFACTURER="ACM" BOARD_PRODUCT_NAME="RSR1" BOARD_SERIAL_NUMBER="S1" BOARD_PART_NUMBER="" BOARD_FRU_VERSION_ID="""#;

/// A document that is always found.
pub const ALWAYS: &str = r#"{"Name":"A","Probe":"TRUE"}"#;

/// What is printed of it.
pub const ALWAYS_BOARD: &str = "0 new board \"A\" 1\n";

/// What is printed of a first line whose first word is no command.
pub const UNKNOWN: &str = "line 1 refused UnknownCommand\n";

/// The number of a call that is not made.
pub const NEVER: u64 = u64::MAX;

/// More bytes than a script or a text here has.
pub const AMPLE: usize = 1 << 20;

/// A part of a script.
#[derive(Clone, Copy)]
pub enum Part {
    /// A text, in which `$` stands for the board record.
    Text(&'static str),
    /// Bytes that need not be text.
    Bytes(&'static [u8]),
    /// A text, so many times.
    Times(usize, &'static str),
    /// The line that asks for a document, and the document.
    Config(&'static str),
    /// The line that asks for bytes that need not be text, and the bytes.
    Block(&'static [u8]),
    /// The line and a document in which so many arrays stand in one another.
    Nested(usize),
    /// The line and a document in three parts, of which the second stands so many times.
    Repeats(&'static str, &'static str, usize, &'static str),
    /// So many configurations that find a record with the product name `RSR9`. Their names are the numbers from 1.
    Many(usize),
    /// So many configurations that each find a record with its name in the serial number. Their names are the numbers
    /// from 1.
    Numbered(usize),
}

/// A script, how its run ends, and what is printed, where `$` stands for the fields of the board record.
pub type Row = (&'static [Part], Status, &'static str);

/// How the outside of a run behaves: how many bytes the source gives in a call, and the call of it that fails; how many
/// the sink takes in a call and in all, and the call of it that fails.
#[derive(Clone, Copy, Debug)]
pub struct Outside {
    pub gives: usize,
    pub read_fail: u64,
    pub takes: usize,
    pub room: usize,
    pub write_fail: u64,
}

/// An outside that does not fail, and gives and takes all in whole.
pub const SOUND: Outside = Outside {
    gives: AMPLE,
    read_fail: NEVER,
    takes: AMPLE,
    room: AMPLE,
    write_fail: NEVER,
};

/// Outsides that do not fail.
pub const SOUND_ONES: &[Outside] = &[
    SOUND,
    Outside {
        gives: 1,
        takes: 7,
        ..SOUND
    },
    Outside {
        gives: 7,
        takes: 1,
        ..SOUND
    },
];

/// Returns a text with `filling` for each dollar sign.
pub fn filled(alloc: Global, text: &str, filling: &str) -> Result<String, OutOfMemory> {
    let mut whole = String::new(alloc);
    for char in text.chars() {
        if char == '$' {
            whole.push_str(filling)?;
        } else {
            whole.push(char)?;
        }
    }
    Ok(whole)
}

// Appends what an escape stands for, and the text behind it.
fn push_escaped(whole: &mut String, text: &str) -> Result<(), OutOfMemory> {
    for (at, char) in text.chars().enumerate() {
        let char = match char {
            'n' if at == 0 => '\n',
            'r' if at == 0 => '\r',
            't' if at == 0 => '\t',
            '0' if at == 0 => '\0',
            's' if at == 0 => ' ',
            other => other,
        };
        whole.push(char)?;
    }
    Ok(())
}

/// Returns a text with a newline for `\n`, a carriage return for `\r`, a tab for `\t`, a byte 0 for `\0` and a space for
/// `\s`.
pub fn unescaped(alloc: Global, text: &str) -> Result<String, OutOfMemory> {
    let mut whole = String::new(alloc);
    for (at, piece) in text.split('\\').enumerate() {
        if at == 0 {
            whole.push_str(piece)?;
        } else {
            push_escaped(&mut whole, piece)?;
        }
    }
    Ok(whole)
}

// Appends the line that asks for a block of these bytes, and the bytes.
fn push_block(script: &mut Vec<u8>, alloc: Global, bytes: &[u8]) -> Result<(), OutOfMemory> {
    let size = bytes.len();
    let line = format!(in alloc; "config {size}\n")?;
    script.extend_from_slice(line.as_bytes())?;
    script.extend_from_slice(bytes)?;
    Ok(())
}

// Appends a document in which so many arrays stand in one another.
fn push_nested(script: &mut Vec<u8>, alloc: Global, arrays: usize) -> Result<(), OutOfMemory> {
    let mut document = String::from_str(alloc, r#"{"Name":"A","Probe":"TRUE","x":"#)?;
    for _ in 0..arrays {
        document.push('[')?;
    }
    for _ in 0..arrays {
        document.push(']')?;
    }
    document.push('}')?;
    push_block(script, alloc, document.as_bytes())
}

// Appends a document in three parts, of which the second stands so many times.
fn push_repeats(
    script: &mut Vec<u8>,
    alloc: Global,
    (head, part, count, tail): (&str, &str, usize, &str),
) -> Result<(), OutOfMemory> {
    let mut document = String::from_str(alloc, head)?;
    for _ in 0..count {
        document.push_str(part)?;
    }
    document.push_str(tail)?;
    push_block(script, alloc, document.as_bytes())
}

// Appends so many configurations.
fn push_many(script: &mut Vec<u8>, alloc: Global, count: usize) -> Result<(), OutOfMemory> {
    let probe = "xyz.openbmc_project.FruDevice({'BOARD_PRODUCT_NAME': 'RSR9'})";
    for number in 1..=count {
        let document = format!(in alloc; "{{\"Name\":\"{number}\",\"Probe\":\"{probe}\"}}")?;
        push_block(script, alloc, document.as_bytes())?;
    }
    Ok(())
}

// Appends so many configurations with a pattern each.
fn push_numbered(script: &mut Vec<u8>, alloc: Global, count: usize) -> Result<(), OutOfMemory> {
    let head = "xyz.openbmc_project.FruDevice({'BOARD_SERIAL_NUMBER'";
    for number in 1..=count {
        let document = format!(in alloc;
            "{{\"Name\":\"{number}\",\"Probe\":\"{head}: '{number}'}})\"}}"
        )?;
        push_block(script, alloc, document.as_bytes())?;
    }
    Ok(())
}

fn push_part(script: &mut Vec<u8>, alloc: Global, part: Part) -> Result<(), OutOfMemory> {
    match part {
        Part::Text(text) => {
            let text = filled(alloc, text, BOARD_RECORD)?;
            script.extend_from_slice(text.as_bytes())?;
        }
        Part::Bytes(bytes) => script.extend_from_slice(bytes)?,
        Part::Times(count, text) => {
            for _ in 0..count {
                script.extend_from_slice(text.as_bytes())?;
            }
        }
        Part::Config(document) => push_block(script, alloc, document.as_bytes())?,
        Part::Block(bytes) => push_block(script, alloc, bytes)?,
        Part::Nested(arrays) => push_nested(script, alloc, arrays)?,
        Part::Repeats(head, part, count, tail) => {
            push_repeats(script, alloc, (head, part, count, tail))?;
        }
        Part::Many(count) => push_many(script, alloc, count)?,
        Part::Numbered(count) => push_numbered(script, alloc, count)?,
    }
    Ok(())
}

/// Returns the script of these parts.
pub fn script_of(alloc: Global, parts: &[Part]) -> Result<Vec<u8>, OutOfMemory> {
    let mut script = Vec::new(alloc);
    for part in parts {
        push_part(&mut script, alloc, *part)?;
    }
    Ok(script)
}

/// Plays a script over a bank of boxes that are not loaded, and returns the status.
pub fn played_over<C: Controller>(
    alloc: Global,
    script: &[u8],
    boxes: Vec<C>,
) -> Result<Status, OutOfMemory>
    requires { IsStated (map C.seen boxes.items) }
{
    let words = Vec::new(alloc);
    let mut files = MemFiles::new(alloc, &[])?;
    let mut source = MemSource::new(alloc, script, &[], &[])?;
    let mut sink = MemSink::new(alloc, AMPLE, AMPLE, &[])?;
    let mut maker = RegexMaker::new(alloc);
    let mut steps = Steps::new(Silent);
    let status = replay(
        alloc,
        &words,
        &mut files,
        &mut source,
        &mut sink,
        &mut maker,
        boxes,
        &mut steps,
    );
    Ok(status)
}

/// What came of a run: how it ended, what the sink took, and how many calls of the source failed.
#[derive(Drop)]
pub struct Outcome {
    pub status: Status,
    pub text: Vec<u8>,
    pub source_faults: u64,
}

/// Plays a script behind files, as these words ask for it, with the patterns that a maker compiles.
pub fn played_words<R: Abort, M: PatternMaker>(
    rt: &R,
    alloc: Global,
    words: &Vec<String>,
    files: &mut MemFiles,
    script: &[u8],
    outside: Outside,
    maker: &mut M,
) -> Result<Outcome, OutOfMemory> {
    assert!(rt; outside.takes > 0);
    let pieces = [outside.gives];
    assert!(rt; pieces.iter().all(|size| *size > 0));
    let mut source = MemSource::new(alloc, script, &pieces, &[outside.read_fail])?;
    let mut sink = MemSink::new(alloc, outside.takes, outside.room, &[outside.write_fail])?;
    let mut steps = Steps::new(Silent);
    let boxes = bank(alloc)?;
    let status = replay(
        alloc,
        words,
        files,
        &mut source,
        &mut sink,
        maker,
        boxes,
        &mut steps,
    );
    Ok(Outcome {
        status,
        text: Vec::from_slice(alloc, sink.bytes())?,
        source_faults: source.faults(),
    })
}

// Plays a script without words and files, with the patterns that a maker compiles, and returns the status and what the
// sink took.
fn played_with<R: Abort, M: PatternMaker>(
    rt: &R,
    alloc: Global,
    script: &[u8],
    outside: Outside,
    maker: &mut M,
) -> Result<(Status, Vec<u8>), OutOfMemory> {
    let words = Vec::new(alloc);
    let mut files = MemFiles::new(alloc, &[])?;
    let Outcome { status, text, .. } = played_words(
        rt, alloc, &words, &mut files, script, outside, maker,
    )?;
    Ok((status, text))
}

/// Plays a script, and returns the status and what the sink took.
pub fn played<R: Abort>(
    rt: &R,
    alloc: Global,
    script: &[u8],
    outside: Outside,
) -> Result<(Status, Vec<u8>), OutOfMemory> {
    played_with(rt, alloc, script, outside, &mut RegexMaker::new(alloc))
}

/// Plays a script with a maker that refuses one text as too large, and asserts that it refused this text once, how the
/// run ends and what is printed.
pub fn play_refusing<R: Abort>(
    rt: &R,
    alloc: Global,
    script: &[u8],
    too_large: &str,
    status: Status,
    text: &str,
) -> Result<(), Fail> {
    let mut maker = ListMaker::new(alloc, &[too_large])?;
    let (ended, taken) = played_with(rt, alloc, script, SOUND, &mut maker)?;
    assert_eq!(rt; str::from_utf8(taken.as_slice()), Ok(text));
    assert_eq!(rt; ended, status);
    assert_eq!(rt; maker.refused().len(), 1);
    Ok(())
}

/// Plays a script, and asserts how its run ends and what the sink took.
pub fn play_once<R: Abort>(
    rt: &R,
    alloc: Global,
    script: &[u8],
    outside: Outside,
    status: Status,
    text: &[u8],
) -> Result<(), Fail> {
    let (ended, taken) = played(rt, alloc, script, outside)?;
    // what a failure shows: the front of the script, and the texts
    let head = str::from_utf8(&script[..script.len().min(200)]);
    let (given, wanted) = (str::from_utf8(taken.as_slice()), str::from_utf8(text));
    assert!(rt;
        taken.as_slice() == text,
        "{head:?} gives {given:?}, and not {wanted:?}, over {outside:?}"
    );
    assert_eq!(rt; ended, status, "{head:?} over {outside:?}");
    Ok(())
}

/// Plays a script over each outside that does not fail, and asserts how its run ends and what is printed.
pub fn play<R: Abort>(
    rt: &R,
    alloc: Global,
    script: &[u8],
    status: Status,
    text: &str,
) -> Result<(), Fail> {
    for &outside in SOUND_ONES {
        play_once(rt, alloc, script, outside, status, text.as_bytes())?;
    }
    Ok(())
}

// Plays the script of these parts, and asserts how its run ends and what is printed.
fn play_row<R: Abort>(
    rt: &R,
    alloc: Global,
    parts: &[Part],
    status: Status,
    text: &str,
) -> Result<(), Fail> {
    let script = script_of(alloc, parts)?;
    let text = filled(alloc, text, BOARD_FIELDS)?;
    play(rt, alloc, script.as_slice(), status, text.as_str())
}

/// Plays the script of each row, and asserts what the row says of it.
pub fn play_rows<R: Abort>(rt: &R, alloc: Global, rows: &[Row]) -> Result<(), Fail> {
    for (parts, status, text) in rows {
        play_row(rt, alloc, parts, *status, text)?;
    }
    Ok(())
}

/// Plays each part of each row as a script by itself, and asserts what the row says of it.
pub fn play_parts<R: Abort>(rt: &R, alloc: Global, rows: &[Row]) -> Result<(), Fail> {
    for (parts, status, text) in rows {
        for part in *parts {
            play_row(rt, alloc, &[*part], *status, text)?;
        }
    }
    Ok(())
}

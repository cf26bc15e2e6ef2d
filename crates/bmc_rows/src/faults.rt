use crate::play::Part::{self, Config, Text};
use crate::play::{
    ALWAYS, ALWAYS_BOARD, BOARD_FIELDS, NEVER, Outcome, Outside, SOUND, filled, play_once, played,
    played_words, script_of,
};
use bmc_base::OutOfMemory;
use bmc_io::MemFiles;
use bmc_replay::Status;
use pat_gate::RegexMaker;
use std::alloc::Global;
use std::process::Abort;
use std::str;
use std::test::Fail;

// What makes the items of a script whole in turn, and what is printed of them. A block is whole with the byte behind it.
const ITEMS: &[(&[Part], &str)] = &[
    (&[Text("unplug 1 80\n")], "line 1 refused NotPresent\n"),
    (&[Text("# comment\r\n")], ""),
    (&[Config(ALWAYS), Text("\n")], ALWAYS_BOARD),
    (&[Config("{}"), Text("c")], "line 4 refused MissingKey\n"),
    (&[Text("onfig 3\n[0]\n")], "line 5 refused WrongKind\n"),
    (&[Text("config 0\n\n")], "line 6 refused NotJson\n"),
    (&[Text("plug 1 80 $\n")], ""),
    (&[Text("plug 1 80 $\r\n")], "line 8 refused Occupied\n"),
    (&[Text("plug 1 81 00\n")], "line 9 refused FruShort\n"),
    (&[Text("\n")], ""),
    (&[Text("jump\n")], "line 11 refused UnknownCommand\n"),
    (&[Text("unplug 1 80\n")], ""),
    (&[Text("plug 9 9 $\n")], ""),
];

// A script, what is printed of it, and for each item how many bytes of the one make it whole and how many of the other
// are printed then.
#[derive(Drop)]
struct Whole {
    script: Vec<u8>,
    text: String,
    ends: Vec<(usize, usize)>,
}

// The script of items, at whose end a FRU is present at bus 9, address 9.
fn whole_of(alloc: Global, items: &[(&[Part], &str)]) -> Result<Whole, OutOfMemory> {
    let mut script = Vec::new(alloc);
    let mut text = String::new(alloc);
    let mut ends = Vec::new(alloc);
    for (parts, printed) in items {
        script.extend_from_slice(script_of(alloc, parts)?.as_slice())?;
        text.push_str(printed)?;
        ends.push((script.len(), text.len()))?;
    }
    text.push_str(filled(alloc, "fru 9 9$\n", BOARD_FIELDS)?.as_str())?;
    Ok(Whole { script, text, ends })
}

// How many bytes are printed of the items that are whole in so many bytes of the script.
fn printed_of(ends: &[(usize, usize)], given: usize) -> usize {
    let mut printed = 0;
    for (script, text) in ends {
        if *script <= given {
            printed = *text;
        }
    }
    printed
}

#[test]
fn failing_reads(rt: HostRuntime) -> Result<(), Fail> {
    let Whole { script, text, ends } = whole_of(rt.alloc(), ITEMS)?;
    let script = script.as_slice();
    for gives in [1, 7, 64] {
        // the last call gives the end
        for call in 0..=script.len().div_ceil(gives) {
            let outside = Outside {
                gives,
                read_fail: call as u64,
                ..SOUND
            };
            let printed = printed_of(ends.as_slice(), call.saturating_mul(gives));
            let text = text.as_bytes().get(..printed).unwrap_or(b"");
            play_once(&rt, rt.alloc(), script, outside, Status::ReadFault, text)?;
        }
    }
    // the end is given once
    let outside = Outside {
        gives: 1,
        read_fail: script.len() as u64 + 1,
        ..SOUND
    };
    play_once(
        &rt,
        rt.alloc(),
        script,
        outside,
        Status::Refused,
        text.as_bytes(),
    )
}

#[test]
fn failing_writes(rt: HostRuntime) -> Result<(), Fail> {
    let Whole { script, text, .. } = whole_of(rt.alloc(), ITEMS)?;
    let (script, text) = (script.as_slice(), text.as_bytes());
    for count in 0..=text.len() {
        let status = if count == text.len() {
            Status::Refused
        } else {
            Status::WriteFault
        };
        let call = count as u64;
        // a sink that takes a byte a call and fails at this call, and sinks with room for so many bytes
        let outsides = &[
            Outside {
                takes: 1,
                write_fail: call,
                ..SOUND
            },
            Outside {
                gives: 1,
                takes: 1,
                write_fail: call,
                ..SOUND
            },
            Outside {
                takes: 7,
                room: count,
                ..SOUND
            },
            Outside {
                gives: 1,
                room: count,
                ..SOUND
            },
        ];
        for &outside in outsides {
            play_once(&rt, rt.alloc(), script, outside, status, &text[..count])?;
        }
        // a sink that takes more a call has a front
        let outside = Outside {
            gives: 7,
            takes: 7,
            write_fail: call,
            ..SOUND
        };
        let (ended, taken) = played(&rt, rt.alloc(), script, outside)?;
        let status = if taken.len() == text.len() {
            Status::Refused
        } else {
            Status::WriteFault
        };
        assert!(rt; text.starts_with(taken.as_slice()), "call {call}");
        assert_eq!(rt; ended, status, "call {call}");
    }
    Ok(())
}

// Two lines that are refused, which come one by one: the calls of the source and the sink that fail, how the run ends,
// and what is printed.
const FIRST_FAULTS: &[(u64, u64, Status, &str)] = &[
    (0, 0, Status::ReadFault, ""),
    (1, 0, Status::WriteFault, ""),
    (1, 1, Status::ReadFault, "line 1 refused UnknownCommand\n"),
    (2, 1, Status::WriteFault, "line 1 refused UnknownCommand\n"),
    (
        2,
        2,
        Status::ReadFault,
        "line 1 refused UnknownCommand\nline 2 refused UnknownCommand\n",
    ),
    (
        NEVER,
        1,
        Status::WriteFault,
        "line 1 refused UnknownCommand\n",
    ),
    (
        3,
        2,
        Status::Refused,
        "line 1 refused UnknownCommand\nline 2 refused UnknownCommand\n",
    ),
];

#[test]
fn the_first_fault_ends_the_run(rt: HostRuntime) -> Result<(), Fail> {
    for &(read_fail, write_fail, status, text) in FIRST_FAULTS {
        let outside = Outside {
            gives: 5,
            read_fail,
            write_fail,
            ..SOUND
        };
        play_once(
            &rt,
            rt.alloc(),
            b"jump\njump\n",
            outside,
            status,
            text.as_bytes(),
        )?;
    }
    Ok(())
}

// Three files, and what is printed of them.
const FILES: &[(&str, &str)] = &[
    ("a.json", ALWAYS),
    ("b.json", "{}"),
    ("c.json", r#"{"Name":"B","Probe":"TRUE"}"#),
];

const FILES_TEXT: &str = "0 new board \"A\" 1\nfile 2 refused MissingKey\n0 new board \"B\" 1\n";

// The names of the files.
fn names(alloc: Global) -> Result<Vec<String>, OutOfMemory> {
    let mut names = Vec::new(alloc);
    for (name, _) in FILES {
        names.push(String::from_str(alloc, name)?)?;
    }
    Ok(names)
}

// Plays a script behind the files, of which this call fails. Returns also how many calls of them failed.
fn played_files<R: Abort>(
    rt: &R,
    alloc: Global,
    file_fail: u64,
    outside: Outside,
) -> Result<(Outcome, u64), OutOfMemory> {
    let mut files = MemFiles::new(alloc, &[file_fail])?;
    for (name, text) in FILES {
        files.add(alloc, name, text.as_bytes())?;
    }
    let words = names(alloc)?;
    let mut maker = RegexMaker::new(alloc);
    let outcome = played_words(rt, alloc, &words, &mut files, b"", outside, &mut maker)?;
    Ok((outcome, files.faults()))
}

// Who failed, which ended the run.
#[derive(Clone, Copy, Debug, PartialEq, Eq)]
enum Culprit {
    File,
    Source,
    Sink,
    None,
}

// The calls of the files, the source and the sink that fail, who fails first, how the run ends, and how many lines are
// printed. What is printed of a file is written before the next one or the source is read.
const FILE_FAULTS: &[(u64, u64, u64, Culprit, Status, usize)] = &[
    (0, 0, 0, Culprit::File, Status::ReadFault, 0),
    (1, 0, 0, Culprit::Sink, Status::WriteFault, 0),
    (1, 0, 1, Culprit::File, Status::ReadFault, 1),
    (2, 0, 1, Culprit::Sink, Status::WriteFault, 1),
    (2, 0, 2, Culprit::File, Status::ReadFault, 2),
    (3, 0, 2, Culprit::Sink, Status::WriteFault, 2),
    (3, 0, 3, Culprit::Source, Status::ReadFault, 3),
    (3, 1, 3, Culprit::None, Status::Refused, 3),
];

// Plays a row of them.
fn play_file_fault<R: Abort>(
    rt: &R,
    alloc: Global,
    (file_fail, read_fail, write_fail, culprit, status, lines): (
        u64,
        u64,
        u64,
        Culprit,
        Status,
        usize,
    ),
) -> Result<(), Fail> {
    let outside = Outside {
        read_fail,
        write_fail,
        ..SOUND
    };
    let (outcome, file_faults) = played_files(rt, alloc, file_fail, outside)?;
    assert_eq!(rt; outcome.status, status, "call {file_fail} over {outside:?}");
    assert_eq!(rt; file_faults, u64::from(culprit == Culprit::File));
    assert_eq!(rt;
        outcome.source_faults,
        u64::from(culprit == Culprit::Source)
    );
    let text = str::from_utf8(outcome.text.as_slice()).unwrap_or("");
    assert_eq!(rt; text.lines().count(), lines);
    assert!(rt; FILES_TEXT.starts_with(text));
    assert!(rt; text.is_empty() || text.ends_with('\n'));
    Ok(())
}

#[test]
fn failing_files(rt: HostRuntime) -> Result<(), Fail> {
    for row in FILE_FAULTS {
        play_file_fault(&rt, rt.alloc(), *row)?;
    }
    Ok(())
}

// A sink with room for a front of what is printed of the files, whether it takes a byte a call or all.
#[test]
fn failing_writes_of_files(rt: HostRuntime) -> Result<(), Fail> {
    for room in 0..FILES_TEXT.len() {
        for takes in [1, 7] {
            let outside = Outside {
                takes,
                room,
                ..SOUND
            };
            let (outcome, file_faults) = played_files(&rt, rt.alloc(), NEVER, outside)?;
            assert_eq!(rt; outcome.status, Status::WriteFault, "{outside:?}");
            assert_eq!(rt; file_faults, 0);
            assert!(rt; outcome.text.as_slice() == &FILES_TEXT.as_bytes()[..room]);
        }
    }
    Ok(())
}

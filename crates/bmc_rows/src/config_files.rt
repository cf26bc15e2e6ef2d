use crate::cases::play_cases;
use crate::play::{ALWAYS, ALWAYS_BOARD, Outcome, SOUND, played_words};
use bmc_base::OutOfMemory;
use bmc_io::MemFiles;
use bmc_replay::Status::{self, Done, Refused};
use pat_gate::RegexMaker;
use std::alloc::Global;
use std::str;
use std::test::Fail;

const FILES: &str = r#"
== files come before the script in the order of the words, and its lines have numbers of their own
words b.json a.json
file a.json {"Name":"A","Probe":"FOUND('B')","Exposes":[{"Name":"T","Type":"Sensor"}]}
file b.json {"Name":"B","Probe":"TRUE"}
jump
read T 5
show inventory
-> Refused
0 new board "B" 1
0 new board "A" 1
0 new sensor "T"
line 1 refused UnknownCommand
board "B" 1
board "A" 1
  "Sensor" "T" live
== all files have a number, also those that are refused
words a.json b.json c.json d.json
file a.json {}
file b.json {"Name":"B","Probe":"TRUE"}
file c.json {"Name":"C","Probe":"TRUE","Exposes":5}
file d.json {"Name":"D","Probe":"TRUE"
-> Refused
file 1 refused MissingKey
0 new board "B" 1
file 3 refused WrongKind
file 4 refused NotJson
== one that is given twice, an empty one, and one that ends with a newline
words a.json none a.json --strict b.json
file a.json {"Name":"A","Probe":"TRUE"}
file none
file b.json {
    "Name": "B",
    "Probe": "TRUE"
    }
    
-> Refused
0 new board "A" 1
file 2 refused NotJson
file 3 refused DuplicateName
0 new board "B" 1
== one that is refused makes the run refused, whatever its script is
words a.json
file a.json []
# nothing
show inventory
-> Refused
file 1 refused WrongKind
== the names of files are taken for the blocks of the script, and a block behind a plug is refused
words a.json
file a.json {"Name":"A","Probe":"xyz.openbmc_project.FruDevice({})"}
block {"Name":"A","Probe":"TRUE"}
block {"Name":"B","Probe":"FOUND('A')"}
plug 1 80 $
block {"Name":"C","Probe":"TRUE"}
-> Refused
line 1 refused DuplicateName
0 new board "A" 1 at 1 80
0 new board "B" 1
line 4 refused ConfigAfterPlug
fru 1 80$
== names that look like options
words - -- --strict --
file - {"Name":"A","Probe":"TRUE"}
file --strict {"Name":"B","Probe":"TRUE"}
file -- {"Name":"C","Probe":"TRUE"}
-> Done
0 new board "A" 1
0 new board "B" 1
0 new board "C" 1
== a file that is not there ends the run, and nothing behind it is read
words a.json b.json c.json
file a.json {"Name":"A","Probe":"TRUE"}
file c.json {"Name":"C","Probe":"TRUE"}
jump
-> ReadFault
0 new board "A" 1
== an empty word is a name that no file has
words 
jump
-> ReadFault
"#;

#[test]
fn config_files(rt: HostRuntime) -> Result<(), Fail> {
    play_cases(&rt, rt.alloc(), FILES, &[])
}

// The most bytes that a file may have, and one more: how the run ends, and what is printed.
const SIZES: &[(usize, Status, &str)] = &[
    (262_144, Done, ALWAYS_BOARD),
    (262_145, Refused, "file 1 refused ConfigTooLong\n"),
];

// A file with so many bytes: a document with spaces behind it.
fn padded(alloc: Global, size: usize) -> Result<MemFiles, OutOfMemory> {
    let mut text = String::from_str(alloc, ALWAYS)?;
    for _ in ALWAYS.len()..size {
        text.push(' ')?;
    }
    let mut files = MemFiles::new(alloc, &[])?;
    files.add(alloc, "a.json", text.as_bytes())?;
    Ok(files)
}

#[test]
fn long_files(rt: HostRuntime) -> Result<(), Fail> {
    let alloc = rt.alloc();
    let words = vec![in alloc; String::from_str(alloc, "a.json")?]?;
    for &(size, wanted, printed) in SIZES {
        let mut files = padded(alloc, size)?;
        let mut maker = RegexMaker::new(alloc);
        let outcome = played_words(&rt, alloc, &words, &mut files, b"", SOUND, &mut maker)?;
        let Outcome { status, text, .. } = outcome;
        assert_eq!(rt; str::from_utf8(text.as_slice()), Ok(printed));
        assert_eq!(rt; status, wanted);
    }
    Ok(())
}

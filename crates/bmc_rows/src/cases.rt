use crate::play::{BOARD_FIELDS, BOARD_RECORD, Outcome, Outside, SOUND_ONES, filled, played_words};
use bmc_base::OutOfMemory;
use bmc_io::MemFiles;
use bmc_replay::Status;
use pat_gate::RegexMaker;
use std::alloc::Global;
use std::fmt::Write;
use std::process::Abort;
use std::str;
use std::test::Fail;

/// A name for a document, and the document in two parts, between which members may stand.
pub type Shape = (&'static str, &'static str, &'static str);

// What is given to a run: the words of the command line, files by their names, and a script.
#[derive(Drop)]
struct Given {
    words: Vec<String>,
    files: Vec<(String, String)>,
    script: String,
}

impl Given {
    fn new(alloc: Global) -> Given {
        Given {
            words: Vec::new(alloc),
            files: Vec::new(alloc),
            script: String::new(alloc),
        }
    }
}

// What a text says of a case.
#[derive(Drop)]
struct Said {
    title: String,
    body: String,
    status: Status,
    printed: String,
}

// The status with this name. One with another name is such that no run here ends with it.
fn status_named(name: &str) -> Status {
    match name {
        "Done" => Status::Done,
        "Refused" => Status::Refused,
        "Usage" => Status::Usage,
        "ReadFault" => Status::ReadFault,
        "WriteFault" => Status::WriteFault,
        _ => Status::TooLong,
    }
}

// The document that stands there, or that of a shape that is named there, with the members behind the name.
fn document_of(alloc: Global, text: &str, shapes: &[Shape]) -> Result<String, OutOfMemory> {
    let (name, members) = text.split_once(' ').unwrap_or((text, ""));
    for (shape, head, tail) in shapes {
        if *shape == name {
            return Ok(format!(in alloc; "{head}{members}{tail}")?);
        }
    }
    Ok(String::from_str(alloc, text)?)
}

// The document of a shape with so many times a part, which may be one that is named.
fn repeated(
    alloc: Global,
    count: usize,
    text: &str,
    shapes: &[Shape],
) -> Result<String, OutOfMemory> {
    let (name, part) = text.split_once(' ').unwrap_or((text, ""));
    let part = document_of(alloc, part, shapes)?;
    let mut line = format!(in alloc; "{name} ")?;
    for _ in 0..count {
        line.push_str(part.as_str())?;
    }
    document_of(alloc, line.as_str(), shapes)
}

// Appends the words of a line. There may be one word without bytes.
fn push_words(words: &mut Vec<String>, alloc: Global, line: &str) -> Result<(), OutOfMemory> {
    for word in line.split(' ') {
        words.push(String::from_str(alloc, word)?)?;
    }
    Ok(())
}

// Appends the line that asks for a document, the document and a newline.
fn push_block(script: &mut String, document: &str) -> Result<(), OutOfMemory> {
    let size = document.len();
    write!(script, "config {size}\n{document}\n")?;
    Ok(())
}

// Appends a line, so many times.
fn push_times(script: &mut String, count: usize, line: &str) -> Result<(), OutOfMemory> {
    for _ in 0..count {
        script.push_str(line)?;
        script.push('\n')?;
    }
    Ok(())
}

// Takes a part of a case: a line, or a document.
fn take_part(
    given: &mut Given,
    alloc: Global,
    part: &str,
    shapes: &[Shape],
) -> Result<(), OutOfMemory> {
    let (word, rest) = part.split_once(' ').unwrap_or((part, ""));
    let (first, second) = rest.split_once(' ').unwrap_or((rest, ""));
    match word {
        "//" => Ok(()),
        "words" => push_words(&mut given.words, alloc, rest),
        "file" => {
            let document = document_of(alloc, second, shapes)?;
            given
                .files
                .push((String::from_str(alloc, first)?, document))?;
            Ok(())
        }
        "block" => {
            let document = document_of(alloc, rest, shapes)?;
            push_block(&mut given.script, document.as_str())
        }
        "repeat" => {
            let document = repeated(alloc, first.parse().unwrap_or(0), second, shapes)?;
            push_block(&mut given.script, document.as_str())
        }
        "times" => push_times(&mut given.script, first.parse().unwrap_or(0), second),
        _ => {
            let line = filled(alloc, part, BOARD_RECORD)?;
            push_times(&mut given.script, 1, line.as_str())
        }
    }
}

// Splits a text into its parts: a line that begins with four spaces belongs to the part before it.
fn parts_of(alloc: Global, text: &str) -> Result<Vec<String>, OutOfMemory> {
    let mut parts: Vec<String> = Vec::new(alloc);
    for line in text.lines() {
        match parts.last_mut() {
            Some(part) if line.starts_with("    ") => {
                part.push('\n')?;
                part.push_str(line)?;
            }
            _ => parts.push(String::from_str(alloc, line)?)?,
        }
    }
    Ok(parts)
}

// Reads a case: the first line is its title, and behind its body stand a line `-> STATUS` and what is printed.
fn said_of(alloc: Global, case: &str) -> Result<Said, OutOfMemory> {
    let (front, back) = case.split_once("\n-> ").unwrap_or((case, ""));
    let (title, body) = front.split_once('\n').unwrap_or((front, ""));
    let (status, text) = back.split_once('\n').unwrap_or((back, ""));
    let mut printed = String::new(alloc);
    for line in text.lines() {
        printed.push_str(filled(alloc, line, BOARD_FIELDS)?.as_str())?;
        printed.push('\n')?;
    }
    Ok(Said {
        title: String::from_str(alloc, title)?,
        body: String::from_str(alloc, body)?,
        status: status_named(status),
        printed,
    })
}

// The files that are given.
fn files_of(alloc: Global, given: &Given) -> Result<MemFiles, OutOfMemory> {
    let mut files = MemFiles::new(alloc, &[])?;
    for (name, text) in &given.files {
        files.add(alloc, name.as_str(), text.as_bytes())?;
    }
    Ok(files)
}

// Plays what is given, and asserts how the run ends and what is printed.
fn play_given<R: Abort>(
    rt: &R,
    alloc: Global,
    given: &Given,
    said: &Said,
    outside: Outside,
) -> Result<(), Fail> {
    let mut files = files_of(alloc, given)?;
    let mut maker = RegexMaker::new(alloc);
    let script = given.script.as_bytes();
    let outcome = played_words(
        rt,
        alloc,
        &given.words,
        &mut files,
        script,
        outside,
        &mut maker,
    )?;
    let Outcome { status, text, .. } = outcome;
    // what a failure shows: the title and the script
    let (title, script) = (said.title.as_str(), given.script.as_str());
    let printed = str::from_utf8(text.as_slice());
    assert_eq!(rt;
        printed,
        Ok(said.printed.as_str()),
        "{title:?} {script:?} over {outside:?}"
    );
    assert_eq!(rt;
        status,
        said.status,
        "{title:?} {script:?} over {outside:?}"
    );
    Ok(())
}

// Plays a case over each of these outsides.
fn play_case<R: Abort>(
    rt: &R,
    alloc: Global,
    said: &Said,
    shapes: &[Shape],
    outsides: &[Outside],
) -> Result<(), Fail> {
    let mut given = Given::new(alloc);
    let parts = parts_of(alloc, said.body.as_str())?;
    for part in &parts {
        take_part(&mut given, alloc, part.as_str(), shapes)?;
    }
    for &outside in outsides {
        play_given(rt, alloc, &given, said, outside)?;
    }
    Ok(())
}

// Plays each part of a case by itself over each of these outsides. A comment is no part.
fn play_each_part<R: Abort>(
    rt: &R,
    alloc: Global,
    said: &Said,
    shapes: &[Shape],
    outsides: &[Outside],
) -> Result<(), Fail> {
    let parts = parts_of(alloc, said.body.as_str())?;
    for part in &parts {
        if part.as_str().starts_with("// ") {
            continue;
        }
        let mut given = Given::new(alloc);
        take_part(&mut given, alloc, part.as_str(), shapes)?;
        for &outside in outsides {
            play_given(rt, alloc, &given, said, outside)?;
        }
    }
    Ok(())
}

/// Plays each case of a text over each of these outsides, and asserts what it says.
pub fn play_cases_over<R: Abort>(
    rt: &R,
    alloc: Global,
    text: &str,
    shapes: &[Shape],
    outsides: &[Outside],
) -> Result<(), Fail> {
    for case in text.split("\n== ") {
        if !case.is_empty() {
            let said = said_of(alloc, case)?;
            play_case(rt, alloc, &said, shapes, outsides)?;
        }
    }
    Ok(())
}

/// Plays each case of a text, and asserts what it says.
///
/// A case begins with a line `== TITLE`. Then come lines of a script, in which `$` stands for the board record. Behind them
/// a line `-> STATUS` says how the run ends, and what is printed follows, where `$` stands for the fields of the board
/// record. In place of a line of the script may stand
/// - `block DOCUMENT`: the line that asks for a document, and the document;
/// - `repeat N SHAPE PART`: the same of the shape's document with so many times the part, or the document of a shape that is
///   named there;
/// - `times N LINE`: so many times the line;
/// - `words WORD WORD..`: words of the command line;
/// - `file NAME DOCUMENT`: a file;
/// - `// TEXT`: a comment on the case.
///
/// A document is that of a shape where it is the shape's name, or the name, a space, and members. It goes on in lines that
/// begin with four spaces.
pub fn play_cases<R: Abort>(
    rt: &R,
    alloc: Global,
    text: &str,
    shapes: &[Shape],
) -> Result<(), Fail> {
    play_cases_over(rt, alloc, text, shapes, SOUND_ONES)
}

/// Plays each line and each document of each case by itself over each of these outsides, and asserts what the case says of
/// it.
pub fn play_each_over<R: Abort>(
    rt: &R,
    alloc: Global,
    text: &str,
    shapes: &[Shape],
    outsides: &[Outside],
) -> Result<(), Fail> {
    for case in text.split("\n== ") {
        if !case.is_empty() {
            let said = said_of(alloc, case)?;
            play_each_part(rt, alloc, &said, shapes, outsides)?;
        }
    }
    Ok(())
}

/// Plays each line and each document of each case by itself, and asserts what the case says of it.
pub fn play_each<R: Abort>(
    rt: &R,
    alloc: Global,
    text: &str,
    shapes: &[Shape],
) -> Result<(), Fail> {
    play_each_over(rt, alloc, text, shapes, SOUND_ONES)
}

use super::streams::Faulty;
use crate::std_files::read_to_limit;
use crate::{FileFault, Files, MemFiles, StdFiles, Whole};
use bmc_base::Text;
use std::alloc::Global;
use std::fs;
use std::test::Fail;

// What is wanted of a file: its bytes, none where it has more than the limit, or a fault.
type Answer<'a> = Result<Option<&'a [u8]>, FileFault>;

fn is_answer(read: &Result<Whole, FileFault>, wanted: &Answer<'_>) -> bool {
    match (read, wanted) {
        (Ok(Whole::Given(bytes)), Ok(Some(text))) => bytes.as_slice() == *text,
        (Ok(Whole::Longer), Ok(None)) => true,
        (Err(fault), Err(other)) => fault == other,
        _ => false,
    }
}

fn answers<F: Files>(
    alloc: Global,
    files: &mut F,
    name: &str,
    limit: usize,
    wanted: &Answer<'_>,
) -> bool {
    let read = files.read_whole(alloc, name, limit);
    is_answer(&read, wanted)
}

fn are_names(names: &[Text], wanted: &[&str]) -> bool {
    names.len() == wanted.len()
        && names
            .iter()
            .zip(wanted)
            .all(|(name, text)| name.as_str() == *text)
}

#[test]
fn reads_files_of_memory(rt: HostRuntime) -> Result<(), Fail> {
    let alloc = rt.alloc();
    let mut files = MemFiles::new(alloc, &[1])?;
    files.add(alloc, "a", b"first")?;
    files.add(alloc, "b", b"abcd")?;
    files.add(alloc, "a", b"second")?;
    // the name, the limit, the answer, and how many calls failed
    let rows: &[(&str, usize, Answer<'_>, u64)] = &[
        ("a", 6, Ok(Some(b"second")), 0),
        ("a", 6, Err(FileFault::Failed), 1),
        ("a", 5, Ok(None), 1),
        ("b", 4, Ok(Some(b"abcd")), 1),
        ("B", 4, Err(FileFault::Failed), 2),
        ("b", 0, Ok(None), 2),
    ];
    for &(name, limit, wanted, faults) in rows {
        assert!(rt;
            answers(alloc, &mut files, name, limit, &wanted),
            "{name} {limit}"
        );
        assert_eq!(rt; files.faults(), faults);
    }
    assert!(rt; are_names(files.failed_names(), &["a", "B"]));
    Ok(())
}

#[test]
fn reads_files_of_the_system(rt: HostRuntime) -> Result<(), Fail> {
    let alloc = rt.alloc();
    let text = vec![in alloc; b'x'; 9000]?;
    fs::write(&rt, "empty.txt", "")?;
    fs::write(&rt, "long.txt", text.as_slice())?;
    let text = text.as_slice();
    let mut files = StdFiles::new(&rt, alloc);
    // The name, the limit, the answer, and how many calls failed. The last file can be opened and not be read.
    let rows: &[(&str, usize, Answer<'_>, u64)] = &[
        ("empty.txt", 0, Ok(Some(b"")), 0),
        ("long.txt", 9000, Ok(Some(text)), 0),
        ("long.txt", 9001, Ok(Some(text)), 0),
        ("long.txt", usize::MAX, Ok(Some(text)), 0),
        ("long.txt", 8999, Ok(None), 0),
        ("long.txt", 0, Ok(None), 0),
        ("missing.txt", 9000, Err(FileFault::Failed), 1),
        (".", 9000, Err(FileFault::Failed), 2),
        ("long.txt/below", 9000, Err(FileFault::Failed), 3),
        ("/proc/self/mem", 9000, Err(FileFault::Failed), 4),
    ];
    for &(name, limit, wanted, faults) in rows {
        assert!(rt;
            answers(alloc, &mut files, name, limit, &wanted),
            "{name} {limit}"
        );
        assert_eq!(rt; files.faults(), faults);
    }
    assert!(rt;
        are_names(
            files.failed_names(),
            &["missing.txt", ".", "long.txt/below", "/proc/self/mem"]
        )
    );
    fs::remove_file(&rt, "empty.txt")?;
    fs::remove_file(&rt, "long.txt")?;
    Ok(())
}

#[test]
fn a_read_that_fails_in_the_middle(rt: HostRuntime) {
    let alloc = rt.alloc();
    let read = read_to_limit(alloc, &mut Faulty { calls: 0 }, 9);
    assert!(rt; is_answer(&read, &Err(FileFault::Failed)));
    let read = read_to_limit(alloc, &mut Faulty { calls: 3 }, 9);
    assert!(rt; matches!(read, Ok(Whole::Given(_))));
}

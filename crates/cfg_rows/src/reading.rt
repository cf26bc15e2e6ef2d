use bmc_base::Silent;
use cfg_json::Config;
use pat_gate::{PatternMaker, RegexMaker};
use std::alloc::Global;
use std::process::Abort;
use std::test::Fail;

// Reads a document, whose patterns are compiled by `regex`.
pub(crate) fn read(alloc: Global, document: &[u8]) -> Result<Config<Silent>, Fail> {
    Ok(Config::read(alloc, document, &mut RegexMaker::new(alloc))?)
}

// The fault of a document as it is printed, or `Ok`.
pub(crate) fn fault_of<M: PatternMaker>(
    alloc: Global,
    document: &[u8],
    maker: &mut M,
) -> Result<String, Fail> {
    match Config::<Silent>::read(alloc, document, maker) {
        Ok(_) => Ok(String::from_str(alloc, "Ok")?),
        Err(fault) => Ok(format!(in alloc; "{fault:?}")?),
    }
}

pub(crate) fn assert_fault(
    rt: &impl Abort,
    alloc: Global,
    document: &str,
    fault: &str,
) -> Result<(), Fail> {
    let given = fault_of(alloc, document.as_bytes(), &mut RegexMaker::new(alloc))?;
    assert_eq!(rt; given.as_str(), fault, "{document}");
    Ok(())
}

// Asserts the fault of a document with an expose of these members.
pub(crate) fn assert_members(
    rt: &impl Abort,
    alloc: Global,
    members: &str,
    fault: &str,
) -> Result<(), Fail> {
    let document = format!(in alloc; r#"{{"Name":"A","Probe":"TRUE","Exposes":[{{{members}}}]}}"#)?;
    assert_fault(rt, alloc, document.as_str(), fault)
}

// A text again and again.
pub(crate) fn repeated(alloc: Global, text: &str, times: usize) -> Result<String, Fail> {
    let mut out = String::new(alloc);
    for _ in 0..times {
        out.push_str(text)?;
    }
    Ok(out)
}

// Asserts the fault of a document with an expose of these members and one more, which stands in the place of an earlier
// one of its name.
pub(crate) fn assert_with(
    rt: &impl Abort,
    alloc: Global,
    members: &str,
    more: &str,
    fault: &str,
) -> Result<(), Fail> {
    let members = format!(in alloc; "{members},{more}")?;
    assert_members(rt, alloc, members.as_str(), fault)
}

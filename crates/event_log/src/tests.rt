use crate::{Class, Log};
use bmc_base::Name;
use bmc_report::{Change, push_change};
use std::alloc::Global;
use std::fmt::Write;
use std::process::Abort;
use std::test::Fail;

// How many errors are kept, the classes of the entries that are added (e for an error, i for an
// info), and what is listed: the class and the id of each entry. The listings come from a program
// in Python that counts, for each entry, the later ones of its class.
const ROWS: &[(u32, &str, &str)] = &[
    (1, "", ""),
    (1, "e", "e1"),
    (1, "i", "i1"),
    (1, "ei", "e1 i2"),
    (1, "ie", "i1 e2"),
    (1, "ee", "e2"),
    (1, "ii", "i1 i2"),
    (1, "eee", "e3"),
    (1, "eeie", "i3 e4"),
    (1, "eieiee", "i2 i4 e6"),
    (1, "iieeieei", "i1 i2 i5 e7 i8"),
    (2, "eee", "e2 e3"),
    (2, "eeie", "e2 i3 e4"),
    (2, "eieiee", "i2 i4 e5 e6"),
    (2, "iieeieei", "i1 i2 i5 e6 e7 i8"),
    (3, "eee", "e1 e2 e3"),
    (3, "eeie", "e1 e2 i3 e4"),
    (3, "eieiee", "i2 e3 i4 e5 e6"),
    (3, "iieeieei", "i1 i2 e4 i5 e6 e7 i8"),
    (1, "iiiiiiiiii", "i1 i2 i3 i4 i5 i6 i7 i8 i9 i10"),
    (1, "iiiiiiiiiii", "i2 i3 i4 i5 i6 i7 i8 i9 i10 i11"),
    (1, "iiiiiiiiiie", "i1 i2 i3 i4 i5 i6 i7 i8 i9 i10 e11"),
    (1, "eiiiiiiiiiiii", "e1 i4 i5 i6 i7 i8 i9 i10 i11 i12 i13"),
    (
        1000,
        "iiiiiiiiiiiiieeeeeeeeeeeee",
        "i4 i5 i6 i7 i8 i9 i10 i11 i12 i13 e14 e15 e16 e17 e18 e19 e20 e21 e22 e23 e24 \
         e25 e26",
    ),
    (
        10,
        "eeeeeeeeeeiiiiiiiiii",
        "e1 e2 e3 e4 e5 e6 e7 e8 e9 e10 i11 i12 i13 i14 i15 i16 i17 i18 i19 i20",
    ),
    (
        10,
        "eeeeeeeeeeeiiiiiiiiiii",
        "e2 e3 e4 e5 e6 e7 e8 e9 e10 e11 i13 i14 i15 i16 i17 i18 i19 i20 i21 i22",
    ),
    (
        9,
        "eeeeeeeeeeiiiiiiiii",
        "e2 e3 e4 e5 e6 e7 e8 e9 e10 i11 i12 i13 i14 i15 i16 i17 i18 i19",
    ),
    (
        11,
        "eeeeeeeeeeeeiiiiiiiiiiii",
        "e2 e3 e4 e5 e6 e7 e8 e9 e10 e11 e12 i15 i16 i17 i18 i19 i20 i21 i22 i23 i24",
    ),
    (
        1,
        "iiiiiiiieieieeeii",
        "i3 i4 i5 i6 i7 i8 i10 i12 e15 i16 i17",
    ),
    (
        1,
        "eiieieeieiieieeeiiieeeeeeeeiie",
        "i5 i8 i10 i11 i13 i17 i18 i19 i28 i29 e30",
    ),
    (
        2,
        "iiiieiiiieieeiiii",
        "i4 i6 i7 i8 i9 i11 e12 e13 i14 i15 i16 i17",
    ),
    (
        2,
        "eiiiieiiiieeieiiiieieeiiieeiii",
        "i16 i17 i18 i20 i23 i24 i25 e26 e27 i28 i29 i30",
    ),
    (
        2,
        "iiiieeieiieeiieiieeiieeiieiieiiiiiiiiiiieeiieiiieeiiiiiieiiii",
        "e50 i51 i52 i53 i54 i55 i56 e57 i58 i59 i60 i61",
    ),
    (
        3,
        "eiiiiiiiiiiiiieie",
        "e1 i6 i7 i8 i9 i10 i11 i12 i13 i14 e15 i16 e17",
    ),
    (
        3,
        "iiiiiiiiiiiiiiiiiiieiiiiieieei",
        "i17 i18 i19 i21 i22 i23 i24 i25 e26 i27 e28 e29 i30",
    ),
    (
        5,
        "eeeiieeiieeeiieie",
        "i4 i5 i8 i9 e10 e11 e12 i13 i14 e15 i16 e17",
    ),
    (
        5,
        "iieeeeeeeieeeiieieeeeeeeeeeeeeiieeeeeeeeiieeeeeeeeieeeieiiiie",
        "i31 i32 i41 i42 i51 e52 e53 e54 i55 e56 i57 i58 i59 i60 e61",
    ),
    (
        8,
        "eeeeiieieiieeeeii",
        "e3 e4 i5 i6 e7 i8 e9 i10 i11 e12 e13 e14 e15 i16 i17",
    ),
    (
        8,
        "ieeeeieieiieeeeiiiiiieeeeiieee",
        "i10 i11 e15 i16 i17 i18 i19 i20 i21 e22 e23 e24 e25 i26 i27 e28 e29 e30",
    ),
    (
        20,
        "eieieeeiieieieeee",
        "e1 i2 e3 i4 e5 e6 e7 i8 i9 e10 i11 e12 i13 e14 e15 e16 e17",
    ),
    (
        20,
        "eeeieeeieieeiieeeiieeeeeeeieiieeeeieieeieeeiieeeeeiieeeeieiei",
        "e32 e33 e34 i35 e36 i37 e38 e39 i40 e41 e42 e43 i44 i45 e46 e47 e48 e49 e50 i51 \
         i52 e53 e54 e55 e56 i57 e58 i59 e60 i61",
    ),
    (
        1000,
        "eeieiieieeeeeeeee",
        "e1 e2 i3 e4 i5 i6 e7 i8 e9 e10 e11 e12 e13 e14 e15 e16 e17",
    ),
];

fn class_of(letter: char) -> Class {
    if letter == 'e' {
        Class::Error
    } else {
        Class::Info
    }
}

// Adds an entry of each of the classes. Its change has its number, from 0 on, and its tick has the
// bits of that number turned over.
fn add_all(rt: &impl Abort, log: &mut Log, classes: &str) -> Result<(), Fail> {
    for (n, letter) in classes.chars().enumerate() {
        let index = u32::try_from(n)?;
        let change = Change::Board {
            gone: false,
            name: Name::new("Riser")?,
            index,
            place: None,
        };
        let id = log.add(class_of(letter), !u64::from(index), change);
        assert_eq!(rt; id, u64::from(index) + 1);
    }
    Ok(())
}

// The class and the id of each entry that is listed, each with what was added under that id.
fn listing(rt: &impl Abort, alloc: Global, log: &Log) -> Result<String, Fail> {
    let mut text = String::new(alloc);
    for entry in log.entries(alloc)?.as_slice() {
        if !text.is_empty() {
            text.push(' ')?;
        }
        let letter = match entry.class {
            Class::Error => 'e',
            Class::Info => 'i',
        };
        write!(text, "{letter}{}", entry.id)?;
        let number = entry.id.wrapping_sub(1);
        let mut added = String::new(alloc);
        push_change(&mut added, entry.tick, &entry.change)?;
        let wanted = format!(in alloc; "{} new board \"Riser\" {number}\n", !number)?;
        assert_eq!(rt; added.as_str(), wanted.as_str());
    }
    Ok(text)
}

// What is listed of a log that keeps so many errors, after entries of these classes.
fn listing_of(
    rt: &impl Abort,
    alloc: Global,
    error_cap: u32,
    classes: &str,
) -> Result<String, Fail> {
    if error_cap < 1 || 1000 < error_cap {
        return Err("no such cap".into());
    }
    let mut log = Log::new(alloc, error_cap)?;
    add_all(rt, &mut log, classes)?;
    listing(rt, alloc, &log)
}

#[test]
fn latest_entries(rt: HostRuntime) -> Result<(), Fail> {
    for (error_cap, classes, wanted) in ROWS {
        let text = listing_of(&rt, rt.alloc(), *error_cap, classes)?;
        assert_eq!(rt; text.as_str(), *wanted, "{error_cap} {classes}");
    }
    Ok(())
}

// An alarm that goes on and off 201 times, behind the board: 200 errors and 10 infos are kept.
#[test]
fn long_run(rt: HostRuntime) -> Result<(), Fail> {
    let mut classes = String::from_str(rt.alloc(), "i")?;
    for _ in 0..201 {
        classes.push_str("ei")?;
    }
    let text = listing_of(&rt, rt.alloc(), 200, classes.as_str())?;
    let mut wanted = String::from_str(rt.alloc(), "e4")?;
    for id in 5..404 {
        if id % 2 == 0 {
            write!(wanted, " e{id}")?;
        } else if 385 <= id {
            write!(wanted, " i{id}")?;
        }
    }
    assert_eq!(rt; text.as_str(), wanted.as_str());
    assert_eq!(rt; text.split(' ').count(), 210);
    Ok(())
}

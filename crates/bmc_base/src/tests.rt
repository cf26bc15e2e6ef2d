use crate::{Bytes, Ledger, Milli, Name, NameFault, Place, Silent, Steps, Text, Work};
use std::cell::Cell;
use std::test::Fail;

// Keeps what it is told last, and how often it was told.
#[derive(Drop)]
struct Listener<'a> {
    last: &'a Cell<Option<Work>>,
    times: &'a Cell<u32>,
}

impl<'a> Ledger for Listener<'a> {
    fn tick(&mut self, work: Work) {
        self.last.set(Some(work));
        self.times.set(self.times.get().saturating_add(1));
    }
}

#[test]
fn the_ledger_is_told(rt: HostRuntime) {
    let (last, times) = (Cell::new(None), Cell::new(0));
    let mut steps = Steps::new(Listener {
        last: &last,
        times: &times,
    });
    assert_eq!(rt; (last.get(), times.get()), (None, 0));
    steps.matched();
    assert_eq!(rt; (last.get(), times.get()), (Some(Work::Match), 1));
    steps.evaluated();
    assert_eq!(rt; (last.get(), times.get()), (Some(Work::Eval), 2));
    steps.matched();
    assert_eq!(rt; (last.get(), times.get()), (Some(Work::Match), 3));
    assert_eq!(rt; (steps.matches(), steps.evals()), (2, 1));
}

#[test]
fn silent_steps_count(rt: HostRuntime) {
    let mut steps = Steps::new(Silent);
    assert_eq!(rt; (steps.matches(), steps.evals()), (0, 0));
    steps.matched();
    steps.evaluated();
    assert_eq!(rt; (steps.matches(), steps.evals()), (1, 1));
}

#[test]
fn thousandths_are_printed(rt: HostRuntime) -> Result<(), Fail> {
    let rows = &[
        (0, "0.000"),
        (5, "0.005"),
        (-5, "-0.005"),
        (1000, "1.000"),
        (-12345, "-12.345"),
        (i64::MAX, "9223372036854775.807"),
        (i64::MIN, "-9223372036854775.808"),
    ];
    for &(number, text) in rows {
        assert_eq!(rt; format!(in rt.alloc(); "{}", Milli(number))?.as_str(), text);
    }
    Ok(())
}

#[test]
fn names_are_made(rt: HostRuntime) -> Result<(), Fail> {
    let long = [b'n'; 65];
    let long = str::from_utf8(&long)?;
    let rows = &[
        ("", Some(NameFault::Empty)),
        ("CPU 1 Temp", None),
        (&long[..64], None),
        (long, Some(NameFault::TooLong)),
    ];
    for &(text, fault) in rows {
        match Name::new(text) {
            Ok(name) => assert_eq!(rt; (name.copied().as_str(), None), (text, fault)),
            Err(other) => assert_eq!(rt; Some(other), fault),
        }
    }
    Ok(())
}

#[test]
fn places_are_made(rt: HostRuntime) -> Result<(), Fail> {
    let place = Place::new(255, 127).ok_or("no place")?;
    assert_eq!(rt; (place.bus(), place.address()), (255, 127));
    assert_eq!(rt; Place::new(256, 0), None);
    assert_eq!(rt; Place::new(0, 128), None);
    assert_eq!(rt;
        Bytes::copy(rt.alloc(), b"ab")?.as_slice(),
        b"ab".as_slice()
    );
    assert_eq!(rt; Text::copy(rt.alloc(), "ab")?.as_str(), "ab");
    Ok(())
}

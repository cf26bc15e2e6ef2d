ghost use Rattle.std.specs.Prelude.{◌≡◌, ◌+◌, ◌^◌, ◌<◌, ◌≤◌, length, take, IfOk, IfSome};
ghost use Rattle.fru_area.specs.Headers.{area_at, unit, longest_area, last_start};
ghost use Rattle.fru_area.specs.Walks.{first_field, raw_fields, field_bytes, last_kind, longest_field};
ghost use Rattle.fru_area.specs.Areas.{area_fields};
ghost use Rattle.fru_area.specs.Readings.{Appends, Gives, checked, seen};
ghost use Rattle.fru_area.specs.NextNames.{IsNext};
ghost use Rattle.fru_area.specs.RawFields.{found_view};

use crate::header::{FORMAT_VERSION, UNIT};
use crate::{Area, FieldList, FieldName, FruFault, area_sum};
use std::alloc::Global;

/// Stands in place of a type/length byte and ends the fields of an area (FRU definition 1.0, section 13).
pub const END_MARK: u8 = 0xC1;

/// Returns the area that begins at byte `start` of a record, whole with its checksum (FRU definition 1.0,
/// sections 10 to 12), or the first of its rules that is broken: `AreaOutside`, `AreaVersion`,
/// `AreaLength`, `AreaChecksum`. It takes no memory.
#[tactic(auto, unfolding(crate::specs::Headers::area_at))]
pub fn area_bytes(area: Area, bytes: &[u8], start: usize) -> Result<&[u8], FruFault>
    requires { start ≤ last_start }
    ensures exact { seen (λ found. found.now) result ≡ area_at area bytes.now start }
    ensures size { IfOk result (λ found. (unit ≤ length found.now) × (length found.now ≤ longest_area)) }
{
    if bytes.len() < start + UNIT {
        return Err(FruFault::AreaOutside(area));
    }
    let len = UNIT * usize::from(bytes[start + 1]);
    if bytes.len() < start + len {
        return Err(FruFault::AreaOutside(area));
    }
    if bytes[start] != FORMAT_VERSION {
        return Err(FruFault::AreaVersion(area));
    }
    if len == 0 {
        return Err(FruFault::AreaLength(area));
    }
    let found = &bytes[start..start + len];
    if area_sum(found) != 0 {
        return Err(FruFault::AreaChecksum(area));
    }
    Ok(found)
}

// Borrows the bytes of an area from byte `start` on, up to its checksum.
fn field_bytes(bytes: &[u8], start: usize) -> &[u8]
    requires { start < length bytes.now }
    ensures exact { result.now ≡ field_bytes bytes.now start }
    ensures fewer { length result.now < length bytes.now }
{
    &bytes[start..bytes.len() - 1]
}

// A field as it stands, and the bytes behind it.
#[derive(Clone, Copy)]
struct RawField<'a> {
    kind: u8,
    bytes: &'a [u8],
    rest: &'a [u8],
}

// Returns the field at the front of the bytes, which end before the checksum, or none at the end mark.
#[tactic(auto, unfolding(crate::specs::Walks::first_field))]
fn raw_field(area: Area, bytes: &[u8]) -> Result<Option<RawField<'_>>, FruFault>
    ensures exact { seen found_view result ≡ first_field area bytes.now }
    ensures smaller { IfOk result (λ found. IfSome found (λ raw. length raw.rest.now < length bytes.now)) }
    ensures short { IfOk result (λ found. IfSome found (λ raw. (raw.kind ≤ last_kind) × (length raw.bytes.now ≤ longest_field))) }
{
    let Some((head, after)) = bytes.split_first() else {
        return Err(FruFault::NoEnd(area));
    };
    if *head == END_MARK {
        return Ok(None);
    }
    let count = usize::from(*head % 64);
    if after.len() < count {
        return Err(FruFault::FieldOutside(area));
    }
    let (text, rest) = after.split_at(count);
    Ok(Some(RawField {
        kind: *head / 64,
        bytes: text,
        rest,
    }))
}

// The name of a field, and for later fields the names that are left and the number of a custom one.
#[derive(Clone, Copy)]
struct NextName<'a> {
    name: FieldName,
    later: &'a [FieldName],
    number: u16,
}

// Names the next field: by the first of the names, or as a custom field of this number.
fn next_name(area: Area, names: &[FieldName], number: u16) -> NextName<'_>
    requires { number + 1 < 2 ^ 16 }
    ensures named { IsNext area names.now number result }
    ensures limit { result.number ≤ number + 1 }
{
    match names.split_first() {
        Some((name, later)) => NextName {
            name: *name,
            later,
            number,
        },
        None => NextName {
            name: FieldName::Custom(area, number),
            later: names,
            number: number + 1,
        },
    }
}

/// Appends the fields of a whole area with its checksum to a list, from byte `start` on (FRU definition
/// 1.0, section 13). The first N get the names, further ones are custom fields from 1. What stood in the
/// list stays in front.
///
/// Fails with `FieldOutside` or `NoEnd`, the first rule that is broken, or for want of memory. Some fields
/// of the area may stand in the list then.
pub fn append_area<const N: usize>(
    list: &mut FieldList,
    alloc: Global,
    area: Area,
    bytes: &[u8],
    start: usize,
    english: bool,
    names: [FieldName; N],
) -> Result<(), FruFault>
    requires room { start < length bytes.now }
    requires short { length bytes.now ≤ longest_area }
    ensures fields { Appends result list.old list.new (area_fields area english names.entry bytes.now start) }
    ensures front { take (length list.old) list.new ≡ list.old }
{
    let mut rest = field_bytes(bytes, start);
    let mut names = &names[..];
    let mut number = 1;
    while let Some(raw) = raw_field(area, rest)? {
        let next = next_name(area, names, number);
        list.push_written(next.name, raw.kind, english, raw.bytes)?;
        names = next.later;
        number = next.number;
        rest = raw.rest;
    }
    Ok(())
}

/// Returns the fields of a whole area in a list of their own. It fails where `append_area` does.
pub fn read_area<const N: usize>(
    alloc: Global,
    area: Area,
    bytes: &[u8],
    start: usize,
    english: bool,
    names: [FieldName; N],
) -> Result<FieldList, FruFault>
    requires room { start < length bytes.now }
    requires short { length bytes.now ≤ longest_area }
    ensures { Gives result (area_fields area english names.entry bytes.now start) }
{
    let mut fields = FieldList::new(alloc)?;
    append_area(&mut fields, alloc, area, bytes, start, english, names)?;
    Ok(fields)
}

/// Checks the fields of a whole area with its checksum, from byte `start` on: fails with the first rule
/// that is broken, `FieldOutside` or `NoEnd`. It takes no memory.
pub fn check_fields(area: Area, bytes: &[u8], start: usize) -> Result<(), FruFault>
    requires { start < length bytes.now }
    ensures { result ≡ checked (raw_fields area bytes.now start) }
{
    let mut rest = field_bytes(bytes, start);
    while let Some(raw) = raw_field(area, rest)? {
        rest = raw.rest;
    }
    Ok(())
}

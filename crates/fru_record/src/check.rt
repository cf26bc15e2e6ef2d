ghost use Rattle.std.specs.Prelude.{◌≡◌, ◌<◌, length};
ghost use Rattle.fru_area.specs.Readings.{checked};
ghost use Rattle.fru_area.specs.Headers.{unit};
ghost use Rattle.fru_record.specs.Records.{record_of, fields_start, fields_at};

use fru_area::{Area, FruFault, UNIT, area_bytes, check_fields, read_header};

/// Tells whether the bytes spell a record, or the first rule that they break: what `FruRecord::decode` answers,
/// without the fields and without memory, so it never answers `OutOfMemory`.
pub fn check_record(bytes: &[u8]) -> Result<(), FruFault>
    ensures { result ≡ checked (record_of bytes.now) }
{
    let header = read_header(bytes)?;
    check_area(Area::Chassis, bytes, header.chassis)?;
    check_area(Area::Board, bytes, header.board)?;
    check_area(Area::Product, bytes, header.product)
}

// Tells whether the area that begins at this offset, in units, breaks no rule; at 0 it is absent.
fn check_area(area: Area, bytes: &[u8], offset: u8) -> Result<(), FruFault>
    ensures { result ≡ checked (fields_at area bytes.now offset) }
{
    if offset == 0 {
        return Ok(());
    }
    let found = area_bytes(area, bytes, UNIT * usize::from(offset))?;
    check_fields(area, found, fields_start(area))
}

// Returns the position where the fields of an area begin.
fn fields_start(area: Area) -> usize
    ensures exact { result ≡ fields_start area }
    ensures short { result < unit }
{
    match area {
        Area::Chassis | Area::Product => 3,
        Area::Board => 6,
    }
}

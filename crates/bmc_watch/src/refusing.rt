ghost use Rattle.std.specs.Prelude.{◌≡◌, Some, None, IfOk, OnErr};
ghost use Rattle.bmc_machine.specs.Refusals.{record_refusal, limit_refusal};

use bmc_base::OutOfMemory;
use bmc_report::Refusal;
use fru_area::FruFault;
use inventory::InventoryFault;

/// The refusal by a rule that bytes break to be a record; want of memory is no rule.
pub fn record_refused(rule: FruFault) -> Result<Refusal, OutOfMemory>
    ensures refusal { IfOk result (λ refusal. record_refusal rule ≡ Some refusal) }
    ensures memory { OnErr result (record_refusal rule ≡ None) }
{
    let refusal = match rule {
        FruFault::FruShort => Refusal::FruShort,
        FruFault::FruTooLong => Refusal::FruTooLong,
        FruFault::HeaderVersion => Refusal::HeaderVersion,
        FruFault::HeaderChecksum => Refusal::HeaderChecksum,
        FruFault::AreaOutside(area) => Refusal::AreaOutside(area),
        FruFault::AreaVersion(area) => Refusal::AreaVersion(area),
        FruFault::AreaLength(area) => Refusal::AreaLength(area),
        FruFault::AreaChecksum(area) => Refusal::AreaChecksum(area),
        FruFault::FieldOutside(area) => Refusal::FieldOutside(area),
        FruFault::NoEnd(area) => Refusal::NoEnd(area),
        FruFault::OutOfMemory => return Err(OutOfMemory),
    };
    Ok(refusal)
}

/// The refusal by a limit of the inventory.
pub fn limit_refused(fault: InventoryFault) -> Refusal
    ensures { result ≡ limit_refusal fault }
{
    match fault {
        InventoryFault::BoardLimit => Refusal::BoardLimit,
        InventoryFault::SensorLimit => Refusal::SensorLimit,
        InventoryFault::ZoneLimit => Refusal::ZoneLimit,
        InventoryFault::FanLimit => Refusal::FanLimit,
        InventoryFault::PidLimit => Refusal::PidLimit,
        InventoryFault::StepLimit => Refusal::StepLimit,
    }
}

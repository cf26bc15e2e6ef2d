use bmc_base::Place;
use fru_record::FruRecord;

/// What a template is rendered for.
#[derive(Drop)]
pub struct Spot<'a> {
    /// The place, which `$bus` and `$address` ask for.
    pub place: Option<Place>,
    /// The record, whose fields are asked for by their names.
    pub fru: Option<&'a FruRecord>,
    /// The index, which `$index` asks for.
    pub index: u32,
}

/// What a list is about.
#[derive(Clone, Copy, Debug, PartialEq, Eq)]
pub enum Topic {
    /// The FRUs that are present, with their fields.
    Frus,
    /// The boards, with what they expose.
    Inventory,
    /// The live sensors.
    Sensors,
    /// The live zones and fans.
    Zones,
    /// The entries that the log keeps.
    Log,
    /// The indexes that boards have for good.
    Indexes,
}

/// A family of items, in which each name is held by one item.
#[derive(Clone, Copy, Debug, PartialEq, Eq, Hash)]
pub enum Family {
    /// The sensors.
    Sensor,
    /// The zones.
    Zone,
    /// The fans.
    Fan,
}

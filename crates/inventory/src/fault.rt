use thiserror::Error;

/// Why an event is not taken: a limit that the boards would pass.
#[derive(Clone, Copy, Debug, PartialEq, Eq, Error)]
pub enum InventoryFault {
    /// There would be more than 1,024 boards.
    #[error("too many boards")]
    BoardLimit,
    /// The boards would have more than 4,096 exposes that are sensors, whether they are rendered or not.
    #[error("too many sensors")]
    SensorLimit,
    /// The boards would have more than 32 exposes that are zones, whether they are rendered or not.
    #[error("too many zones")]
    ZoneLimit,
    /// The boards would have more than 128 exposes that are fans, whether they are rendered or not.
    #[error("too many fans")]
    FanLimit,
    /// The boards would have more than 128 exposes that are PID controllers, whether they are rendered or not.
    #[error("too many PID controllers")]
    PidLimit,
    /// The boards would have more than 64 exposes that are stepwise controllers, whether they are rendered or not.
    #[error("too many stepwise controllers")]
    StepLimit,
}

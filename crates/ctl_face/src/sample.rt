use bmc_base::Milli;

/// What a controller is given at one step.
#[derive(Clone, Copy, Debug, PartialEq, Eq)]
pub struct Sample {
    /// The reading, within 2,000,000,000,000 units of 0.
    pub input: Milli,
    /// The reading that is wanted, within 1,000,000 units of 0: that of the setting, and for class
    /// fan that of a zone. A stepwise controller does not look at it.
    pub setpoint: Milli,
}

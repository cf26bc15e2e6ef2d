/// What a controller remembers from one step to the next, in thousandths. Before the first step the
/// integral is 0 and there is nothing else.
#[derive(Clone, Copy, Debug, PartialEq, Eq)]
pub struct CtlState {
    /// What the errors have added up to, of a PID controller.
    pub integral: i64,
    /// The setpoint less the input at the last step, of a PID controller.
    pub error: Option<i64>,
    /// The input at which the output was last looked up, of a stepwise controller.
    pub base: Option<i64>,
    /// The output of the last step.
    pub output: Option<i64>,
}

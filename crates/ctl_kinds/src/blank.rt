use ctl_face::CtlState;

// The state before the first step.
pub(crate) const BLANK: CtlState = CtlState {
    integral: 0,
    error: None,
    base: None,
    output: None,
};

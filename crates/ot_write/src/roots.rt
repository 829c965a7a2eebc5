use ot_trace::StepId;

/// The steps of an export's theorem, of its list and of its term.
#[derive(Clone, Copy)]
pub struct Roots {
    pub theorem: StepId,
    pub list: StepId,
    pub term: StepId,
}

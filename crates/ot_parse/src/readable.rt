use ot_logic::Tm;

/// A sequent that was read: its hypotheses, each once, and its conclusion.
#[derive(Drop)]
pub struct Readable {
    pub hyps: Vec<Tm>,
    pub concl: Tm,
}

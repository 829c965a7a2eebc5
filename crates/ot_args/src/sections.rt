ghost use Rattle.std.specs.Prelude.{◌≡◌};
ghost use Rattle.ot_args.specs.Grammar.{names_any, shown};

/// The sections of a summary that are asked for.
#[derive(Clone, Copy)]
pub struct Sections {
    /// The assumptions of the run.
    pub assumptions: bool,
    /// The definitions of the run.
    pub definitions: bool,
    /// The theorems of the run.
    pub theorems: bool,
}

/// No section.
pub const NONE: Sections = Sections {
    assumptions: false,
    definitions: false,
    theorems: false,
};

/// Every section.
const ALL: Sections = Sections {
    assumptions: true,
    definitions: true,
    theorems: true,
};

/// Whether a section is among them.
pub fn names_any(sections: Sections) -> bool
    ensures { result ≡ names_any sections }
{
    sections.assumptions || sections.definitions || sections.theorems
}

/// The sections that are shown where these are named: all where none is.
pub fn shown(sections: Sections) -> Sections
    ensures { result ≡ shown sections }
{
    if names_any(sections) { sections } else { ALL }
}

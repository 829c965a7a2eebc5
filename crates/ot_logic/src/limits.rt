//! What the program takes at the most.
ghost use Rattle.std.specs.Prelude.{◌≡◌};
ghost use Rattle.ot_logic.specs.Limits.{standard_limits};

/// What the program takes at the most.
#[derive(Clone, Copy)]
pub struct Limits {
    /// Bytes of an article.
    pub article_bytes: u64,
    /// Bytes of a theory file.
    pub theory_bytes: usize,
    /// Packages inside each other.
    pub package_depth: usize,
    /// Bytes of a summary.
    pub summary_bytes: usize,
    /// Bytes of a written article.
    pub written_bytes: u64,
}

/// The greatest depth of a type, a term or a list.
pub const DEPTH_LIMIT: u32 = 4096;

/// The most bytes of a readable text.
pub const TEXT_LIMIT: usize = 1_048_576;

/// The most bytes of a list of packages.
pub const INDEX_LIMIT: usize = 1_048_576;

impl Limits {
    /// The limits of the program.
    pub fn standard() -> Limits
        ensures { result ≡ standard_limits }
    {
        Limits {
            article_bytes: 4_294_967_296,
            theory_bytes: 1_048_576,
            package_depth: 16,
            summary_bytes: 67_108_864,
            written_bytes: 4_294_967_296,
        }
    }
}

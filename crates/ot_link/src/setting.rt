use ot_logic::Limits;
use std::alloc::Global;

/// What stays the same through a link.
#[derive(Clone, Copy)]
pub(crate) struct Setting<'a> {
    pub alloc: Global,
    /// The folder of packages.
    pub packages: &'a str,
    pub limits: &'a Limits,
}

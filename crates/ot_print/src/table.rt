//! The table under which items are printed.
use ot_kernel::Kernel;

/// The kernel whose numbers are printed.
#[derive(Clone, Copy)]
pub struct InKernel<'a> {
    pub kernel: &'a Kernel,
}

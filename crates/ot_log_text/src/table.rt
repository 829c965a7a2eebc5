//! The table under which items are printed.
use ot_log_nodes::Nodes;

/// The nodes whose numbers are printed.
#[derive(Clone, Copy)]
pub(crate) struct InNodes<'a> {
    pub(crate) nodes: &'a Nodes,
}

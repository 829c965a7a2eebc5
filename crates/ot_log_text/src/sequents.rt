//! The texts of sequents.
ghost use Rattle.ot_log_rules.specs.Statements.{sequent_at, HasStatement};
ghost use Rattle.ot_text.specs.Texts.{sequent_text};
ghost use Rattle.ot_text.specs.Pages.{IsPut, printed};

use crate::table::InNodes;
use crate::terms::put_term;
use ot_log_nodes::Nodes;
use ot_log_rules::Statement;
use ot_text::{Page, Printable, put_hypotheses};
use std::alloc::Global;

impl Printable<InNodes<'_>> for Statement {
    ghost is_inside = { λ t q. HasStatement t.nodes.now q };

    ghost text = { λ t q. sequent_text (sequent_at t.nodes.now q) };

    fn put(&self, page: &mut Page, alloc: Global, table: &InNodes<'_>) {
        put_statement(page, alloc, table.nodes, self);
    }
}

/// A sequent. The texts of the hypotheses together cost no more than the limit.
pub(crate) fn put_statement(page: &mut Page, alloc: Global, nodes: &Nodes, statement: &Statement)
    requires { HasStatement nodes.now statement.now }
    ensures { IsPut (sequent_text (sequent_at nodes.now statement.now)) (printed page.old) (printed
        page.new) }
{
    put_hypotheses(page, alloc, &InNodes { nodes }, statement.hyps.as_slice());
    put_term(page, nodes, statement.concl);
}

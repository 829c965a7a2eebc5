//! The exports of a machine of this session.
ghost use Rattle.std.specs.Prelude.{◌≡◌, ◌<◌, ◌≤◌, length, map, OnOk, OnErr, vec_len};
ghost use Rattle.std.specs.List.{All};
ghost use Rattle.ot_logic.specs.Hol.{same_sequent};
ghost use Rattle.ot_logic.specs.Naming.{names};
ghost use Rattle.ot_kernel.specs.State.{theorem_at};
ghost use Rattle.ot_kernel.specs.Alike.{AreFirstPlaces};
ghost use Rattle.ot_machine.specs.Meaning.{export_of, exported_by, article_of, IsOf};
ghost use Rattle.ot_machine.specs.Rows.{exported, is_exported};

use crate::machine::{Export, Machine};
use crate::session::Session;
use ot_kernel::{Places, ThmId};
use ot_logic::Memory;
use ot_trace::StepId;

impl Session {
    /// Exports a theorem, where its sequent isn't exported already, with the steps of the theorem, of its list and of
    /// its term.
    pub(crate) fn export(
        &self,
        machine: &mut Machine,
        th: ThmId,
        theorem: StepId,
        list: StepId,
        term: StepId,
    ) -> Result<(), Memory>
        requires of { IsOf self.now machine.old }
        requires th { th < length self.now.kernel.theorems }
        requires theorem { theorem < length self.now.trace }
        requires list { list < length self.now.trace }
        requires term { term < length self.now.trace }
        ensures ok { OnOk result
            (article_of self.now machine.new
            ≡ (let s = article_of self.now machine.old in
            record s {
              exports = exported
                  (export_of self.now (record { th = th; theorem = theorem; list = list; term = term })) s.exports;
            })) }
        ensures err { OnErr result (article_of self.now machine.new ≡ article_of self.now machine.old) }
        ensures of { IsOf self.now machine.new }
        ensures stack { vec_len machine.new.stack ≡ vec_len machine.old.stack }
    {
        if self.is_exported(&machine.exports, &machine.places, th) {
            return Ok(());
        }
        let place = machine.exports.len();
        self.kernel.note_theorem(&mut machine.places, th, place)?;
        machine.exports.push(Export {
            th,
            theorem,
            list,
            term,
        })?;
        Ok(())
    }

    /// Whether one of these exports is the theorem's sequent: the same set of hypotheses and the same conclusion, up
    /// to the names of binders. All numbers have to be of this session, and the places those of the exports.
    pub fn is_exported(&self, exports: &[Export], places: &Places, theorem: ThmId) -> bool
        requires exports { All (λ e. e.th < length self.now.kernel.theorems) exports.now }
        requires placed { AreFirstPlaces self.now.kernel (exported_by self.now.kernel exports.now) places.now }
        requires inside { theorem < length self.now.kernel.theorems }
        ensures { result ≡ is_exported (theorem_at self.now.kernel theorem) (map (export_of self.now) exports.now) }
    {
        let hyps = self.kernel.hyps(theorem);
        let concl = self.kernel.concl(theorem);
        match self.kernel.place_of(places, hyps, concl) {
            Some(place) => self.is_among(&exports[place..], theorem),
            None => false,
        }
    }

    /// Whether one of these exports is the theorem's sequent.
    fn is_among(&self, exports: &[Export], theorem: ThmId) -> bool
        requires exports { All (λ e. e.th < length self.now.kernel.theorems) exports.now }
        requires inside { theorem < length self.now.kernel.theorems }
        ensures { result ≡ is_exported (theorem_at self.now.kernel theorem) (map (export_of self.now) exports.now) }
    {
        for export in exports {
            if self.is_same(theorem, export.th) {
                return true;
            }
        }
        false
    }

    /// Whether two theorems are one sequent.
    fn is_same(&self, theorem: ThmId, other: ThmId) -> bool
        requires theorem { theorem < length self.now.kernel.theorems }
        requires other { other < length self.now.kernel.theorems }
        ensures { result ≡ same_sequent names (theorem_at self.now.kernel theorem)
            (theorem_at self.now.kernel other) }
    {
        let hyps = self.kernel.hyps(other);
        let concl = self.kernel.concl(other);
        self.kernel.same(theorem, hyps, concl)
    }
}

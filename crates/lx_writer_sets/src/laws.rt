//! What changes no writer, and what it takes to look at a slot.
ghost use Rattle.lx_writer_sets.specs.Laws.{LookLaws, WriterSetLaws};

use lx_caps::history_laws;

/// A strip, and a grant of a call or of a reference, change nothing that is recorded.
pub fn writer_set_laws()
    ensures { WriterSetLaws }
{
    history_laws();
}

/// The bound on what is looked at to see whether a slot is clean: what it is where nobody wrote nearby, and worked rows.
pub fn writer_look_laws()
    ensures { LookLaws }
{}

//! What is traced where a schedule is named. A caller learns it at no cost.
ghost use Rattle.lx_trace.specs.Traced.{TraceCommandLaws};

/// Where a schedule is named, a trace is that of the run under this schedule, and an entry that has no work is the first such one of it.
#[tactic(auto, using(crate::proofs::Named::trace_command_laws))]
pub fn trace_command_laws()
    ensures { TraceCommandLaws }
{}

//! What the monitor's threads do, one event after the other, is its run. A caller learns it at no cost.
ghost use Rattle.lx_threads.specs.Monitor.{MonitorLaws};

/// Where each entry of a history is an event of its thread, in order, the history is the monitor's run; its schedule is whole where
/// no thread has work at the end.
pub fn monitor_laws()
    ensures { MonitorLaws }
{}

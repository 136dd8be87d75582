//! What threads of images do, one event after the other, is a run of images. A caller learns it at no cost.
ghost use Rattle.lx_threads.specs.Imaged.{ImageMonitorLaws};

/// Where each entry of a history is an event of its thread of images, in order, the history is a run of images; its schedule is
/// whole where no thread has work at the end.
#[tactic(auto, using(crate::proofs::Schedules::image_monitor_laws))]
pub fn image_monitor_laws()
    ensures { ImageMonitorLaws }
{}

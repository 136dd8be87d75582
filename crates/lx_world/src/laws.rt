//! That what images ask may be served, and that what is served answers it.
ghost use Rattle.lx_world.specs.Answers.{ImageAnswerLaws};
ghost use Rattle.lx_world.specs.ImageRequestLaws.{ImageRequestLaws};

/// What a thread of images asks whose functions keep to its stack may be served, and behind the reply they keep to it again.
#[tactic(auto, using(crate::proofs::Replies::image_request_laws))]
pub fn image_request_laws()
    ensures { ImageRequestLaws }
{}

/// What is served answers what is asked.
#[tactic(auto, using(crate::proofs::Turns::image_answer_laws))]
pub fn image_answer_laws()
    ensures { ImageAnswerLaws }
{}

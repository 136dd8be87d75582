//! The world of images: what threads share, and the threads of instrumented code that ask it. Its account says how each call ended, and
//! who owns what, and how instances are named, at the end.
//!
//! ```text
//! let mut world = World::open(alloc, code, script, shared)?;
//! // Where in the code of images thread 0 asks next; none, where a script or the end of a call does.
//! let place = world.local_from(0)?;
//! // One event of thread 0: its next request is served, and it takes in the reply.
//! world.event(0)?;
//! // How each call ended, the notes, the images, and what each principal owns.
//! let account = world.account(alloc, images)?;
//! ```
#![tactic(auto)]

ghost use Rattle.lx_world.specs.Laws.{OwnedLaws};

mod account;
mod fault;
mod instances;
mod laws;
mod outcomes;
mod owned;
mod ownership;
mod runners;
mod turn;
mod world;

pub use fault::EventFault;
pub use instances::instance_names;
pub use laws::{image_answer_laws, image_request_laws};
pub use lx_interp::Standing;
pub use lx_serve::SharedPart;
pub use ownership::owners;
pub use runners::Runners;
pub use world::World;

/// What an account lists of what a principal owns, in the words of atoms.
pub fn owned_laws()
    ensures { OwnedLaws }
{}

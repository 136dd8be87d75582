//! Laws: accepted images run as their programs do under the monitor, whatever the schedule, their wrappers do what the annotations say, and
//! what is made of a well-formed program's modules is accepted.
//!
//! ```text
//! accepted_laws();
//! // Images without a fault of a well-formed program's texts are the images of its modules, whoever made them.
//! simulation_laws();
//! // `run c.program schedule (opening c.program script)` stands for the run of the images: `image_run c schedule (image_opening c script)`.
//! ```
#![tactic(auto)]

ghost use Rattle.lx_simulation.specs.Simulation.{SimulationLaws};
ghost use Rattle.lx_simulation.specs.AcceptedLaws.{AcceptedLaws};

use lx_caps::{history_laws, loan_laws};
use lx_model::model_laws;

/// Accepted images run as their programs do under the monitor, and their wrappers do what the annotations say.
pub fn simulation_laws()
    ensures { SimulationLaws }
{
    history_laws();
    loan_laws();
    model_laws();
}

/// Accepted images of a well-formed program's texts are the images of its modules, whoever made them: it is enough that each is verified,
/// has no fault by the program's interface, and that its program is the text of the module, lines apart. What the instrumenter makes of a
/// plain module, without the guards of spared stores or with all guards, is accepted, and its program is the module. An image of a text has its types.
pub fn accepted_laws()
    ensures { AcceptedLaws }
{}

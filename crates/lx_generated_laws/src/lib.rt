//! Laws of the texts that the program brings along and generates, and worked rows that the definitions evaluate: in the program's kernel, its
//! interface and the module of generated cases no fault stands, each generated text says its case, and each generated case is an input; programs
//! are written out with the accounts that the monitor gives of their runs, texts with what linking gives of them or their first fault, and images.
//!
//! ```text
//! builtin_laws();
//! // The texts of the kernel and of the generated module say modules in which no fault stands; that of the interface says one, line by line.
//! generated_case_laws();
//! // The text of 200 generated calls says a case, and so does that of any number of calls that a case may have.
//! generated_input_laws();
//! // The files of 200 generated calls are an input, and so are those of any number of calls that a case may have.
//! links::worked_faults();
//! // `WorkedFaults`: a row is a small text, and the first fault that the definition of linking finds in it.
//! ```
#![tactic(auto)]

ghost use Rattle.lx_generated_laws.specs.Builtin.{InterfaceIsSaid, KernelIsSound, ModuleIsSound};
ghost use Rattle.lx_generated_laws.specs.Cases.{CasesAreSaid};
ghost use Rattle.lx_generated_laws.specs.Inputs.{GeneratedFilesAreInputs};

pub mod images;
pub mod links;
pub mod programs;

use lx_annot_laws::{interface_laws, interface_lexeme_laws};
use lx_ir_complete::{every_text_laws, lexeme_laws, round_trip_laws};
use lx_ir_read::module_laws;
use lx_words::number_texts;

/// The text of a generated case says the case: its calls in their threads, each with its function, its argument, its fuel and its line.
pub fn generated_case_laws()
    ensures { CasesAreSaid }
{
    number_texts();
}

/// The texts of the kernel and of the module of a generated case say the modules that are given, lines aside, and no fault stands in
/// them. The text of the interface says the interface that is given.
pub fn builtin_laws()
    ensures kernel { KernelIsSound }
    ensures interface { InterfaceIsSaid }
    ensures generated { ModuleIsSound }
{
    every_text_laws();
    round_trip_laws();
    lexeme_laws();
    module_laws();
    interface_lexeme_laws();
    interface_laws();
}

/// The files of a generated case are an input, for each number of calls that a case may have: no fault stands in its texts, and they link.
pub fn generated_input_laws()
    ensures { GeneratedFilesAreInputs }
{
    generated_case_laws();
    builtin_laws();
}

//! Laws: the grammar of modules and their reading say the same of each text, each text is a module or has a first fault, and what is printed of
//! a lawful module is read again as the module. The token at which a reading stops cannot stand there, whatever follows it.
//!
//! ```text
//! module_is_read_laws();
//! // `IsModule form text m` gives `SaysModule form text m`, and `m` is the one module that the text is.
//! round_trip_laws();
//! // To what `print` writes of a lawful module `read_module` answers the module, lines aside, or want of memory.
//! ```
#![tactic(auto)]

ghost use Rattle.lx_ir_complete.specs.PieceLaws.{LaidAreScanned, PlacesDoNotCount, OfModules, TypesArePrinted, ConstantsArePrinted, InitsArePrinted, OfFunctions, ValuesArePrinted, OpsArePrinted, LinesAreRead};
ghost use Rattle.lx_ir_complete.specs.PieceRows.{WorkedPieces};
ghost use Rattle.lx_ir_calls.specs.declared.intrinsics.TextForm.{TextForm as FormOfText};
ghost use Rattle.lx_ir_complete.specs.ModuleRows.{WorkedModule};
ghost use Rattle.lx_ir_complete.specs.StatementLaws.{ModulesArePrinted, PrintedModulesAreRead, ModulesAreStated, ModulesAreCalm};
ghost use Rattle.lx_ir_complete.specs.KnownLaws.{LawfulTypesAreInside, TablesAreKnown, RegistersAreKnown, RegistersAreNumbered};
ghost use Rattle.lx_ir_complete.specs.FirstLaws.{FirstReadingsFind};
ghost use Rattle.lx_ir_complete.specs.RoundTripLaws.{PrintedIsRead, RoundTrips};
ghost use Rattle.lx_ir_complete.specs.UnlimitedLaws.{StatementsAreUnlimited};
ghost use Rattle.lx_ir_complete.specs.RefusalLaws.{CallsAreRefused, InstructionsAreRefused};
ghost use Rattle.lx_ir_complete.specs.StatementRefusalLaws.{BodiesAreRefused, StatementsAreRefused};
ghost use Rattle.lx_ir_complete.specs.FaultOfText.{FirstFaultsAreTold, ModulesOrFaults, OneFirstFault};
ghost use Rattle.lx_ir_complete.specs.Laws.{ModulesAreRead, OneModuleInGrammar, FaultyTextsAreNone, TextsHaveTokens, TextsAreAnswered, TextsAreRefused, RefusedTokensStandNowhere};

use lx_ir_lawful::forgotten_laws;
use lx_ir_read::module_laws;
use lx_ir_statements::{block_laws, statement_laws};
use lx_words::{number_texts, one_way};

/// A text that is laid out as lexemes is cut into them, and its tokens are seen by their kinds and bytes.
pub fn lexeme_laws()
    ensures scanned { LaidAreScanned }
    ensures seen { PlacesDoNotCount }
{}

/// The texts of types, constants, initialisers and operands say them.
pub fn printed_term_laws()
    ensures types { OfModules TypesArePrinted }
    ensures constants { OfModules ConstantsArePrinted }
    ensures inits { OfModules InitsArePrinted }
    ensures values { OfFunctions ValuesArePrinted }
{
    number_texts();
}

/// The texts of instructions say them.
pub fn printed_instruction_laws()
    ensures { (form : FormOfText) → OfFunctions (OpsArePrinted form) }
{
    number_texts();
}

/// A text of lines, none of which is passed over, is read as the tokens of its lines.
pub fn line_laws()
    ensures { LinesAreRead }
{
    one_way();
}

/// Worked rows: where lexemes end, and which lines are kept.
pub fn worked_pieces()
    ensures { WorkedPieces }
{}

/// The text of a module is lines that say its statements, and it is read to its end as tokens that say them, with no constant
/// `getelementptr` that names no part, and no name of an image's own where the module has none.
pub fn printed_module_laws()
    ensures printed { (form : FormOfText) → ModulesArePrinted form }
    ensures read { (form : FormOfText) → PrintedModulesAreRead form }
    ensures stated { (form : FormOfText) → ModulesAreStated form }
    ensures calm { (form : FormOfText) → ModulesAreCalm form }
{
    number_texts();
    one_way();
}

/// A worked row: a small module, its text, and a reader that knows its names.
pub fn worked_module()
    ensures { WorkedModule }
{}

/// The types that a lawful module may have are within the limits that are asked of types as they are written.
pub fn printed_limit_laws()
    ensures { LawfulTypesAreInside }
{}

/// A reader whose tables number the things of a lawful module in order knows what their names stand for, and the first
/// reading of a function numbers its registers so.
pub fn table_laws()
    ensures known { TablesAreKnown }
    ensures registers { RegistersAreKnown }
    ensures numbered { RegistersAreNumbered }
{}

/// The first reading of the statements of a lawful module finds them without a fault, and what they define.
pub fn first_laws()
    ensures { FirstReadingsFind }
{
    statement_laws();
    forgotten_laws();
}

/// What is printed of a lawful module is read again as the same module, its lines aside. In a program nothing may have a name of an
/// image's own.
pub fn printed_laws()
    ensures { (form : FormOfText) → PrintedIsRead form }
{
    statement_laws();
    forgotten_laws();
    table_laws();
    printed_module_laws();
}

/// To the printed text of a lawful module `read_module` answers the same module, its lines aside, or want of memory, where in a
/// program nothing has a name of an image's own.
pub fn round_trip_laws()
    ensures { (form : FormOfText) → RoundTrips form }
{
    printed_laws();
}

/// What tokens are as a statement within the limits on types, they are where no limits are asked.
pub fn unlimited_laws()
    ensures { StatementsAreUnlimited }
{}

/// A token at which the reading of a call or an instruction stops cannot stand there.
pub fn instruction_refusal_laws()
    ensures calls { CallsAreRefused }
    ensures instructions { InstructionsAreRefused }
{}

/// A token at which the reading of the blocks of a function or of a statement stops cannot stand there. Of a function this is said of
/// every fault in its blocks, and in its head of every fault but a name that is defined twice.
pub fn statement_refusal_laws()
    ensures bodies { BodiesAreRefused }
    ensures statements { StatementsAreRefused }
{}

/// What is a module by the grammar is read as that module. So the grammar gives a text one module at most, and none where
/// the text has a fault.
pub fn module_is_read_laws()
    ensures read { ModulesAreRead }
    ensures one { OneModuleInGrammar }
    ensures faulty { FaultyTextsAreNone }
{
    statement_laws();
    block_laws();
    forgotten_laws();
    unlimited_laws();
    module_laws();
}

/// Each text, of whatever bytes and length, falls into tokens, and is a module or has a first fault.
pub fn every_text_laws()
    ensures tokens { TextsHaveTokens }
    ensures answered { TextsAreAnswered }
{}

/// The token at which the first reading of a text stops cannot stand there, whatever follows it, where the fault is not a name that is
/// defined twice: reading stops at it again, and by the grammar no text has it there.
pub fn refused_text_laws()
    ensures read { TextsAreRefused }
    ensures nowhere { RefusedTokensStandNowhere }
{
    statement_laws();
}

/// The first fault of a text by the grammar: the text is no module, a byte that is told begins no token, and the token at which the first
/// reading stops stands there in no module, where the fault is not a name that is defined twice. Each text is a module or has one such
/// fault, and not two.
pub fn first_fault_laws()
    ensures told { FirstFaultsAreTold }
    ensures one { OneFirstFault }
    ensures answered { ModulesOrFaults }
{
    module_laws();
    module_is_read_laws();
    every_text_laws();
    refused_text_laws();
}

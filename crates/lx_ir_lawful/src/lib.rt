//! Laws: a module that is read is lawful, and plain as a program, in its types, constants, names, symbols and the bodies of its functions;
//! and each statement is one also by a context that knows no names.
//!
//! ```text
//! whole_laws();
//! // `SaysModule form text m` gives `IsLawful m` where the text has fewer than 2 ^ 32 - 1 bytes, and `IsPlain m` for a program.
//! ```
#![tactic(auto)]

ghost use Rattle.lx_ir_lawful.specs.ForgottenLaws.{StatementsAreForgotten};
ghost use Rattle.lx_ir_lawful.specs.LimitLaws.{InsideTypesAreLawful};
ghost use Rattle.lx_ir_lawful.specs.TermLaws.{WrittenAreLawful, ConstantsAreLawful, InitsAreLawful};
ghost use Rattle.lx_ir_lawful.specs.Said.{OpsAreSaid};
ghost use Rattle.lx_ir_lawful.specs.Named.{OpsAreNamed};
ghost use Rattle.lx_ir_lawful.specs.NameLaws.{NamesGrow, NamesStandOnce};
ghost use Rattle.lx_ir_lawful.specs.TokenNames.{TokensAreNamed, NamesAreFew};
ghost use Rattle.lx_ir_lawful.specs.BodyLaws.{BodiesAreLawful};
ghost use Rattle.lx_ir_lawful.specs.SizeLaws.{ModulesHaveLawfulTypes};
ghost use Rattle.lx_ir_lawful.specs.OnceLaws.{ImportsAreFirst, SymbolsAreOnce, TypesAreOnce};
ghost use Rattle.lx_ir_lawful.specs.SymbolLaws.{GlobalsAreLawful, ProgramsOwnNames, TextsName, TextsTell, ThingsAreFew};
ghost use Rattle.lx_ir_lawful.specs.FunctionLaws.{FunctionsAreLawful, ProgramsHaveNoLines};
ghost use Rattle.lx_ir_lawful.specs.Laws.{ProgramsArePlain, ReadIsLawful};

use lx_ir_read::module_laws;

/// The tokens of a statement are one also by a context that knows no names but those of registers: its registers have the
/// same names, and its other numbers are forgotten.
pub fn forgotten_laws()
    ensures { StatementsAreForgotten }
{}

/// A type that is within the limits as it is written, over named types that are, is one that a lawful module may have.
pub fn limit_laws()
    ensures { InsideTypesAreLawful }
{}

/// The types, constants and initialisers that tokens say are ones that a lawful module may have.
pub fn term_laws()
    ensures written { WrittenAreLawful }
    ensures constants { ConstantsAreLawful }
    ensures inits { InitsAreLawful }
{
    limit_laws();
}

/// What tokens say as an instruction has what its form asks, and its operands are those of a text. Its registers and labels
/// come from names among these tokens.
pub fn form_laws()
    ensures said { OpsAreSaid }
    ensures named { OpsAreNamed }
{}

/// A list of distinct names stays one where a name with a number comes to its end that none of them has. A table of the names
/// that tokens say has no name twice. The names that tokens say may stand in a module,
/// and are no more than the tokens that are no marks.
pub fn lawful_name_laws()
    ensures grow { NamesGrow }
    ensures once { NamesStandOnce }
    ensures named { TokensAreNamed }
    ensures few { NamesAreFew }
{}

/// A function that tokens say has a lawful body: its names and its labels are distinct, its registers are numbered in order, and
/// each instruction is one of the module.
pub fn body_laws()
    ensures { BodiesAreLawful }
{}

/// The types of a module that a text is are within the limits: those with names, those of its globals, and those whose
/// layout an instruction asks for.
pub fn lawful_type_laws()
    ensures { ModulesHaveLawfulTypes }
{}

/// Each type of a module that a text is has a name, which no other type has, and is a struct within the limits. Each global and
/// function has a name, which no other has. The imports stand first, and keep no names.
pub fn once_laws()
    ensures types { TypesAreOnce }
    ensures symbols { SymbolsAreOnce }
    ensures imports { ImportsAreFirst }
{}

/// In the last reading of a text each name stands for the global or function of the module that has this name. Each global is
/// lawful, no name of a program is an image's own, and a `u32` numbers the types, the globals and the functions.
pub fn symbol_laws()
    ensures tell { TextsTell }
    ensures names { TextsName }
    ensures globals { GlobalsAreLawful }
    ensures own { ProgramsOwnNames }
    ensures few { ThingsAreFew }
{}

/// Each function of a module that a text is is lawful, where the names that its last reading knows are those of the module. No
/// instruction of a program is a line that images alone have.
pub fn function_laws()
    ensures lawful { FunctionsAreLawful }
    ensures lines { ProgramsHaveNoLines }
{}

/// Each module that a text says is lawful, where the text is shorter than 2 ^ 32 - 1 bytes. A program has no lines and no names
/// that images alone have.
pub fn whole_laws()
    ensures lawful { ReadIsLawful }
    ensures plain { ProgramsArePlain }
{
    module_laws();
    once_laws();
    symbol_laws();
    function_laws();
}

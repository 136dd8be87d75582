//! Laws of interface texts, as statements and as prototypes of C: reading and the grammar agree, a text is one interface at most or has one
//! first fault, what is read is lawful, a token at which reading stops cannot stand there, whatever follows it, and what is printed of an
//! interface is read again as the interface, its lines aside.
//!
//! ```text
//! interface_laws();
//! // `SaysInterface text i` and `IsInterface text i` are the same, and so it is of prototypes (`prototype_laws`).
//! lawful_laws();
//! // `SaysInterface text i` gives `IsLawfulInterface i`, where the text has fewer than 2 ^ 32 bytes.
//! refused_laws();
//! // Where the first fault of a text is the token `)`, no text that is the same up to that token is an interface.
//! printed_interface_laws();
//! // What is printed of an interface that a text says is read as the interface, lines aside, where its statements are short enough.
//! ```
//!
//! What is read of a text of version 1 lends nothing. Canonical texts do not depend on the names of parameters, slots, exports and fields, nor
//! on the spaces, comments and lines of the interface's text. Rows say which tokens are which type of C.
#![tactic(auto)]

ghost use Rattle.lx_annot_laws.specs.GrammarLaws.{AnnotationsAreFound, AnnotationsAreRead, InterfacesAreFound, InterfacesAreRead, ItemsAreFound, ItemsAreRead, NotBoth, OneFault, OneInterface, SignaturesAreFound, SignaturesAreRead, StatementsAreFound, StatementsAreRead};
ghost use Rattle.lx_annot_laws.specs.LawfulLaws.{FirstVersionLendsNothing, ReadIsLawful};
ghost use Rattle.lx_annot_laws.specs.CanonicalLaws.{NamesSayNothing, OnlyListsAreNamed, ParametersSayNothing, RenamedIsRead, SpacesSayNothing};
ghost use Rattle.lx_annot_laws.specs.PrototypeGrammarLaws.{NotBoth as PrototypesOrFault, OneFault as OnePrototypeFault, OneInterface as OnePrototypeInterface, PrototypesAreFound, PrototypesAreRead, ReadIsLawful as ReadPrototypesAreLawful};
ghost use Rattle.lx_annot_laws.specs.TypeRows.{WorkedTypes};
ghost use Rattle.lx_annot_laws.specs.FaultOfText.{InterfaceFaultsAreTold, PrototypeFaultsAreTold};
ghost use Rattle.lx_annot_laws.specs.GrownLaws.{AnnotationsGrow, ItemsGrow};
ghost use Rattle.lx_annot_laws.specs.PrintedPartLaws.{ActionsArePrinted, AnnotationsArePrinted, ExprsArePrinted, ItemsArePrinted, ParamsArePrinted};
ghost use Rattle.lx_annot_laws.specs.PieceLaws.{LaidAreScanned, PlacesDoNotCount};
ghost use Rattle.lx_annot_laws.specs.PieceRows.{WorkedPieces};
ghost use Rattle.lx_annot_read.specs.Texts.{SaysInterface};
ghost use Rattle.lx_annot_laws.specs.RoundTripLaws.{PrintedAreRead, SayableAreRead, TextsAreLines};
ghost use Rattle.lx_annot_laws.specs.InterfaceRows.{WorkedInterface};
ghost use Rattle.lx_annot_laws.specs.SayableLaws.{InterfacesAreSayable};
ghost use Rattle.lx_annot_laws.specs.PrototypeSayableLaws.{PrototypesAreSayable};
ghost use Rattle.lx_annot_laws.specs.PrototypeRoundTripLaws.{PrintedPrototypesAreRead};
ghost use Rattle.lx_annot_laws.specs.RefusedLaws.{RefusedTokensStandNowhere};
ghost use Rattle.lx_annot_laws.specs.RefusedRows.{WorkedRefusals};
ghost use Rattle.lx_annot_laws.specs.RefusedPartLaws.{ClausesAreRefused, ItemsAreRefused, StatementsAreRefused};
ghost use Rattle.lx_annot_laws.specs.PrototypeRefusedLaws.{RefusedPrototypeTokensStandNowhere};

use lx_words::{number_texts, one_way};

/// Reading and the grammar of signatures, items and annotations agree.
pub fn part_laws()
    ensures signatures_read { SignaturesAreRead }
    ensures signatures { SignaturesAreFound }
    ensures items_read { ItemsAreRead }
    ensures items { ItemsAreFound }
    ensures annotations_read { AnnotationsAreRead }
    ensures annotations { AnnotationsAreFound }
{}

/// Reading and the grammar of statements agree.
pub fn interface_statement_laws()
    ensures read { StatementsAreRead }
    ensures found { StatementsAreFound }
{}

/// Reading and the grammar of whole texts agree, and a text is one interface or has one first fault.
pub fn interface_laws()
    ensures read { InterfacesAreRead }
    ensures found { InterfacesAreFound }
    ensures one { OneInterface }
    ensures fault { OneFault }
    ensures apart { NotBoth }
{
    one_way();
}

/// Every interface that is read is lawful.
pub fn lawful_laws()
    ensures { ReadIsLawful }
{
    interface_laws();
}

/// No interface of a text of version 1 lends anything.
pub fn first_version_laws()
    ensures { FirstVersionLendsNothing }
{}

/// Of an interface, canonical texts have the names of reference types and iterators alone.
pub fn canonical_laws()
    ensures lists { OnlyListsAreNamed }
    ensures parameters { ParametersSayNothing }
{}

/// What is read of a text with other names, spaces and comments has the same canonical texts.
pub fn reading_laws()
    ensures read { RenamedIsRead }
    ensures names { NamesSayNothing }
    ensures spaces { SpacesSayNothing }
{
    one_way();
    interface_laws();
}

/// Reading and the grammar of whole texts of prototypes agree, and such a text is one interface or has one first fault.
pub fn prototype_laws()
    ensures read { PrototypesAreRead }
    ensures found { PrototypesAreFound }
    ensures one { OnePrototypeInterface }
    ensures fault { OnePrototypeFault }
    ensures apart { PrototypesOrFault }
{
    one_way();
}

/// Every interface that is read of prototypes is lawful.
pub fn lawful_prototype_laws()
    ensures { ReadPrototypesAreLawful }
{
    prototype_laws();
}

/// Worked rows of types.
pub fn worked_types()
    ensures { WorkedTypes }
{}

/// A text that is laid out as lexemes is cut into them, and its tokens are those of the pieces.
pub fn interface_lexeme_laws()
    ensures scanned { LaidAreScanned }
    ensures placed { PlacesDoNotCount }
{}

/// Worked rows: where lexemes end, and which tokens pieces are.
pub fn worked_pieces()
    ensures { WorkedPieces }
{}

/// What items and annotations are made of stays so where more is declared, and where actions may lend.
pub fn grown_laws()
    ensures items { ItemsGrow }
    ensures annotations { AnnotationsGrow }
{}

/// The printed text of each part of an interface says that part, where it was read of a text.
pub fn printed_part_laws()
    ensures exprs { ExprsArePrinted }
    ensures actions { ActionsArePrinted }
    ensures items { ItemsArePrinted }
    ensures annotations { AnnotationsArePrinted }
    ensures params { ParamsArePrinted }
{
    number_texts();
}

/// Each interface that is read has a text that says it.
pub fn sayable_laws()
    ensures { InterfacesAreSayable }
{}

/// A printed text is its first line and those of its statements.
pub fn interface_line_laws()
    ensures { TextsAreLines }
{}

/// What is printed of an interface is read again as the same interface, its lines aside, where each printed statement has no more
/// tokens than one may have. So it is of each interface that can be said, whatever text it was read of.
pub fn printed_interface_laws()
    ensures sayable { SayableAreRead }
    ensures printed { PrintedAreRead SaysInterface }
{
    number_texts();
    interface_laws();
}

/// A worked row: an interface with one of each kind, and its text.
pub fn worked_interface()
    ensures { WorkedInterface }
{}

/// Each interface that prototypes say has a text that says it.
pub fn sayable_prototype_laws()
    ensures { PrototypesAreSayable }
{}

/// What is printed of an interface that prototypes say is read again as the interface, its lines aside, where no line of it has more
/// tokens than a statement may have.
pub fn printed_prototype_laws()
    ensures { PrintedPrototypesAreRead }
{
    prototype_laws();
    printed_interface_laws();
}

/// A token at which the reading of clauses, of items or of a statement stops cannot stand there, where no rule takes it or it is a name that
/// is not declared but `load64`.
pub fn part_refusal_laws()
    ensures clauses { ClausesAreRefused }
    ensures items { ItemsAreRefused }
    ensures statements { StatementsAreRefused }
{}

/// Worked rows: a name that is refused whatever follows it, and tokens at fault that could stand there before others: `load64`, a `write`
/// whose size is missed, and a field that is typed twice.
pub fn worked_refusals()
    ensures { WorkedRefusals }
{}

/// A token at which the first reading of a text stops, where no rule takes it or it is a name that is not declared but `load64`, cannot
/// stand there: each text with the same tokens up to it has its first fault there, and is no interface.
pub fn refused_laws()
    ensures { RefusedTokensStandNowhere }
{
    interface_laws();
}

/// The same of texts of prototypes.
pub fn refused_prototype_laws()
    ensures { RefusedPrototypeTokensStandNowhere }
{
    prototype_laws();
}

/// The first fault of a text by the grammar of its dialect: the text is no interface, and a token that no rule takes, or a name that is not
/// declared but `load64`, stands there in none.
pub fn first_interface_fault_laws()
    ensures statements { InterfaceFaultsAreTold }
    ensures prototypes { PrototypeFaultsAreTold }
{
    interface_laws();
    refused_laws();
    prototype_laws();
    refused_prototype_laws();
}

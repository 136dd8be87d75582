//! What the words of IR text may be.

ghost use Rattle.std.specs.Prelude.{◌≡◌};
ghost use Rattle.lx_ir_tokens.specs.Keywords.{is_at_parameter, is_before_call, is_behind_parentheses, is_flag, is_heading, is_in_profile, is_linkage};

use lx_words::{BinOp, Pred, Width};

/// A word that is the type of a register.
#[derive(Clone, Copy, PartialEq, Eq)]
pub enum ScalarWord {
    Int(Width),
    Ptr,
}

/// A word that says what a statement defines or declares.
#[derive(Clone, Copy, PartialEq, Eq)]
pub enum StatementWord {
    /// `type`
    NamedType,
    Global,
    Constant,
    Declare,
    Define,
}

/// A word that says what a conversion does.
#[derive(Clone, Copy, PartialEq, Eq)]
pub enum ConversionWord {
    Trunc,
    ZExt,
    SExt,
    PtrToInt,
    IntToPtr,
}

/// The first word of an instruction, if `tail` or `notail` is passed over. Some of these begin a constant too.
#[derive(Clone, Copy, PartialEq, Eq)]
pub enum InstructionWord {
    Operator(BinOp),
    /// `icmp`
    Compare,
    Conversion(ConversionWord),
    Freeze,
    Select,
    Phi,
    Alloca,
    Load,
    Store,
    GetElementPtr,
    Call,
    Ret,
    Br,
    Switch,
    Unreachable,
}

/// A constant of one word.
#[derive(Clone, Copy, PartialEq, Eq)]
pub enum ConstantWord {
    True,
    False,
    Null,
    Undef,
    Poison,
    /// `zeroinitializer`
    Zero,
}

/// What a word of IR text may be. A word has one keyword, also where it may stand at places of several kinds.
#[derive(Clone, Copy, PartialEq, Eq)]
pub enum Keyword {
    Scalar(ScalarWord),
    /// `void`, a result.
    Void,
    /// `x`, between the count and the element of an array type.
    Times,
    Statement(StatementWord),
    Instruction(InstructionWord),
    /// The comparison of an `icmp`.
    Predicate(Pred),
    Constant(ConstantWord),
    /// `to`, before the type that a conversion gives.
    To,
    /// `label`, before a block's name.
    Label,
    /// A word before a global or function type that says nothing, as `private`.
    Linkage,
    /// A word at a parameter, argument or result that says nothing, as `noundef`.
    Parameter,
    /// A word behind the parentheses of a function or call that says nothing, as `nounwind`.
    Attribute,
    /// A flag of an instruction or constant that says nothing, as `nsw`.
    Flag,
    /// `tail` or `notail`, before `call`.
    Tail,
    /// `align`, before a number.
    Align,
    /// `dereferenceable` or `dereferenceable_or_null`, before a number in parentheses.
    Dereferenceable,
    /// `captures`, before `(none)`.
    Captures,
    /// `none`
    Nothing,
    /// `section`, before a string.
    Section,
    /// `dbg`, the metadata that is not read. It is outside the profile.
    Debug,
    /// `source_filename`, `target` or `attributes`, which mean something only as the first token of a line.
    Heading,
    /// A word outside the profile.
    Other,
}

impl Keyword {
    /// Whether the word is one of the language that is read, at whatever place.
    pub fn is_in_profile(self) -> bool
        ensures { result ≡ is_in_profile self }
    {
        !matches!(self, Keyword::Debug | Keyword::Other)
    }

    /// Whether the word is passed over before the type of a global or function.
    pub fn is_linkage(self) -> bool
        ensures { result ≡ is_linkage self }
    {
        matches!(self, Keyword::Linkage)
    }

    /// Whether the word is passed over at a parameter, argument or result. A number or a word in parentheses belongs to
    /// `Align`, `Dereferenceable` and `Captures`.
    pub fn is_at_parameter(self) -> bool
        ensures { result ≡ is_at_parameter self }
    {
        matches!(
            self,
            Keyword::Parameter | Keyword::Align | Keyword::Dereferenceable | Keyword::Captures
        )
    }

    /// Whether the word is passed over behind the parentheses of a function or call. A string belongs to `Section`, and a
    /// number to `Align`.
    pub fn is_behind_parentheses(self) -> bool
        ensures { result ≡ is_behind_parentheses self }
    {
        matches!(self, Keyword::Attribute | Keyword::Section | Keyword::Align)
    }

    /// Whether the word is passed over before `call`.
    pub fn is_before_call(self) -> bool
        ensures { result ≡ is_before_call self }
    {
        matches!(self, Keyword::Tail)
    }

    /// Whether the word is passed over behind the first word of an instruction or constant.
    pub fn is_flag(self) -> bool
        ensures { result ≡ is_flag self }
    {
        matches!(self, Keyword::Flag)
    }

    /// Whether the word begins a line that is passed over.
    pub fn is_heading(self) -> bool
        ensures { result ≡ is_heading self }
    {
        matches!(self, Keyword::Heading)
    }
}

//! The rules that a file of the profile keeps, and the places where it breaks one.

ghost use Rattle.std.specs.Prelude.{◌≡◌, true, OnOk, IfErr};
ghost use Rattle.clight_types.specs.Judged.{IsOwed};

use tso_words::NoMemory;

/// A rule of the profile's typing. Its number is what the program prints.
#[derive(Clone, Copy, PartialEq, Eq, Debug)]
pub enum Rule {
    /// A floating type or `long long`.
    Floating,
    Union,
    /// A decimal constant above 2147483647 without `u`.
    LargeDecimal,
    /// A name or tag that is not declared.
    Undeclared,
    /// A name that is defined twice in one scope, or a builtin's or typedef's name declared again.
    DefinedTwice,
    /// Declarations of one name with different types.
    TypesDiffer,
    /// An object, element or member of an incomplete type, or the size of one.
    Incomplete,
    /// A tag that is defined twice, or used as another kind.
    TagTwice,
    /// An array's length that is missing, not constant or out of range; an array of functions; a
    /// function that gives an array or a function.
    ArrayOrFunction,
    /// A type of more than 16,777,216 bytes.
    LargeType,
    /// A struct that is assigned, passed, returned or a statement.
    StructValue,
    /// In a block: a storage word, a function's declaration, a struct's or enum's body.
    InBlock,
    /// An initializer that is not constant, or of another sort than its object.
    Initializer,
    /// No definition of `main`, or one of another type.
    Main,
    /// Operands that an operator does not take.
    Operands,
    /// An assignment to something that is no scalar object.
    NotAssignable,
    /// A conversion that needs a cast.
    NeedsCast,
    /// A call of what is no function, or with another number of arguments.
    Call,
    /// A label of a switch that is not constant or stands twice, or a selector that is no integer.
    Label,
    /// A `break` or `continue` outside.
    Jump,
    /// A `return` with a value in a void function, or without one in another.
    Return,
    /// The address of something that is no object, or an external function that is not called.
    NoObject,
    /// A call or assignment in a place where none may stand.
    EffectPlace,
    /// An external function with a narrow result.
    NarrowResult,
    /// The first argument of an atomic builtin.
    AtomicPlace,
    /// No such member.
    NoMember,
    /// An enumerator's value that is not constant.
    Enumerator,
    /// A condition that is no scalar.
    Condition,
    /// An object or static function that is never defined.
    NeverDefined,
    /// A parameter of a definition without a name.
    NamelessParameter,
}

/// A rule that a file breaks, and the byte of the file at which it does.
#[derive(Clone, Copy, PartialEq, Eq, Debug)]
pub struct Fault {
    pub rule: Rule,
    pub at: u32,
}

/// Why a part of a file is not taken.
#[derive(Clone, Copy, PartialEq, Eq, Debug)]
pub enum Refusal {
    /// The first rule that it breaks.
    Faulty(Fault),
    NoMemory,
}

impl From<NoMemory> for Refusal {
    ghost use Rattle.std.specs.Prelude.{◌≡◌};
    ghost use Rattle.clight_types.specs.declared.rule.Refusal.{Refusal};

    ghost from_gives = { λ _ r. r ≡ Refusal.NoMemory };

    fn from(_: NoMemory) -> Refusal {
        Refusal::NoMemory
    }
}

/// The fault at this place, unless what the rule asks for holds.
pub fn owed(holds: bool, rule: Rule, at: u32) -> Result<(), Refusal>
    ensures ok { OnOk result (holds ≡ true) }
    ensures err { IfErr result (IsOwed holds rule at) }
{
    if holds {
        Ok(())
    } else {
        Err(Refusal::Faulty(Fault { rule, at }))
    }
}

impl Rule {
    ghost use Rattle.clight_types.specs.Rules.{rule_number};

    /// The number of the rule, from 1 on.
    pub fn number(self) -> u8
        ensures { result ≡ rule_number self }
    {
        match self {
            Rule::Floating => 1,
            Rule::Union => 2,
            Rule::LargeDecimal => 3,
            Rule::Undeclared => 4,
            Rule::DefinedTwice => 5,
            Rule::TypesDiffer => 6,
            Rule::Incomplete => 7,
            Rule::TagTwice => 8,
            Rule::ArrayOrFunction => 9,
            Rule::LargeType => 10,
            Rule::StructValue => 11,
            Rule::InBlock => 12,
            Rule::Initializer => 13,
            Rule::Main => 14,
            Rule::Operands => 15,
            Rule::NotAssignable => 16,
            Rule::NeedsCast => 17,
            Rule::Call => 18,
            Rule::Label => 19,
            Rule::Jump => 20,
            Rule::Return => 21,
            Rule::NoObject => 22,
            Rule::EffectPlace => 23,
            Rule::NarrowResult => 24,
            Rule::AtomicPlace => 25,
            Rule::NoMember => 26,
            Rule::Enumerator => 27,
            Rule::Condition => 28,
            Rule::NeverDefined => 29,
            Rule::NamelessParameter => 30,
        }
    }
}

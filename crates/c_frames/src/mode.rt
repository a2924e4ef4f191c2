//! The state of the reader.

use crate::names::TypedefNames;
use crate::stack::Stack;
use c_parts::{
    AbstractPart, ArgumentsPart, DeclaratorPart, EnumeratorsPart, ExprPart, ForFirstPart,
    OptionalPart, SpecifiersPart, StatementPart,
};
use c_reading::token::JumpWord;
use c_tree::{Access, CompositeWord};
use tso_words::Name;

/// The statements that begin with a word and a condition in parentheses.
#[derive(Clone, Copy, Drop)]
pub enum Head {
    If,
    While,
    Switch,
}

/// What is wanted, or was just read.
#[derive(Drop)]
pub enum Mode {
    File,
    Items,
    Statement,
    AfterStatement(StatementPart),
    Labels,
    AfterDefault {
        at: u32,
    },
    Condition {
        head: Head,
        at: u32,
    },
    DoCondition {
        at: u32,
        body: StatementPart,
    },
    AfterDo {
        at: u32,
        body: StatementPart,
        condition: ExprPart,
    },
    For {
        at: u32,
    },
    ForFirst {
        at: u32,
    },
    ForTest {
        at: u32,
        first: ForFirstPart,
    },
    ForStep {
        at: u32,
        first: ForFirstPart,
        condition: OptionalPart,
    },
    SwitchBody {
        at: u32,
        selector: ExprPart,
    },
    Jump {
        at: u32,
        word: JumpWord,
    },
    Return {
        at: u32,
    },
    Initializer,
    AfterListComma(ExprPart),
    AfterList {
        at: u32,
        values: ArgumentsPart,
    },
    Specifiers(SpecifiersPart),
    Composite {
        specifiers: SpecifiersPart,
        at: u32,
        word: CompositeWord,
    },
    Enum {
        specifiers: SpecifiersPart,
        at: u32,
    },
    Members,
    Enumerator,
    AfterEnumerator {
        enumerators: EnumeratorsPart,
        at: u32,
        name: Name,
    },
    AfterEnumeratorComma(EnumeratorsPart),
    Declarator,
    AfterDeclarator(DeclaratorPart),
    Abstract,
    Opened,
    AfterAbstract(AbstractPart),
    Length,
    Parameters,
    Expression,
    AfterPostfix(ExprPart),
    AfterSizeof(ExprPart),
    Open {
        at: u32,
    },
    Sizeof {
        at: u32,
    },
    SizeofOpen {
        at: u32,
        paren_at: u32,
    },
    Arguments {
        callee: ExprPart,
        at: u32,
    },
    Access {
        object: ExprPart,
        at: u32,
        access: Access,
    },
}

/// What was read, apart from what is at hand.
#[derive(Drop)]
pub struct Context {
    pub stack: Stack,
    pub names: TypedefNames,
}

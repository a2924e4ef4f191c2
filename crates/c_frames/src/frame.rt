//! What was begun and is not ended.

use crate::nest::Nest;
use c_parts::{
    AbstractPart, ArgumentsPart, DeclaratorPart, DeclaratorsPart, EnumeratorsPart, ExprPart,
    ForFirstPart, GroupsPart, InitsPart, ItemsPart, LabelsPart, MembersPart, OptionalPart,
    ParametersPart, SpecifiersPart, StatementPart, TypePart,
};
use c_tree::{
    AssignmentOperator, BinaryOperator, CompositeWord, Increment, Qualifier, Tag, UnaryOperator,
};
use tso_words::Name;

/// What brackets or parentheses stand behind.
#[derive(Drop)]
pub enum SuffixedPart {
    Named(DeclaratorPart),
    Abstract(AbstractPart),
}

/// A part that was begun and not ended, with its parts that are whole. `at` is the byte of its first
/// token, or of the operator behind its first operand.
#[derive(Drop)]
pub enum Frame {
    // An operand is wanted, the last one.
    Step {
        at: u32,
        step: Increment,
    },
    Unary {
        at: u32,
        operator: UnaryOperator,
    },
    Sizeof {
        at: u32,
    },
    Cast {
        at: u32,
        type_name: TypePart,
    },
    Binary {
        left: ExprPart,
        at: u32,
        operator: BinaryOperator,
    },
    Conditional {
        condition: ExprPart,
        at: u32,
        if_true: ExprPart,
    },
    Assignment {
        target: ExprPart,
        at: u32,
        operator: AssignmentOperator,
    },
    // An expression is wanted that another token ends.
    Parentheses {
        at: u32,
    },
    Index {
        array: ExprPart,
        at: u32,
    },
    Argument {
        callee: ExprPart,
        at: u32,
        arguments: ArgumentsPart,
    },
    Middle {
        condition: ExprPart,
        at: u32,
    },
    Length(SuffixedPart),
    Enumerator {
        enumerators: EnumeratorsPart,
        at: u32,
        name: Name,
    },
    Expression,
    Return {
        at: u32,
    },
    If {
        at: u32,
    },
    While {
        at: u32,
    },
    Do {
        at: u32,
        body: StatementPart,
    },
    Switch {
        at: u32,
    },
    ForFirst {
        at: u32,
    },
    ForTest {
        at: u32,
        first: ForFirstPart,
    },
    ForStep {
        at: u32,
        first: ForFirstPart,
        condition: OptionalPart,
    },
    Case {
        at: u32,
    },
    Initializer {
        specifiers: SpecifiersPart,
        inits: InitsPart,
        declarator: DeclaratorPart,
    },
    List {
        at: u32,
        values: ArgumentsPart,
    },
    // A statement is wanted.
    Then {
        at: u32,
        condition: ExprPart,
    },
    Else {
        at: u32,
        condition: ExprPart,
        if_true: StatementPart,
    },
    WhileBody {
        at: u32,
        condition: ExprPart,
    },
    DoBody {
        at: u32,
    },
    ForBody {
        at: u32,
        first: ForFirstPart,
        condition: OptionalPart,
        update: OptionalPart,
    },
    // Items are wanted: of a block, of a function's body, of a group of a `switch`.
    Block {
        at: u32,
        items: ItemsPart,
    },
    Function {
        specifiers: SpecifiersPart,
        declarator: DeclaratorPart,
        body_at: u32,
        items: ItemsPart,
    },
    Group {
        groups: GroupsPart,
        labels: LabelsPart,
        items: ItemsPart,
    },
    // The groups of a `switch`, and a label there.
    Groups {
        at: u32,
        selector: ExprPart,
    },
    Label {
        groups: GroupsPart,
        labels: LabelsPart,
    },
    // The declaration in the head of a `for`.
    ForHead {
        at: u32,
    },
    // The members of a struct or union, the constants of an enum.
    Members {
        specifiers: SpecifiersPart,
        at: u32,
        word: CompositeWord,
        tag: Option<Tag>,
        body_at: u32,
        members: MembersPart,
    },
    Enum {
        specifiers: SpecifiersPart,
        at: u32,
        tag: Option<Tag>,
        body_at: u32,
    },
    // Parameters.
    Parameters(SuffixedPart),
    Parameter(ParametersPart),
    // A type name in parentheses.
    CastType {
        at: u32,
    },
    SizeofType {
        at: u32,
    },
    // A declarator is wanted: of a declaration, of members, of a parameter, of a type name.
    Init {
        specifiers: SpecifiersPart,
        inits: InitsPart,
    },
    Member {
        specifiers: SpecifiersPart,
        declarators: DeclaratorsPart,
    },
    ParameterOf(SpecifiersPart),
    TypeName(SpecifiersPart),
    // A `*` with its qualifiers, and an open parenthesis, before a declarator.
    Star(Vec<Qualifier>),
    Open,
}

/// A frame on the stack, with the marks above what stands in it.
#[derive(Drop)]
pub struct Entry {
    pub frame: Frame,
    pub nest: Nest,
}

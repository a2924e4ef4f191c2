//! Expressions, and the types and declarators that stand in them.
//!
//! Each node has `at`, the byte of its first token, and `op_at`, that of its operator, where it has
//! one behind its first operand.

use crate::word::{
    Access, AssignmentOperator, BinaryOperator, CompositeWord, Increment, Number, Qualifier,
    StorageClass, TypeWord, UnaryOperator,
};
use tso_words::Name;

/// An expression. Parentheses are no node.
#[cycle(expr)]
#[derive(Drop)]
pub enum Expr {
    Name {
        at: u32,
        name: Name,
    },
    Constant {
        at: u32,
        number: Number,
    },
    Index {
        at: u32,
        op_at: u32,
        array: Box<Expr>,
        index: Box<Expr>,
    },
    Call {
        at: u32,
        op_at: u32,
        callee: Box<Expr>,
        arguments: Vec<Expr>,
    },
    Member {
        at: u32,
        op_at: u32,
        object: Box<Expr>,
        access: Access,
        name_at: u32,
        name: Name,
    },
    /// `e++` and `e--`.
    StepAfter {
        at: u32,
        op_at: u32,
        operand: Box<Expr>,
        step: Increment,
    },
    /// `++e` and `--e`.
    StepBefore {
        at: u32,
        step: Increment,
        operand: Box<Expr>,
    },
    Unary {
        at: u32,
        operator: UnaryOperator,
        operand: Box<Expr>,
    },
    SizeofExpr {
        at: u32,
        operand: Box<Expr>,
    },
    SizeofType {
        at: u32,
        type_name: Box<TypeName>,
    },
    Cast {
        at: u32,
        type_name: Box<TypeName>,
        operand: Box<Expr>,
    },
    Binary {
        at: u32,
        op_at: u32,
        operator: BinaryOperator,
        left: Box<Expr>,
        right: Box<Expr>,
    },
    Cond {
        at: u32,
        op_at: u32,
        condition: Box<Expr>,
        if_true: Box<Expr>,
        if_false: Box<Expr>,
    },
    Assign {
        at: u32,
        op_at: u32,
        operator: AssignmentOperator,
        target: Box<Expr>,
        value: Box<Expr>,
    },
}

/// A type name, as in a cast: its declarator has no name.
#[cycle(expr)]
#[derive(Drop)]
pub struct TypeName {
    pub at: u32,
    pub specifiers: Vec<Specifier>,
    pub declarator: Declarator,
}

/// The tag of a struct, union or enum.
#[derive(Drop)]
pub struct Tag {
    pub at: u32,
    pub name: Name,
}

/// A declaration specifier. The words of one type are one specifier.
#[cycle(expr)]
#[derive(Drop)]
pub enum Specifier {
    Storage {
        at: u32,
        word: StorageClass,
    },
    Qualifier {
        at: u32,
        word: Qualifier,
    },
    Inline {
        at: u32,
    },
    Words {
        at: u32,
        words: Vec<TypeWord>,
    },
    Typedef {
        at: u32,
        name: Name,
    },
    CompositeReference {
        at: u32,
        word: CompositeWord,
        tag: Tag,
    },
    /// A struct or union with its body, whose `{` stands at `body_at`.
    Composite {
        at: u32,
        word: CompositeWord,
        tag: Option<Tag>,
        body_at: u32,
        members: Vec<Member>,
    },
    EnumReference {
        at: u32,
        tag: Tag,
    },
    Enumeration {
        at: u32,
        tag: Option<Tag>,
        body_at: u32,
        enumerators: Vec<Enumerator>,
    },
}

/// The declaration of one or more members of a struct or union.
#[cycle(expr)]
#[derive(Drop)]
pub struct Member {
    pub at: u32,
    pub specifiers: Vec<Specifier>,
    pub declarators: Vec<Declarator>,
}

/// An enumeration constant, with its value or without.
#[cycle(expr)]
#[derive(Drop)]
pub struct Enumerator {
    pub at: u32,
    pub name: Name,
    pub value: Option<Box<Expr>>,
}

/// A declarator, with or without a name: `*` and their qualifiers from the outermost in, what they
/// stand before, and the brackets and parameter lists behind that, the innermost first.
#[cycle(expr)]
#[derive(Drop)]
pub struct Declarator {
    pub pointers: Vec<Vec<Qualifier>>,
    pub direct: Direct,
    pub suffixes: Vec<Suffix>,
}

/// The inside of a declarator.
#[cycle(expr)]
#[derive(Drop)]
pub enum Direct {
    Unnamed,
    Named { at: u32, name: Name },
    Nested(Box<Declarator>),
}

/// The brackets of an array or the parameters of a function.
#[cycle(expr)]
#[derive(Drop)]
pub enum Suffix {
    Array(Option<Box<Expr>>),
    Function(Vec<Parameter>),
}

/// A parameter of a function declarator. The list `void` is empty.
#[cycle(expr)]
#[derive(Drop)]
pub struct Parameter {
    pub at: u32,
    pub specifiers: Vec<Specifier>,
    pub declarator: Declarator,
}

//! The tokens of the grammar, one by one.

ghost use Rattle.c_reading.specs.Kinds.{entry, fixed_words, kind_of, look_up};
ghost use Rattle.c_reading.specs.Words.{IsFixed, IsKindOf, number_of};
ghost use Rattle.c_tokens.specs.Constants.{IsWord};
ghost use Rattle.c_tree.specs.Shape.{number_of as tree_number};
ghost use Rattle.std.specs.Prelude.{◌≡◌, IsSome, map};

use c_tokens::{IntegerConstant, TokenKind, character_constant, integer_constant};
use c_tree::{
    Access, AssignmentOperator, CompositeWord, Increment, Number, Qualifier, StorageClass, TypeWord,
};

/// The operators between two operands and those before one: `&`, `*`, `+` and `-` are both.
#[derive(Clone, Copy)]
pub enum Operator {
    LogicalOr,
    LogicalAnd,
    BitOr,
    BitXor,
    Ampersand,
    Equal,
    NotEqual,
    Less,
    Greater,
    LessEqual,
    GreaterEqual,
    ShiftLeft,
    ShiftRight,
    Plus,
    Minus,
    Star,
    Slash,
    Percent,
    Complement,
    Not,
}

/// The jumps without an operand.
#[derive(Clone, Copy)]
pub enum JumpWord {
    Break,
    Continue,
}

/// What a token is; an identifier's bytes are those of the file.
#[derive(Clone, Copy)]
pub enum Kind {
    Name,
    Constant(Number),
    Operator(Operator),
    Assignment(AssignmentOperator),
    Step(Increment),
    Member(Access),
    TypeWord(TypeWord),
    Qualifier(Qualifier),
    Storage(StorageClass),
    Composite(CompositeWord),
    Jump(JumpWord),
    Inline,
    Enum,
    Sizeof,
    If,
    Else,
    While,
    Do,
    For,
    Switch,
    Case,
    Default,
    Return,
    LeftBrace,
    RightBrace,
    LeftParen,
    RightParen,
    LeftBracket,
    RightBracket,
    Semicolon,
    Comma,
    Question,
    Colon,
    Refused,
}

// The words that stand for one token each.
const FIXED: [(&[u8], Kind); 82] = [
    (b"void", Kind::TypeWord(TypeWord::Void)),
    (b"char", Kind::TypeWord(TypeWord::Char)),
    (b"short", Kind::TypeWord(TypeWord::Short)),
    (b"int", Kind::TypeWord(TypeWord::Int)),
    (b"long", Kind::TypeWord(TypeWord::Long)),
    (b"float", Kind::TypeWord(TypeWord::Float)),
    (b"double", Kind::TypeWord(TypeWord::Double)),
    (b"signed", Kind::TypeWord(TypeWord::Signed)),
    (b"unsigned", Kind::TypeWord(TypeWord::Unsigned)),
    (b"const", Kind::Qualifier(Qualifier::Const)),
    (b"volatile", Kind::Qualifier(Qualifier::Volatile)),
    (b"restrict", Kind::Qualifier(Qualifier::Restrict)),
    (b"extern", Kind::Storage(StorageClass::Extern)),
    (b"static", Kind::Storage(StorageClass::Static)),
    (b"typedef", Kind::Storage(StorageClass::Typedef)),
    (b"struct", Kind::Composite(CompositeWord::Struct)),
    (b"union", Kind::Composite(CompositeWord::Union)),
    (b"break", Kind::Jump(JumpWord::Break)),
    (b"continue", Kind::Jump(JumpWord::Continue)),
    (b"inline", Kind::Inline),
    (b"enum", Kind::Enum),
    (b"sizeof", Kind::Sizeof),
    (b"if", Kind::If),
    (b"else", Kind::Else),
    (b"while", Kind::While),
    (b"do", Kind::Do),
    (b"for", Kind::For),
    (b"switch", Kind::Switch),
    (b"case", Kind::Case),
    (b"default", Kind::Default),
    (b"return", Kind::Return),
    (b"auto", Kind::Refused),
    (b"goto", Kind::Refused),
    (b"register", Kind::Refused),
    (b"_Bool", Kind::Refused),
    (b"_Complex", Kind::Refused),
    (b"_Imaginary", Kind::Refused),
    (b"{", Kind::LeftBrace),
    (b"}", Kind::RightBrace),
    (b"(", Kind::LeftParen),
    (b")", Kind::RightParen),
    (b"[", Kind::LeftBracket),
    (b"]", Kind::RightBracket),
    (b";", Kind::Semicolon),
    (b",", Kind::Comma),
    (b"?", Kind::Question),
    (b":", Kind::Colon),
    (b".", Kind::Member(Access::Dot)),
    (b"->", Kind::Member(Access::Arrow)),
    (b"++", Kind::Step(Increment::Increase)),
    (b"--", Kind::Step(Increment::Decrease)),
    (b"||", Kind::Operator(Operator::LogicalOr)),
    (b"&&", Kind::Operator(Operator::LogicalAnd)),
    (b"|", Kind::Operator(Operator::BitOr)),
    (b"^", Kind::Operator(Operator::BitXor)),
    (b"&", Kind::Operator(Operator::Ampersand)),
    (b"==", Kind::Operator(Operator::Equal)),
    (b"!=", Kind::Operator(Operator::NotEqual)),
    (b"<", Kind::Operator(Operator::Less)),
    (b">", Kind::Operator(Operator::Greater)),
    (b"<=", Kind::Operator(Operator::LessEqual)),
    (b">=", Kind::Operator(Operator::GreaterEqual)),
    (b"<<", Kind::Operator(Operator::ShiftLeft)),
    (b">>", Kind::Operator(Operator::ShiftRight)),
    (b"+", Kind::Operator(Operator::Plus)),
    (b"-", Kind::Operator(Operator::Minus)),
    (b"*", Kind::Operator(Operator::Star)),
    (b"/", Kind::Operator(Operator::Slash)),
    (b"%", Kind::Operator(Operator::Percent)),
    (b"~", Kind::Operator(Operator::Complement)),
    (b"!", Kind::Operator(Operator::Not)),
    (b"=", Kind::Assignment(AssignmentOperator::Assign)),
    (b"*=", Kind::Assignment(AssignmentOperator::Times)),
    (b"/=", Kind::Assignment(AssignmentOperator::Divide)),
    (b"%=", Kind::Assignment(AssignmentOperator::Remainder)),
    (b"+=", Kind::Assignment(AssignmentOperator::Plus)),
    (b"-=", Kind::Assignment(AssignmentOperator::Minus)),
    (b"<<=", Kind::Assignment(AssignmentOperator::ShiftLeft)),
    (b">>=", Kind::Assignment(AssignmentOperator::ShiftRight)),
    (b"&=", Kind::Assignment(AssignmentOperator::BitAnd)),
    (b"^=", Kind::Assignment(AssignmentOperator::BitXor)),
    (b"|=", Kind::Assignment(AssignmentOperator::BitOr)),
];

// The kind beside the word in a table.
fn look_up(mut table: &[(&[u8], Kind)], word: &[u8]) -> Option<Kind>
    ensures { result ≡ look_up (map (λ e. entry e.0.now e.1) table.entry.now) word.now }
{
    while let [first, rest @ ..] = table {
        if first.0 == word {
            return Some(first.1);
        }
        table = rest;
    }
    None
}

// The kind of a keyword or punctuator.
fn fixed_kind(word: &[u8]) -> Kind
    requires { IsSome (look_up fixed_words word.now) }
    ensures { IsFixed word.now (kind_of word.now result) }
{
    let found = look_up(&FIXED, word);
    found.unwrap()
}

// How an integer constant is written, as far as its type hangs on it.
fn number(constant: IntegerConstant) -> Number
    ensures { tree_number result ≡ number_of constant }
{
    match (constant.is_decimal, constant.is_unsigned) {
        (true, true) => Number::DecimalUnsigned(constant.value),
        (true, false) => Number::Decimal(constant.value),
        (false, true) => Number::OtherUnsigned(constant.value),
        (false, false) => Number::OctalOrHexadecimal(constant.value),
    }
}

/// The token of the grammar that a word of a file is.
pub fn kind_at(lexeme: TokenKind, word: &[u8]) -> Kind
    requires { IsWord lexeme word.now }
    ensures { IsKindOf lexeme word.now (kind_of word.now result) }
{
    match lexeme {
        TokenKind::Identifier => Kind::Name,
        TokenKind::Keyword => fixed_kind(word),
        TokenKind::Punctuator => fixed_kind(word),
        TokenKind::Integer => Kind::Constant(number(integer_constant(word))),
        TokenKind::Character => Kind::Constant(Number::Character(character_constant(word))),
    }
}

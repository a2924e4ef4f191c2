//! The words of operators, types and numbers.
ghost use Rattle.std.specs.Prelude.{◌≡◌, OnOk};
ghost use Rattle.c_tree.specs.Printing.{
  access_text,
  assignment_text,
  composite_text,
  operator_text,
  put_qualifiers,
  put_type_words,
  qualifier_text,
  step_text,
  storage_text,
  type_word_text,
};
ghost use Rattle.c_tree.specs.Shape.{
  access_of,
  assignment_of,
  binary_of,
  composite_of,
  qualifier_of,
  qualifiers_of,
  step_of,
  storage_of,
  unary_of,
  word_of,
  words_of,
};

use crate::text::write_word;
use crate::word::{
    Access, AssignmentOperator, BinaryOperator, CompositeWord, Increment, Qualifier, StorageClass,
    TypeWord, UnaryOperator,
};
use tso_words::NoMemory;

pub fn unary_word(operator: UnaryOperator) -> &'static [u8]
    ensures { result.now ≡ operator_text (unary_of operator) }
{
    match operator {
        UnaryOperator::AddressOf => b"&",
        UnaryOperator::Dereference => b"*",
        UnaryOperator::Plus => b"+",
        UnaryOperator::Minus => b"-",
        UnaryOperator::Complement => b"~",
        UnaryOperator::Not => b"!",
    }
}

pub fn binary_word(operator: BinaryOperator) -> &'static [u8]
    ensures { result.now ≡ operator_text (binary_of operator) }
{
    match operator {
        BinaryOperator::LogicalOr => b"||",
        BinaryOperator::LogicalAnd => b"&&",
        BinaryOperator::BitOr => b"|",
        BinaryOperator::BitXor => b"^",
        BinaryOperator::BitAnd => b"&",
        BinaryOperator::Equal => b"==",
        BinaryOperator::NotEqual => b"!=",
        BinaryOperator::Less => b"<",
        BinaryOperator::Greater => b">",
        BinaryOperator::LessEqual => b"<=",
        BinaryOperator::GreaterEqual => b">=",
        BinaryOperator::ShiftLeft => b"<<",
        BinaryOperator::ShiftRight => b">>",
        BinaryOperator::Plus => b"+",
        BinaryOperator::Minus => b"-",
        BinaryOperator::Times => b"*",
        BinaryOperator::Divide => b"/",
        BinaryOperator::Remainder => b"%",
    }
}

pub fn assignment_word(operator: AssignmentOperator) -> &'static [u8]
    ensures { result.now ≡ assignment_text (assignment_of operator) }
{
    match operator {
        AssignmentOperator::Assign => b"=",
        AssignmentOperator::Times => b"*=",
        AssignmentOperator::Divide => b"/=",
        AssignmentOperator::Remainder => b"%=",
        AssignmentOperator::Plus => b"+=",
        AssignmentOperator::Minus => b"-=",
        AssignmentOperator::ShiftLeft => b"<<=",
        AssignmentOperator::ShiftRight => b">>=",
        AssignmentOperator::BitAnd => b"&=",
        AssignmentOperator::BitXor => b"^=",
        AssignmentOperator::BitOr => b"|=",
    }
}

pub fn step_word(step: Increment) -> &'static [u8]
    ensures { result.now ≡ step_text (step_of step) }
{
    match step {
        Increment::Increase => b"++",
        Increment::Decrease => b"--",
    }
}

pub fn access_word(access: Access) -> &'static [u8]
    ensures { result.now ≡ access_text (access_of access) }
{
    match access {
        Access::Dot => b".",
        Access::Arrow => b"->",
    }
}

pub fn type_word(word: TypeWord) -> &'static [u8]
    ensures { result.now ≡ type_word_text (word_of word) }
{
    match word {
        TypeWord::Void => b"void",
        TypeWord::Char => b"char",
        TypeWord::Short => b"short",
        TypeWord::Int => b"int",
        TypeWord::Long => b"long",
        TypeWord::Float => b"float",
        TypeWord::Double => b"double",
        TypeWord::Signed => b"signed",
        TypeWord::Unsigned => b"unsigned",
    }
}

pub fn qualifier_word(qualifier: Qualifier) -> &'static [u8]
    ensures { result.now ≡ qualifier_text (qualifier_of qualifier) }
{
    match qualifier {
        Qualifier::Const => b"const",
        Qualifier::Volatile => b"volatile",
        Qualifier::Restrict => b"restrict",
    }
}

pub fn storage_word(storage: StorageClass) -> &'static [u8]
    ensures { result.now ≡ storage_text (storage_of storage) }
{
    match storage {
        StorageClass::Extern => b"extern",
        StorageClass::Static => b"static",
        StorageClass::Typedef => b"typedef",
    }
}

pub fn composite_word(word: CompositeWord) -> &'static [u8]
    ensures { result.now ≡ composite_text (composite_of word) }
{
    match word {
        CompositeWord::Struct => b"struct",
        CompositeWord::Union => b"union",
    }
}

pub fn write_type_words(out: &mut Vec<u8>, words: &[TypeWord]) -> Result<(), NoMemory>
    ensures { OnOk result (out.new.items ≡ put_type_words (words_of words.now) out.old.items) }
{
    for word in words {
        write_word(out, type_word(*word))?;
    }
    Ok(())
}

pub fn write_qualifiers(out: &mut Vec<u8>, qualifiers: &[Qualifier]) -> Result<(), NoMemory>
    ensures { OnOk result (out.new.items ≡ put_qualifiers (qualifiers_of qualifiers.now) out.old.items) }
{
    for qualifier in qualifiers {
        write_word(out, qualifier_word(*qualifier))?;
    }
    Ok(())
}

//! Small trees and their texts, worked by hand.

use crate::{
    BinaryOperator, Decl, Declarator, Direct, Expr, External, File, InitDeclarator, Initializer,
    Number, Specifier, Suffix, TypeWord, print_file,
};
use std::alloc::Global;
use std::test::Fail;
use tso_words::Name;

fn variable(alloc: Global, name: &[u8]) -> Result<Expr, Fail> {
    Ok(Expr::Name {
        at: 0,
        name: Name::made(alloc, name)?,
    })
}

fn difference(alloc: Global, left: Expr, right: Expr) -> Result<Expr, Fail> {
    Ok(Expr::Binary {
        at: 0,
        op_at: 0,
        operator: BinaryOperator::Minus,
        left: Box::new(alloc, left)?,
        right: Box::new(alloc, right)?,
    })
}

// `int`, a declarator and what stands behind it.
fn declared(
    alloc: Global,
    declarator: Declarator,
    initializer: Option<Initializer>,
) -> Result<File, Fail> {
    let words = Specifier::Words {
        at: 0,
        words: vec![in alloc; TypeWord::Int]?,
    };
    let decl = Decl {
        at: 0,
        specifiers: vec![in alloc; words]?,
        declarators: vec![in alloc;
            InitDeclarator {
                declarator,
                initializer
            },
        ]?,
    };
    Ok(File {
        externals: vec![in alloc; External::Decl(decl)]?,
    })
}

fn direct(alloc: Global, name: &[u8]) -> Result<Direct, Fail> {
    Ok(Direct::Named {
        at: 0,
        name: Name::made(alloc, name)?,
    })
}

#[test]
fn subtraction_on_the_right(rt: HostRuntime) -> Result<(), Fail> {
    let alloc = rt.alloc();
    let inner = difference(alloc, variable(alloc, b"b")?, variable(alloc, b"c")?)?;
    let value = difference(alloc, variable(alloc, b"a")?, inner)?;
    let declarator = Declarator {
        pointers: vec![in alloc]?,
        direct: direct(alloc, b"x")?,
        suffixes: vec![in alloc]?,
    };
    let file = declared(alloc, declarator, Some(Initializer::Value(value)))?;
    let text = print_file(alloc, &file)?;
    assert!(rt; text.as_slice() == b"int x = a - ( b - c ) ;\n".as_slice());
    Ok(())
}

#[test]
fn pointer_to_an_array(rt: HostRuntime) -> Result<(), Fail> {
    let alloc = rt.alloc();
    let inner = Declarator {
        pointers: vec![in alloc; vec![in alloc]?]?,
        direct: direct(alloc, b"p")?,
        suffixes: vec![in alloc]?,
    };
    let length = Expr::Constant {
        at: 0,
        number: Number::OctalOrHexadecimal(31),
    };
    let declarator = Declarator {
        pointers: vec![in alloc]?,
        direct: Direct::Nested(Box::new(alloc, inner)?),
        suffixes: vec![in alloc;
            Suffix::Array(Some(Box::new(alloc, length)?)),
            Suffix::Function(vec![in alloc]?),
        ]?,
    };
    let file = declared(alloc, declarator, None)?;
    let text = print_file(alloc, &file)?;
    assert!(rt; text.as_slice() == b"int ( * p ) [ 0x0000001f ] ( void ) ;\n".as_slice());
    Ok(())
}

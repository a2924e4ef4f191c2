//! Declarations and files.

ghost use Rattle.std.specs.Prelude.{◌≡◌, IfOk};
ghost use Rattle.c_reading.specs.Parts as part;
ghost use Rattle.c_parts.specs.Views.{
  arguments_part_of,
  declaration_part_of,
  declarator_part_of,
  expr_part_of,
  file_part_of,
  initializer_part_of,
  inits_part_of,
  items_part_of,
  specifiers_part_of,
};

use crate::declarator::{DeclaratorPart, declarator_height, finished};
use crate::expr::{ArgumentsPart, ExprPart};
use crate::height::{deeper, over};
use crate::memory::extended;
use crate::specifiers::{SpecifiersPart, all_specifiers, start_place};
use crate::statement::ItemsPart;
use c_tree::{Decl, External, FunctionDefinition, InitDeclarator, Initializer};
use std::alloc::Global;
use tso_words::NoMemory;

/// An initializer, or none.
#[derive(Drop)]
pub struct InitializerPart {
    pub tree: Option<Initializer>,
    pub height: u8,
}

/// Declarators with their initializers.
#[derive(Drop)]
pub struct InitsPart {
    pub trees: Vec<InitDeclarator>,
    pub height: u8,
}

/// A declaration.
#[derive(Drop)]
pub struct DeclarationPart {
    pub tree: Decl,
    pub height: u8,
}

/// What stands in the file so far, and the nesting of its deepest token, at most 255.
#[derive(Drop)]
pub struct FilePart {
    pub trees: Vec<External>,
    pub deepest: u8,
}

/// No initializer.
pub fn no_initializer_part() -> InitializerPart
    ensures { initializer_part_of result ≡ part.no_initializer_part }
{
    InitializerPart {
        tree: None,
        height: 0,
    }
}

/// A value as an initializer.
pub fn value_part(value: ExprPart) -> InitializerPart
    ensures { initializer_part_of result ≡ part.value_part (expr_part_of value) }
{
    InitializerPart {
        tree: Some(Initializer::Value(value.tree)),
        height: value.height,
    }
}

/// A list as an initializer, whose `{` stands at `at`.
pub fn list_part(at: u32, values: ArgumentsPart) -> InitializerPart
    ensures { initializer_part_of result ≡ part.list_part at (arguments_part_of values) }
{
    InitializerPart {
        tree: Some(Initializer::List {
            at,
            values: values.trees,
        }),
        height: deeper(values.height),
    }
}

/// No declarators.
pub fn no_inits(alloc: Global) -> InitsPart
    ensures { inits_part_of result ≡ part.no_inits }
{
    InitsPart {
        trees: Vec::new(alloc),
        height: 0,
    }
}

/// Whether there are no declarators.
#[tactic(auto, using(crate::proofs::Ends::no_inits_told))]
pub fn are_no_inits(inits: &InitsPart) -> bool
    ensures { result ≡ part.is_empty (inits_part_of inits.now).trees }
{
    match inits.trees.as_slice() {
        [] => true,
        [_, ..] => false,
    }
}

/// One declarator more.
#[tactic(auto, using(crate::proofs::Ends::inits_end))]
pub fn add_init(
    inits: InitsPart,
    declarator: DeclaratorPart,
    initializer: InitializerPart,
) -> Result<InitsPart, NoMemory>
    ensures { IfOk result (λ ds. inits_part_of ds ≡ part.add_init (inits_part_of inits) (declarator_part_of declarator) (initializer_part_of initializer)) }
{
    let inner = declarator_height(&declarator).max(initializer.height);
    let declared = InitDeclarator {
        declarator: finished(declarator.tree),
        initializer: initializer.tree,
    };
    Ok(InitsPart {
        trees: extended(inits.trees, declared)?,
        height: inits.height.max(inner),
    })
}

/// A declaration.
pub fn declaration_part(
    specifiers: SpecifiersPart,
    inits: InitsPart,
) -> Result<DeclarationPart, NoMemory>
    ensures { IfOk result (λ d. declaration_part_of d ≡ part.declaration_part (specifiers_part_of specifiers) (inits_part_of inits)) }
{
    let height = specifiers.height.max(inits.height);
    Ok(DeclarationPart {
        tree: Decl {
            at: start_place(&specifiers),
            specifiers: all_specifiers(specifiers)?,
            declarators: inits.trees,
        },
        height,
    })
}

/// An empty file.
pub fn no_file(alloc: Global) -> FilePart
    ensures { file_part_of result ≡ part.no_file }
{
    FilePart {
        trees: Vec::new(alloc),
        deepest: 0,
    }
}

/// One declaration more.
#[tactic(auto, using(crate::proofs::Ends::externals_end))]
pub fn add_external_declaration(
    file: FilePart,
    declaration: DeclarationPart,
) -> Result<FilePart, NoMemory>
    ensures { IfOk result (λ f. file_part_of f ≡ part.add_external_declaration (file_part_of file) (declaration_part_of declaration)) }
{
    Ok(FilePart {
        trees: extended(file.trees, External::Decl(declaration.tree))?,
        deepest: file.deepest.max(over(0, declaration.height)),
    })
}

/// One function more: its head is no declarator, and its body is a statement.
#[tactic(auto, using(crate::proofs::Ends::externals_end))]
pub fn add_function(
    file: FilePart,
    specifiers: SpecifiersPart,
    declarator: DeclaratorPart,
    body_at: u32,
    items: ItemsPart,
) -> Result<FilePart, NoMemory>
    ensures { IfOk result (λ f. file_part_of f ≡ part.add_function (file_part_of file) (specifiers_part_of specifiers) (declarator_part_of declarator) body_at (items_part_of items)) }
{
    let head = over(0, declarator.inner).max(over(1, items.height));
    let inner = over(0, specifiers.height).max(head);
    let function = FunctionDefinition {
        at: start_place(&specifiers),
        specifiers: all_specifiers(specifiers)?,
        declarator: finished(declarator.tree),
        body_at,
        body: items.trees,
    };
    Ok(FilePart {
        trees: extended(file.trees, External::Function(function))?,
        deepest: file.deepest.max(inner),
    })
}

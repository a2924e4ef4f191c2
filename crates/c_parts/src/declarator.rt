//! Declarators, with a name and without.

ghost use Rattle.std.specs.Prelude.{◌≡◌, ◌++◌, ◌∷◌, [], IfOk};
ghost use Rattle.c_reading.specs.Parts as part;
ghost use Rattle.c_parts.specs.Views.{
  abstract_part_of,
  declarator_part_of,
  declarators_part_of,
  draft_of,
  maybe_part_of,
  parameters_part_of,
  shape_of,
  specifiers_part_of,
  type_part_of,
};
ghost use Rattle.c_tree.specs.Shape.{declarator_of, direct_of, parameters_of, qualifier_of, qualifiers_of, suffix_of};
ghost use Rattle.c_tree.specs.Trees.{pointer_to};

use crate::expr::{MaybePart, TypePart};
use crate::height::deeper;
use crate::memory::{boxed, extended};
use crate::specifiers::{SpecifiersPart, all_specifiers, are_void, start_place};
use c_tree::{Declarator, Direct, Parameter, Qualifier, Suffix, TypeName};
use std::alloc::{AllocError, Global};
use tso_words::{Name, NoMemory};

/// What a declarator is, as far as a function's head asks for it: a name, a name and its parameters,
/// those behind `*`, or another.
#[derive(Clone, Copy, Drop)]
pub enum DeclaratorShape {
    Bare,
    NamedFunction,
    PointedFunction,
    Other,
}

/// A declarator that grows outwards: the `*` and their qualifiers from the innermost out, what they
/// stand before, and what stands behind that.
#[derive(Drop)]
pub struct Draft {
    pub stars: Vec<Vec<Qualifier>>,
    pub direct: Direct,
    pub suffixes: Vec<Suffix>,
}

/// A declarator, the name that it declares, and its height as an inner part of another.
#[derive(Drop)]
pub struct DeclaratorPart {
    pub tree: Draft,
    pub name: Name,
    pub shape: DeclaratorShape,
    pub inner: u8,
}

/// The declarators of one declaration of members.
#[derive(Drop)]
pub struct DeclaratorsPart {
    pub trees: Vec<Declarator>,
    pub height: u8,
}

/// An abstract declarator, or none.
#[derive(Drop)]
pub struct AbstractPart {
    pub tree: Draft,
    pub is_some: bool,
    pub inner: u8,
}

/// The parameters of a function.
#[derive(Drop)]
pub struct ParametersPart {
    pub trees: Vec<Parameter>,
    pub height: u8,
}

fn plain_draft(alloc: Global, direct: Direct) -> Draft
    ensures { draft_of result ≡ direct_of direct }
{
    Draft {
        stars: Vec::new(alloc),
        direct,
        suffixes: Vec::new(alloc),
    }
}

// `*` and qualifiers before a declarator.
#[tactic(auto, using(crate::proofs::Ends::pointed_end))]
fn starred(mut draft: Draft, qualifiers: Vec<Qualifier>) -> Result<Draft, NoMemory>
    ensures { IfOk result (λ d. draft_of d ≡ pointer_to (qualifiers_of qualifiers.items) (draft_of draft)) }
{
    draft.stars.push(qualifiers).map_err(AllocError::from)?;
    Ok(draft)
}

/// The declarator that a draft is.
pub fn finished(mut draft: Draft) -> Declarator
    ensures { declarator_of result ≡ draft_of draft }
{
    draft.stars.reverse();
    Declarator {
        pointers: draft.stars,
        direct: draft.direct,
        suffixes: draft.suffixes,
    }
}

// A declarator to put suffixes behind: one with stars stands in parentheses.
#[tactic(auto, using(crate::proofs::Shapes::nested_shape))]
fn enclosed(alloc: Global, draft: Draft) -> Result<Draft, NoMemory>
    ensures same { IfOk result (λ d. draft_of d ≡ draft_of draft) }
    ensures starless { IfOk result (λ d. d.stars.items ≡ []) }
{
    if draft.stars.is_empty() {
        return Ok(draft);
    }
    let declarator = boxed(alloc, finished(draft))?;
    Ok(Draft {
        stars: Vec::new(alloc),
        direct: Direct::Nested(declarator),
        suffixes: Vec::new(alloc),
    })
}

// Brackets or parameters behind a declarator.
#[tactic(auto, using(crate::proofs::Ends::suffixes_end))]
fn suffixed(alloc: Global, draft: Draft, suffix: Suffix) -> Result<Draft, NoMemory>
    ensures { IfOk result (λ d. draft_of d ≡ suffix_of (draft_of draft) suffix) }
{
    let mut draft = enclosed(alloc, draft)?;
    draft.suffixes.push(suffix).map_err(AllocError::from)?;
    Ok(draft)
}

fn pointed_shape(shape: DeclaratorShape) -> DeclaratorShape
    ensures { shape_of result ≡ part.pointed_shape (shape_of shape) }
{
    match shape {
        DeclaratorShape::NamedFunction | DeclaratorShape::PointedFunction => {
            DeclaratorShape::PointedFunction
        }
        DeclaratorShape::Bare | DeclaratorShape::Other => DeclaratorShape::Other,
    }
}

fn function_shape(shape: DeclaratorShape) -> DeclaratorShape
    ensures { shape_of result ≡ part.function_shape (shape_of shape) }
{
    match shape {
        DeclaratorShape::Bare => DeclaratorShape::NamedFunction,
        DeclaratorShape::NamedFunction
        | DeclaratorShape::PointedFunction
        | DeclaratorShape::Other => DeclaratorShape::Other,
    }
}

/// Whether a declarator is a name alone.
pub fn is_bare(shape: DeclaratorShape) -> bool
    ensures { result ≡ part.is_bare (shape_of shape) }
{
    match shape {
        DeclaratorShape::Bare => true,
        DeclaratorShape::NamedFunction
        | DeclaratorShape::PointedFunction
        | DeclaratorShape::Other => false,
    }
}

/// Whether a declarator is a name and its parameters.
pub fn is_named_function(shape: DeclaratorShape) -> bool
    ensures { result ≡ part.is_named_function (shape_of shape) }
{
    match shape {
        DeclaratorShape::NamedFunction => true,
        DeclaratorShape::Bare | DeclaratorShape::PointedFunction | DeclaratorShape::Other => false,
    }
}

/// Whether a declarator may head a function definition.
pub fn is_head(shape: DeclaratorShape) -> bool
    ensures { result ≡ part.is_head (shape_of shape) }
{
    match shape {
        DeclaratorShape::NamedFunction | DeclaratorShape::PointedFunction => true,
        DeclaratorShape::Bare | DeclaratorShape::Other => false,
    }
}

/// The height of a whole declarator: a name alone is not marked.
pub fn declarator_height(declarator: &DeclaratorPart) -> u8
    ensures { result ≡ part.declarator_height (declarator_part_of declarator.now) }
{
    if is_bare(declarator.shape) {
        0
    } else {
        deeper(declarator.inner)
    }
}

/// The height of an abstract declarator, 0 where there is none.
pub fn abstract_height(declarator: &AbstractPart) -> u8
    ensures { result ≡ part.abstract_height (abstract_part_of declarator.now) }
{
    if declarator.is_some {
        deeper(declarator.inner)
    } else {
        0
    }
}

/// A name.
pub fn declared_part(alloc: Global, at: u32, name: Name) -> Result<DeclaratorPart, NoMemory>
    ensures { IfOk result (λ d. declarator_part_of d ≡ part.declared_part at name) }
{
    let copy = name.clone()?;
    Ok(DeclaratorPart {
        tree: plain_draft(alloc, Direct::Named { at, name }),
        name: copy,
        shape: DeclaratorShape::Bare,
        inner: 0,
    })
}

/// `*` and qualifiers before a declarator.
pub fn pointer_part(
    qualifiers: Vec<Qualifier>,
    declarator: DeclaratorPart,
) -> Result<DeclaratorPart, NoMemory>
    ensures { IfOk result (λ d. declarator_part_of d ≡ part.pointer_part (qualifiers_of qualifiers.items) (declarator_part_of declarator)) }
{
    Ok(DeclaratorPart {
        tree: starred(declarator.tree, qualifiers)?,
        name: declarator.name,
        shape: pointed_shape(declarator.shape),
        inner: declarator.inner,
    })
}

/// A declarator in parentheses.
pub fn parenthesized_part(declarator: DeclaratorPart) -> DeclaratorPart
    ensures { declarator_part_of result ≡ part.parenthesized_part (declarator_part_of declarator) }
{
    DeclaratorPart {
        inner: declarator_height(&declarator),
        shape: DeclaratorShape::Other,
        tree: declarator.tree,
        name: declarator.name,
    }
}

/// A declarator with brackets behind it.
#[tactic(auto, using(crate::proofs::Shapes::array_shape))]
pub fn array_part(
    alloc: Global,
    declarator: DeclaratorPart,
    length: MaybePart,
) -> Result<DeclaratorPart, NoMemory>
    ensures { IfOk result (λ d. declarator_part_of d ≡ part.array_part (declarator_part_of declarator) (maybe_part_of length)) }
{
    Ok(DeclaratorPart {
        tree: suffixed(alloc, declarator.tree, Suffix::Array(length.tree))?,
        name: declarator.name,
        shape: DeclaratorShape::Other,
        inner: declarator.inner.max(length.height),
    })
}

/// A declarator with parameters behind it.
#[tactic(auto, using(crate::proofs::Shapes::function_shape))]
pub fn function_part(
    alloc: Global,
    declarator: DeclaratorPart,
    parameters: ParametersPart,
) -> Result<DeclaratorPart, NoMemory>
    ensures { IfOk result (λ d. declarator_part_of d ≡ part.function_part (declarator_part_of declarator) (parameters_part_of parameters)) }
{
    Ok(DeclaratorPart {
        tree: suffixed(alloc, declarator.tree, Suffix::Function(parameters.trees))?,
        name: declarator.name,
        shape: function_shape(declarator.shape),
        inner: declarator.inner.max(parameters.height),
    })
}

/// The qualifiers of a `*` with one more.
#[tactic(auto, using(crate::proofs::Ends::qualifiers_end))]
pub fn extended_qualifiers(
    qualifiers: Vec<Qualifier>,
    qualifier: Qualifier,
) -> Result<Vec<Qualifier>, NoMemory>
    ensures { IfOk result (λ more. qualifiers_of more.items ≡ qualifiers_of qualifiers.items ++ qualifier_of qualifier ∷ []) }
{
    extended(qualifiers, qualifier)
}

/// No abstract declarator.
pub fn no_abstract(alloc: Global) -> AbstractPart
    ensures { abstract_part_of result ≡ part.no_abstract }
{
    AbstractPart {
        tree: plain_draft(alloc, Direct::Unnamed),
        is_some: false,
        inner: 0,
    }
}

/// `*` and qualifiers before an abstract declarator, or alone.
pub fn abstract_pointer_part(
    qualifiers: Vec<Qualifier>,
    declarator: AbstractPart,
) -> Result<AbstractPart, NoMemory>
    ensures { IfOk result (λ a. abstract_part_of a ≡ part.abstract_pointer_part (qualifiers_of qualifiers.items) (abstract_part_of declarator)) }
{
    let inner = abstract_height(&declarator);
    Ok(AbstractPart {
        tree: starred(declarator.tree, qualifiers)?,
        is_some: true,
        inner,
    })
}

/// An abstract declarator in parentheses.
pub fn abstract_parenthesized_part(declarator: AbstractPart) -> AbstractPart
    ensures { abstract_part_of result ≡ part.abstract_parenthesized_part (abstract_part_of declarator) }
{
    AbstractPart {
        inner: abstract_height(&declarator),
        tree: declarator.tree,
        is_some: true,
    }
}

/// An abstract declarator, or none, with brackets behind it.
#[tactic(auto, using(crate::proofs::Shapes::array_shape))]
pub fn abstract_array_part(
    alloc: Global,
    declarator: AbstractPart,
    length: MaybePart,
) -> Result<AbstractPart, NoMemory>
    ensures { IfOk result (λ a. abstract_part_of a ≡ part.abstract_array_part (abstract_part_of declarator) (maybe_part_of length)) }
{
    Ok(AbstractPart {
        tree: suffixed(alloc, declarator.tree, Suffix::Array(length.tree))?,
        is_some: true,
        inner: declarator.inner.max(length.height),
    })
}

/// An abstract declarator, or none, with parameters behind it.
#[tactic(auto, using(crate::proofs::Shapes::function_shape))]
pub fn abstract_function_part(
    alloc: Global,
    declarator: AbstractPart,
    parameters: ParametersPart,
) -> Result<AbstractPart, NoMemory>
    ensures { IfOk result (λ a. abstract_part_of a ≡ part.abstract_function_part (abstract_part_of declarator) (parameters_part_of parameters)) }
{
    Ok(AbstractPart {
        tree: suffixed(alloc, declarator.tree, Suffix::Function(parameters.trees))?,
        is_some: true,
        inner: declarator.inner.max(parameters.height),
    })
}

/// A type name.
pub fn type_part(specifiers: SpecifiersPart, declarator: AbstractPart) -> Result<TypePart, NoMemory>
    ensures { IfOk result (λ t. type_part_of t ≡ part.type_part (specifiers_part_of specifiers) (abstract_part_of declarator)) }
{
    let height = specifiers.height.max(abstract_height(&declarator));
    Ok(TypePart {
        tree: TypeName {
            at: start_place(&specifiers),
            specifiers: all_specifiers(specifiers)?,
            declarator: finished(declarator.tree),
        },
        height,
    })
}

/// No declarators.
pub fn no_declarator_part(alloc: Global) -> DeclaratorsPart
    ensures { declarators_part_of result ≡ part.no_declarator_part }
{
    DeclaratorsPart {
        trees: Vec::new(alloc),
        height: 0,
    }
}

/// One declarator more.
#[tactic(auto, using(crate::proofs::Ends::declarators_end))]
pub fn add_declarator(
    declarators: DeclaratorsPart,
    declarator: DeclaratorPart,
) -> Result<DeclaratorsPart, NoMemory>
    ensures { IfOk result (λ ds. declarators_part_of ds ≡ part.add_declarator (declarators_part_of declarators) (declarator_part_of declarator)) }
{
    let height = declarators.height.max(declarator_height(&declarator));
    Ok(DeclaratorsPart {
        trees: extended(declarators.trees, finished(declarator.tree))?,
        height,
    })
}

/// No parameters.
pub fn no_parameter(alloc: Global) -> ParametersPart
    ensures { parameters_part_of result ≡ part.no_parameter }
{
    ParametersPart {
        trees: Vec::new(alloc),
        height: 0,
    }
}

/// One parameter more, with a name.
#[tactic(auto, using(crate::proofs::Ends::parameters_end))]
pub fn add_parameter(
    parameters: ParametersPart,
    specifiers: SpecifiersPart,
    declarator: DeclaratorPart,
) -> Result<ParametersPart, NoMemory>
    ensures { IfOk result (λ ps. parameters_part_of ps ≡ part.add_parameter (parameters_part_of parameters) (specifiers_part_of specifiers) (declarator_part_of declarator)) }
{
    let inner = specifiers.height.max(declarator_height(&declarator));
    let parameter = Parameter {
        at: start_place(&specifiers),
        specifiers: all_specifiers(specifiers)?,
        declarator: finished(declarator.tree),
    };
    Ok(ParametersPart {
        trees: extended(parameters.trees, parameter)?,
        height: parameters.height.max(inner),
    })
}

/// One parameter more, without a name.
#[tactic(auto, using(crate::proofs::Ends::parameters_end))]
pub fn add_abstract(
    parameters: ParametersPart,
    specifiers: SpecifiersPart,
    declarator: AbstractPart,
) -> Result<ParametersPart, NoMemory>
    ensures { IfOk result (λ ps. parameters_part_of ps ≡ part.add_abstract (parameters_part_of parameters) (specifiers_part_of specifiers) (abstract_part_of declarator)) }
{
    let inner = specifiers.height.max(abstract_height(&declarator));
    let parameter = Parameter {
        at: start_place(&specifiers),
        specifiers: all_specifiers(specifiers)?,
        declarator: finished(declarator.tree),
    };
    Ok(ParametersPart {
        trees: extended(parameters.trees, parameter)?,
        height: parameters.height.max(inner),
    })
}

#[tactic(auto, using(crate::proofs::Ends::no_parameters_told))]
fn are_no_parameters(parameters: &[Parameter]) -> bool
    ensures { result ≡ part.are_no_parameters (parameters_of parameters.now) }
{
    match parameters {
        [] => true,
        [_, ..] => false,
    }
}

/// The parameters with a last one without a name: the lone word `void` has none.
pub fn last_abstract(
    alloc: Global,
    parameters: ParametersPart,
    specifiers: SpecifiersPart,
    declarator: AbstractPart,
) -> Result<ParametersPart, NoMemory>
    ensures { IfOk result (λ ps. parameters_part_of ps ≡ part.last_abstract (parameters_part_of parameters) (specifiers_part_of specifiers) (abstract_part_of declarator)) }
{
    if !declarator.is_some && are_no_parameters(&parameters.trees) && are_void(&specifiers) {
        return Ok(no_parameter(alloc));
    }
    add_abstract(parameters, specifiers, declarator)
}

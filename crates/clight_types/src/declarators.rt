//! What a declarator makes of the type that its specifiers give.

ghost use Rattle.std.specs.Prelude.{◌≡◌, ◌+◌, ◌*◌, min, nat_lt, map, IfOk};
ghost use Rattle.clight_types.specs.Table.{shape_of, types_of};
ghost use Rattle.clight_types.specs.Types.{array_shape, size_at, type_limit, is_array_shape, shape_at};
ghost use Rattle.clight_types.specs.Declarators.{shaped, refused, begun, with_function, with_bad_array, is_no_element, with_elements, with_open_array, with_array, with_part, part_onto, built_of as built_from, adjusted, built_parameter, built_type, type_or};
ghost use Rattle.clight_types.specs.BuiltOf.{built_of, length_of, parameter_of, part_of, types_in};

use crate::types::{Shape, Types};
use std::alloc::{AllocError, Global};
use tso_words::{Name, NoMemory};

/// No type has more bytes.
pub const TYPE_LIMIT: u32 = 16_777_216;

/// The length of an array: left out, not one that an array may have, or a number of elements.
#[derive(Clone, Copy, PartialEq, Eq, Debug)]
pub enum Length {
    Missing,
    Bad,
    Elements(u32),
}

/// A parameter: its name, where it has one, its place and its type.
#[derive(Drop)]
pub struct Parameter {
    pub name: Option<Name>,
    pub at: u32,
    pub type_number: usize,
}

/// A part of a declarator.
#[derive(Drop)]
pub enum Part {
    Pointer,
    Array(Length),
    Function(Vec<Parameter>),
}

/// The type that parts of a declarator have made so far, where there is one, and what was wrong on
/// the way.
#[derive(Clone, Copy, PartialEq, Eq, Debug)]
pub struct Built {
    pub type_number: Option<usize>,
    /// An array's element is incomplete.
    pub has_incomplete: bool,
    /// A length is no length, an element is a function, or a function gives an array or a function.
    pub is_wrong: bool,
    pub is_large: bool,
    /// A function gives a struct.
    pub gives_struct: bool,
}

/// A type of this shape is made of the one so far.
fn shaped(types: &mut Types, b: Built, shape: Shape) -> Result<Built, NoMemory>
    ensures { IfOk result (λ r. shaped (built_of types.old b) (shape_of shape) ≡ built_of types.new r) }
{
    let number = types.number_for(shape)?;
    Ok(Built {
        type_number: Some(number),
        has_incomplete: b.has_incomplete,
        is_wrong: b.is_wrong,
        is_large: b.is_large,
        gives_struct: b.gives_struct,
    })
}

/// A pointer to the type so far.
pub fn with_pointer(types: &mut Types, b: Built, t: usize) -> Result<Built, NoMemory>
    ensures { IfOk result (λ r. shaped (built_of types.old b) (shape_of (Shape.Pointer t)) ≡ built_of types.new r) }
{
    shaped(types, b, Shape::Pointer(t))
}

/// An array whose element is not complete or is a function, or whose length is wrong, is no type.
fn with_bad_array(types: &Types, b: Built, t: usize, length_is_wrong: bool) -> Built
    ensures { built_of types.now result ≡ with_bad_array (built_of types.now b) t length_is_wrong }
{
    Built {
        type_number: None,
        has_incomplete: b.has_incomplete || types.is_incomplete(t),
        is_wrong: b.is_wrong || length_is_wrong || types.is_function(t),
        is_large: b.is_large,
        gives_struct: b.gives_struct,
    }
}

fn is_no_element(types: &Types, t: usize) -> bool
    ensures { result ≡ is_no_element (types_of types.now) t }
{
    types.is_incomplete(t) || types.is_function(t)
}

/// The size of an array, where it is not past the limit; else one more than the limit.
fn capped_size(types: &Types, t: usize, length: u32) -> u32
    ensures { result ≡ min (size_at (types_of types.now) t * length) (type_limit + 1) }
{
    let size = u64::from(types.size(t)) * u64::from(length);
    size.min(16_777_217) as u32
}

fn array_of(types: &Types, t: usize, length: u32) -> Shape
    ensures { shape_of result ≡ array_shape (types_of types.now) t length }
{
    Shape::Array {
        element: t,
        length,
        size: capped_size(types, t, length),
        align: types.align(t),
    }
}

/// Whether an array of so many elements is past the limit.
fn passes_limit(types: &Types, t: usize, length: u32) -> bool
    ensures { result ≡ nat_lt type_limit (size_at (types_of types.now) t * length) }
{
    u64::from(types.size(t)) * u64::from(length) > u64::from(TYPE_LIMIT)
}

fn with_elements(types: &mut Types, b: Built, t: usize, length: u32) -> Result<Built, NoMemory>
    ensures { IfOk result (λ r. with_elements (built_of types.old b) t length ≡ built_of types.new r) }
{
    if is_no_element(types, t) {
        return Ok(with_bad_array(types, b, t, false));
    }
    let is_large = b.is_large || passes_limit(types, t, length);
    let shape = array_of(types, t, length);
    let array = shaped(types, b, shape)?;
    Ok(Built {
        type_number: array.type_number,
        has_incomplete: array.has_incomplete,
        is_wrong: array.is_wrong,
        is_large,
        gives_struct: array.gives_struct,
    })
}

/// The outermost bracket of a parameter may be empty: the parameter is a pointer.
fn with_open_array(types: &mut Types, b: Built, t: usize, excused: bool) -> Result<Built, NoMemory>
    ensures { IfOk result (λ r. with_open_array (built_of types.old b) t excused ≡ built_of types.new r) }
{
    if is_no_element(types, t) || !excused {
        return Ok(with_bad_array(types, b, t, !excused));
    }
    shaped(types, b, Shape::Pointer(t))
}

/// An array of the type so far. A length may be left out where it is excused.
pub fn with_array(
    types: &mut Types,
    b: Built,
    t: usize,
    excused: bool,
    length: Length,
) -> Result<Built, NoMemory>
    ensures { IfOk result (λ r. with_array (built_of types.old b) t excused (length_of length) ≡ built_of types.new r) }
{
    match length {
        Length::Missing => with_open_array(types, b, t, excused),
        Length::Bad => Ok(with_bad_array(types, b, t, true)),
        Length::Elements(n) => with_elements(types, b, t, n),
    }
}

/// The types of parameters, in order.
fn types_in(alloc: Global, parameters: &[Parameter]) -> Result<Vec<usize>, NoMemory>
    ensures { IfOk result (λ types. types.items ≡ types_in parameters.now) }
{
    let mut types = Vec::new(alloc);
    for parameter in parameters {
        types.push(parameter.type_number).map_err(AllocError::from)?;
    }
    Ok(types)
}

fn is_array(types: &Types, t: usize) -> bool
    ensures { result ≡ is_array_shape (shape_at (types_of types.now) t) }
{
    matches!(types.shape(t), Some(Shape::Array { .. }))
}

fn refused(b: Built) -> Built
    ensures { (t : _) → built_of t result ≡ refused (built_of t b) }
{
    Built {
        type_number: None,
        has_incomplete: b.has_incomplete,
        is_wrong: true,
        is_large: b.is_large,
        gives_struct: b.gives_struct,
    }
}

/// A function that gives the type so far.
fn with_function(
    alloc: Global,
    types: &mut Types,
    b: Built,
    t: usize,
    parameters: &[Parameter],
) -> Result<Built, NoMemory>
    ensures { IfOk result (λ r. with_function (built_of types.old b) t (map parameter_of parameters.now) ≡ built_of types.new r) }
{
    if types.is_function(t) || is_array(types, t) {
        return Ok(refused(b));
    }
    let gives_struct = b.gives_struct || types.is_struct(t);
    let shape = Shape::Function {
        result: t,
        parameters: types_in(alloc, parameters)?,
    };
    let function = shaped(types, b, shape)?;
    Ok(Built {
        type_number: function.type_number,
        has_incomplete: function.has_incomplete,
        is_wrong: function.is_wrong,
        is_large: function.is_large,
        gives_struct,
    })
}

fn with_part(
    alloc: Global,
    types: &mut Types,
    b: Built,
    t: usize,
    excused: bool,
    part: &Part,
) -> Result<Built, NoMemory>
    ensures { IfOk result (λ r. with_part (built_of types.old b) t excused (part_of part.now) ≡ built_of types.new r) }
{
    match part {
        Part::Pointer => with_pointer(types, b, t),
        Part::Array(length) => with_array(types, b, t, excused, *length),
        Part::Function(parameters) => with_function(alloc, types, b, t, parameters),
    }
}

fn part_onto(
    alloc: Global,
    types: &mut Types,
    b: Built,
    excused: bool,
    part: &Part,
) -> Result<Built, NoMemory>
    ensures { IfOk result (λ r. part_onto (built_of types.old b) b.type_number excused (part_of part.now) ≡ built_of types.new r) }
{
    match b.type_number {
        Some(t) => with_part(alloc, types, b, t, excused, part),
        None => Ok(b),
    }
}

fn begun(base: usize) -> Built
    ensures { (t : _) → built_of t result ≡ begun (types_of t) base }
{
    Built {
        type_number: Some(base),
        has_incomplete: false,
        is_wrong: false,
        is_large: false,
        gives_struct: false,
    }
}

/// The type that the parts make of a base, from the outermost part on. The last part of a parameter
/// may be an array without a length.
fn built_from(
    alloc: Global,
    types: &mut Types,
    is_parameter: bool,
    base: usize,
    parts: &[Part],
) -> Result<Built, NoMemory>
    ensures { IfOk result (λ r. built_from is_parameter (begun (types_of types.old) base) (map part_of parts.now) ≡ built_of types.new r) }
{
    let mut b = begun(base);
    let mut left = parts.len();
    for part in parts {
        left -= 1;
        b = part_onto(alloc, types, b, is_parameter && left == 0, part)?;
    }
    Ok(b)
}

/// The type of a declared name.
pub fn built_type(
    alloc: Global,
    types: &mut Types,
    base: usize,
    parts: &[Part],
) -> Result<Built, NoMemory>
    ensures { IfOk result (λ r. built_type (types_of types.old) base (map part_of parts.now) ≡ built_of types.new r) }
{
    built_from(alloc, types, false, base, parts)
}

/// An array parameter is a pointer to its element, a function one to it.
fn adjusted(types: &mut Types, b: Built) -> Result<Built, NoMemory>
    ensures { IfOk result (λ r. adjusted (built_of types.old b) b.type_number ≡ built_of types.new r) }
{
    let Some(t) = b.type_number else {
        return Ok(b);
    };
    match types.shape(t) {
        Some(Shape::Array { element, .. }) => {
            let element = *element;
            shaped(types, b, Shape::Pointer(element))
        }
        Some(Shape::Function { .. }) => shaped(types, b, Shape::Pointer(t)),
        Some(Shape::Void | Shape::Integer(_) | Shape::Pointer(_) | Shape::Struct(_)) | None => {
            Ok(b)
        }
    }
}

/// The type of a parameter.
pub fn built_parameter(
    alloc: Global,
    types: &mut Types,
    base: usize,
    parts: &[Part],
) -> Result<Built, NoMemory>
    ensures { IfOk result (λ r. built_parameter (types_of types.old) base (map part_of parts.now) ≡ built_of types.new r) }
{
    let b = built_from(alloc, types, true, base, parts)?;
    adjusted(types, b)
}

/// What stands for a type that could not be built.
pub fn type_or(built: Option<usize>, other: usize) -> usize
    ensures { result ≡ type_or built other }
{
    built.unwrap_or(other)
}

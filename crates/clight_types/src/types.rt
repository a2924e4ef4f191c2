//! The table of a file's types: each type is its number there, and no type stands there twice.

ghost use Rattle.std.specs.Prelude.{◌≡◌, OnOk, OnErr, IfOk, length, slice_get};
ghost use Rattle.std.specs.Option.{option_map, option_copied};
ghost use Rattle.clight_types.specs.Table.{shape_of, body_of, types_of, with_shapes, member_named};
ghost use Rattle.clight_types.specs.Types.{FunctionShape, is_complete, is_function, is_void, is_struct, is_scalar, is_incomplete, size_at, align_at, value_at, with_shape, with_struct, with_body, is_closed, body_at, body_size, body_align, integer_size, member_at, body_members, named_member, first_types, scalar_shapes, builtin_shapes};
ghost use Rattle.clight_types.specs.LaidOf.{laid_of};
ghost use Rattle.clight_types.specs.Alignments.{bytes_in};

use crate::kind::{Alignment, Integer, Value};
use crate::laid::{Laid, Member};
use crate::layout::closed;
use indexmap::{IndexMap, IndexSet};
use std::alloc::{AllocError, Global};
use tso_words::{Name, NoMemory};

/// What a type is made of. The parts of a type are types by their numbers, a struct is by its own.
#[derive(PartialEq, Eq, Hash, Drop)]
pub enum Shape {
    Void,
    Integer(Integer),
    Pointer(usize),
    /// The element and how many there are, and the size and the alignment of the whole.
    Array {
        element: usize,
        length: u32,
        size: u32,
        align: Alignment,
    },
    Struct(usize),
    Function {
        result: usize,
        parameters: Vec<usize>,
    },
}

/// A struct before its body, and behind it.
#[derive(Drop)]
pub enum Body {
    Open,
    Closed {
        size: u32,
        align: Alignment,
        members: IndexMap<Name, Member>,
    },
}

impl Body {
    #[tactic(auto, using(crate::proofs::Parts::member_found))]
    fn member(&self, name: &Name) -> Option<&Member>
        ensures { member_named name.now (option_copied result) ≡ named_member name.now (body_members (body_of self.now)) }
    {
        match self {
            Body::Closed { members, .. } => members.get(name),
            Body::Open => None,
        }
    }
}

/// The types and the structs of a file, as far as it has been read.
#[derive(Drop)]
pub struct Types {
    pub shapes: IndexSet<Shape>,
    pub structs: Vec<Body>,
}

impl Types {
    /// The types that stand in each table.
    pub fn first(alloc: Global) -> Result<Types, NoMemory>
        ensures { IfOk result (λ types. types_of types ≡ first_types) }
    {
        let mut types = Types {
            shapes: IndexSet::new(alloc),
            structs: Vec::new(alloc),
        };
        types.put_scalars()?;
        types.put_builtins(alloc)?;
        Ok(types)
    }

    /// `void` and the integers.
    fn put_scalars(&mut self) -> Result<(), NoMemory>
        ensures { OnOk result (types_of self.new ≡ with_shapes (types_of self.old) scalar_shapes) }
    {
        self.number_for(Shape::Void)?;
        self.number_for(Shape::Integer(Integer::Char))?;
        self.number_for(Shape::Integer(Integer::UnsignedChar))?;
        self.number_for(Shape::Integer(Integer::Short))?;
        self.number_for(Shape::Integer(Integer::UnsignedShort))?;
        self.number_for(Shape::Integer(Integer::Int))?;
        self.number_for(Shape::Integer(Integer::UnsignedInt))?;
        Ok(())
    }

    /// `void *`, and the types of the builtins and of `main`.
    fn put_builtins(&mut self, alloc: Global) -> Result<(), NoMemory>
        ensures { OnOk result (types_of self.new ≡ with_shapes (types_of self.old) builtin_shapes) }
    {
        self.number_for(Shape::Pointer(0))?;
        self.number_for(function_shape(alloc, 0, &[7])?)?;
        self.number_for(Shape::Pointer(8))?;
        self.number_for(function_shape(alloc, 5, &[9, 7])?)?;
        self.number_for(function_shape(alloc, 0, &[])?)?;
        self.number_for(function_shape(alloc, 7, &[6])?)?;
        self.number_for(function_shape(alloc, 0, &[5])?)?;
        self.number_for(function_shape(alloc, 5, &[])?)?;
        Ok(())
    }

    /// What the type is made of; `None` where there is no type with this number.
    pub fn shape(&self, t: usize) -> Option<&Shape>
        ensures { option_map shape_of (option_copied result) ≡ slice_get (types_of self.now).shapes t }
    {
        self.shapes.get_index(t)
    }

    /// The number of the type of this shape, which is put at the end where it is new.
    pub fn number_for(&mut self, shape: Shape) -> Result<usize, NoMemory>
        ensures ok { IfOk result (λ n. with_shape (types_of self.old) (shape_of shape) ≡ (types_of self.new, n)) }
        ensures err { OnErr result (types_of self.new ≡ types_of self.old) }
    {
        let (number, _) = self.shapes.insert_full(shape).map_err(AllocError::from)?;
        Ok(number)
    }

    /// A new struct, whose body is to come, and its number.
    pub fn new_struct(&mut self) -> Result<usize, NoMemory>
        ensures ok { IfOk result (λ n. (types_of self.new ≡ with_struct (types_of self.old)) × (n ≡ length (types_of self.old).structs)) }
        ensures err { OnErr result (types_of self.new ≡ types_of self.old) }
    {
        let number = self.structs.len();
        self.structs.push(Body::Open).map_err(AllocError::from)?;
        Ok(number)
    }

    /// Gives a struct its body.
    #[tactic(auto, using(crate::proofs::Entries::set_past, crate::proofs::Entries::set_mapped))]
    pub fn close_struct(&mut self, n: usize, laid: Laid)
        ensures { types_of self.new ≡ with_body (types_of self.old) n (laid_of laid) }
    {
        let body = closed(laid);
        if let Some(place) = self.structs.get_mut(n) {
            *place = body;
        }
    }

    fn struct_is_closed(&self, n: usize) -> bool
        ensures { result ≡ is_closed (body_at (types_of self.now) n) }
    {
        match self.structs.get(n) {
            Some(Body::Closed { .. }) => true,
            Some(Body::Open) | None => false,
        }
    }

    fn struct_size(&self, n: usize) -> u32
        ensures { result ≡ body_size (body_at (types_of self.now) n) }
    {
        match self.structs.get(n) {
            Some(Body::Closed { size, .. }) => *size,
            Some(Body::Open) | None => 0,
        }
    }

    fn struct_align(&self, n: usize) -> Alignment
        ensures { bytes_in result ≡ body_align (body_at (types_of self.now) n) }
    {
        match self.structs.get(n) {
            Some(Body::Closed { align, .. }) => *align,
            Some(Body::Open) | None => Alignment::One,
        }
    }

    fn struct_member(&self, n: usize, name: &Name) -> Option<&Member>
        ensures { member_named name.now (option_copied result) ≡ named_member name.now (body_members (body_at (types_of self.now) n)) }
    {
        match self.structs.get(n) {
            Some(body) => body.member(name),
            None => None,
        }
    }

    /// The member with this name, where the type is a struct that has one.
    pub fn member(&self, t: usize, name: &Name) -> Option<&Member>
        ensures { member_named name.now (option_copied result) ≡ member_at (types_of self.now) t name.now }
    {
        match self.shape(t) {
            Some(Shape::Struct(n)) => self.struct_member(*n, name),
            Some(
                Shape::Void
                | Shape::Integer(_)
                | Shape::Pointer(_)
                | Shape::Array { .. }
                | Shape::Function { .. },
            )
            | None => None,
        }
    }

    /// Whether objects of the type have a size: `void`, a struct before its body and a function have
    /// none.
    pub fn is_complete(&self, t: usize) -> bool
        ensures { result ≡ is_complete (types_of self.now) t }
    {
        match self.shape(t) {
            Some(Shape::Struct(n)) => self.struct_is_closed(*n),
            Some(Shape::Integer(_) | Shape::Pointer(_) | Shape::Array { .. }) => true,
            Some(Shape::Void | Shape::Function { .. }) | None => false,
        }
    }

    /// Whether the type is that of a function.
    pub fn is_function(&self, t: usize) -> bool
        ensures { result ≡ is_function (types_of self.now) t }
    {
        matches!(self.shape(t), Some(Shape::Function { .. }))
    }

    /// Whether the type is `void`, as which also counts a number with no type.
    pub fn is_void(&self, t: usize) -> bool
        ensures { result ≡ is_void (types_of self.now) t }
    {
        match self.shape(t) {
            Some(Shape::Void) | None => true,
            Some(_) => false,
        }
    }

    /// Whether the type is a struct.
    pub fn is_struct(&self, t: usize) -> bool
        ensures { result ≡ is_struct (types_of self.now) t }
    {
        matches!(self.shape(t), Some(Shape::Struct(_)))
    }

    /// Whether the type is an integer or a pointer.
    pub fn is_scalar(&self, t: usize) -> bool
        ensures { result ≡ is_scalar (types_of self.now) t }
    {
        matches!(self.shape(t), Some(Shape::Integer(_) | Shape::Pointer(_)))
    }

    /// Whether the type is `void` or a struct before its body.
    pub fn is_incomplete(&self, t: usize) -> bool
        ensures { result ≡ is_incomplete (types_of self.now) t }
    {
        !self.is_complete(t) && !self.is_function(t)
    }

    /// The size of the type in bytes; 0 where it has none.
    pub fn size(&self, t: usize) -> u32
        ensures { result ≡ size_at (types_of self.now) t }
    {
        match self.shape(t) {
            Some(Shape::Integer(i)) => size_of_integer(*i),
            Some(Shape::Pointer(_)) => 4,
            Some(Shape::Array { size, .. }) => *size,
            Some(Shape::Struct(n)) => self.struct_size(*n),
            Some(Shape::Void | Shape::Function { .. }) | None => 0,
        }
    }

    /// The alignment of the type; 1 where it has no size.
    pub fn align(&self, t: usize) -> Alignment
        ensures { bytes_in result ≡ align_at (types_of self.now) t }
    {
        match self.shape(t) {
            Some(Shape::Integer(i)) => align_of_integer(*i),
            Some(Shape::Pointer(_)) => Alignment::Four,
            Some(Shape::Array { align, .. }) => *align,
            Some(Shape::Struct(n)) => self.struct_align(*n),
            Some(Shape::Void | Shape::Function { .. }) | None => Alignment::One,
        }
    }

    /// The value of an object or a function of the type: an array is a pointer to its first element.
    pub fn value(&self, t: usize) -> Value
        ensures { result ≡ value_at (types_of self.now) t }
    {
        match self.shape(t) {
            Some(Shape::Integer(i)) => Value::Integer(*i),
            Some(Shape::Pointer(u)) => Value::Pointer(*u),
            Some(Shape::Array { element, .. }) => Value::Pointer(*element),
            Some(Shape::Struct(_)) => Value::Struct,
            Some(Shape::Function { .. }) => Value::Pointer(t),
            Some(Shape::Void) | None => Value::Void,
        }
    }
}

/// The shape of a function.
fn function_shape(alloc: Global, gives: usize, takes: &[usize]) -> Result<Shape, NoMemory>
    ensures { IfOk result (λ s. shape_of s ≡ FunctionShape gives takes.now) }
{
    let parameters = Vec::from_slice(alloc, takes).map_err(AllocError::from)?;
    Ok(Shape::Function {
        result: gives,
        parameters,
    })
}

/// The alignment of an integer type, which is its size.
fn align_of_integer(i: Integer) -> Alignment
    ensures { bytes_in result ≡ integer_size i }
{
    match i {
        Integer::Char | Integer::UnsignedChar => Alignment::One,
        Integer::Short | Integer::UnsignedShort => Alignment::Two,
        Integer::Int | Integer::UnsignedInt => Alignment::Four,
    }
}

/// The size of an integer type in bytes.
pub fn size_of_integer(i: Integer) -> u32
    ensures { result ≡ integer_size i }
{
    match i {
        Integer::Char | Integer::UnsignedChar => 1,
        Integer::Short | Integer::UnsignedShort => 2,
        Integer::Int | Integer::UnsignedInt => 4,
    }
}

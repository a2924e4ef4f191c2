//! Members: `.` looks at an object, `->` at what a pointer points to.

ghost use Rattle.std.specs.Prelude.{◌≡◌};
ghost use Rattle.std.specs.Option.{option_copied};
ghost use Rattle.c_tree.specs.Shape.{access_of};
ghost use Rattle.clight_lang.specs.Syntax.{expression_of};
ghost use Rattle.clight_types.specs.Judged.{Judges};
ghost use Rattle.clight_types.specs.Table.{types_of, member_named};
ghost use Rattle.clight_calls.specs.Members.{dot_member, arrow_member, member_by, member_typed};
ghost use Rattle.clight_operands.specs.Shown.{typed_of};

use c_tree::Access;
use clight_lang::expression::Expr;
use clight_operands::applied::moved;
use clight_operands::operands::{plain, read_of, refused, value_of};
use clight_operands::typed::Typed;
use clight_types::{Constant, Denoted, Member, Refusal, Rule, Types, Value};
use std::alloc::Global;
use tso_words::Name;

fn dot_member<'a>(types: &'a Types, denoted: Denoted, name: &Name) -> Option<&'a Member>
    ensures { member_named name.now (option_copied result) ≡ dot_member (types_of types.now) denoted name.now }
{
    match denoted {
        Denoted::Object(t) => types.member(t, name),
        Denoted::Value(_) | Denoted::Function(_) => None,
    }
}

fn arrow_member<'a>(types: &'a Types, value: Value, name: &Name) -> Option<&'a Member>
    ensures { member_named name.now (option_copied result) ≡ arrow_member (types_of types.now) value name.now }
{
    match value {
        Value::Pointer(t) => types.member(t, name),
        Value::Integer(_) | Value::Struct | Value::Void => None,
    }
}

/// The member at an address, where there is one.
fn member_by(
    alloc: Global,
    at: u32,
    name_at: u32,
    name: &Name,
    address: Expr,
    member: Option<&Member>,
) -> Result<Typed, Refusal>
    ensures { Judges (member_by at name_at (expression_of address) (member_named name.now (option_copied member.entry))) typed_of result }
{
    match member {
        Some(member) => {
            let meaning = moved(alloc, member.offset, address)?;
            Ok(plain(
                at,
                Denoted::Object(member.type_number),
                Constant::No,
                meaning,
            ))
        }
        None => Err(refused(Rule::NoMember, name_at)),
    }
}

/// `.` and `->`.
pub fn member_typed(
    alloc: Global,
    types: &Types,
    at: u32,
    access: Access,
    name_at: u32,
    name: &Name,
    a: Typed,
) -> Result<Typed, Refusal>
    ensures { Judges (member_typed (types_of types.now) at (access_of access) name_at name.now (typed_of a)) typed_of result }
{
    match access {
        Access::Dot => {
            let member = dot_member(types, a.denoted, name);
            member_by(alloc, at, name_at, name, a.meaning, member)
        }
        Access::Arrow => {
            let member = arrow_member(types, value_of(types, a.denoted), name);
            let address = read_of(alloc, types, a.denoted, a.meaning)?;
            member_by(alloc, at, name_at, name, address, member)
        }
    }
}

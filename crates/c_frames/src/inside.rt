//! The marks above what stands in a frame, with those above the frame.

ghost use Rattle.std.specs.Prelude.{◌≡◌, max};
ghost use Rattle.c_reading.specs.Frames as marks;
ghost use Rattle.c_reading.specs.Parts as part;
ghost use Rattle.c_frames.specs.Frames.{frame_of, suffixed_of};
ghost use Rattle.c_frames.specs.Nests.{nest_of};
ghost use Rattle.c_parts.specs.Views.{
  declarator_part_of,
  inits_part_of,
  items_part_of,
  specifiers_part_of,
};

use crate::frame::{Frame, SuffixedPart};
use crate::nest::{Nest, below_mark, beside, nest_at, under};
use c_parts::{
    DeclaratorPart, InitsPart, ItemsPart, MembersPart, SpecifiersPart, are_no_inits,
    declarator_height, deeper, is_bare, over,
};

// The marks above brackets.
fn brackets_depth(suffixed: &SuffixedPart, base: Nest) -> u8
    ensures { result ≡ marks.brackets_depth (suffixed_of suffixed.now) (nest_of base) }
{
    match suffixed {
        SuffixedPart::Named(_) => base.inner,
        SuffixedPart::Abstract(_) => base.star_inner,
    }
}

// The marks above parameters: none where they may be those of a function's head.
fn parameters_depth(suffixed: &SuffixedPart, base: Nest) -> u8
    ensures { result ≡ marks.parameters_depth (suffixed_of suffixed.now) (nest_of base) }
{
    match suffixed {
        SuffixedPart::Named(declarator) => {
            if is_bare(declarator.shape) && base.may_head {
                0
            } else {
                base.inner
            }
        }
        SuffixedPart::Abstract(_) => base.star_inner,
    }
}

fn suffixed_height(suffixed: &SuffixedPart) -> u8
    ensures { result ≡ marks.suffixed_height (suffixed_of suffixed.now) }
{
    match suffixed {
        SuffixedPart::Named(declarator) => declarator.inner,
        SuffixedPart::Abstract(declarator) => declarator.inner,
    }
}

fn in_function(
    specifiers: &SpecifiersPart,
    declarator: &DeclaratorPart,
    items: &ItemsPart,
    base: Nest,
) -> Nest
    ensures { nest_of result ≡ marks.inside (marks.function_frame (specifiers_part_of specifiers.now) (declarator_part_of declarator.now) 0 (items_part_of items.now)) (nest_of base) }
{
    let body = over(0, declarator.inner).max(over(1, items.height));
    let deepest = over(0, specifiers.height).max(body);
    nest_at(1, base.deepest.max(deepest))
}

fn in_members(specifiers: &SpecifiersPart, members: &MembersPart, base: Nest) -> Nest
    ensures { nest_of result ≡ marks.nest_at (part.deeper base.depth) (max base.deepest (max (part.over base.depth specifiers.now.height) (part.over (part.deeper base.depth) members.now.height))) }
{
    let body = deeper(base.depth);
    let deepest = over(base.depth, specifiers.height).max(over(body, members.height));
    nest_at(body, base.deepest.max(deepest))
}

// A declarator of a declaration: the first one in the file may head a function.
fn in_init(specifiers: &SpecifiersPart, inits: &InitsPart, base: Nest) -> Nest
    ensures { nest_of result ≡ marks.inside (marks.init_frame (specifiers_part_of specifiers.now) (inits_part_of inits.now)) (nest_of base) }
{
    Nest {
        may_head: are_no_inits(inits) && !specifiers.declares_types && base.may_head,
        ..beside(base, specifiers.height.max(inits.height))
    }
}

fn in_parameter(specifiers: &SpecifiersPart, base: Nest) -> Nest
    ensures { nest_of result ≡ marks.inside (marks.parameter_of_frame (specifiers_part_of specifiers.now)) (nest_of base) }
{
    Nest {
        takes_name: true,
        ..beside(base, specifiers.height)
    }
}

fn in_star(base: Nest) -> Nest
    ensures { nest_of result ≡ record (nest_of base) { depth = base.inner; star_depth = base.star_inner; star_inner = part.deeper base.star_inner } }
{
    Nest {
        depth: base.inner,
        star_depth: base.star_inner,
        star_inner: deeper(base.star_inner),
        ..base
    }
}

fn in_open(base: Nest) -> Nest
    ensures { nest_of result ≡ marks.inside marks.open_frame (nest_of base) }
{
    Nest {
        inner: deeper(base.inner),
        may_head: false,
        ..in_star(base)
    }
}

/// The marks above what stands in a frame, with those above the frame.
pub fn inside(frame: &Frame, base: Nest) -> Nest
    ensures { nest_of result ≡ marks.inside (frame_of frame.now) (nest_of base) }
{
    match frame {
        Frame::Step { .. }
        | Frame::Unary { .. }
        | Frame::Sizeof { .. }
        | Frame::Parentheses { .. }
        | Frame::Return { .. }
        | Frame::If { .. }
        | Frame::While { .. }
        | Frame::Switch { .. }
        | Frame::ForFirst { .. }
        | Frame::DoBody { .. }
        | Frame::ForHead { .. }
        | Frame::CastType { .. }
        | Frame::SizeofType { .. } => below_mark(base, 0),
        Frame::Cast { type_name, .. } => below_mark(base, type_name.height),
        Frame::Binary { left: e, .. }
        | Frame::Assignment { target: e, .. }
        | Frame::Index { array: e, .. }
        | Frame::Middle { condition: e, .. }
        | Frame::Then { condition: e, .. }
        | Frame::WhileBody { condition: e, .. }
        | Frame::Groups { selector: e, .. } => below_mark(base, e.height),
        Frame::Conditional {
            condition,
            if_true,
            ..
        } => below_mark(base, condition.height.max(if_true.height)),
        Frame::Argument {
            callee,
            arguments,
            ..
        } => below_mark(base, callee.height.max(arguments.height)),
        Frame::Do { body, .. } => below_mark(base, body.height),
        Frame::ForTest { first, .. } => below_mark(base, first.height),
        Frame::ForStep {
            first,
            condition,
            ..
        } => below_mark(base, first.height.max(condition.height)),
        Frame::List { values, .. } => below_mark(base, values.height),
        Frame::Else {
            condition,
            if_true,
            ..
        } => below_mark(base, condition.height.max(if_true.height)),
        Frame::ForBody {
            first,
            condition,
            update,
            ..
        } => below_mark(base, first.height.max(condition.height.max(update.height))),
        Frame::Block { items, .. } => below_mark(base, items.height),
        Frame::Expression => nest_at(deeper(base.depth), base.deepest),
        Frame::Length(suffixed) => {
            under(
                base,
                brackets_depth(suffixed, base),
                suffixed_height(suffixed),
            )
        }
        Frame::Parameters(suffixed) => {
            under(
                base,
                parameters_depth(suffixed, base),
                suffixed_height(suffixed),
            )
        }
        Frame::Enumerator { enumerators, .. } => beside(base, enumerators.height),
        Frame::Case { .. } => beside(base, 0),
        Frame::Initializer {
            specifiers,
            inits,
            declarator,
        } => {
            let declared = inits.height.max(declarator_height(declarator));
            beside(base, specifiers.height.max(declared))
        }
        Frame::Function {
            specifiers,
            declarator,
            items,
            ..
        } => in_function(specifiers, declarator, items, base),
        Frame::Group {
            groups,
            labels,
            items,
        } => beside(base, groups.height.max(labels.height.max(items.height))),
        Frame::Label { groups, labels } => beside(base, groups.height.max(labels.height)),
        Frame::Members {
            specifiers,
            members,
            ..
        } => in_members(specifiers, members, base),
        Frame::Enum { specifiers, .. } | Frame::TypeName(specifiers) => {
            beside(base, specifiers.height)
        }
        Frame::Parameter(parameters) => beside(base, parameters.height),
        Frame::Init { specifiers, inits } => in_init(specifiers, inits, base),
        Frame::Member {
            specifiers,
            declarators,
        } => beside(base, specifiers.height.max(declarators.height)),
        Frame::ParameterOf(specifiers) => in_parameter(specifiers, base),
        Frame::Star(_) => in_star(base),
        Frame::Open => in_open(base),
    }
}

//! The stack of frames.

ghost use Rattle.std.specs.Prelude.{◌≡◌, IfSome, MatchOption, OnOk, length, suc};
ghost use Rattle.c_reading.specs.Code as code;
ghost use Rattle.c_reading.specs.Frames as marks;
ghost use Rattle.c_frames.specs.Frames.{frame_of, stack_of};
ghost use Rattle.c_frames.specs.Nests.{nest_of};
ghost use Rattle.c_parts.specs.Views.{file_part_of};

use crate::frame::{Entry, Frame};
use crate::inside::inside;
use crate::nest::{Nest, file_nest};
use crate::pile::Pile;
use c_parts::FilePart;
use c_tree::precedence;
use std::alloc::Global;
use tso_words::NoMemory;

/// The frames, the last begun on top, over the file.
#[derive(Drop)]
pub struct Stack {
    pub file: FilePart,
    pub entries: Pile<Entry>,
}

impl Stack {
    /// No frames, over the file.
    pub fn over(alloc: Global, file: FilePart) -> Stack
        ensures { stack_of result ≡ marks.bottom (file_part_of file) }
    {
        Stack {
            file,
            entries: Pile::new(alloc),
        }
    }

    /// The marks above what stands in the frame on top.
    pub fn nest(&self) -> Nest
        ensures { nest_of result ≡ marks.nest_of (stack_of self.now) }
    {
        match self.entries.top() {
            Some(entry) => entry.nest,
            None => file_nest(&self.file),
        }
    }

    /// Puts a frame on top.
    pub fn push(&mut self, frame: Frame) -> Result<(), NoMemory>
        ensures { OnOk result (stack_of self.new ≡ marks.push (frame_of frame) (stack_of self.old)) }
    {
        let nest = inside(&frame, self.nest());
        self.entries.push(Entry { frame, nest })
    }

    /// Takes the frame on top off; `None` where the file alone is left.
    pub fn pop(&mut self) -> Option<Frame>
        ensures taken { MatchOption result ((stack_of self.old ≡ marks.bottom (file_part_of self.old.file)) × (self.new ≡ self.old)) (λ frame. (nest : _) × (stack_of self.old ≡ marks.above (frame_of frame) nest (stack_of self.new))) }
        ensures fewer { IfSome result (λ _. length self.old.entries ≡ suc (length self.new.entries)) }
    {
        let entry = self.entries.pop()?;
        Some(entry.frame)
    }

    /// The frame on top; `None` where the file alone is left.
    pub fn top(&self) -> Option<&Frame>
        ensures { MatchOption result (stack_of self.now ≡ marks.bottom (file_part_of self.now.file)) (λ frame. (nest : _) × (rest : _) × (stack_of self.now ≡ marks.above (frame_of frame.now) nest rest)) }
    {
        match self.entries.top() {
            Some(entry) => Some(&entry.frame),
            None => None,
        }
    }

    /// Whether the file alone is left.
    pub fn is_bottom(&self) -> bool
        ensures { result ≡ code.is_bottom (stack_of self.now) }
    {
        match self.entries.top() {
            Some(_) => false,
            None => true,
        }
    }

    /// The least level of an expression in the frame on top.
    pub fn need(&self) -> u8
        ensures { result ≡ code.need_of (stack_of self.now) }
    {
        match self.entries.top() {
            Some(entry) => frame_need(&entry.frame),
            None => 1,
        }
    }
}

// The least level of an expression there.
fn frame_need(frame: &Frame) -> u8
    ensures { result ≡ code.frame_need (frame_of frame.now) }
{
    match frame {
        Frame::Step { .. } | Frame::Sizeof { .. } => 14,
        Frame::Unary { .. } | Frame::Cast { .. } => 13,
        Frame::Binary { operator, .. } => precedence(*operator) + 1,
        Frame::Conditional { .. }
        | Frame::Length(_)
        | Frame::Enumerator { .. }
        | Frame::Case { .. } => 2,
        _ => 1,
    }
}

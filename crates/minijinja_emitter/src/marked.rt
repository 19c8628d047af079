//! A list of instructions, with the line and the span of each.
ghost use Rattle.std.specs.Prelude.{◌≡◌, ◌++◌, ◌∷◌, [], length, vec_len};
ghost use Rattle.minijinja_instructions.specs.MarkLists.{marks_in};

use minijinja_instructions::marks::MarkList;
use minijinja_syntax::tokens::Span;
use std::alloc::{AllocError, Global};

/// A list of instructions, with the line and the span of each.
#[derive(Drop)]
pub(crate) struct MarkedList<I> {
    pub(crate) list: Vec<I>,
    pub(crate) marks: MarkList,
    ghost as_many: { length (marks_in marks) ≡ vec_len list },
}

impl<I: Drop> MarkedList<I> {
    ghost use Rattle.std.specs.Prelude.{slice_set, take, IfNone, IfSome, OnErr, OnOk, Some};
    ghost use Rattle.minijinja_semantics.specs.Marks.{last_mark, shown};

    /// No instructions. It allocates nothing yet.
    pub(crate) fn new(alloc: Global) -> Self
        ensures items { result.list.items ≡ [] }
        ensures marks { marks_in result.marks ≡ [] }
    {
        MarkedList {
            list: Vec::new(alloc),
            marks: MarkList::new(alloc),
        }
    }

    /// Reserves memory for `count` more instructions and their marks.
    pub(crate) fn reserve(&mut self, count: usize) -> Result<(), AllocError>
        ensures items { self.new.list.items ≡ self.old.list.items }
        ensures marks { marks_in self.new.marks ≡ marks_in self.old.marks }
    {
        self.list.reserve(count)?;
        self.marks.make_room(count)
    }

    /// Adds an instruction on a line and at a span. A span of zeros is none.
    #[inline(always)]
    pub(crate) fn push(&mut self, item: I, line: u16, span: Span) -> Result<(), AllocError>
        ensures items { OnOk result (self.new.list.items ≡ self.old.list.items ++ item ∷ []) }
        ensures marks { OnOk result (marks_in self.new.marks ≡ marks_in self.old.marks ++
            (record { line = Some line; span = shown span }) ∷ []) }
    {
        // With the memory reserved first, the instruction is made in place: no error hands it back.
        self.list.reserve(1)?;
        self.marks.reserve()?;
        self.marks.put(line, span);
        self.list.push_reserved(item);
        Ok(())
    }

    /// Adds an instruction that has the line and the span of the last one.
    #[inline(always)]
    pub(crate) fn push_again(&mut self, item: I) -> Result<(), AllocError>
        ensures items { OnOk result (self.new.list.items ≡ self.old.list.items ++ item ∷ []) }
        ensures marks { OnOk result (marks_in self.new.marks ≡ marks_in self.old.marks ++
            last_mark (marks_in self.old.marks) ∷ []) }
    {
        self.list.reserve(1)?;
        self.marks.again();
        self.list.push_reserved(item);
        Ok(())
    }

    /// Removes the last instruction and returns it.
    pub(crate) fn pop(&mut self) -> Option<I>
        ensures some { IfSome result (λ last. self.old.list.items ≡ self.new.list.items ++ last ∷
            []) }
        ensures none { IfNone result (self.old.list.items ≡ []) }
        ensures empty { IfNone result (self.new.list.items ≡ []) }
        ensures marks { marks_in self.new.marks ≡ take (length self.new.list.items)
            (marks_in self.old.marks) }
    {
        let last = self.list.pop();
        self.marks.cut(self.list.len());
        last
    }

    /// Removes all instructions from a place on.
    pub(crate) fn cut(&mut self, place: usize)
        ensures items { self.new.list.items ≡ take place self.old.list.items }
        ensures marks { marks_in self.new.marks ≡ take place (marks_in self.old.marks) }
    {
        self.list.truncate(place);
        self.marks.cut(place);
    }

    /// Replaces the instruction at a place, if there is one. Its line and its span stay.
    pub(crate) fn set(&mut self, place: usize, item: I)
        ensures items { self.new.list.items ≡ slice_set self.old.list.items place item }
        ensures marks { marks_in self.new.marks ≡ marks_in self.old.marks }
    {
        if let Some(held) = self.list.get_mut(place) {
            *held = item;
        }
    }

    /// The instructions, and the line and the span of each.
    pub(crate) fn into_parts(self) -> (Vec<I>, MarkList)
        ensures items { result.0.items ≡ self.list.items }
        ensures marks { marks_in result.1 ≡ marks_in self.marks }
        ensures as_many { length (marks_in result.1) ≡ length result.0.items }
    {
        let MarkedList { list, marks } = self;
        (list, marks)
    }
}

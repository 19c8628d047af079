//! Which trees are well formed, so that code can be generated from them.
ghost use Rattle.std.specs.Prelude.{◌↔◌, IsTrue};
ghost use Rattle.minijinja_tree_expr.specs.Erasure.{expr_tree};
ghost use Rattle.minijinja_tree_expr.specs.WellFormed.{IsWhole};
ghost use Rattle.minijinja_tree.specs.Erasure.{stmt_tree};
ghost use Rattle.minijinja_tree.specs.WellFormed.{IsWellFormed};

use crate::expressions::is_whole;
use crate::statements::is_formed;
use minijinja_tree::ast::{Expr, Stmt};
use minijinja_value::value::TemplateValue;

/// Trees that can be tested for being well formed. Each tree that a parser returns is.
pub trait WellFormed {
    // What is asked of such a tree.
    ghost formed: { Self → Type 0 };

    /// Whether it is well formed. It allocates nothing.
    fn is_well_formed(&self) -> bool
        ensures { IsTrue result ↔ formed self.now };
}

impl<'s, V: TemplateValue> WellFormed for Expr<'s, V> {
    ghost formed = { λ e. IsWhole (expr_tree V.contents e) };

    /// Whether each chain of comparisons has two operators or more, each map as many keys as
    /// values, each call, filter and test at most `MOST_ARGUMENTS` arguments, and each filter an
    /// operand.
    fn is_well_formed(&self) -> bool
        ensures { IsTrue result ↔ IsWhole (expr_tree V.contents self.now) }
    {
        is_whole(self)
    }
}

impl<'s, V: TemplateValue> WellFormed for Stmt<'s, V> {
    ghost formed = { λ s. IsWellFormed (stmt_tree V.contents s) };

    /// Whether no template stands within it, its targets are variables, attributes or lists of
    /// targets, `break` and `continue` stand only in a loop's body, the filter of a set or filter
    /// block is a chain of filters whose innermost has no operand, the arguments of macros are
    /// variables and not fewer than the defaults, names that are imported from a template and their
    /// aliases are variables, no block stands in a macro, no two blocks have the same name, and its
    /// other expressions are well formed. It counts each block's name among all blocks.
    fn is_well_formed(&self) -> bool
        ensures { IsTrue result ↔ IsWellFormed (stmt_tree V.contents self.now) }
    {
        is_formed(self)
    }
}

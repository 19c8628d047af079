//! Laws about what trees mean and about their layout.
ghost use Rattle.std.specs.Prelude.{◌≡◌, ◌↔◌, Bool, true, List, [], ◌∷◌, All, Some, codes, length, map};
ghost use Rattle.minijinja_tree.specs.Folding.{fold};
ghost use Rattle.minijinja_tree.specs.FreeNames.{closure};
ghost use Rattle.minijinja_tree.specs.Tree.{Expr, Macro, Stmt, Stmts, blocks};
ghost use Rattle.minijinja_tree.specs.WellFormed.{IsMacro, IsWellFormed, IsWhole};
ghost use Rattle.minijinja_syntax.specs.declared.tokens.Span.{Span};
ghost use Rattle.minijinja_tree.specs.SpannedTrees as spanned;
ghost use Rattle.minijinja_tree.specs.SpannedTrees.{bare_expr, bare_stmt, bare_stmts};
ghost use Rattle.minijinja_semantics.specs.Code.{Instr, Load};
ghost use Rattle.minijinja_semantics.specs.Looks.{AreMarksOf, IsMarkOf, looks, stmt_looks, stmts_looks};
ghost use Rattle.minijinja_semantics.specs.Marks.{block_marks, expr_marks, stmt_marks};
ghost use Rattle.minijinja_tree.specs.Standing.{Stands, StmtStands, StmtsStand};
ghost use Rattle.minijinja_semantics.specs.Correct.{DoesExpr, DoesStmt, a_statement, fresh};
ghost use Rattle.minijinja_semantics.specs.Events.{Answer, Event, World, Gave};
ghost use Rattle.minijinja_semantics.specs.Jumps.{LeadsWell};
ghost use Rattle.minijinja_semantics.specs.Layout.{block_code, expr_code, stmt_code};
ghost use Rattle.minijinja_semantics.specs.Layout as layout;
ghost use Rattle.minijinja_semantics.specs.Meaning.{HasNoBound, do_body, keep_if, macro_run};
ghost use Rattle.minijinja_semantics.specs.Meaning as meaning;
ghost use Rattle.minijinja_semantics.specs.Naming.{all_unlabelled, did_as, relabel, renamed, unlabelled, world_as};
ghost use Rattle.minijinja_semantics.specs.Needs.{MacrosNeedOnly, NeedsOnly, RunsNeedOnly, body_of, closure_of, made_in, made_in_all, parameters_of, undeclared};
ghost use Rattle.minijinja_semantics.specs.Pieces.{Here, one, start};
ghost use Rattle.minijinja_semantics.specs.Places.{begin_of, placed_block, placed_stmt};
ghost use Rattle.minijinja_semantics.specs.Units.{DoBlocks, DoUnits, DoesBlock, all_enterable, all_units, enterable, relabel_enterable, units};

use minijinja_value::value::TemplateValue;

/// The layout of a tree does what the tree means, where its loops and macros are named by their
/// places. That holds over any operands and open loops and for any answers, if the answers and the
/// values in them are fewer than 2^64: the run has the record, the ending and the answers left of
/// the meaning, its record is balanced, and it takes at most (answers + 1) × (code length + 1)
/// steps. It also holds of the code of each unit, entered by itself, and of the list of each block.
pub fn layout_does_what_is_meant<V: TemplateValue, L>()
    ensures template { (t : Stmt V.Contents L) → IsWellFormed t → DoesStmt V.functions (stmt_code
        V.functions t start) 0 (length (stmt_code V.functions t start)) (placed_stmt V.functions t
        start) }
    ensures units { (t : Stmt V.Contents L) → IsWellFormed t → DoUnits V.functions (stmt_code
        V.functions t start) t start }
    ensures blocks { (t : Stmt V.Contents L) → IsWellFormed t → DoBlocks V.functions t }
    ensures expression { (e : Expr V.Contents) → IsWhole e → DoesExpr V.functions (expr_code
        V.functions e start) 0 (length (expr_code V.functions e start)) e }
{}

/// Each jump of a layout leads to a place within the list or to its end, and back only to where a
/// loop asks for its next item.
pub fn layout_leads_well<V: TemplateValue, L>()
    ensures template { (t : Stmt V.Contents L) → IsWellFormed t → LeadsWell (stmt_code V.functions t
        start) }
    ensures blocks { (t : Stmt V.Contents L) → IsWellFormed t → All (λ b. LeadsWell (block_code
        V.functions b.body)) (blocks t) }
    ensures expression { (e : Expr V.Contents) → LeadsWell (expr_code V.functions e start) }
{}

/// The names of a tree's loops and macros do not matter: under other names the tree is as well
/// formed, has the same code, places and units, and does the same with the other names in its
/// events.
pub fn names_are_not_looked_at<V: TemplateValue, N, M>()
    ensures template { (r : N → M) (t : Stmt V.Contents N) (w : World (Event N V.Contents)
        V.Contents) → meaning.stmt V.functions (relabel r t) (world_as (renamed r) w) ≡ did_as
        (renamed r) (meaning.stmt V.functions t w) }
    ensures code { (r : N → M) (t : Stmt V.Contents N) → layout.stmt V.functions [] (relabel r t)
        ≡ layout.stmt V.functions [] t }
    ensures places { (r : N → M) (t : Stmt V.Contents N) (h : Here) → placed_stmt V.functions
        (relabel r t) h ≡ placed_stmt V.functions t h }
    ensures units { (r : N → M) (t : Stmt V.Contents N) (h : Here) → units V.functions []
        (relabel r t) h ≡ units V.functions [] t h }
    ensures well_formed { (r : N → M) (t : Stmt V.Contents N) → IsWellFormed (relabel r t)
        ↔ IsWellFormed t }
    ensures expression { (r : N → M) (e : Expr V.Contents) (w : World (Event N V.Contents)
        V.Contents) → meaning.expr V.functions e (world_as (renamed r) w) ≡ did_as (renamed r)
        (meaning.expr V.functions e w) }
{}

/// The tree whose loops and macros are named by their places is the tree itself, these names aside.
pub fn placed_tree_is_the_tree<V: TemplateValue, L>()
    ensures tree { (t : Stmt V.Contents L) (h : Here) → unlabelled (placed_stmt V.functions t h)
        ≡ unlabelled t }
    ensures block { (body : Stmts V.Contents L) → all_unlabelled (placed_block V.functions body)
        ≡ all_unlabelled body }
{}

/// The units of a tree, named by where their code begins, are what can be entered of the tree with
/// these names: its recursive loops and its macros, in order. Those in a block stand in the block's
/// own list.
pub fn units_are_enterable<V: TemplateValue, L>()
    ensures tree { (t : Stmt V.Contents L) (h : Here) → map (relabel_enterable begin_of) (units
        V.functions [] t h) ≡ enterable (placed_stmt V.functions t h) }
    ensures block { (body : Stmts V.Contents L) → map (relabel_enterable begin_of)
        (all_units V.functions [] body start) ≡ all_enterable (placed_block V.functions body) }
{}

/// A loop is its next turn and then the loop again: the bound in its definition, the number of
/// answers left, is never reached. This also holds of the loop that a filter runs before it.
pub fn loops_have_no_bound<V: TemplateValue, N>()
    ensures body { (target : Expr V.Contents) (body : Stmts V.Contents N) → HasNoBound {N = N}
        (do_body V.functions target (meaning.stmts V.functions body)) }
    ensures filter { (target condition : Expr V.Contents) → HasNoBound {N = N}
        (keep_if V.functions target condition) }
{}

/// An expression that folds means its constant, without an event and without reading an answer, and
/// its code is that constant.
pub fn folded_is_constant<V: TemplateValue, N>()
    ensures means { (e : Expr V.Contents) (c : V.Contents) → fold V.functions e ≡ Some c →
        (w : World (Event N V.Contents) V.Contents) → meaning.expr V.functions e w ≡ Gave w c }
    ensures code { (e : Expr V.Contents) (c : V.Contents) → fold V.functions e ≡ Some c →
        layout.expr V.functions e ≡ one (Load c) }
{}

/// Closures are enough. Whatever is answered, each name that a called macro looks up, calls or
/// encloses while it is not stored is in the macro's closure. In a template, each such name is
/// undeclared, or it is `self`. Aside stand a macro's own name among those that it encloses, and
/// the names that a from import looks up in its template.
pub fn closures_are_enough<V: TemplateValue, N>()
    ensures macro_body { (m : Macro V.Contents N) → IsMacro m → (values : List V.Contents) →
        length values ≡ length (parameters_of m) → (answers : List (Answer V.Contents)) →
        NeedsOnly (closure m) (made_in_all (body_of m)) (macro_run V.functions (parameters_of m)
        (body_of m) values (fresh answers)) }
    ensures template { (t : Stmt V.Contents N) → IsWellFormed t → (answers : List (Answer
        V.Contents)) → NeedsOnly (codes "self" ∷ undeclared t) (made_in t) (meaning.stmt V.functions
        t (fresh answers)) }
{}

/// Closures are enough for runs of code that does what a tree means. Whatever is answered, each
/// name that such a run looks up, calls or encloses while it is not stored is undeclared in the
/// tree, or it is `self`. Where the run begins at what a macro runs, in the code of the tree or in
/// the list of one of its blocks, each such name is in the macro's closure. Aside stand a macro's
/// own name among those that it encloses, and the names that a from import looks up in its
/// template. The answers and the values in them are fewer than 2^64.
pub fn runs_need_only_closures<V: TemplateValue, L>()
    ensures template { (t : Stmt V.Contents L) (code : List (Instr V.Contents)) → IsWellFormed t →
        DoesStmt V.functions code 0 (length code) (placed_stmt V.functions t start) →
        RunsNeedOnly V.functions code (a_statement 0 (length code))
        (codes "self" ∷ undeclared t) (made_in t) }
    ensures macros { (t : Stmt V.Contents L) (code : List (Instr V.Contents)) → IsWellFormed t →
        DoUnits V.functions code t start →
        MacrosNeedOnly V.functions code (units V.functions [] t start) }
    ensures blocks { (t : Stmt V.Contents L) → IsWellFormed t →
        All (λ b. (code : List (Instr V.Contents)) → DoesBlock V.functions code b.body →
        MacrosNeedOnly V.functions code (all_units V.functions [] b.body start)) (blocks t) }
    ensures closure { (m : Macro V.Contents L) →
        closure_of (parameters_of m) (body_of m) ≡ closure m }
{}

/// Marks, which are the lines and the spans of instructions, are those of nodes. There is one for
/// each instruction of a layout. Variables and data that have an instruction, in the order of the
/// code, are the instructions that look up a variable or write data: the line of each is the one on
/// which its node begins, and its span is none, that of the node, of a node round it, or of the
/// call of a call block round it. And a test that the spans of all nodes pass is passed by each
/// span of the marks, and by a span that begins on the line of each.
pub fn marks_are_of_nodes<V: TemplateValue>()
    ensures template { (t : spanned.Stmt V.Contents) → AreMarksOf (stmt_code V.functions (bare_stmt
        t)
        start) (stmt_marks V.functions t) (stmt_looks V.functions [] t) }
    ensures block { (at : Span) (ss : spanned.Stmts V.Contents) → AreMarksOf (block_code V.functions
        (bare_stmts ss)) (block_marks V.functions at ss) (stmts_looks V.functions [] ss) }
    ensures expression { (e : spanned.Expr V.Contents) → AreMarksOf (expr_code V.functions
        (bare_expr e)
        start) (expr_marks V.functions e) (looks V.functions [] e) }
    ensures each_of_template { (p : Span → Bool) (ss : spanned.Stmts V.Contents) (at : Span) →
        StmtStands (λ t. p t.1 ≡ true) (λ s. p s ≡ true) (spanned.template ss at) → All (IsMarkOf
        (λ s. p s ≡ true)) (stmt_marks V.functions (spanned.template ss at)) }
    ensures each_of_block { (p : Span → Bool) (at : Span) (ss : spanned.Stmts V.Contents) →
        p at ≡ true → StmtsStand (λ t. p t.1 ≡ true) (λ s. p s ≡ true) ss → All (IsMarkOf
        (λ s. p s ≡ true)) (block_marks V.functions at ss) }
    ensures each_of_expression { (p : Span → Bool) (e : spanned.Expr V.Contents) → Stands
        (λ t. p t.1 ≡ true) (λ s. p s ≡ true) e → All (IsMarkOf (λ s. p s ≡ true))
        (expr_marks V.functions e) }
{}

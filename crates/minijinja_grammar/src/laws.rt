//! Laws of the grammar.
ghost use Rattle.std.specs.Prelude.{◌≡◌, ℕ, Bool};
ghost use Rattle.minijinja_syntax.specs.Texts.{Text};
ghost use Rattle.minijinja_tree.specs.SpannedTrees as spanned;
ghost use Rattle.minijinja_tree.specs.SpannedTrees.{bare_expr, bare_stmt};
ghost use Rattle.minijinja_tree.specs.Tree.{Expr, Stmt, Stmts};
ghost use Rattle.minijinja_tree.specs.WellFormed.{IsWellFormed, IsWhole};
ghost use Rattle.minijinja_grammar.specs.DepthRows.{ExprRows, StmtRows};
ghost use Rattle.minijinja_grammar.specs.Derived.{IsExprTree, IsSpannedExpr, IsSpannedTemplate, IsTemplateTree};
ghost use Rattle.minijinja_grammar.specs.Examples.{ExprExamples, ExprRefusals, StmtExamples, StmtRefusals};
ghost use Rattle.minijinja_grammar.specs.Expressions.{IsExpr};
ghost use Rattle.minijinja_grammar.specs.PlaceExamples.{PlaceExamples};
ghost use Rattle.minijinja_grammar.specs.Places.{Place};
ghost use Rattle.minijinja_grammar.specs.Statements.{Context, Ends, IsBody, IsStmt};
ghost use Rattle.minijinja_grammar.specs.Stretches.{IsOfGreaterDepth, OnlyNextCounts};
ghost use Rattle.minijinja_grammar.specs.Targets.{AreTargets};

use minijinja_value::value::TemplateValue;

/// Tokens have one tree at most.
pub fn one_tree<V: TemplateValue>()
    ensures template { (p : Place) (t u : Stmt V.Contents (Unit {0})) →
        IsTemplateTree V.functions p t → IsTemplateTree V.functions p u → t ≡ u }
    ensures expression { (p : Place) (t u : Expr V.Contents) → IsExprTree V.functions p t →
        IsExprTree V.functions p u → t ≡ u }
{}

/// Where the nodes of a tree stand is told by the tokens: trees with spans that the grammar gives
/// of the same tokens are one.
pub fn places_are_unique<V: TemplateValue>()
    ensures template { (p : Place) (t u : spanned.Stmt V.Contents) →
        IsSpannedTemplate V.functions p t → IsSpannedTemplate V.functions p u → t ≡ u }
    ensures expression { (p : Place) (t u : spanned.Expr V.Contents) →
        IsSpannedExpr V.functions p t → IsSpannedExpr V.functions p u → t ≡ u }
{}

/// The nodes of each tree stand somewhere: of each tree there is one with spans.
pub fn each_tree_has_places<V: TemplateValue>()
    ensures template { (p : Place) (t : Stmt V.Contents (Unit {0})) →
        IsTemplateTree V.functions p t → (u : spanned.Stmt V.Contents) ×
        IsSpannedTemplate V.functions p u × (bare_stmt u ≡ t) }
    ensures expression { (p : Place) (t : Expr V.Contents) → IsExprTree V.functions p t →
        (u : spanned.Expr V.Contents) × IsSpannedExpr V.functions p u × (bare_expr u ≡ t) }
{}

/// A tree of tokens is well formed.
pub fn trees_are_well_formed<V: TemplateValue>()
    ensures template { (p : Place) (t : Stmt V.Contents (Unit {0})) →
        IsTemplateTree V.functions p t → IsWellFormed t }
    ensures expression { (p : Place) (t : Expr V.Contents) → IsExprTree V.functions p t →
        IsWhole t }
{}

/// Of the tokens that follow a part only the first counts.
pub fn only_what_follows_counts<V: TemplateValue>()
    ensures expression { (source : Text) (d : ℕ) (e : Expr V.Contents) →
        OnlyNextCounts (λ ts rest. IsExpr V.functions source d ts rest e) }
    ensures targets { (dotted : Bool) (d : ℕ) (e : Expr V.Contents) →
        OnlyNextCounts (λ ts rest. AreTargets dotted d ts rest e) }
    ensures statement { (source : Text) (c : Context) (d : ℕ) (x : Stmt V.Contents (Unit {0})) →
        OnlyNextCounts (λ ts rest. IsStmt V.functions source c d ts rest x) }
    ensures body { (source : Text) (c : Context) (w : Ends) (d : ℕ)
        (xs : Stmts V.Contents (Unit {0})) →
        OnlyNextCounts (λ ts rest. IsBody V.functions source c w d ts rest xs) }
{}

/// What is derived at a depth is derived at each greater one.
pub fn derivable_deeper<V: TemplateValue>()
    ensures expression { (source : Text) (e : Expr V.Contents) →
        IsOfGreaterDepth (λ d ts rest. IsExpr V.functions source d ts rest e) }
    ensures targets { (dotted : Bool) (e : Expr V.Contents) →
        IsOfGreaterDepth (λ d ts rest. AreTargets dotted d ts rest e) }
    ensures statement { (source : Text) (c : Context) (x : Stmt V.Contents (Unit {0})) →
        IsOfGreaterDepth (λ d ts rest. IsStmt V.functions source c d ts rest x) }
    ensures body { (source : Text) (c : Context) (w : Ends) (xs : Stmts V.Contents (Unit {0})) →
        IsOfGreaterDepth (λ d ts rest. IsBody V.functions source c w d ts rest xs) }
{}

/// Texts that have a tree, each statement among them.
pub fn derives<V: TemplateValue>()
    ensures expressions { ExprExamples V.functions }
    ensures statements { StmtExamples V.functions }
{}

/// Where the nodes of a few texts stand: equal variables and equal data each at their own tokens.
pub fn nodes_stand<V: TemplateValue>()
    ensures { PlaceExamples V.functions }
{}

/// Texts that have none.
pub fn refuses<V: TemplateValue>()
    ensures expressions { ExprRefusals V.functions }
    ensures statements { StmtRefusals V.functions }
{}

/// How long rows may be of parts that count.
pub fn rows_are_bounded<V: TemplateValue>()
    ensures expressions { ExprRows V.functions }
    ensures statements { StmtRows V.functions }
{}

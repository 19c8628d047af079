//! The laws of the definitions that the contracts of all layers use, and what one of them says of
//! compiled code.
ghost use Rattle.std.specs.Prelude.{◌≡◌, Bool, true, [], ◌∷◌, All, IfSome, codes, length, map};
ghost use Rattle.std.specs.Str.{IsUtf8};
ghost use Rattle.minijinja_syntax.specs.Syntax.{Syntax, default_syntax};
ghost use Rattle.minijinja_syntax.specs.Texts.{Text};
ghost use Rattle.minijinja_syntax.specs.declared.tokens.Span.{Span};
ghost use Rattle.minijinja_tree.specs.Erasure.{stmt_tree};
ghost use Rattle.minijinja_tree.specs.Standing.{Stands, StmtStands};
ghost use Rattle.minijinja_tree.specs.SpannedErasure.{expr_node, stmt_node};
ghost use Rattle.minijinja_tree.specs.Tree.{blocks};
ghost use Rattle.minijinja_tree.specs.declared.ast.Stmt.{Stmt};
ghost use Rattle.minijinja_tree_expr.specs.declared.ast.Expr.{Expr};
ghost use Rattle.minijinja_meta.specs.Mentions.{free, in_order, names_of, nested_names, plain_names, way};
ghost use Rattle.minijinja_meta.specs.Segments.{before_dot};
ghost use Rattle.minijinja_instructions.specs.InstructionLists.{Instructions, marks_of};
ghost use Rattle.minijinja_instructions.specs.Instructions.{code_of};
ghost use Rattle.minijinja_semantics.specs.Correct.{a_statement};
ghost use Rattle.minijinja_semantics.specs.Looks.{AreMarksOf, IsMarkOf, looks, stmt_looks, stmts_looks};
ghost use Rattle.minijinja_semantics.specs.Needs.{MacrosNeedOnly, RunsNeedOnly, made_in, undeclared};
ghost use Rattle.minijinja_semantics.specs.Pieces.{start};
ghost use Rattle.minijinja_semantics.specs.Units.{all_units, units};
ghost use Rattle.minijinja_code.specs.BlockLists.{list_of};
ghost use Rattle.minijinja_code.specs.BlockMarks.{marked_blocks};
ghost use Rattle.minijinja_parser.specs.Answers.{ExprHasPlacesAt, HasPlacesAt, IsTemplateOf};
ghost use Rattle.minijinja_parser.specs.Derived.{expr_place, template_place};
ghost use Rattle.minijinja_compiler.specs.Headline.{IsCompiled, IsCompiledExpr};
ghost use Rattle.minijinja_compiler.specs.Identifiers.{IsIdentifierOf};
ghost use Rattle.minijinja_compiler.specs.Utf8Delimiters.{HasUtf8Delimiters};
ghost use Rattle.minijinja_compiler.specs.declared.compile.Compiled.{Compiled};

pub use minijinja_grammar::laws::{
    derivable_deeper, derives, each_tree_has_places, nodes_stand, one_tree,
    only_what_follows_counts, places_are_unique, refuses, rows_are_bounded, trees_are_well_formed,
};
pub use minijinja_lexer::laws::{
    are_in_order, are_slices, columns_count_chars, expressions_stand_anywhere, one_cut,
    one_expression, some_cut, some_expression,
};
pub use minijinja_semantics::laws::{
    closures_are_enough, folded_is_constant, layout_does_what_is_meant, layout_leads_well,
    loops_have_no_bound, marks_are_of_nodes, names_are_not_looked_at, placed_tree_is_the_tree,
    units_are_enterable,
};
pub use minijinja_value::laws::{equality_is_an_equivalence, keys_are_distinct};
use minijinja_value::value::TemplateValue;

/// The plain names that [`find_undeclared`](crate::meta::find_undeclared) returns of a tree are
/// those that are undeclared in it, of which the law that closures are enough speaks.
pub fn plain_names_are_undeclared<V: TemplateValue>()
    ensures { (s : Stmt V V.Fault) → plain_names (way (stmt_node V.contents s)) ≡ undeclared
        (stmt_tree V.contents s) }
{}

/// The names that occur free in a parsed tree are those of identifiers of the text. Where the text
/// and the delimiters are UTF-8, as every `str` is, no identifier has a dot. So the first segments
/// of the nested names that [`find_undeclared`](crate::meta::find_undeclared) returns are the plain
/// ones, as texts too.
pub fn names_are_identifiers<V: TemplateValue>()
    ensures tokens { (syntax : Syntax) (source : Text) (s : Stmt V V.Fault) →
        IsTemplateOf V.functions V.contents syntax source s → All
        (IsIdentifierOf (template_place syntax source).tokens)
        (names_of (free (way (stmt_node V.contents s)))) }
    ensures texts { (syntax : Syntax) (source : Text) (s : Stmt V V.Fault) →
        IsUtf8 source → HasUtf8Delimiters syntax →
        IsTemplateOf V.functions V.contents syntax source s →
        in_order (map before_dot (nested_names (way (stmt_node V.contents s)))) ≡ plain_names
        (way (stmt_node V.contents s)) }
{}

/// Closures are enough for what is compiled. Whatever is answered, each name that a run of a
/// compiled template looks up, calls or encloses while it is not stored is undeclared in its tree,
/// or it is `self`. Where the run begins at what a macro runs, in the template or in the list of
/// one of its blocks, each such name is in the macro's closure. Aside stand a macro's own name
/// among those that it encloses, and the names that a from import looks up in its template. The
/// answers and the values in them are fewer than 2^64.
pub fn runs_need_only_closures<V: TemplateValue>()
    ensures template { (syntax : Syntax) (source filename : Text) (c : Compiled V V.Fault)
        (k : IsCompiled V.functions V.contents syntax source filename c) →
        RunsNeedOnly V.functions (code_of V.contents c.instructions)
        (a_statement 0 (length (code_of V.contents c.instructions)))
        (codes "self" ∷ undeclared k.tree) (made_in k.tree) }
    ensures macros { (syntax : Syntax) (source filename : Text) (c : Compiled V V.Fault)
        (k : IsCompiled V.functions V.contents syntax source filename c) →
        MacrosNeedOnly V.functions (code_of V.contents c.instructions)
        (units V.functions [] k.tree start) }
    ensures blocks { (syntax : Syntax) (source filename : Text) (c : Compiled V V.Fault)
        (k : IsCompiled V.functions V.contents syntax source filename c) →
        All (λ b. IfSome (list_of c.blocks b.name) (λ is. MacrosNeedOnly V.functions
        (code_of V.contents is) (all_units V.functions [] b.body start))) (blocks k.tree) }
{}

/// The nodes of what is compiled, from which its instructions have their lines and spans, are those
/// that `parse` returns of the text.
pub fn compiled_nodes_are_parsed<V: TemplateValue>()
    ensures template { (syntax : Syntax) (source filename : Text) (c : Compiled V V.Fault)
        (k : IsCompiled V.functions V.contents syntax source filename c) (s : Stmt V V.Fault) →
        HasPlacesAt V.functions V.contents (template_place syntax source) s →
        k.nodes ≡ stmt_node V.contents s }
    ensures expression { (source : Text) (c : Instructions V V.Fault)
        (k : IsCompiledExpr V.functions V.contents source c) (e : Expr V V.Fault) →
        ExprHasPlacesAt V.functions V.contents (expr_place default_syntax source) e →
        k.nodes ≡ expr_node V.contents e }
{}

/// The marks of what is compiled are those of its nodes. There is one for each instruction. The
/// instructions that look up a variable or write data are, in the order of the code, those of the
/// variables and data of the tree that have one: the line of each is the one on which its node
/// begins, and its span is none, that of the node, of a node round it, or of the call of a call
/// block round it. And a test that the spans of all nodes pass is passed by each span of the marks,
/// and by a span that begins on the line of each. It is so in the list of each block, and in that
/// of an expression.
pub fn compiled_marks_are_of_nodes<V: TemplateValue>()
    ensures template { (syntax : Syntax) (source filename : Text) (c : Compiled V V.Fault)
        (k : IsCompiled V.functions V.contents syntax source filename c) →
        AreMarksOf (code_of V.contents c.instructions) (marks_of c.instructions)
        (stmt_looks V.functions [] k.nodes) }
    ensures blocks { (syntax : Syntax) (source filename : Text) (c : Compiled V V.Fault)
        (k : IsCompiled V.functions V.contents syntax source filename c) →
        All (λ b. IfSome (list_of c.blocks b.name) (λ is. AreMarksOf (code_of V.contents is)
        (marks_of is) (stmts_looks V.functions [] b.body))) (marked_blocks k.nodes) }
    ensures expression { (source : Text) (c : Instructions V V.Fault)
        (k : IsCompiledExpr V.functions V.contents source c) →
        AreMarksOf (code_of V.contents c) (marks_of c) (looks V.functions [] k.nodes) }
    ensures each_of_template { (syntax : Syntax) (source filename : Text) (c : Compiled V V.Fault)
        (k : IsCompiled V.functions V.contents syntax source filename c) (p : Span → Bool) →
        StmtStands (λ t. p t.1 ≡ true) (λ s. p s ≡ true) k.nodes →
        All (IsMarkOf (λ s. p s ≡ true)) (marks_of c.instructions) }
    ensures each_of_blocks { (syntax : Syntax) (source filename : Text) (c : Compiled V V.Fault)
        (k : IsCompiled V.functions V.contents syntax source filename c) (p : Span → Bool) →
        StmtStands (λ t. p t.1 ≡ true) (λ s. p s ≡ true) k.nodes → All (λ b. IfSome
        (list_of c.blocks b.name) (λ is. All (IsMarkOf (λ s. p s ≡ true)) (marks_of is)))
        (marked_blocks k.nodes) }
    ensures each_of_expression { (source : Text) (c : Instructions V V.Fault)
        (k : IsCompiledExpr V.functions V.contents source c) (p : Span → Bool) → Stands
        (λ t. p t.1 ≡ true) (λ s. p s ≡ true) k.nodes →
        All (IsMarkOf (λ s. p s ≡ true)) (marks_of c) }
{}

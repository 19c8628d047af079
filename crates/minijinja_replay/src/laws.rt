//! Laws about the runs of compiled code: each is over in time, and goes as its tree means.
ghost use Rattle.std.specs.Prelude.{◌≡◌, ℕ, [], ◌∷◌, All, Bool, List, length};
ghost use Rattle.minijinja_tree.specs.Tree.{Expr, Parameter, Stmt, Stmts, blocks};
ghost use Rattle.minijinja_tree.specs.WellFormed.{IsWellFormed};
ghost use Rattle.minijinja_semantics.specs.Answers.{AreFew};
ghost use Rattle.minijinja_semantics.specs.Code.{Instr};
ghost use Rattle.minijinja_semantics.specs.Correct as Correct;
ghost use Rattle.minijinja_semantics.specs.Correct.{DoesExpr, DoesFrom, DoesStmt};
ghost use Rattle.minijinja_semantics.specs.Events.{Answer, Did, Event};
ghost use Rattle.minijinja_semantics.specs.Layout.{block_code, stmt_code};
ghost use Rattle.minijinja_semantics.specs.Pieces.{start};
ghost use Rattle.minijinja_semantics.specs.Places.{Extent};
ghost use Rattle.minijinja_semantics.specs.Units.{DoUnits, DoesBlock, DoesUnit, MacroBody, RecursiveLoop, all_units, units};
ghost use Rattle.minijinja_replay.specs.Meant.{IsMeant};
ghost use Rattle.minijinja_replay.specs.Replay.{EndsInTime, EndsWhereItLeads, IsRun, UnitEndsInTime, finish_of, place_of};
ghost use Rattle.minijinja_replay.specs.declared.replay.Entry.TheVariants as entry;
ghost use Rattle.minijinja_replay.specs.declared.replay.Entry as Entries;
ghost use Rattle.minijinja_replay.specs.declared.replay.Run.{Run};

use minijinja_value::value::TemplateValue;

/// Code that does what a tree means is over in time, whatever is answered, if the answers and the
/// values in them are fewer than 2^64. So it may be replayed: the code of a template, the list of a
/// block and the code of an expression from their start, what a macro runs with a value for each
/// parameter, and a recursive loop with the value that it goes over. Of the loop it takes that its
/// code goes on at its end where no item is left, as [`loops_end_where_they_lead`] says.
pub fn compiled_code_ends<V: TemplateValue, X, L>()
    ensures unit { (code : List (Instr V.Contents)) (u : Correct.Entry V.Contents X)
        (meaning : Did (Event ℕ V.Contents) V.Contents V.FaultContents X)
        (answers : List (Answer V.Contents)) (e : Entries.Entry) →
        DoesFrom V.functions code u meaning [] [] answers → place_of e ≡ u.place →
        finish_of code e ≡ u.finish → EndsInTime V.functions code e u.given answers }
    ensures statement { (code : List (Instr V.Contents)) (t : Stmt V.Contents ℕ)
        (answers : List (Answer V.Contents)) → AreFew answers →
        DoesStmt V.functions code 0 (length code) t →
        EndsInTime V.functions code entry.Start [] answers }
    ensures block { (code : List (Instr V.Contents)) (body : Stmts V.Contents L)
        (answers : List (Answer V.Contents)) → AreFew answers →
        DoesBlock V.functions code body →
        EndsInTime V.functions code entry.Start [] answers }
    ensures expression { (code : List (Instr V.Contents)) (x : Expr V.Contents)
        (answers : List (Answer V.Contents)) → AreFew answers →
        DoesExpr V.functions code 0 (length code) x →
        EndsInTime V.functions code entry.Start [] answers }
    ensures macro_body { (code : List (Instr V.Contents)) (x : Extent)
        (parameters : List (Parameter V.Contents)) (body : Stmts V.Contents Extent)
        (values : List V.Contents) (answers : List (Answer V.Contents)) → AreFew answers →
        DoesUnit V.functions code (MacroBody x parameters body) →
        length values ≡ length parameters →
        EndsInTime V.functions code (entry.Macro x.begin) values answers }
    ensures recursive_loop { (code : List (Instr V.Contents)) (x : Extent)
        (target : Expr V.Contents) (body : Stmts V.Contents Extent) (has_else : Bool)
        (value : V.Contents) (answers : List (Answer V.Contents)) → AreFew answers →
        DoesUnit V.functions code (RecursiveLoop x target body has_else) →
        EndsWhereItLeads code (RecursiveLoop x target body has_else) →
        EndsInTime V.functions code (entry.Loop x.begin) (value ∷ []) answers }
{}

/// Whatever is answered, each macro body and each recursive loop of a compiled template is over in
/// time, in the code of the template or in the list of the block in which it stands, if the answers
/// and the values in them are fewer than 2^64.
pub fn units_end_in_time<V: TemplateValue, L>()
    ensures template { (t : Stmt V.Contents L) (code : List (Instr V.Contents))
        (answers : List (Answer V.Contents)) → IsWellFormed t → AreFew answers →
        code ≡ stmt_code V.functions t start → DoUnits V.functions code t start →
        All (UnitEndsInTime V.functions code answers) (units V.functions [] t start) }
    ensures blocks { (t : Stmt V.Contents L) (answers : List (Answer V.Contents)) →
        IsWellFormed t → AreFew answers → All (λ b. (code : List (Instr V.Contents)) →
        code ≡ block_code V.functions b.body → DoesBlock V.functions code b.body →
        All (UnitEndsInTime V.functions code answers) (all_units V.functions [] b.body start))
        (blocks t) }
{}

/// The code of each recursive loop asks for its first item right behind its start, and goes on
/// where the loop ends when none is left. This holds in the code of a template and in the lists of
/// its blocks.
pub fn loops_end_where_they_lead<V: TemplateValue, L>()
    ensures template { (t : Stmt V.Contents L) → IsWellFormed t →
        All (EndsWhereItLeads (stmt_code V.functions t start)) (units V.functions [] t start) }
    ensures blocks { (t : Stmt V.Contents L) → IsWellFormed t →
        All (λ b. All (EndsWhereItLeads (block_code V.functions b.body))
        (all_units V.functions [] b.body start)) (blocks t) }
{}

/// A run of code that does what a tree means goes as the tree means: it has the events of the
/// meaning, with the same operands and answers in the same order, ends as the meaning ends, and
/// where it finishes leaves the operands that the meaning leaves.
pub fn runs_go_as_meant<V: TemplateValue, X>()
    ensures { (code : List (Instr V.Contents)) (u : Correct.Entry V.Contents X)
        (meaning : Did (Event ℕ V.Contents) V.Contents V.FaultContents X)
        (answers : List (Answer V.Contents)) (e : Entries.Entry) (r : Run V V.Fault) →
        DoesFrom V.functions code u meaning [] [] answers → place_of e ≡ u.place →
        finish_of code e ≡ u.finish →
        IsRun V.functions V.contents V.fault_contents code e u.given answers r →
        IsMeant V.contents V.fault_contents code u.leaves meaning answers r }
{}

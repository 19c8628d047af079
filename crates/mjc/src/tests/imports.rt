//! Statements that join templates: `include`, `import` and `from`.
//!
//! Unless a test says otherwise, its rows are the upstream program's.
use super::Code;
use super::statements::RefusedSomewhere;
use minijinja_test_rows::rows::hold;
use std::test::Fail;

#[test]
fn includes(rt: HostRuntime) -> Result<(), Fail> {
    let rows = r#"
{% include 'a' ignore missing %} => 0 LoadConst("a")␊1 Include(true)␊hint 1␊
{% include 'a' %} => 0 LoadConst("a")␊1 Include(false)␊hint 1␊
{% include a with context %} => 0 Lookup("a")␊1 Include(false)␊hint 1␊
{% include a without context ignore missing %} => 0 Lookup("a")␊1 Include(true)␊hint 1␊
{% include a ignore missing with context %} => 0 Lookup("a")␊1 Include(true)␊hint 1␊
{% include ['a', b ~ '.html'] ignore missing %} => 0 LoadConst("a")␊1 Lookup("b")␊2 LoadConst(".html")␊3 StringConcat␊4 BuildList(2)␊5 Include(true)␊hint 1␊
{% include a if b else c %} => 0 Lookup("b")␊1 JumpIfFalse(4)␊2 Lookup("a")␊3 Jump(5)␊4 Lookup("c")␊5 Include(false)␊hint 1␊
{% include a if b %} => 0 Lookup("b")␊1 JumpIfFalse(4)␊2 Lookup("a")␊3 Jump(5)␊4 LoadConst(silent)␊5 Include(false)␊hint 1␊
"#;
    hold::<Code>(rt.alloc(), rows)
}

/// The upstream program's rows, except for the `DiscardTop` that drops what is captured.
#[test]
fn imports(rt: HostRuntime) -> Result<(), Fail> {
    let rows = r#"
{% import 'a' as m %} => 0 BeginCapture(Capture)␊1 PushWith␊2 LoadConst("a")␊3 Include(false)␊4 EndCapture␊5 DiscardTop␊6 ExportLocals␊7 PopFrame␊8 StoreLocal("m")␊hint 1␊
{% import 'a' as m with context %} => 0 BeginCapture(Capture)␊1 PushWith␊2 LoadConst("a")␊3 Include(false)␊4 EndCapture␊5 DiscardTop␊6 ExportLocals␊7 PopFrame␊8 StoreLocal("m")␊hint 1␊
{% import a.b as m.n without context %} => 0 BeginCapture(Capture)␊1 PushWith␊2 Lookup("a")␊3 GetAttr("b")␊4 Include(false)␊5 EndCapture␊6 DiscardTop␊7 ExportLocals␊8 PopFrame␊9 Lookup("m")␊10 SetAttr("n")␊hint 1␊
{% import 'a' as [a, b.c] %} => 0 BeginCapture(Capture)␊1 PushWith␊2 LoadConst("a")␊3 Include(false)␊4 EndCapture␊5 DiscardTop␊6 ExportLocals␊7 PopFrame␊8 UnpackList(2)␊9 StoreLocal("a")␊10 Lookup("b")␊11 SetAttr("c")␊hint 1␊
{% import 'a' as (m) %} => 0 BeginCapture(Capture)␊1 PushWith␊2 LoadConst("a")␊3 Include(false)␊4 EndCapture␊5 DiscardTop␊6 ExportLocals␊7 PopFrame␊8 StoreLocal("m")␊hint 1␊
{% import 'a' as loop %} => 0 BeginCapture(Capture)␊1 PushWith␊2 LoadConst("a")␊3 Include(false)␊4 EndCapture␊5 DiscardTop␊6 ExportLocals␊7 PopFrame␊8 StoreLocal("loop")␊hint 1␊
{% import a if b else c as m %} => 0 BeginCapture(Capture)␊1 PushWith␊2 Lookup("b")␊3 JumpIfFalse(6)␊4 Lookup("a")␊5 Jump(7)␊6 Lookup("c")␊7 Include(false)␊8 EndCapture␊9 DiscardTop␊10 ExportLocals␊11 PopFrame␊12 StoreLocal("m")␊hint 1␊
{% from 'a' import x as y, z %} => 0 BeginCapture(Discard)␊1 PushWith␊2 LoadConst("a")␊3 Include(false)␊4 Lookup("x")␊5 Lookup("z")␊6 PopFrame␊7 StoreLocal("z")␊8 StoreLocal("y")␊9 EndCapture␊10 DiscardTop␊hint 1␊
{% from 'a' import x as _x %} => 0 BeginCapture(Discard)␊1 PushWith␊2 LoadConst("a")␊3 Include(false)␊4 Lookup("x")␊5 PopFrame␊6 StoreLocal("_x")␊7 EndCapture␊8 DiscardTop␊hint 1␊
{% from 'a' import %} => 0 BeginCapture(Discard)␊1 PushWith␊2 LoadConst("a")␊3 Include(false)␊4 PopFrame␊5 EndCapture␊6 DiscardTop␊hint 1␊
{% from 'a' import with context %} => 0 BeginCapture(Discard)␊1 PushWith␊2 LoadConst("a")␊3 Include(false)␊4 PopFrame␊5 EndCapture␊6 DiscardTop␊hint 1␊
{% from 'a' import x, %} => 0 BeginCapture(Discard)␊1 PushWith␊2 LoadConst("a")␊3 Include(false)␊4 Lookup("x")␊5 PopFrame␊6 StoreLocal("x")␊7 EndCapture␊8 DiscardTop␊hint 1␊
{% from 'a' import x, without context %} => 0 BeginCapture(Discard)␊1 PushWith␊2 LoadConst("a")␊3 Include(false)␊4 Lookup("x")␊5 PopFrame␊6 StoreLocal("x")␊7 EndCapture␊8 DiscardTop␊hint 1␊
{% from a.b import x with context %} => 0 BeginCapture(Discard)␊1 PushWith␊2 Lookup("a")␊3 GetAttr("b")␊4 Include(false)␊5 Lookup("x")␊6 PopFrame␊7 StoreLocal("x")␊8 EndCapture␊9 DiscardTop␊hint 1␊
{% from 'a' import as as in %} => 0 BeginCapture(Discard)␊1 PushWith␊2 LoadConst("a")␊3 Include(false)␊4 Lookup("as")␊5 PopFrame␊6 StoreLocal("in")␊7 EndCapture␊8 DiscardTop␊hint 1␊
{% from 'a' import x, x as x %} => 0 BeginCapture(Discard)␊1 PushWith␊2 LoadConst("a")␊3 Include(false)␊4 Lookup("x")␊5 Lookup("x")␊6 PopFrame␊7 StoreLocal("x")␊8 StoreLocal("x")␊9 EndCapture␊10 DiscardTop␊hint 1␊
"#;
    hold::<Code>(rt.alloc(), rows)
}

/// `extends` and `include` in each statement.
#[test]
fn templates_in_each_statement(rt: HostRuntime) -> Result<(), Fail> {
    let rows = r#"
{% for x in y %}{% extends 'p' %}{% endfor %} => 0 Lookup("y")␊1 PushLoop(1)␊2 Iterate(7)␊3 StoreLocal("x")␊4 LoadConst("p")␊5 LoadBlocks␊6 Jump(2)␊7 PopLoopFrame␊hint 1␊
{% for x in y %}a{% else %}{% extends 'p' %}{% endfor %} => 0 Lookup("y")␊1 PushLoop(1)␊2 Iterate(6)␊3 StoreLocal("x")␊4 EmitRaw("a")␊5 Jump(2)␊6 PushDidNotIterate␊7 PopLoopFrame␊8 JumpIfFalse(11)␊9 LoadConst("p")␊10 LoadBlocks␊hint 2␊
{% if c %}{% extends 'p' %}{% endif %} => 0 Lookup("c")␊1 JumpIfFalse(4)␊2 LoadConst("p")␊3 LoadBlocks␊hint 1␊
{% if c %}a{% else %}{% extends 'p' %}{% endif %} => 0 Lookup("c")␊1 JumpIfFalse(4)␊2 EmitRaw("a")␊3 Jump(6)␊4 LoadConst("p")␊5 LoadBlocks␊hint 2␊
{% if c %}a{% elif d %}{% extends 'p' %}{% else %}e{% endif %} => 0 Lookup("c")␊1 JumpIfFalse(4)␊2 EmitRaw("a")␊3 Jump(10)␊4 Lookup("d")␊5 JumpIfFalse(9)␊6 LoadConst("p")␊7 LoadBlocks␊8 Jump(10)␊9 EmitRaw("e")␊hint 4␊
{% with a = 1 %}{% extends 'p' %}{% endwith %} => 0 PushWith␊1 LoadConst(1)␊2 StoreLocal("a")␊3 LoadConst("p")␊4 LoadBlocks␊5 PopFrame␊hint 1␊
{% set s | f %}{% extends 'p' %}{% endset %} => 0 BeginCapture(Capture)␊1 LoadConst("p")␊2 LoadBlocks␊3 EndCapture␊4 ApplyFilter("f", 1, 0)␊5 StoreLocal("s")␊hint 1␊
{% filter f(x) %}{% extends 'p' %}{% endfilter %} => 0 BeginCapture(Capture)␊1 LoadConst("p")␊2 LoadBlocks␊3 EndCapture␊4 Lookup("x")␊5 ApplyFilter("f", 2, 0)␊6 Emit␊hint 1␊
{% autoescape z %}{% extends 'p' %}{% endautoescape %} => 0 Lookup("z")␊1 PushAutoEscape␊2 LoadConst("p")␊3 LoadBlocks␊4 PopAutoEscape␊hint 1␊
{% block b %}{% extends 'p' %}{% endblock %} => 0 CallBlock("b")␊block b␊0 LoadConst("p")␊1 LoadBlocks␊hint 1␊
{% macro m(a, b=c) %}{% extends 'p' %}{% endmacro %} => 0 Jump(11)␊1 DupTop␊2 IsUndefined␊3 JumpIfFalse(6)␊4 DiscardTop␊5 Lookup("c")␊6 StoreLocal("b")␊7 StoreLocal("a")␊8 LoadConst("p")␊9 LoadBlocks␊10 Return␊11 Enclose("c")␊12 GetClosure␊13 LoadConst(["a", "b"])␊14 BuildMacro("m", 1, 0)␊15 StoreLocal("m")␊hint 1␊
{% call(a, b=c) f(x) %}{% extends 'p' %}{% endcall %} => 0 Lookup("x")␊1 LoadConst("caller")␊2 Jump(13)␊3 DupTop␊4 IsUndefined␊5 JumpIfFalse(8)␊6 DiscardTop␊7 Lookup("c")␊8 StoreLocal("b")␊9 StoreLocal("a")␊10 LoadConst("p")␊11 LoadBlocks␊12 Return␊13 Enclose("c")␊14 GetClosure␊15 LoadConst(["a", "b"])␊16 BuildMacro("caller", 3, 0)␊17 BuildKwargs(1)␊18 CallFunction("f", 2)␊19 Emit␊hint 1␊
{% for x in y %}{% include 'p' ignore missing %}{% endfor %} => 0 Lookup("y")␊1 PushLoop(1)␊2 Iterate(7)␊3 StoreLocal("x")␊4 LoadConst("p")␊5 Include(true)␊6 Jump(2)␊7 PopLoopFrame␊hint 1␊
{% for x in y %}a{% else %}{% include 'p' ignore missing %}{% endfor %} => 0 Lookup("y")␊1 PushLoop(1)␊2 Iterate(6)␊3 StoreLocal("x")␊4 EmitRaw("a")␊5 Jump(2)␊6 PushDidNotIterate␊7 PopLoopFrame␊8 JumpIfFalse(11)␊9 LoadConst("p")␊10 Include(true)␊hint 2␊
{% if c %}{% include 'p' ignore missing %}{% endif %} => 0 Lookup("c")␊1 JumpIfFalse(4)␊2 LoadConst("p")␊3 Include(true)␊hint 1␊
{% if c %}a{% else %}{% include 'p' ignore missing %}{% endif %} => 0 Lookup("c")␊1 JumpIfFalse(4)␊2 EmitRaw("a")␊3 Jump(6)␊4 LoadConst("p")␊5 Include(true)␊hint 2␊
{% if c %}a{% elif d %}{% include 'p' ignore missing %}{% else %}e{% endif %} => 0 Lookup("c")␊1 JumpIfFalse(4)␊2 EmitRaw("a")␊3 Jump(10)␊4 Lookup("d")␊5 JumpIfFalse(9)␊6 LoadConst("p")␊7 Include(true)␊8 Jump(10)␊9 EmitRaw("e")␊hint 4␊
{% with a = 1 %}{% include 'p' ignore missing %}{% endwith %} => 0 PushWith␊1 LoadConst(1)␊2 StoreLocal("a")␊3 LoadConst("p")␊4 Include(true)␊5 PopFrame␊hint 1␊
{% set s | f %}{% include 'p' ignore missing %}{% endset %} => 0 BeginCapture(Capture)␊1 LoadConst("p")␊2 Include(true)␊3 EndCapture␊4 ApplyFilter("f", 1, 0)␊5 StoreLocal("s")␊hint 1␊
{% filter f(x) %}{% include 'p' ignore missing %}{% endfilter %} => 0 BeginCapture(Capture)␊1 LoadConst("p")␊2 Include(true)␊3 EndCapture␊4 Lookup("x")␊5 ApplyFilter("f", 2, 0)␊6 Emit␊hint 1␊
{% autoescape z %}{% include 'p' ignore missing %}{% endautoescape %} => 0 Lookup("z")␊1 PushAutoEscape␊2 LoadConst("p")␊3 Include(true)␊4 PopAutoEscape␊hint 1␊
{% block b %}{% include 'p' ignore missing %}{% endblock %} => 0 CallBlock("b")␊block b␊0 LoadConst("p")␊1 Include(true)␊hint 1␊
{% macro m(a, b=c) %}{% include 'p' ignore missing %}{% endmacro %} => 0 Jump(11)␊1 DupTop␊2 IsUndefined␊3 JumpIfFalse(6)␊4 DiscardTop␊5 Lookup("c")␊6 StoreLocal("b")␊7 StoreLocal("a")␊8 LoadConst("p")␊9 Include(true)␊10 Return␊11 Enclose("c")␊12 GetClosure␊13 LoadConst(["a", "b"])␊14 BuildMacro("m", 1, 0)␊15 StoreLocal("m")␊hint 1␊
{% call(a, b=c) f(x) %}{% include 'p' ignore missing %}{% endcall %} => 0 Lookup("x")␊1 LoadConst("caller")␊2 Jump(13)␊3 DupTop␊4 IsUndefined␊5 JumpIfFalse(8)␊6 DiscardTop␊7 Lookup("c")␊8 StoreLocal("b")␊9 StoreLocal("a")␊10 LoadConst("p")␊11 Include(true)␊12 Return␊13 Enclose("c")␊14 GetClosure␊15 LoadConst(["a", "b"])␊16 BuildMacro("caller", 3, 0)␊17 BuildKwargs(1)␊18 CallFunction("f", 2)␊19 Emit␊hint 1␊
"#;
    hold::<Code>(rt.alloc(), rows)
}

/// `import` and `from` in each statement: the upstream program's, except for the `DiscardTop` that
/// drops what is captured.
#[test]
fn imports_in_each_statement(rt: HostRuntime) -> Result<(), Fail> {
    let rows = r#"
{% for x in y %}{% import 'p' as i %}{% endfor %} => 0 Lookup("y")␊1 PushLoop(1)␊2 Iterate(14)␊3 StoreLocal("x")␊4 BeginCapture(Capture)␊5 PushWith␊6 LoadConst("p")␊7 Include(false)␊8 EndCapture␊9 DiscardTop␊10 ExportLocals␊11 PopFrame␊12 StoreLocal("i")␊13 Jump(2)␊14 PopLoopFrame␊hint 1␊
{% for x in y %}a{% else %}{% import 'p' as i %}{% endfor %} => 0 Lookup("y")␊1 PushLoop(1)␊2 Iterate(6)␊3 StoreLocal("x")␊4 EmitRaw("a")␊5 Jump(2)␊6 PushDidNotIterate␊7 PopLoopFrame␊8 JumpIfFalse(18)␊9 BeginCapture(Capture)␊10 PushWith␊11 LoadConst("p")␊12 Include(false)␊13 EndCapture␊14 DiscardTop␊15 ExportLocals␊16 PopFrame␊17 StoreLocal("i")␊hint 2␊
{% if c %}{% import 'p' as i %}{% endif %} => 0 Lookup("c")␊1 JumpIfFalse(11)␊2 BeginCapture(Capture)␊3 PushWith␊4 LoadConst("p")␊5 Include(false)␊6 EndCapture␊7 DiscardTop␊8 ExportLocals␊9 PopFrame␊10 StoreLocal("i")␊hint 1␊
{% if c %}a{% else %}{% import 'p' as i %}{% endif %} => 0 Lookup("c")␊1 JumpIfFalse(4)␊2 EmitRaw("a")␊3 Jump(13)␊4 BeginCapture(Capture)␊5 PushWith␊6 LoadConst("p")␊7 Include(false)␊8 EndCapture␊9 DiscardTop␊10 ExportLocals␊11 PopFrame␊12 StoreLocal("i")␊hint 2␊
{% if c %}a{% elif d %}{% import 'p' as i %}{% else %}e{% endif %} => 0 Lookup("c")␊1 JumpIfFalse(4)␊2 EmitRaw("a")␊3 Jump(17)␊4 Lookup("d")␊5 JumpIfFalse(16)␊6 BeginCapture(Capture)␊7 PushWith␊8 LoadConst("p")␊9 Include(false)␊10 EndCapture␊11 DiscardTop␊12 ExportLocals␊13 PopFrame␊14 StoreLocal("i")␊15 Jump(17)␊16 EmitRaw("e")␊hint 4␊
{% with a = 1 %}{% import 'p' as i %}{% endwith %} => 0 PushWith␊1 LoadConst(1)␊2 StoreLocal("a")␊3 BeginCapture(Capture)␊4 PushWith␊5 LoadConst("p")␊6 Include(false)␊7 EndCapture␊8 DiscardTop␊9 ExportLocals␊10 PopFrame␊11 StoreLocal("i")␊12 PopFrame␊hint 1␊
{% set s | f %}{% import 'p' as i %}{% endset %} => 0 BeginCapture(Capture)␊1 BeginCapture(Capture)␊2 PushWith␊3 LoadConst("p")␊4 Include(false)␊5 EndCapture␊6 DiscardTop␊7 ExportLocals␊8 PopFrame␊9 StoreLocal("i")␊10 EndCapture␊11 ApplyFilter("f", 1, 0)␊12 StoreLocal("s")␊hint 1␊
{% filter f(x) %}{% import 'p' as i %}{% endfilter %} => 0 BeginCapture(Capture)␊1 BeginCapture(Capture)␊2 PushWith␊3 LoadConst("p")␊4 Include(false)␊5 EndCapture␊6 DiscardTop␊7 ExportLocals␊8 PopFrame␊9 StoreLocal("i")␊10 EndCapture␊11 Lookup("x")␊12 ApplyFilter("f", 2, 0)␊13 Emit␊hint 1␊
{% autoescape z %}{% import 'p' as i %}{% endautoescape %} => 0 Lookup("z")␊1 PushAutoEscape␊2 BeginCapture(Capture)␊3 PushWith␊4 LoadConst("p")␊5 Include(false)␊6 EndCapture␊7 DiscardTop␊8 ExportLocals␊9 PopFrame␊10 StoreLocal("i")␊11 PopAutoEscape␊hint 1␊
{% block b %}{% import 'p' as i %}{% endblock %} => 0 CallBlock("b")␊block b␊0 BeginCapture(Capture)␊1 PushWith␊2 LoadConst("p")␊3 Include(false)␊4 EndCapture␊5 DiscardTop␊6 ExportLocals␊7 PopFrame␊8 StoreLocal("i")␊hint 1␊
{% macro m(a, b=c) %}{% import 'p' as i %}{% endmacro %} => 0 Jump(18)␊1 DupTop␊2 IsUndefined␊3 JumpIfFalse(6)␊4 DiscardTop␊5 Lookup("c")␊6 StoreLocal("b")␊7 StoreLocal("a")␊8 BeginCapture(Capture)␊9 PushWith␊10 LoadConst("p")␊11 Include(false)␊12 EndCapture␊13 DiscardTop␊14 ExportLocals␊15 PopFrame␊16 StoreLocal("i")␊17 Return␊18 Enclose("c")␊19 GetClosure␊20 LoadConst(["a", "b"])␊21 BuildMacro("m", 1, 0)␊22 StoreLocal("m")␊hint 1␊
{% call(a, b=c) f(x) %}{% import 'p' as i %}{% endcall %} => 0 Lookup("x")␊1 LoadConst("caller")␊2 Jump(20)␊3 DupTop␊4 IsUndefined␊5 JumpIfFalse(8)␊6 DiscardTop␊7 Lookup("c")␊8 StoreLocal("b")␊9 StoreLocal("a")␊10 BeginCapture(Capture)␊11 PushWith␊12 LoadConst("p")␊13 Include(false)␊14 EndCapture␊15 DiscardTop␊16 ExportLocals␊17 PopFrame␊18 StoreLocal("i")␊19 Return␊20 Enclose("c")␊21 GetClosure␊22 LoadConst(["a", "b"])␊23 BuildMacro("caller", 3, 0)␊24 BuildKwargs(1)␊25 CallFunction("f", 2)␊26 Emit␊hint 1␊
{% for x in y %}{% from 'p' import g, h as k %}{% endfor %} => 0 Lookup("y")␊1 PushLoop(1)␊2 Iterate(16)␊3 StoreLocal("x")␊4 BeginCapture(Discard)␊5 PushWith␊6 LoadConst("p")␊7 Include(false)␊8 Lookup("g")␊9 Lookup("h")␊10 PopFrame␊11 StoreLocal("k")␊12 StoreLocal("g")␊13 EndCapture␊14 DiscardTop␊15 Jump(2)␊16 PopLoopFrame␊hint 1␊
{% for x in y %}a{% else %}{% from 'p' import g, h as k %}{% endfor %} => 0 Lookup("y")␊1 PushLoop(1)␊2 Iterate(6)␊3 StoreLocal("x")␊4 EmitRaw("a")␊5 Jump(2)␊6 PushDidNotIterate␊7 PopLoopFrame␊8 JumpIfFalse(20)␊9 BeginCapture(Discard)␊10 PushWith␊11 LoadConst("p")␊12 Include(false)␊13 Lookup("g")␊14 Lookup("h")␊15 PopFrame␊16 StoreLocal("k")␊17 StoreLocal("g")␊18 EndCapture␊19 DiscardTop␊hint 2␊
{% if c %}{% from 'p' import g, h as k %}{% endif %} => 0 Lookup("c")␊1 JumpIfFalse(13)␊2 BeginCapture(Discard)␊3 PushWith␊4 LoadConst("p")␊5 Include(false)␊6 Lookup("g")␊7 Lookup("h")␊8 PopFrame␊9 StoreLocal("k")␊10 StoreLocal("g")␊11 EndCapture␊12 DiscardTop␊hint 1␊
{% if c %}a{% else %}{% from 'p' import g, h as k %}{% endif %} => 0 Lookup("c")␊1 JumpIfFalse(4)␊2 EmitRaw("a")␊3 Jump(15)␊4 BeginCapture(Discard)␊5 PushWith␊6 LoadConst("p")␊7 Include(false)␊8 Lookup("g")␊9 Lookup("h")␊10 PopFrame␊11 StoreLocal("k")␊12 StoreLocal("g")␊13 EndCapture␊14 DiscardTop␊hint 2␊
{% if c %}a{% elif d %}{% from 'p' import g, h as k %}{% else %}e{% endif %} => 0 Lookup("c")␊1 JumpIfFalse(4)␊2 EmitRaw("a")␊3 Jump(19)␊4 Lookup("d")␊5 JumpIfFalse(18)␊6 BeginCapture(Discard)␊7 PushWith␊8 LoadConst("p")␊9 Include(false)␊10 Lookup("g")␊11 Lookup("h")␊12 PopFrame␊13 StoreLocal("k")␊14 StoreLocal("g")␊15 EndCapture␊16 DiscardTop␊17 Jump(19)␊18 EmitRaw("e")␊hint 4␊
{% with a = 1 %}{% from 'p' import g, h as k %}{% endwith %} => 0 PushWith␊1 LoadConst(1)␊2 StoreLocal("a")␊3 BeginCapture(Discard)␊4 PushWith␊5 LoadConst("p")␊6 Include(false)␊7 Lookup("g")␊8 Lookup("h")␊9 PopFrame␊10 StoreLocal("k")␊11 StoreLocal("g")␊12 EndCapture␊13 DiscardTop␊14 PopFrame␊hint 1␊
{% set s | f %}{% from 'p' import g, h as k %}{% endset %} => 0 BeginCapture(Capture)␊1 BeginCapture(Discard)␊2 PushWith␊3 LoadConst("p")␊4 Include(false)␊5 Lookup("g")␊6 Lookup("h")␊7 PopFrame␊8 StoreLocal("k")␊9 StoreLocal("g")␊10 EndCapture␊11 DiscardTop␊12 EndCapture␊13 ApplyFilter("f", 1, 0)␊14 StoreLocal("s")␊hint 1␊
{% filter f(x) %}{% from 'p' import g, h as k %}{% endfilter %} => 0 BeginCapture(Capture)␊1 BeginCapture(Discard)␊2 PushWith␊3 LoadConst("p")␊4 Include(false)␊5 Lookup("g")␊6 Lookup("h")␊7 PopFrame␊8 StoreLocal("k")␊9 StoreLocal("g")␊10 EndCapture␊11 DiscardTop␊12 EndCapture␊13 Lookup("x")␊14 ApplyFilter("f", 2, 0)␊15 Emit␊hint 1␊
{% autoescape z %}{% from 'p' import g, h as k %}{% endautoescape %} => 0 Lookup("z")␊1 PushAutoEscape␊2 BeginCapture(Discard)␊3 PushWith␊4 LoadConst("p")␊5 Include(false)␊6 Lookup("g")␊7 Lookup("h")␊8 PopFrame␊9 StoreLocal("k")␊10 StoreLocal("g")␊11 EndCapture␊12 DiscardTop␊13 PopAutoEscape␊hint 1␊
{% block b %}{% from 'p' import g, h as k %}{% endblock %} => 0 CallBlock("b")␊block b␊0 BeginCapture(Discard)␊1 PushWith␊2 LoadConst("p")␊3 Include(false)␊4 Lookup("g")␊5 Lookup("h")␊6 PopFrame␊7 StoreLocal("k")␊8 StoreLocal("g")␊9 EndCapture␊10 DiscardTop␊hint 1␊
{% macro m(a, b=c) %}{% from 'p' import g, h as k %}{% endmacro %} => 0 Jump(20)␊1 DupTop␊2 IsUndefined␊3 JumpIfFalse(6)␊4 DiscardTop␊5 Lookup("c")␊6 StoreLocal("b")␊7 StoreLocal("a")␊8 BeginCapture(Discard)␊9 PushWith␊10 LoadConst("p")␊11 Include(false)␊12 Lookup("g")␊13 Lookup("h")␊14 PopFrame␊15 StoreLocal("k")␊16 StoreLocal("g")␊17 EndCapture␊18 DiscardTop␊19 Return␊20 Enclose("c")␊21 GetClosure␊22 LoadConst(["a", "b"])␊23 BuildMacro("m", 1, 0)␊24 StoreLocal("m")␊hint 1␊
{% call(a, b=c) f(x) %}{% from 'p' import g, h as k %}{% endcall %} => 0 Lookup("x")␊1 LoadConst("caller")␊2 Jump(22)␊3 DupTop␊4 IsUndefined␊5 JumpIfFalse(8)␊6 DiscardTop␊7 Lookup("c")␊8 StoreLocal("b")␊9 StoreLocal("a")␊10 BeginCapture(Discard)␊11 PushWith␊12 LoadConst("p")␊13 Include(false)␊14 Lookup("g")␊15 Lookup("h")␊16 PopFrame␊17 StoreLocal("k")␊18 StoreLocal("g")␊19 EndCapture␊20 DiscardTop␊21 Return␊22 Enclose("c")␊23 GetClosure␊24 LoadConst(["a", "b"])␊25 BuildMacro("caller", 3, 0)␊26 BuildKwargs(1)␊27 CallFunction("f", 2)␊28 Emit␊hint 1␊
"#;
    hold::<Code>(rt.alloc(), rows)
}

#[test]
fn refuses_what_joins_no_templates(rt: HostRuntime) -> Result<(), Fail> {
    let rows = r#"
{% include %} => ! 1 mjc: SyntaxError
{% include 'a' ignore %} => ! 1 mjc: SyntaxError
{% include 'a' missing %} => ! 1 mjc: SyntaxError
{% include 'a' with %} => ! 1 mjc: SyntaxError
{% include 'a' with context ignore missing with context %} => ! 1 mjc: SyntaxError
{% include 'a', 'b' %} => ! 1 mjc: SyntaxError
{% import 'a' %} => ! 1 mjc: SyntaxError
{% import 'a' as %} => ! 1 mjc: SyntaxError
{% import 'a' as 1 %} => ! 1 mjc: SyntaxError
{% import 'a' as 42 %} => ! 1 mjc: SyntaxError
{% import 'a' as f(x) %} => ! 1 mjc: SyntaxError
{% import 'a' as x|f %} => ! 1 mjc: SyntaxError
{% import 'a' as x[0] %} => ! 1 mjc: SyntaxError
{% import 'a' as [a, 1] %} => ! 1 mjc: SyntaxError
{% import 'a' as (a, b) %} => ! 1 mjc: SyntaxError
{% import 'a' as a, b %} => ! 1 mjc: SyntaxError
{% import 'a' as m with %} => ! 1 mjc: SyntaxError
{% from 'a' import _x %} => ! 1 mjc: SyntaxError
{% from 'a' import x.y %} => ! 1 mjc: SyntaxError
{% from 'a' import x as %} => ! 1 mjc: SyntaxError
{% from 'a' import x as y.z %} => ! 1 mjc: SyntaxError
{% from 'a' import x as self %} => ! 1 mjc: SyntaxError
{% from 'a' import true %} => ! 1 mjc: SyntaxError
{% from 'a' import loop as l %} => ! 1 mjc: SyntaxError
{% from 'a' import , %} => ! 1 mjc: SyntaxError
{% from 'a' import x,, y %} => ! 1 mjc: SyntaxError
{% from 'a' import 'x' %} => ! 1 mjc: SyntaxError
{% from 'a' %} => ! 1 mjc: SyntaxError
{% from 'a' import x with context with context %} => ! 1 mjc: SyntaxError
{% from 'a' import (x, y) %} => ! 1 mjc: SyntaxError
"#;
    hold::<RefusedSomewhere>(rt.alloc(), rows)
}

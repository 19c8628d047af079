//! Call blocks.
//!
//! Unless a test says otherwise, its rows are the upstream program's.
use super::Code;
use super::statements::RefusedSomewhere;
use minijinja_test_rows::rows::hold;
use std::test::Fail;

#[test]
fn each_call_alone(rt: HostRuntime) -> Result<(), Fail> {
    let rows = r#"
{% call f() %}x{% endcall %} => 0 LoadConst("caller")␊1 Jump(4)␊2 EmitRaw("x")␊3 Return␊4 GetClosure␊5 LoadConst([])␊6 BuildMacro("caller", 2, 0)␊7 BuildKwargs(1)␊8 CallFunction("f", 1)␊9 Emit␊hint 2␊
{% call(a) f() %}{{ a }}{% endcall %} => 0 LoadConst("caller")␊1 Jump(6)␊2 StoreLocal("a")␊3 Lookup("a")␊4 Emit␊5 Return␊6 GetClosure␊7 LoadConst(["a"])␊8 BuildMacro("caller", 2, 0)␊9 BuildKwargs(1)␊10 CallFunction("f", 1)␊11 Emit␊hint 1␊
{% call() f() %}x{% endcall %} => 0 LoadConst("caller")␊1 Jump(4)␊2 EmitRaw("x")␊3 Return␊4 GetClosure␊5 LoadConst([])␊6 BuildMacro("caller", 2, 0)␊7 BuildKwargs(1)␊8 CallFunction("f", 1)␊9 Emit␊hint 2␊
{% call f(1, x, *y) %}x{% endcall %} => 0 LoadConst(1)␊1 Lookup("x")␊2 BuildList(2)␊3 Lookup("y")␊4 LoadConst("caller")␊5 Jump(8)␊6 EmitRaw("x")␊7 Return␊8 GetClosure␊9 LoadConst([])␊10 BuildMacro("caller", 6, 0)␊11 BuildKwargs(1)␊12 BuildList(1)␊13 UnpackLists(3)␊14 CallFunction("f", none)␊15 Emit␊hint 2␊
{% call f(a=1, b=x) %}x{% endcall %} => 0 LoadConst("a")␊1 LoadConst(1)␊2 LoadConst("b")␊3 Lookup("x")␊4 LoadConst("caller")␊5 Jump(8)␊6 EmitRaw("x")␊7 Return␊8 GetClosure␊9 LoadConst([])␊10 BuildMacro("caller", 6, 0)␊11 BuildKwargs(3)␊12 CallFunction("f", 1)␊13 Emit␊hint 2␊
{% call f(a=1) %}x{% endcall %} => 0 LoadConst("a")␊1 LoadConst(1)␊2 LoadConst("caller")␊3 Jump(6)␊4 EmitRaw("x")␊5 Return␊6 GetClosure␊7 LoadConst([])␊8 BuildMacro("caller", 4, 0)␊9 BuildKwargs(2)␊10 CallFunction("f", 1)␊11 Emit␊hint 2␊
{% call f(**k) %}x{% endcall %} => 0 Lookup("k")␊1 LoadConst("caller")␊2 Jump(5)␊3 EmitRaw("x")␊4 Return␊5 GetClosure␊6 LoadConst([])␊7 BuildMacro("caller", 3, 0)␊8 BuildKwargs(1)␊9 MergeKwargs(2)␊10 CallFunction("f", 1)␊11 Emit␊hint 2␊
{% call f(x, *y, a=1, **k) %}x{% endcall %} => 0 Lookup("x")␊1 BuildList(1)␊2 Lookup("y")␊3 LoadConst("a")␊4 LoadConst(1)␊5 BuildKwargs(1)␊6 Lookup("k")␊7 LoadConst("caller")␊8 Jump(11)␊9 EmitRaw("x")␊10 Return␊11 GetClosure␊12 LoadConst([])␊13 BuildMacro("caller", 9, 0)␊14 BuildKwargs(1)␊15 MergeKwargs(3)␊16 BuildList(1)␊17 UnpackLists(3)␊18 CallFunction("f", none)␊19 Emit␊hint 2␊
{% call f(**k, a=1) %}x{% endcall %} => 0 Lookup("k")␊1 LoadConst("a")␊2 LoadConst(1)␊3 LoadConst("caller")␊4 Jump(7)␊5 EmitRaw("x")␊6 Return␊7 GetClosure␊8 LoadConst([])␊9 BuildMacro("caller", 5, 0)␊10 BuildKwargs(2)␊11 MergeKwargs(2)␊12 CallFunction("f", 1)␊13 Emit␊hint 2␊
{% call f(a=1, *y) %}x{% endcall %} => 0 Lookup("y")␊1 LoadConst("a")␊2 LoadConst(1)␊3 LoadConst("caller")␊4 Jump(7)␊5 EmitRaw("x")␊6 Return␊7 GetClosure␊8 LoadConst([])␊9 BuildMacro("caller", 5, 0)␊10 BuildKwargs(2)␊11 BuildList(1)␊12 UnpackLists(2)␊13 CallFunction("f", none)␊14 Emit␊hint 2␊
{% call e.m(x) %}x{% endcall %} => 0 Lookup("e")␊1 Lookup("x")␊2 LoadConst("caller")␊3 Jump(6)␊4 EmitRaw("x")␊5 Return␊6 GetClosure␊7 LoadConst([])␊8 BuildMacro("caller", 4, 0)␊9 BuildKwargs(1)␊10 CallMethod("m", 3)␊11 Emit␊hint 2␊
{% call e[0](x) %}x{% endcall %} => 0 Lookup("e")␊1 LoadConst(0)␊2 GetItem␊3 Lookup("x")␊4 LoadConst("caller")␊5 Jump(8)␊6 EmitRaw("x")␊7 Return␊8 GetClosure␊9 LoadConst([])␊10 BuildMacro("caller", 6, 0)␊11 BuildKwargs(1)␊12 CallObject(3)␊13 Emit␊hint 2␊
{% call e[0](*x) %}x{% endcall %} => 0 Lookup("e")␊1 LoadConst(0)␊2 GetItem␊3 BuildList(1)␊4 Lookup("x")␊5 LoadConst("caller")␊6 Jump(9)␊7 EmitRaw("x")␊8 Return␊9 GetClosure␊10 LoadConst([])␊11 BuildMacro("caller", 7, 0)␊12 BuildKwargs(1)␊13 BuildList(1)␊14 UnpackLists(3)␊15 CallObject(none)␊16 Emit␊hint 2␊
{% call f(x)(y) %}x{% endcall %} => 0 Lookup("x")␊1 CallFunction("f", 1)␊2 Lookup("y")␊3 LoadConst("caller")␊4 Jump(7)␊5 EmitRaw("x")␊6 Return␊7 GetClosure␊8 LoadConst([])␊9 BuildMacro("caller", 5, 0)␊10 BuildKwargs(1)␊11 CallObject(3)␊12 Emit␊hint 2␊
{% call self.b() %}x{% endcall %} => 0 BeginCapture(Capture)␊1 CallBlock("b")␊2 EndCapture␊3 Emit␊hint 1␊
{% call self.b(x) %}{{ y }}{% macro m() %}{% endmacro %}{% endcall %}z => 0 BeginCapture(Capture)␊1 CallBlock("b")␊2 EndCapture␊3 Emit␊4 EmitRaw("z")␊hint 2␊
{% call super() %}x{% endcall %} => 0 LoadConst("caller")␊1 Jump(4)␊2 EmitRaw("x")␊3 Return␊4 GetClosure␊5 LoadConst([])␊6 BuildMacro("caller", 2, 0)␊7 BuildKwargs(1)␊8 CallFunction("super", 1)␊9 Emit␊hint 2␊
{% call loop(x) %}x{% endcall %} => 0 Lookup("x")␊1 LoadConst("caller")␊2 Jump(5)␊3 EmitRaw("x")␊4 Return␊5 GetClosure␊6 LoadConst([])␊7 BuildMacro("caller", 3, 0)␊8 BuildKwargs(1)␊9 CallFunction("loop", 2)␊10 Emit␊hint 2␊
{% call caller() %}{{ caller() }}{% endcall %} => 0 LoadConst("caller")␊1 Jump(5)␊2 CallFunction("caller", 0)␊3 Emit␊4 Return␊5 GetClosure␊6 LoadConst([])␊7 BuildMacro("caller", 2, 2)␊8 BuildKwargs(1)␊9 CallFunction("caller", 1)␊10 Emit␊hint 1␊
{% call f() %}abc{% endcall %}de => 0 LoadConst("caller")␊1 Jump(4)␊2 EmitRaw("abc")␊3 Return␊4 GetClosure␊5 LoadConst([])␊6 BuildMacro("caller", 2, 0)␊7 BuildKwargs(1)␊8 CallFunction("f", 1)␊9 Emit␊10 EmitRaw("de")␊hint 16␊
{% call f() %}{% call g() %}{% call h() %}x{% endcall %}{% endcall %}{% endcall %} => 0 LoadConst("caller")␊1 Jump(23)␊2 LoadConst("caller")␊3 Jump(15)␊4 LoadConst("caller")␊5 Jump(8)␊6 EmitRaw("x")␊7 Return␊8 GetClosure␊9 LoadConst([])␊10 BuildMacro("caller", 6, 0)␊11 BuildKwargs(1)␊12 CallFunction("h", 1)␊13 Emit␊14 Return␊15 Enclose("h")␊16 GetClosure␊17 LoadConst([])␊18 BuildMacro("caller", 4, 0)␊19 BuildKwargs(1)␊20 CallFunction("g", 1)␊21 Emit␊22 Return␊23 Enclose("g")␊24 Enclose("h")␊25 GetClosure␊26 LoadConst([])␊27 BuildMacro("caller", 2, 0)␊28 BuildKwargs(1)␊29 CallFunction("f", 1)␊30 Emit␊hint 2␊
{% call(a) f(caller=1) %}{% endcall %} => 0 LoadConst("caller")␊1 LoadConst(1)␊2 LoadConst("caller")␊3 Jump(6)␊4 StoreLocal("a")␊5 Return␊6 GetClosure␊7 LoadConst(["a"])␊8 BuildMacro("caller", 4, 0)␊9 BuildKwargs(2)␊10 CallFunction("f", 1)␊11 Emit␊hint 1␊
{% call f() %}{{ x|f }}{% endcall %}{{ x|f|g }} => 0 LoadConst("caller")␊1 Jump(6)␊2 Lookup("x")␊3 ApplyFilter("f", 1, 0)␊4 Emit␊5 Return␊6 Enclose("x")␊7 GetClosure␊8 LoadConst([])␊9 BuildMacro("caller", 2, 0)␊10 BuildKwargs(1)␊11 CallFunction("f", 1)␊12 Emit␊13 Lookup("x")␊14 ApplyFilter("f", 1, 0)␊15 ApplyFilter("g", 1, 1)␊16 Emit␊hint 1␊
"#;
    hold::<Code>(rt.alloc(), rows)
}

/// Each statement in a call block.
#[test]
fn each_statement_in_a_call_block(rt: HostRuntime) -> Result<(), Fail> {
    let rows = r#"
{% call(a, b=c) f(x) %}x{% endcall %} => 0 Lookup("x")␊1 LoadConst("caller")␊2 Jump(12)␊3 DupTop␊4 IsUndefined␊5 JumpIfFalse(8)␊6 DiscardTop␊7 Lookup("c")␊8 StoreLocal("b")␊9 StoreLocal("a")␊10 EmitRaw("x")␊11 Return␊12 Enclose("c")␊13 GetClosure␊14 LoadConst(["a", "b"])␊15 BuildMacro("caller", 3, 0)␊16 BuildKwargs(1)␊17 CallFunction("f", 2)␊18 Emit␊hint 2␊
{% call(a, b=c) f(x) %}{% for v in w %}x{% endfor %}{% endcall %} => 0 Lookup("x")␊1 LoadConst("caller")␊2 Jump(18)␊3 DupTop␊4 IsUndefined␊5 JumpIfFalse(8)␊6 DiscardTop␊7 Lookup("c")␊8 StoreLocal("b")␊9 StoreLocal("a")␊10 Lookup("w")␊11 PushLoop(1)␊12 Iterate(16)␊13 StoreLocal("v")␊14 EmitRaw("x")␊15 Jump(12)␊16 PopLoopFrame␊17 Return␊18 Enclose("c")␊19 Enclose("w")␊20 GetClosure␊21 LoadConst(["a", "b"])␊22 BuildMacro("caller", 3, 0)␊23 BuildKwargs(1)␊24 CallFunction("f", 2)␊25 Emit␊hint 2␊
{% call(a, b=c) f(x) %}{% for v in w %}o{% else %}x{% endfor %}{% endcall %} => 0 Lookup("x")␊1 LoadConst("caller")␊2 Jump(21)␊3 DupTop␊4 IsUndefined␊5 JumpIfFalse(8)␊6 DiscardTop␊7 Lookup("c")␊8 StoreLocal("b")␊9 StoreLocal("a")␊10 Lookup("w")␊11 PushLoop(1)␊12 Iterate(16)␊13 StoreLocal("v")␊14 EmitRaw("o")␊15 Jump(12)␊16 PushDidNotIterate␊17 PopLoopFrame␊18 JumpIfFalse(20)␊19 EmitRaw("x")␊20 Return␊21 Enclose("c")␊22 Enclose("w")␊23 GetClosure␊24 LoadConst(["a", "b"])␊25 BuildMacro("caller", 3, 0)␊26 BuildKwargs(1)␊27 CallFunction("f", 2)␊28 Emit␊hint 4␊
{% call(a, b=c) f(x) %}{% if t %}x{% endif %}{% endcall %} => 0 Lookup("x")␊1 LoadConst("caller")␊2 Jump(14)␊3 DupTop␊4 IsUndefined␊5 JumpIfFalse(8)␊6 DiscardTop␊7 Lookup("c")␊8 StoreLocal("b")␊9 StoreLocal("a")␊10 Lookup("t")␊11 JumpIfFalse(13)␊12 EmitRaw("x")␊13 Return␊14 Enclose("c")␊15 Enclose("t")␊16 GetClosure␊17 LoadConst(["a", "b"])␊18 BuildMacro("caller", 3, 0)␊19 BuildKwargs(1)␊20 CallFunction("f", 2)␊21 Emit␊hint 2␊
{% call(a, b=c) f(x) %}{% if t %}o{% else %}x{% endif %}{% endcall %} => 0 Lookup("x")␊1 LoadConst("caller")␊2 Jump(16)␊3 DupTop␊4 IsUndefined␊5 JumpIfFalse(8)␊6 DiscardTop␊7 Lookup("c")␊8 StoreLocal("b")␊9 StoreLocal("a")␊10 Lookup("t")␊11 JumpIfFalse(14)␊12 EmitRaw("o")␊13 Jump(15)␊14 EmitRaw("x")␊15 Return␊16 Enclose("c")␊17 Enclose("t")␊18 GetClosure␊19 LoadConst(["a", "b"])␊20 BuildMacro("caller", 3, 0)␊21 BuildKwargs(1)␊22 CallFunction("f", 2)␊23 Emit␊hint 4␊
{% call(a, b=c) f(x) %}{% if t %}o{% elif u %}x{% endif %}{% endcall %} => 0 Lookup("x")␊1 LoadConst("caller")␊2 Jump(18)␊3 DupTop␊4 IsUndefined␊5 JumpIfFalse(8)␊6 DiscardTop␊7 Lookup("c")␊8 StoreLocal("b")␊9 StoreLocal("a")␊10 Lookup("t")␊11 JumpIfFalse(14)␊12 EmitRaw("o")␊13 Jump(17)␊14 Lookup("u")␊15 JumpIfFalse(17)␊16 EmitRaw("x")␊17 Return␊18 Enclose("c")␊19 Enclose("t")␊20 Enclose("u")␊21 GetClosure␊22 LoadConst(["a", "b"])␊23 BuildMacro("caller", 3, 0)␊24 BuildKwargs(1)␊25 CallFunction("f", 2)␊26 Emit␊hint 4␊
{% call(a, b=c) f(x) %}{% with r = 1 %}x{% endwith %}{% endcall %} => 0 Lookup("x")␊1 LoadConst("caller")␊2 Jump(16)␊3 DupTop␊4 IsUndefined␊5 JumpIfFalse(8)␊6 DiscardTop␊7 Lookup("c")␊8 StoreLocal("b")␊9 StoreLocal("a")␊10 PushWith␊11 LoadConst(1)␊12 StoreLocal("r")␊13 EmitRaw("x")␊14 PopFrame␊15 Return␊16 Enclose("c")␊17 GetClosure␊18 LoadConst(["a", "b"])␊19 BuildMacro("caller", 3, 0)␊20 BuildKwargs(1)␊21 CallFunction("f", 2)␊22 Emit␊hint 2␊
{% call(a, b=c) f(x) %}{% set q %}x{% endset %}{% endcall %} => 0 Lookup("x")␊1 LoadConst("caller")␊2 Jump(15)␊3 DupTop␊4 IsUndefined␊5 JumpIfFalse(8)␊6 DiscardTop␊7 Lookup("c")␊8 StoreLocal("b")␊9 StoreLocal("a")␊10 BeginCapture(Capture)␊11 EmitRaw("x")␊12 EndCapture␊13 StoreLocal("q")␊14 Return␊15 Enclose("c")␊16 GetClosure␊17 LoadConst(["a", "b"])␊18 BuildMacro("caller", 3, 0)␊19 BuildKwargs(1)␊20 CallFunction("f", 2)␊21 Emit␊hint 2␊
{% call(a, b=c) f(x) %}{% filter g %}x{% endfilter %}{% endcall %} => 0 Lookup("x")␊1 LoadConst("caller")␊2 Jump(16)␊3 DupTop␊4 IsUndefined␊5 JumpIfFalse(8)␊6 DiscardTop␊7 Lookup("c")␊8 StoreLocal("b")␊9 StoreLocal("a")␊10 BeginCapture(Capture)␊11 EmitRaw("x")␊12 EndCapture␊13 ApplyFilter("g", 1, 0)␊14 Emit␊15 Return␊16 Enclose("c")␊17 GetClosure␊18 LoadConst(["a", "b"])␊19 BuildMacro("caller", 3, 0)␊20 BuildKwargs(1)␊21 CallFunction("f", 2)␊22 Emit␊hint 2␊
{% call(a, b=c) f(x) %}{% autoescape true %}x{% endautoescape %}{% endcall %} => 0 Lookup("x")␊1 LoadConst("caller")␊2 Jump(15)␊3 DupTop␊4 IsUndefined␊5 JumpIfFalse(8)␊6 DiscardTop␊7 Lookup("c")␊8 StoreLocal("b")␊9 StoreLocal("a")␊10 LoadConst(true)␊11 PushAutoEscape␊12 EmitRaw("x")␊13 PopAutoEscape␊14 Return␊15 Enclose("c")␊16 GetClosure␊17 LoadConst(["a", "b"])␊18 BuildMacro("caller", 3, 0)␊19 BuildKwargs(1)␊20 CallFunction("f", 2)␊21 Emit␊hint 2␊
{% call(a, b=c) f(x) %}{% call(p) g() %}x{% endcall %}{% endcall %} => 0 Lookup("x")␊1 LoadConst("caller")␊2 Jump(22)␊3 DupTop␊4 IsUndefined␊5 JumpIfFalse(8)␊6 DiscardTop␊7 Lookup("c")␊8 StoreLocal("b")␊9 StoreLocal("a")␊10 LoadConst("caller")␊11 Jump(15)␊12 StoreLocal("p")␊13 EmitRaw("x")␊14 Return␊15 GetClosure␊16 LoadConst(["p"])␊17 BuildMacro("caller", 12, 0)␊18 BuildKwargs(1)␊19 CallFunction("g", 1)␊20 Emit␊21 Return␊22 Enclose("c")␊23 Enclose("g")␊24 GetClosure␊25 LoadConst(["a", "b"])␊26 BuildMacro("caller", 3, 0)␊27 BuildKwargs(1)␊28 CallFunction("f", 2)␊29 Emit␊hint 2␊
{% call(a, b=c) f(x) %}{% extends 'p' %}{% endcall %} => 0 Lookup("x")␊1 LoadConst("caller")␊2 Jump(13)␊3 DupTop␊4 IsUndefined␊5 JumpIfFalse(8)␊6 DiscardTop␊7 Lookup("c")␊8 StoreLocal("b")␊9 StoreLocal("a")␊10 LoadConst("p")␊11 LoadBlocks␊12 Return␊13 Enclose("c")␊14 GetClosure␊15 LoadConst(["a", "b"])␊16 BuildMacro("caller", 3, 0)␊17 BuildKwargs(1)␊18 CallFunction("f", 2)␊19 Emit␊hint 1␊
{% call(a, b=c) f(x) %}{% include 'p' ignore missing %}{% endcall %} => 0 Lookup("x")␊1 LoadConst("caller")␊2 Jump(13)␊3 DupTop␊4 IsUndefined␊5 JumpIfFalse(8)␊6 DiscardTop␊7 Lookup("c")␊8 StoreLocal("b")␊9 StoreLocal("a")␊10 LoadConst("p")␊11 Include(true)␊12 Return␊13 Enclose("c")␊14 GetClosure␊15 LoadConst(["a", "b"])␊16 BuildMacro("caller", 3, 0)␊17 BuildKwargs(1)␊18 CallFunction("f", 2)␊19 Emit␊hint 1␊
"#;
    hold::<Code>(rt.alloc(), rows)
}

/// Rows that differ from the upstream program's: a macro encloses what its defaults name, and a
/// `DiscardTop` drops what is left.
#[test]
fn what_differs_in_a_call_block(rt: HostRuntime) -> Result<(), Fail> {
    let rows = r#"
{% call(a, b=c) f(x) %}{% macro k(p, q=p) %}x{% endmacro %}{% endcall %} => 0 Lookup("x")␊1 LoadConst("caller")␊2 Jump(26)␊3 DupTop␊4 IsUndefined␊5 JumpIfFalse(8)␊6 DiscardTop␊7 Lookup("c")␊8 StoreLocal("b")␊9 StoreLocal("a")␊10 Jump(20)␊11 DupTop␊12 IsUndefined␊13 JumpIfFalse(16)␊14 DiscardTop␊15 Lookup("p")␊16 StoreLocal("q")␊17 StoreLocal("p")␊18 EmitRaw("x")␊19 Return␊20 Enclose("p")␊21 GetClosure␊22 LoadConst(["p", "q"])␊23 BuildMacro("k", 11, 0)␊24 StoreLocal("k")␊25 Return␊26 Enclose("c")␊27 Enclose("p")␊28 GetClosure␊29 LoadConst(["a", "b"])␊30 BuildMacro("caller", 3, 0)␊31 BuildKwargs(1)␊32 CallFunction("f", 2)␊33 Emit␊hint 2␊
{% call(a, b=c) f(x) %}{% import 'p' as i %}{% endcall %} => 0 Lookup("x")␊1 LoadConst("caller")␊2 Jump(20)␊3 DupTop␊4 IsUndefined␊5 JumpIfFalse(8)␊6 DiscardTop␊7 Lookup("c")␊8 StoreLocal("b")␊9 StoreLocal("a")␊10 BeginCapture(Capture)␊11 PushWith␊12 LoadConst("p")␊13 Include(false)␊14 EndCapture␊15 DiscardTop␊16 ExportLocals␊17 PopFrame␊18 StoreLocal("i")␊19 Return␊20 Enclose("c")␊21 GetClosure␊22 LoadConst(["a", "b"])␊23 BuildMacro("caller", 3, 0)␊24 BuildKwargs(1)␊25 CallFunction("f", 2)␊26 Emit␊hint 1␊
{% call(a, b=c) f(x) %}{% from 'p' import g, h as k %}{% endcall %} => 0 Lookup("x")␊1 LoadConst("caller")␊2 Jump(22)␊3 DupTop␊4 IsUndefined␊5 JumpIfFalse(8)␊6 DiscardTop␊7 Lookup("c")␊8 StoreLocal("b")␊9 StoreLocal("a")␊10 BeginCapture(Discard)␊11 PushWith␊12 LoadConst("p")␊13 Include(false)␊14 Lookup("g")␊15 Lookup("h")␊16 PopFrame␊17 StoreLocal("k")␊18 StoreLocal("g")␊19 EndCapture␊20 DiscardTop␊21 Return␊22 Enclose("c")␊23 GetClosure␊24 LoadConst(["a", "b"])␊25 BuildMacro("caller", 3, 0)␊26 BuildKwargs(1)␊27 CallFunction("f", 2)␊28 Emit␊hint 1␊
{% call(a, b=c) f(x) %}{% do f(x) %}{% endcall %} => 0 Lookup("x")␊1 LoadConst("caller")␊2 Jump(14)␊3 DupTop␊4 IsUndefined␊5 JumpIfFalse(8)␊6 DiscardTop␊7 Lookup("c")␊8 StoreLocal("b")␊9 StoreLocal("a")␊10 Lookup("x")␊11 CallFunction("f", 1)␊12 DiscardTop␊13 Return␊14 Enclose("c")␊15 Enclose("f")␊16 Enclose("x")␊17 GetClosure␊18 LoadConst(["a", "b"])␊19 BuildMacro("caller", 3, 0)␊20 BuildKwargs(1)␊21 CallFunction("f", 2)␊22 Emit␊hint 1␊
"#;
    hold::<Code>(rt.alloc(), rows)
}

/// A call block in each statement.
#[test]
fn a_call_block_in_each_statement(rt: HostRuntime) -> Result<(), Fail> {
    let rows = r#"
{% for x in y %}{% call(a, b=c) f(x) %}v{% endcall %}{% endfor %} => 0 Lookup("y")␊1 PushLoop(1)␊2 Iterate(24)␊3 StoreLocal("x")␊4 Lookup("x")␊5 LoadConst("caller")␊6 Jump(16)␊7 DupTop␊8 IsUndefined␊9 JumpIfFalse(12)␊10 DiscardTop␊11 Lookup("c")␊12 StoreLocal("b")␊13 StoreLocal("a")␊14 EmitRaw("v")␊15 Return␊16 Enclose("c")␊17 GetClosure␊18 LoadConst(["a", "b"])␊19 BuildMacro("caller", 7, 0)␊20 BuildKwargs(1)␊21 CallFunction("f", 2)␊22 Emit␊23 Jump(2)␊24 PopLoopFrame␊hint 2␊
{% for x in y %}a{% else %}{% call(a, b=c) f(x) %}v{% endcall %}{% endfor %} => 0 Lookup("y")␊1 PushLoop(1)␊2 Iterate(6)␊3 StoreLocal("x")␊4 EmitRaw("a")␊5 Jump(2)␊6 PushDidNotIterate␊7 PopLoopFrame␊8 JumpIfFalse(28)␊9 Lookup("x")␊10 LoadConst("caller")␊11 Jump(21)␊12 DupTop␊13 IsUndefined␊14 JumpIfFalse(17)␊15 DiscardTop␊16 Lookup("c")␊17 StoreLocal("b")␊18 StoreLocal("a")␊19 EmitRaw("v")␊20 Return␊21 Enclose("c")␊22 GetClosure␊23 LoadConst(["a", "b"])␊24 BuildMacro("caller", 12, 0)␊25 BuildKwargs(1)␊26 CallFunction("f", 2)␊27 Emit␊hint 4␊
{% if c %}{% call(a, b=c) f(x) %}v{% endcall %}{% endif %} => 0 Lookup("c")␊1 JumpIfFalse(21)␊2 Lookup("x")␊3 LoadConst("caller")␊4 Jump(14)␊5 DupTop␊6 IsUndefined␊7 JumpIfFalse(10)␊8 DiscardTop␊9 Lookup("c")␊10 StoreLocal("b")␊11 StoreLocal("a")␊12 EmitRaw("v")␊13 Return␊14 Enclose("c")␊15 GetClosure␊16 LoadConst(["a", "b"])␊17 BuildMacro("caller", 5, 0)␊18 BuildKwargs(1)␊19 CallFunction("f", 2)␊20 Emit␊hint 2␊
{% if c %}a{% else %}{% call(a, b=c) f(x) %}v{% endcall %}{% endif %} => 0 Lookup("c")␊1 JumpIfFalse(4)␊2 EmitRaw("a")␊3 Jump(23)␊4 Lookup("x")␊5 LoadConst("caller")␊6 Jump(16)␊7 DupTop␊8 IsUndefined␊9 JumpIfFalse(12)␊10 DiscardTop␊11 Lookup("c")␊12 StoreLocal("b")␊13 StoreLocal("a")␊14 EmitRaw("v")␊15 Return␊16 Enclose("c")␊17 GetClosure␊18 LoadConst(["a", "b"])␊19 BuildMacro("caller", 7, 0)␊20 BuildKwargs(1)␊21 CallFunction("f", 2)␊22 Emit␊hint 4␊
{% if c %}a{% elif d %}{% call(a, b=c) f(x) %}v{% endcall %}{% else %}e{% endif %} => 0 Lookup("c")␊1 JumpIfFalse(4)␊2 EmitRaw("a")␊3 Jump(27)␊4 Lookup("d")␊5 JumpIfFalse(26)␊6 Lookup("x")␊7 LoadConst("caller")␊8 Jump(18)␊9 DupTop␊10 IsUndefined␊11 JumpIfFalse(14)␊12 DiscardTop␊13 Lookup("c")␊14 StoreLocal("b")␊15 StoreLocal("a")␊16 EmitRaw("v")␊17 Return␊18 Enclose("c")␊19 GetClosure␊20 LoadConst(["a", "b"])␊21 BuildMacro("caller", 9, 0)␊22 BuildKwargs(1)␊23 CallFunction("f", 2)␊24 Emit␊25 Jump(27)␊26 EmitRaw("e")␊hint 8␊
{% with a = 1 %}{% call(a, b=c) f(x) %}v{% endcall %}{% endwith %} => 0 PushWith␊1 LoadConst(1)␊2 StoreLocal("a")␊3 Lookup("x")␊4 LoadConst("caller")␊5 Jump(15)␊6 DupTop␊7 IsUndefined␊8 JumpIfFalse(11)␊9 DiscardTop␊10 Lookup("c")␊11 StoreLocal("b")␊12 StoreLocal("a")␊13 EmitRaw("v")␊14 Return␊15 Enclose("c")␊16 GetClosure␊17 LoadConst(["a", "b"])␊18 BuildMacro("caller", 6, 0)␊19 BuildKwargs(1)␊20 CallFunction("f", 2)␊21 Emit␊22 PopFrame␊hint 2␊
{% set s | f %}{% call(a, b=c) f(x) %}v{% endcall %}{% endset %} => 0 BeginCapture(Capture)␊1 Lookup("x")␊2 LoadConst("caller")␊3 Jump(13)␊4 DupTop␊5 IsUndefined␊6 JumpIfFalse(9)␊7 DiscardTop␊8 Lookup("c")␊9 StoreLocal("b")␊10 StoreLocal("a")␊11 EmitRaw("v")␊12 Return␊13 Enclose("c")␊14 GetClosure␊15 LoadConst(["a", "b"])␊16 BuildMacro("caller", 4, 0)␊17 BuildKwargs(1)␊18 CallFunction("f", 2)␊19 Emit␊20 EndCapture␊21 ApplyFilter("f", 1, 0)␊22 StoreLocal("s")␊hint 2␊
{% filter f(x) %}{% call(a, b=c) f(x) %}v{% endcall %}{% endfilter %} => 0 BeginCapture(Capture)␊1 Lookup("x")␊2 LoadConst("caller")␊3 Jump(13)␊4 DupTop␊5 IsUndefined␊6 JumpIfFalse(9)␊7 DiscardTop␊8 Lookup("c")␊9 StoreLocal("b")␊10 StoreLocal("a")␊11 EmitRaw("v")␊12 Return␊13 Enclose("c")␊14 GetClosure␊15 LoadConst(["a", "b"])␊16 BuildMacro("caller", 4, 0)␊17 BuildKwargs(1)␊18 CallFunction("f", 2)␊19 Emit␊20 EndCapture␊21 Lookup("x")␊22 ApplyFilter("f", 2, 0)␊23 Emit␊hint 2␊
{% autoescape z %}{% call(a, b=c) f(x) %}v{% endcall %}{% endautoescape %} => 0 Lookup("z")␊1 PushAutoEscape␊2 Lookup("x")␊3 LoadConst("caller")␊4 Jump(14)␊5 DupTop␊6 IsUndefined␊7 JumpIfFalse(10)␊8 DiscardTop␊9 Lookup("c")␊10 StoreLocal("b")␊11 StoreLocal("a")␊12 EmitRaw("v")␊13 Return␊14 Enclose("c")␊15 GetClosure␊16 LoadConst(["a", "b"])␊17 BuildMacro("caller", 5, 0)␊18 BuildKwargs(1)␊19 CallFunction("f", 2)␊20 Emit␊21 PopAutoEscape␊hint 2␊
"#;
    hold::<Code>(rt.alloc(), rows)
}

#[test]
fn refuses_what_is_no_call_block(rt: HostRuntime) -> Result<(), Fail> {
    let rows = r#"
{% call f %}{% endcall %} => ! 1 mjc: SyntaxError
{% call x.y %}{% endcall %} => ! 1 mjc: SyntaxError
{% call f()|g %}{% endcall %} => ! 1 mjc: SyntaxError
{% call f() + 1 %}{% endcall %} => ! 1 mjc: SyntaxError
{% call (a) %}{% endcall %} => ! 1 mjc: SyntaxError
{% call %}{% endcall %} => ! 1 mjc: SyntaxError
{% call(a=1, b) f() %}{% endcall %} => ! 1 mjc: SyntaxError
{% call(loop) f() %}{% endcall %} => ! 1 mjc: SyntaxError
{% call(a.b) f() %}{% endcall %} => ! 1 mjc: SyntaxError
{% call f() %} => ! 1 mjc: SyntaxError
{% call f() %}{% endmacro %} => ! 1 mjc: SyntaxError
{% call f() %}{% endcall f %} => ! 1 mjc: SyntaxError
{% endcall %} => ! 1 mjc: SyntaxError
{% for x in y %}{% call f() %}{% break %}{% endcall %}{% endfor %} => ! 1 mjc: SyntaxError
{% for x in y %}{% call self.b() %}{% continue %}{% endcall %}{% endfor %} => ! 1 mjc: SyntaxError
{% call f(a=1, b) %}{% endcall %} => ! 1 mjc: SyntaxError
{% call self.b() %}{% set loop = 1 %}{% endcall %} => ! 1 mjc: SyntaxError
"#;
    hold::<RefusedSomewhere>(rt.alloc(), rows)
}

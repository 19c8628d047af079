//! Macros.
//!
//! Unless a test says otherwise, its rows are the upstream program's.
use super::Code;
use super::statements::RefusedSomewhere;
use minijinja_test_rows::rows::hold;
use std::test::Fail;

#[test]
fn each_macro_alone(rt: HostRuntime) -> Result<(), Fail> {
    let rows = r#"
{% macro f(a) %}{{ a }}{{ b }}{% endmacro %} => 0 Jump(7)␊1 StoreLocal("a")␊2 Lookup("a")␊3 Emit␊4 Lookup("b")␊5 Emit␊6 Return␊7 Enclose("b")␊8 GetClosure␊9 LoadConst(["a"])␊10 BuildMacro("f", 1, 0)␊11 StoreLocal("f")␊hint 1␊
{% macro m() %}{{ caller() }}{% endmacro %} => 0 Jump(4)␊1 CallFunction("caller", 0)␊2 Emit␊3 Return␊4 GetClosure␊5 LoadConst([])␊6 BuildMacro("m", 1, 2)␊7 StoreLocal("m")␊hint 1␊
{% macro a() %}{% macro b() %}{{ x }}{{ a }}{% endmacro %}{% endmacro %} => 0 Jump(14)␊1 Jump(7)␊2 Lookup("x")␊3 Emit␊4 Lookup("a")␊5 Emit␊6 Return␊7 Enclose("a")␊8 Enclose("x")␊9 GetClosure␊10 LoadConst([])␊11 BuildMacro("b", 2, 0)␊12 StoreLocal("b")␊13 Return␊14 Enclose("a")␊15 Enclose("x")␊16 GetClosure␊17 LoadConst([])␊18 BuildMacro("a", 1, 0)␊19 StoreLocal("a")␊hint 1␊
{% macro f() %}{% endmacro %} => 0 Jump(2)␊1 Return␊2 GetClosure␊3 LoadConst([])␊4 BuildMacro("f", 1, 0)␊5 StoreLocal("f")␊hint 1␊
{% macro f(a, b, c) %}{% endmacro %} => 0 Jump(5)␊1 StoreLocal("c")␊2 StoreLocal("b")␊3 StoreLocal("a")␊4 Return␊5 GetClosure␊6 LoadConst(["a", "b", "c"])␊7 BuildMacro("f", 1, 0)␊8 StoreLocal("f")␊hint 1␊
{% macro f(a, b=1, c=x) %}{% endmacro %} => 0 Jump(15)␊1 DupTop␊2 IsUndefined␊3 JumpIfFalse(6)␊4 DiscardTop␊5 Lookup("x")␊6 StoreLocal("c")␊7 DupTop␊8 IsUndefined␊9 JumpIfFalse(12)␊10 DiscardTop␊11 LoadConst(1)␊12 StoreLocal("b")␊13 StoreLocal("a")␊14 Return␊15 Enclose("x")␊16 GetClosure␊17 LoadConst(["a", "b", "c"])␊18 BuildMacro("f", 1, 0)␊19 StoreLocal("f")␊hint 1␊
{% macro f(a=[1, x],) %}{% endmacro %} => 0 Jump(10)␊1 DupTop␊2 IsUndefined␊3 JumpIfFalse(8)␊4 DiscardTop␊5 LoadConst(1)␊6 Lookup("x")␊7 BuildList(2)␊8 StoreLocal("a")␊9 Return␊10 Enclose("x")␊11 GetClosure␊12 LoadConst(["a"])␊13 BuildMacro("f", 1, 0)␊14 StoreLocal("f")␊hint 1␊
{% macro loop() %}x{% endmacro %} => 0 Jump(3)␊1 EmitRaw("x")␊2 Return␊3 GetClosure␊4 LoadConst([])␊5 BuildMacro("loop", 1, 0)␊6 StoreLocal("loop")␊hint 2␊
{% macro true(in) %}{{ in }}{% endmacro %} => 0 Jump(5)␊1 StoreLocal("in")␊2 Lookup("in")␊3 Emit␊4 Return␊5 GetClosure␊6 LoadConst(["in"])␊7 BuildMacro("true", 1, 0)␊8 StoreLocal("true")␊hint 1␊
{% macro f(a) %}{% for x in a %}{% break %}{% endfor %}{% endmacro %} => 0 Jump(10)␊1 StoreLocal("a")␊2 Lookup("a")␊3 PushLoop(1)␊4 Iterate(8)␊5 StoreLocal("x")␊6 Jump(8)␊7 Jump(4)␊8 PopLoopFrame␊9 Return␊10 GetClosure␊11 LoadConst(["a"])␊12 BuildMacro("f", 1, 0)␊13 StoreLocal("f")␊hint 1␊
{% macro f() %}{{ f() }}{{ self }}{{ loop }}{% endmacro %} => 0 Jump(8)␊1 CallFunction("f", 0)␊2 Emit␊3 Lookup("self")␊4 Emit␊5 Lookup("loop")␊6 Emit␊7 Return␊8 Enclose("f")␊9 Enclose("loop")␊10 Enclose("self")␊11 GetClosure␊12 LoadConst([])␊13 BuildMacro("f", 1, 0)␊14 StoreLocal("f")␊hint 1␊
{% macro f(é, b) %}{{ é }}{{ ñ }}{{ z }}{{ Z }}{% endmacro %} => 0 Jump(12)␊1 StoreLocal("b")␊2 StoreLocal("é")␊3 Lookup("é")␊4 Emit␊5 Lookup("ñ")␊6 Emit␊7 Lookup("z")␊8 Emit␊9 Lookup("Z")␊10 Emit␊11 Return␊12 Enclose("Z")␊13 Enclose("z")␊14 Enclose("ñ")␊15 GetClosure␊16 LoadConst(["é", "b"])␊17 BuildMacro("f", 1, 0)␊18 StoreLocal("f")␊hint 1␊
{% macro f(a, a) %}{% endmacro %} => 0 Jump(4)␊1 StoreLocal("a")␊2 StoreLocal("a")␊3 Return␊4 GetClosure␊5 LoadConst(["a", "a"])␊6 BuildMacro("f", 1, 0)␊7 StoreLocal("f")␊hint 1␊
{% macro f(caller) %}{{ caller }}{% endmacro %} => 0 Jump(5)␊1 StoreLocal("caller")␊2 Lookup("caller")␊3 Emit␊4 Return␊5 GetClosure␊6 LoadConst(["caller"])␊7 BuildMacro("f", 1, 0)␊8 StoreLocal("f")␊hint 1␊
{% macro f(x) %}{{ x|f }}{{ x is t }}{% endmacro %}{{ x|g|f }}{{ x is u is t }} => 0 Jump(9)␊1 StoreLocal("x")␊2 Lookup("x")␊3 ApplyFilter("f", 1, 0)␊4 Emit␊5 Lookup("x")␊6 PerformTest("t", 1, 0)␊7 Emit␊8 Return␊9 GetClosure␊10 LoadConst(["x"])␊11 BuildMacro("f", 1, 0)␊12 StoreLocal("f")␊13 Lookup("x")␊14 ApplyFilter("g", 1, 1)␊15 ApplyFilter("f", 1, 0)␊16 Emit␊17 Lookup("x")␊18 PerformTest("u", 1, 1)␊19 PerformTest("t", 1, 0)␊20 Emit␊hint 1␊
{% macro f() %}abc{% endmacro %}d => 0 Jump(3)␊1 EmitRaw("abc")␊2 Return␊3 GetClosure␊4 LoadConst([])␊5 BuildMacro("f", 1, 0)␊6 StoreLocal("f")␊7 EmitRaw("d")␊hint 8␊
{% macro f() %}{% if a %}{% set x = 1 %}{% endif %}{{ x }}{% endmacro %} => 0 Jump(8)␊1 Lookup("a")␊2 JumpIfFalse(5)␊3 LoadConst(1)␊4 StoreLocal("x")␊5 Lookup("x")␊6 Emit␊7 Return␊8 Enclose("a")␊9 Enclose("x")␊10 GetClosure␊11 LoadConst([])␊12 BuildMacro("f", 1, 0)␊13 StoreLocal("f")␊hint 1␊
{% macro f() %}{% set x = 1 %}{{ x }}{{ y }}{% endmacro %} => 0 Jump(8)␊1 LoadConst(1)␊2 StoreLocal("x")␊3 Lookup("x")␊4 Emit␊5 Lookup("y")␊6 Emit␊7 Return␊8 Enclose("y")␊9 GetClosure␊10 LoadConst([])␊11 BuildMacro("f", 1, 0)␊12 StoreLocal("f")␊hint 1␊
{% macro f() %}{% with x = y %}{{ x }}{% endwith %}{% for a in b %}{{ a }}{{ loop.index }}{% endfor %}{% endmacro %} => 0 Jump(19)␊1 PushWith␊2 Lookup("y")␊3 StoreLocal("x")␊4 Lookup("x")␊5 Emit␊6 PopFrame␊7 Lookup("b")␊8 PushLoop(1)␊9 Iterate(17)␊10 StoreLocal("a")␊11 Lookup("a")␊12 Emit␊13 Lookup("loop")␊14 GetAttr("index")␊15 Emit␊16 Jump(9)␊17 PopLoopFrame␊18 Return␊19 Enclose("b")␊20 Enclose("y")␊21 GetClosure␊22 LoadConst([])␊23 BuildMacro("f", 1, 0)␊24 StoreLocal("f")␊hint 1␊
{% for x in y %}{% macro f() %}{{ x }}{% endmacro %}{% break %}{% endfor %} => 0 Lookup("y")␊1 PushLoop(1)␊2 Iterate(15)␊3 StoreLocal("x")␊4 Jump(8)␊5 Lookup("x")␊6 Emit␊7 Return␊8 Enclose("x")␊9 GetClosure␊10 LoadConst([])␊11 BuildMacro("f", 5, 0)␊12 StoreLocal("f")␊13 Jump(15)␊14 Jump(2)␊15 PopLoopFrame␊hint 1␊
{% macro f() %}{% call(a, b=c) g(d) %}{{ a }}{{ b }}{{ e }}{{ caller }}{% endcall %}{{ caller }}{% endmacro %} => 0 Jump(31)␊1 Lookup("d")␊2 LoadConst("caller")␊3 Jump(20)␊4 DupTop␊5 IsUndefined␊6 JumpIfFalse(9)␊7 DiscardTop␊8 Lookup("c")␊9 StoreLocal("b")␊10 StoreLocal("a")␊11 Lookup("a")␊12 Emit␊13 Lookup("b")␊14 Emit␊15 Lookup("e")␊16 Emit␊17 Lookup("caller")␊18 Emit␊19 Return␊20 Enclose("c")␊21 Enclose("e")␊22 GetClosure␊23 LoadConst(["a", "b"])␊24 BuildMacro("caller", 4, 2)␊25 BuildKwargs(1)␊26 CallFunction("g", 2)␊27 Emit␊28 Lookup("caller")␊29 Emit␊30 Return␊31 Enclose("c")␊32 Enclose("d")␊33 Enclose("e")␊34 Enclose("g")␊35 GetClosure␊36 LoadConst([])␊37 BuildMacro("f", 1, 2)␊38 StoreLocal("f")␊hint 1␊
"#;
    hold::<Code>(rt.alloc(), rows)
}

/// Each statement in a macro.
#[test]
fn each_statement_in_a_macro(rt: HostRuntime) -> Result<(), Fail> {
    let rows = r#"
{% macro m(a, b=c) %}x{% endmacro %} => 0 Jump(10)␊1 DupTop␊2 IsUndefined␊3 JumpIfFalse(6)␊4 DiscardTop␊5 Lookup("c")␊6 StoreLocal("b")␊7 StoreLocal("a")␊8 EmitRaw("x")␊9 Return␊10 Enclose("c")␊11 GetClosure␊12 LoadConst(["a", "b"])␊13 BuildMacro("m", 1, 0)␊14 StoreLocal("m")␊hint 2␊
{% macro m(a, b=c) %}{% for v in w %}x{% endfor %}{% endmacro %} => 0 Jump(16)␊1 DupTop␊2 IsUndefined␊3 JumpIfFalse(6)␊4 DiscardTop␊5 Lookup("c")␊6 StoreLocal("b")␊7 StoreLocal("a")␊8 Lookup("w")␊9 PushLoop(1)␊10 Iterate(14)␊11 StoreLocal("v")␊12 EmitRaw("x")␊13 Jump(10)␊14 PopLoopFrame␊15 Return␊16 Enclose("c")␊17 Enclose("w")␊18 GetClosure␊19 LoadConst(["a", "b"])␊20 BuildMacro("m", 1, 0)␊21 StoreLocal("m")␊hint 2␊
{% macro m(a, b=c) %}{% for v in w %}o{% else %}x{% endfor %}{% endmacro %} => 0 Jump(19)␊1 DupTop␊2 IsUndefined␊3 JumpIfFalse(6)␊4 DiscardTop␊5 Lookup("c")␊6 StoreLocal("b")␊7 StoreLocal("a")␊8 Lookup("w")␊9 PushLoop(1)␊10 Iterate(14)␊11 StoreLocal("v")␊12 EmitRaw("o")␊13 Jump(10)␊14 PushDidNotIterate␊15 PopLoopFrame␊16 JumpIfFalse(18)␊17 EmitRaw("x")␊18 Return␊19 Enclose("c")␊20 Enclose("w")␊21 GetClosure␊22 LoadConst(["a", "b"])␊23 BuildMacro("m", 1, 0)␊24 StoreLocal("m")␊hint 4␊
{% macro m(a, b=c) %}{% if t %}x{% endif %}{% endmacro %} => 0 Jump(12)␊1 DupTop␊2 IsUndefined␊3 JumpIfFalse(6)␊4 DiscardTop␊5 Lookup("c")␊6 StoreLocal("b")␊7 StoreLocal("a")␊8 Lookup("t")␊9 JumpIfFalse(11)␊10 EmitRaw("x")␊11 Return␊12 Enclose("c")␊13 Enclose("t")␊14 GetClosure␊15 LoadConst(["a", "b"])␊16 BuildMacro("m", 1, 0)␊17 StoreLocal("m")␊hint 2␊
{% macro m(a, b=c) %}{% if t %}o{% else %}x{% endif %}{% endmacro %} => 0 Jump(14)␊1 DupTop␊2 IsUndefined␊3 JumpIfFalse(6)␊4 DiscardTop␊5 Lookup("c")␊6 StoreLocal("b")␊7 StoreLocal("a")␊8 Lookup("t")␊9 JumpIfFalse(12)␊10 EmitRaw("o")␊11 Jump(13)␊12 EmitRaw("x")␊13 Return␊14 Enclose("c")␊15 Enclose("t")␊16 GetClosure␊17 LoadConst(["a", "b"])␊18 BuildMacro("m", 1, 0)␊19 StoreLocal("m")␊hint 4␊
{% macro m(a, b=c) %}{% if t %}o{% elif u %}x{% endif %}{% endmacro %} => 0 Jump(16)␊1 DupTop␊2 IsUndefined␊3 JumpIfFalse(6)␊4 DiscardTop␊5 Lookup("c")␊6 StoreLocal("b")␊7 StoreLocal("a")␊8 Lookup("t")␊9 JumpIfFalse(12)␊10 EmitRaw("o")␊11 Jump(15)␊12 Lookup("u")␊13 JumpIfFalse(15)␊14 EmitRaw("x")␊15 Return␊16 Enclose("c")␊17 Enclose("t")␊18 Enclose("u")␊19 GetClosure␊20 LoadConst(["a", "b"])␊21 BuildMacro("m", 1, 0)␊22 StoreLocal("m")␊hint 4␊
{% macro m(a, b=c) %}{% with r = 1 %}x{% endwith %}{% endmacro %} => 0 Jump(14)␊1 DupTop␊2 IsUndefined␊3 JumpIfFalse(6)␊4 DiscardTop␊5 Lookup("c")␊6 StoreLocal("b")␊7 StoreLocal("a")␊8 PushWith␊9 LoadConst(1)␊10 StoreLocal("r")␊11 EmitRaw("x")␊12 PopFrame␊13 Return␊14 Enclose("c")␊15 GetClosure␊16 LoadConst(["a", "b"])␊17 BuildMacro("m", 1, 0)␊18 StoreLocal("m")␊hint 2␊
{% macro m(a, b=c) %}{% set q %}x{% endset %}{% endmacro %} => 0 Jump(13)␊1 DupTop␊2 IsUndefined␊3 JumpIfFalse(6)␊4 DiscardTop␊5 Lookup("c")␊6 StoreLocal("b")␊7 StoreLocal("a")␊8 BeginCapture(Capture)␊9 EmitRaw("x")␊10 EndCapture␊11 StoreLocal("q")␊12 Return␊13 Enclose("c")␊14 GetClosure␊15 LoadConst(["a", "b"])␊16 BuildMacro("m", 1, 0)␊17 StoreLocal("m")␊hint 2␊
{% macro m(a, b=c) %}{% filter g %}x{% endfilter %}{% endmacro %} => 0 Jump(14)␊1 DupTop␊2 IsUndefined␊3 JumpIfFalse(6)␊4 DiscardTop␊5 Lookup("c")␊6 StoreLocal("b")␊7 StoreLocal("a")␊8 BeginCapture(Capture)␊9 EmitRaw("x")␊10 EndCapture␊11 ApplyFilter("g", 1, 0)␊12 Emit␊13 Return␊14 Enclose("c")␊15 GetClosure␊16 LoadConst(["a", "b"])␊17 BuildMacro("m", 1, 0)␊18 StoreLocal("m")␊hint 2␊
{% macro m(a, b=c) %}{% autoescape true %}x{% endautoescape %}{% endmacro %} => 0 Jump(13)␊1 DupTop␊2 IsUndefined␊3 JumpIfFalse(6)␊4 DiscardTop␊5 Lookup("c")␊6 StoreLocal("b")␊7 StoreLocal("a")␊8 LoadConst(true)␊9 PushAutoEscape␊10 EmitRaw("x")␊11 PopAutoEscape␊12 Return␊13 Enclose("c")␊14 GetClosure␊15 LoadConst(["a", "b"])␊16 BuildMacro("m", 1, 0)␊17 StoreLocal("m")␊hint 2␊
{% macro m(a, b=c) %}{% call(p) g() %}x{% endcall %}{% endmacro %} => 0 Jump(20)␊1 DupTop␊2 IsUndefined␊3 JumpIfFalse(6)␊4 DiscardTop␊5 Lookup("c")␊6 StoreLocal("b")␊7 StoreLocal("a")␊8 LoadConst("caller")␊9 Jump(13)␊10 StoreLocal("p")␊11 EmitRaw("x")␊12 Return␊13 GetClosure␊14 LoadConst(["p"])␊15 BuildMacro("caller", 10, 0)␊16 BuildKwargs(1)␊17 CallFunction("g", 1)␊18 Emit␊19 Return␊20 Enclose("c")␊21 Enclose("g")␊22 GetClosure␊23 LoadConst(["a", "b"])␊24 BuildMacro("m", 1, 0)␊25 StoreLocal("m")␊hint 2␊
{% macro m(a, b=c) %}{% extends 'p' %}{% endmacro %} => 0 Jump(11)␊1 DupTop␊2 IsUndefined␊3 JumpIfFalse(6)␊4 DiscardTop␊5 Lookup("c")␊6 StoreLocal("b")␊7 StoreLocal("a")␊8 LoadConst("p")␊9 LoadBlocks␊10 Return␊11 Enclose("c")␊12 GetClosure␊13 LoadConst(["a", "b"])␊14 BuildMacro("m", 1, 0)␊15 StoreLocal("m")␊hint 1␊
{% macro m(a, b=c) %}{% include 'p' ignore missing %}{% endmacro %} => 0 Jump(11)␊1 DupTop␊2 IsUndefined␊3 JumpIfFalse(6)␊4 DiscardTop␊5 Lookup("c")␊6 StoreLocal("b")␊7 StoreLocal("a")␊8 LoadConst("p")␊9 Include(true)␊10 Return␊11 Enclose("c")␊12 GetClosure␊13 LoadConst(["a", "b"])␊14 BuildMacro("m", 1, 0)␊15 StoreLocal("m")␊hint 1␊
"#;
    hold::<Code>(rt.alloc(), rows)
}

/// Rows that differ from the upstream program's: a macro encloses what its defaults name, and a
/// `DiscardTop` drops what is left.
#[test]
fn what_differs_in_a_macro(rt: HostRuntime) -> Result<(), Fail> {
    let rows = r#"
{% macro m(a, b=c) %}{% macro k(p, q=p) %}x{% endmacro %}{% endmacro %} => 0 Jump(24)␊1 DupTop␊2 IsUndefined␊3 JumpIfFalse(6)␊4 DiscardTop␊5 Lookup("c")␊6 StoreLocal("b")␊7 StoreLocal("a")␊8 Jump(18)␊9 DupTop␊10 IsUndefined␊11 JumpIfFalse(14)␊12 DiscardTop␊13 Lookup("p")␊14 StoreLocal("q")␊15 StoreLocal("p")␊16 EmitRaw("x")␊17 Return␊18 Enclose("p")␊19 GetClosure␊20 LoadConst(["p", "q"])␊21 BuildMacro("k", 9, 0)␊22 StoreLocal("k")␊23 Return␊24 Enclose("c")␊25 Enclose("p")␊26 GetClosure␊27 LoadConst(["a", "b"])␊28 BuildMacro("m", 1, 0)␊29 StoreLocal("m")␊hint 2␊
{% macro m(a, b=c) %}{% import 'p' as i %}{% endmacro %} => 0 Jump(18)␊1 DupTop␊2 IsUndefined␊3 JumpIfFalse(6)␊4 DiscardTop␊5 Lookup("c")␊6 StoreLocal("b")␊7 StoreLocal("a")␊8 BeginCapture(Capture)␊9 PushWith␊10 LoadConst("p")␊11 Include(false)␊12 EndCapture␊13 DiscardTop␊14 ExportLocals␊15 PopFrame␊16 StoreLocal("i")␊17 Return␊18 Enclose("c")␊19 GetClosure␊20 LoadConst(["a", "b"])␊21 BuildMacro("m", 1, 0)␊22 StoreLocal("m")␊hint 1␊
{% macro m(a, b=c) %}{% from 'p' import g, h as k %}{% endmacro %} => 0 Jump(20)␊1 DupTop␊2 IsUndefined␊3 JumpIfFalse(6)␊4 DiscardTop␊5 Lookup("c")␊6 StoreLocal("b")␊7 StoreLocal("a")␊8 BeginCapture(Discard)␊9 PushWith␊10 LoadConst("p")␊11 Include(false)␊12 Lookup("g")␊13 Lookup("h")␊14 PopFrame␊15 StoreLocal("k")␊16 StoreLocal("g")␊17 EndCapture␊18 DiscardTop␊19 Return␊20 Enclose("c")␊21 GetClosure␊22 LoadConst(["a", "b"])␊23 BuildMacro("m", 1, 0)␊24 StoreLocal("m")␊hint 1␊
{% macro m(a, b=c) %}{% do f(x) %}{% endmacro %} => 0 Jump(12)␊1 DupTop␊2 IsUndefined␊3 JumpIfFalse(6)␊4 DiscardTop␊5 Lookup("c")␊6 StoreLocal("b")␊7 StoreLocal("a")␊8 Lookup("x")␊9 CallFunction("f", 1)␊10 DiscardTop␊11 Return␊12 Enclose("c")␊13 Enclose("f")␊14 Enclose("x")␊15 GetClosure␊16 LoadConst(["a", "b"])␊17 BuildMacro("m", 1, 0)␊18 StoreLocal("m")␊hint 1␊
"#;
    hold::<Code>(rt.alloc(), rows)
}

/// A macro in each statement.
#[test]
fn a_macro_in_each_statement(rt: HostRuntime) -> Result<(), Fail> {
    let rows = r#"
{% for x in y %}{% macro m(a, b=c) %}v{% endmacro %}{% endfor %} => 0 Lookup("y")␊1 PushLoop(1)␊2 Iterate(20)␊3 StoreLocal("x")␊4 Jump(14)␊5 DupTop␊6 IsUndefined␊7 JumpIfFalse(10)␊8 DiscardTop␊9 Lookup("c")␊10 StoreLocal("b")␊11 StoreLocal("a")␊12 EmitRaw("v")␊13 Return␊14 Enclose("c")␊15 GetClosure␊16 LoadConst(["a", "b"])␊17 BuildMacro("m", 5, 0)␊18 StoreLocal("m")␊19 Jump(2)␊20 PopLoopFrame␊hint 2␊
{% for x in y %}a{% else %}{% macro m(a, b=c) %}v{% endmacro %}{% endfor %} => 0 Lookup("y")␊1 PushLoop(1)␊2 Iterate(6)␊3 StoreLocal("x")␊4 EmitRaw("a")␊5 Jump(2)␊6 PushDidNotIterate␊7 PopLoopFrame␊8 JumpIfFalse(24)␊9 Jump(19)␊10 DupTop␊11 IsUndefined␊12 JumpIfFalse(15)␊13 DiscardTop␊14 Lookup("c")␊15 StoreLocal("b")␊16 StoreLocal("a")␊17 EmitRaw("v")␊18 Return␊19 Enclose("c")␊20 GetClosure␊21 LoadConst(["a", "b"])␊22 BuildMacro("m", 10, 0)␊23 StoreLocal("m")␊hint 4␊
{% if c %}{% macro m(a, b=c) %}v{% endmacro %}{% endif %} => 0 Lookup("c")␊1 JumpIfFalse(17)␊2 Jump(12)␊3 DupTop␊4 IsUndefined␊5 JumpIfFalse(8)␊6 DiscardTop␊7 Lookup("c")␊8 StoreLocal("b")␊9 StoreLocal("a")␊10 EmitRaw("v")␊11 Return␊12 Enclose("c")␊13 GetClosure␊14 LoadConst(["a", "b"])␊15 BuildMacro("m", 3, 0)␊16 StoreLocal("m")␊hint 2␊
{% if c %}a{% else %}{% macro m(a, b=c) %}v{% endmacro %}{% endif %} => 0 Lookup("c")␊1 JumpIfFalse(4)␊2 EmitRaw("a")␊3 Jump(19)␊4 Jump(14)␊5 DupTop␊6 IsUndefined␊7 JumpIfFalse(10)␊8 DiscardTop␊9 Lookup("c")␊10 StoreLocal("b")␊11 StoreLocal("a")␊12 EmitRaw("v")␊13 Return␊14 Enclose("c")␊15 GetClosure␊16 LoadConst(["a", "b"])␊17 BuildMacro("m", 5, 0)␊18 StoreLocal("m")␊hint 4␊
{% if c %}a{% elif d %}{% macro m(a, b=c) %}v{% endmacro %}{% else %}e{% endif %} => 0 Lookup("c")␊1 JumpIfFalse(4)␊2 EmitRaw("a")␊3 Jump(23)␊4 Lookup("d")␊5 JumpIfFalse(22)␊6 Jump(16)␊7 DupTop␊8 IsUndefined␊9 JumpIfFalse(12)␊10 DiscardTop␊11 Lookup("c")␊12 StoreLocal("b")␊13 StoreLocal("a")␊14 EmitRaw("v")␊15 Return␊16 Enclose("c")␊17 GetClosure␊18 LoadConst(["a", "b"])␊19 BuildMacro("m", 7, 0)␊20 StoreLocal("m")␊21 Jump(23)␊22 EmitRaw("e")␊hint 8␊
{% with a = 1 %}{% macro m(a, b=c) %}v{% endmacro %}{% endwith %} => 0 PushWith␊1 LoadConst(1)␊2 StoreLocal("a")␊3 Jump(13)␊4 DupTop␊5 IsUndefined␊6 JumpIfFalse(9)␊7 DiscardTop␊8 Lookup("c")␊9 StoreLocal("b")␊10 StoreLocal("a")␊11 EmitRaw("v")␊12 Return␊13 Enclose("c")␊14 GetClosure␊15 LoadConst(["a", "b"])␊16 BuildMacro("m", 4, 0)␊17 StoreLocal("m")␊18 PopFrame␊hint 2␊
{% set s | f %}{% macro m(a, b=c) %}v{% endmacro %}{% endset %} => 0 BeginCapture(Capture)␊1 Jump(11)␊2 DupTop␊3 IsUndefined␊4 JumpIfFalse(7)␊5 DiscardTop␊6 Lookup("c")␊7 StoreLocal("b")␊8 StoreLocal("a")␊9 EmitRaw("v")␊10 Return␊11 Enclose("c")␊12 GetClosure␊13 LoadConst(["a", "b"])␊14 BuildMacro("m", 2, 0)␊15 StoreLocal("m")␊16 EndCapture␊17 ApplyFilter("f", 1, 0)␊18 StoreLocal("s")␊hint 2␊
{% filter f(x) %}{% macro m(a, b=c) %}v{% endmacro %}{% endfilter %} => 0 BeginCapture(Capture)␊1 Jump(11)␊2 DupTop␊3 IsUndefined␊4 JumpIfFalse(7)␊5 DiscardTop␊6 Lookup("c")␊7 StoreLocal("b")␊8 StoreLocal("a")␊9 EmitRaw("v")␊10 Return␊11 Enclose("c")␊12 GetClosure␊13 LoadConst(["a", "b"])␊14 BuildMacro("m", 2, 0)␊15 StoreLocal("m")␊16 EndCapture␊17 Lookup("x")␊18 ApplyFilter("f", 2, 0)␊19 Emit␊hint 2␊
{% autoescape z %}{% macro m(a, b=c) %}v{% endmacro %}{% endautoescape %} => 0 Lookup("z")␊1 PushAutoEscape␊2 Jump(12)␊3 DupTop␊4 IsUndefined␊5 JumpIfFalse(8)␊6 DiscardTop␊7 Lookup("c")␊8 StoreLocal("b")␊9 StoreLocal("a")␊10 EmitRaw("v")␊11 Return␊12 Enclose("c")␊13 GetClosure␊14 LoadConst(["a", "b"])␊15 BuildMacro("m", 3, 0)␊16 StoreLocal("m")␊17 PopAutoEscape␊hint 2␊
"#;
    hold::<Code>(rt.alloc(), rows)
}

/// A macro encloses all that it uses before it has it: these are the upstream program's except for
/// what it does not see, or sees too late.
#[test]
fn what_a_macro_encloses(rt: HostRuntime) -> Result<(), Fail> {
    let rows = r#"
{% macro f(a, b=a) %}{% endmacro %} => 0 Jump(9)␊1 DupTop␊2 IsUndefined␊3 JumpIfFalse(6)␊4 DiscardTop␊5 Lookup("a")␊6 StoreLocal("b")␊7 StoreLocal("a")␊8 Return␊9 Enclose("a")␊10 GetClosure␊11 LoadConst(["a", "b"])␊12 BuildMacro("f", 1, 0)␊13 StoreLocal("f")␊hint 1␊
{% macro f() %}{% set x = x %}{% endmacro %} => 0 Jump(4)␊1 Lookup("x")␊2 StoreLocal("x")␊3 Return␊4 Enclose("x")␊5 GetClosure␊6 LoadConst([])␊7 BuildMacro("f", 1, 0)␊8 StoreLocal("f")␊hint 1␊
{% macro f() %}{% with a = a %}{{ a }}{% endwith %}{% endmacro %} => 0 Jump(8)␊1 PushWith␊2 Lookup("a")␊3 StoreLocal("a")␊4 Lookup("a")␊5 Emit␊6 PopFrame␊7 Return␊8 Enclose("a")␊9 GetClosure␊10 LoadConst([])␊11 BuildMacro("f", 1, 0)␊12 StoreLocal("f")␊hint 1␊
{% macro f() %}{{ x[1:] }}{% endmacro %} => 0 Jump(8)␊1 Lookup("x")␊2 LoadConst(1)␊3 LoadConst(none)␊4 LoadConst(none)␊5 Slice␊6 Emit␊7 Return␊8 Enclose("x")␊9 GetClosure␊10 LoadConst([])␊11 BuildMacro("f", 1, 0)␊12 StoreLocal("f")␊hint 1␊
{% macro f() %}{% include p %}{% extends q %}{% import r as s %}{% from t import u as v, w %}{{ s }}{{ u }}{{ v }}{{ w }}{% endmacro %} => 0 Jump(34)␊1 Lookup("p")␊2 Include(false)␊3 Lookup("q")␊4 LoadBlocks␊5 BeginCapture(Capture)␊6 PushWith␊7 Lookup("r")␊8 Include(false)␊9 EndCapture␊10 DiscardTop␊11 ExportLocals␊12 PopFrame␊13 StoreLocal("s")␊14 BeginCapture(Discard)␊15 PushWith␊16 Lookup("t")␊17 Include(false)␊18 Lookup("u")␊19 Lookup("w")␊20 PopFrame␊21 StoreLocal("w")␊22 StoreLocal("v")␊23 EndCapture␊24 DiscardTop␊25 Lookup("s")␊26 Emit␊27 Lookup("u")␊28 Emit␊29 Lookup("v")␊30 Emit␊31 Lookup("w")␊32 Emit␊33 Return␊34 Enclose("p")␊35 Enclose("q")␊36 Enclose("r")␊37 Enclose("t")␊38 Enclose("u")␊39 GetClosure␊40 LoadConst([])␊41 BuildMacro("f", 1, 0)␊42 StoreLocal("f")␊hint 1␊
{% macro f() %}{% autoescape x %}{% endautoescape %}{% filter g(y) %}{% endfilter %}{% set z | g(w) %}{% endset %}{% endmacro %} => 0 Jump(15)␊1 Lookup("x")␊2 PushAutoEscape␊3 PopAutoEscape␊4 BeginCapture(Capture)␊5 EndCapture␊6 Lookup("y")␊7 ApplyFilter("g", 2, 0)␊8 Emit␊9 BeginCapture(Capture)␊10 EndCapture␊11 Lookup("w")␊12 ApplyFilter("g", 2, 0)␊13 StoreLocal("z")␊14 Return␊15 Enclose("w")␊16 Enclose("x")␊17 Enclose("y")␊18 GetClosure␊19 LoadConst([])␊20 BuildMacro("f", 1, 0)␊21 StoreLocal("f")␊hint 1␊
{% macro f() %}{% for a in loop %}{% endfor %}{% endmacro %} => 0 Jump(8)␊1 Lookup("loop")␊2 PushLoop(1)␊3 Iterate(6)␊4 StoreLocal("a")␊5 Jump(3)␊6 PopLoopFrame␊7 Return␊8 Enclose("loop")␊9 GetClosure␊10 LoadConst([])␊11 BuildMacro("f", 1, 0)␊12 StoreLocal("f")␊hint 1␊
{% macro f() %}{% set a.b = c %}{% for x in y if x %}{% else %}{{ x }}{% endfor %}{% endmacro %} => 0 Jump(30)␊1 Lookup("c")␊2 Lookup("a")␊3 SetAttr("b")␊4 LoadConst(0)␊5 Lookup("y")␊6 PushLoop(0)␊7 Iterate(18)␊8 DupTop␊9 StoreLocal("x")␊10 Lookup("x")␊11 JumpIfFalse(16)␊12 Swap␊13 LoadConst(1)␊14 Add␊15 Jump(17)␊16 DiscardTop␊17 Jump(7)␊18 PopLoopFrame␊19 BuildList(none)␊20 PushLoop(1)␊21 Iterate(24)␊22 StoreLocal("x")␊23 Jump(21)␊24 PushDidNotIterate␊25 PopLoopFrame␊26 JumpIfFalse(29)␊27 Lookup("x")␊28 Emit␊29 Return␊30 Enclose("a")␊31 Enclose("c")␊32 Enclose("x")␊33 Enclose("y")␊34 GetClosure␊35 LoadConst([])␊36 BuildMacro("f", 1, 0)␊37 StoreLocal("f")␊hint 1␊
"#;
    hold::<Code>(rt.alloc(), rows)
}

#[test]
fn refuses_what_is_no_macro(rt: HostRuntime) -> Result<(), Fail> {
    let rows = r#"
{% macro f %}{% endmacro %} => ! 1 mjc: SyntaxError
{% macro () %}{% endmacro %} => ! 1 mjc: SyntaxError
{% macro f(a=1, b) %}{% endmacro %} => ! 1 mjc: SyntaxError
{% macro f(loop) %}{% endmacro %} => ! 1 mjc: SyntaxError
{% macro f(self) %}{% endmacro %} => ! 1 mjc: SyntaxError
{% macro f(none) %}{% endmacro %} => ! 1 mjc: SyntaxError
{% macro f(a.b) %}{% endmacro %} => ! 1 mjc: SyntaxError
{% macro f((a, b)) %}{% endmacro %} => ! 1 mjc: SyntaxError
{% macro f(*a) %}{% endmacro %} => ! 1 mjc: SyntaxError
{% macro f(,) %}{% endmacro %} => ! 1 mjc: SyntaxError
{% macro f(a b) %}{% endmacro %} => ! 1 mjc: SyntaxError
{% macro f(a=) %}{% endmacro %} => ! 1 mjc: SyntaxError
{% macro f.g() %}{% endmacro %} => ! 1 mjc: SyntaxError
{% macro f() %} => ! 1 mjc: SyntaxError
{% macro f() %}{% endmacro f %} => ! 1 mjc: SyntaxError
{% macro f() %}{% endcall %} => ! 1 mjc: SyntaxError
{% endmacro %} => ! 1 mjc: SyntaxError
{% for x in y %}{% macro f() %}{% break %}{% endmacro %}{% endfor %} => ! 1 mjc: SyntaxError
{% for x in y %}{% macro f() %}{% continue %}{% endmacro %}{% endfor %} => ! 1 mjc: SyntaxError
"#;
    hold::<RefusedSomewhere>(rt.alloc(), rows)
}

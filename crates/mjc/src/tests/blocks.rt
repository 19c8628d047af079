//! Blocks, and the list of each.
//!
//! Unless a test says otherwise, its rows are the upstream program's.
use super::Code;
use super::statements::RefusedSomewhere;
use minijinja_test_rows::rows::hold;
use std::test::Fail;

#[test]
fn each_block_has_a_list(rt: HostRuntime) -> Result<(), Fail> {
    let rows = r#"
{% block a %}xyz{% endblock %} => 0 CallBlock("a")␊block a␊0 EmitRaw("xyz")␊hint 1␊
{% block a %}{% block b %}x{% endblock b %}{% endblock %} => 0 CallBlock("a")␊block a␊0 CallBlock("b")␊block b␊0 EmitRaw("x")␊hint 1␊
{% block b %}1{% endblock %}{% block a %}2{% endblock %}{{ self.b() }} => 0 CallBlock("b")␊1 CallBlock("a")␊2 CallBlock("b")␊block a␊0 EmitRaw("2")␊block b␊0 EmitRaw("1")␊hint 1␊
{% block a required %} {# c #} {% endblock %} => 0 CallBlock("a")␊block a␊0 EmitRaw(" ")␊1 EmitRaw(" ")␊hint 1␊
{% block a required %}{% endblock a %} => 0 CallBlock("a")␊block a␊hint 1␊
{% block a scoped %}x{% endblock %} => 0 CallBlock("a")␊block a␊0 EmitRaw("x")␊hint 1␊
{% block a scoped required %}␊{% endblock %} => 0 CallBlock("a")␊block a␊0 EmitRaw("\n")␊hint 1␊
{% block a %}{{ super() }}{% endblock %} => 0 CallBlock("a")␊block a␊0 FastSuper␊hint 1␊
{% block true %}x{% endblock true %} => 0 CallBlock("true")␊block true␊0 EmitRaw("x")␊hint 1␊
{% block scoped %}x{% endblock scoped %} => 0 CallBlock("scoped")␊block scoped␊0 EmitRaw("x")␊hint 1␊
{% block a %}{% for x in y %}{% break %}{% endfor %}{% endblock %} => 0 CallBlock("a")␊block a␊0 Lookup("y")␊1 PushLoop(1)␊2 Iterate(6)␊3 StoreLocal("x")␊4 Jump(6)␊5 Jump(2)␊6 PopLoopFrame␊hint 1␊
{% for x in y %}{% block a %}{{ x }}{% endblock %}{% endfor %} => 0 Lookup("y")␊1 PushLoop(1)␊2 Iterate(6)␊3 StoreLocal("x")␊4 CallBlock("a")␊5 Jump(2)␊6 PopLoopFrame␊block a␊0 Lookup("x")␊1 Emit␊hint 1␊
{% block a %}{{ x|f }}{{ x is t }}{% endblock %}{{ x|g|f }}{{ x is u }} => 0 CallBlock("a")␊1 Lookup("x")␊2 ApplyFilter("g", 1, 0)␊3 ApplyFilter("f", 1, 1)␊4 Emit␊5 Lookup("x")␊6 PerformTest("u", 1, 0)␊7 Emit␊block a␊0 Lookup("x")␊1 ApplyFilter("f", 1, 0)␊2 Emit␊3 Lookup("x")␊4 PerformTest("t", 1, 0)␊5 Emit␊hint 1␊
{% block a %}abcdefgh{% endblock %}ab => 0 CallBlock("a")␊1 EmitRaw("ab")␊block a␊0 EmitRaw("abcdefgh")␊hint 4␊
{% block é %}x{% endblock é %}{% block a1 %}{% endblock %}{% block B %}{% endblock %} => 0 CallBlock("é")␊1 CallBlock("a1")␊2 CallBlock("B")␊block B␊block a1␊block é␊0 EmitRaw("x")␊hint 1␊
{% extends 'p' %}{% block a %}x{% endblock %} => 0 LoadConst("p")␊1 LoadBlocks␊2 CallBlock("a")␊block a␊0 EmitRaw("x")␊hint 1␊
{% extends 'p' %} => 0 LoadConst("p")␊1 LoadBlocks␊hint 1␊
{% extends a if b else c %} => 0 Lookup("b")␊1 JumpIfFalse(4)␊2 Lookup("a")␊3 Jump(5)␊4 Lookup("c")␊5 LoadBlocks␊hint 1␊
"#;
    hold::<Code>(rt.alloc(), rows)
}

/// Each statement in a block.
#[test]
fn each_statement_in_a_block(rt: HostRuntime) -> Result<(), Fail> {
    let rows = r#"
{% block b %}x{% endblock %} => 0 CallBlock("b")␊block b␊0 EmitRaw("x")␊hint 1␊
{% block b %}{% for v in w %}x{% endfor %}{% endblock %} => 0 CallBlock("b")␊block b␊0 Lookup("w")␊1 PushLoop(1)␊2 Iterate(6)␊3 StoreLocal("v")␊4 EmitRaw("x")␊5 Jump(2)␊6 PopLoopFrame␊hint 1␊
{% block b %}{% for v in w %}o{% else %}x{% endfor %}{% endblock %} => 0 CallBlock("b")␊block b␊0 Lookup("w")␊1 PushLoop(1)␊2 Iterate(6)␊3 StoreLocal("v")␊4 EmitRaw("o")␊5 Jump(2)␊6 PushDidNotIterate␊7 PopLoopFrame␊8 JumpIfFalse(10)␊9 EmitRaw("x")␊hint 1␊
{% block b %}{% if t %}x{% endif %}{% endblock %} => 0 CallBlock("b")␊block b␊0 Lookup("t")␊1 JumpIfFalse(3)␊2 EmitRaw("x")␊hint 1␊
{% block b %}{% if t %}o{% else %}x{% endif %}{% endblock %} => 0 CallBlock("b")␊block b␊0 Lookup("t")␊1 JumpIfFalse(4)␊2 EmitRaw("o")␊3 Jump(5)␊4 EmitRaw("x")␊hint 1␊
{% block b %}{% if t %}o{% elif u %}x{% endif %}{% endblock %} => 0 CallBlock("b")␊block b␊0 Lookup("t")␊1 JumpIfFalse(4)␊2 EmitRaw("o")␊3 Jump(7)␊4 Lookup("u")␊5 JumpIfFalse(7)␊6 EmitRaw("x")␊hint 1␊
{% block b %}{% with r = 1 %}x{% endwith %}{% endblock %} => 0 CallBlock("b")␊block b␊0 PushWith␊1 LoadConst(1)␊2 StoreLocal("r")␊3 EmitRaw("x")␊4 PopFrame␊hint 1␊
{% block b %}{% set q %}x{% endset %}{% endblock %} => 0 CallBlock("b")␊block b␊0 BeginCapture(Capture)␊1 EmitRaw("x")␊2 EndCapture␊3 StoreLocal("q")␊hint 1␊
{% block b %}{% filter g %}x{% endfilter %}{% endblock %} => 0 CallBlock("b")␊block b␊0 BeginCapture(Capture)␊1 EmitRaw("x")␊2 EndCapture␊3 ApplyFilter("g", 1, 0)␊4 Emit␊hint 1␊
{% block b %}{% autoescape true %}x{% endautoescape %}{% endblock %} => 0 CallBlock("b")␊block b␊0 LoadConst(true)␊1 PushAutoEscape␊2 EmitRaw("x")␊3 PopAutoEscape␊hint 1␊
{% block b %}{% block n required %} {% endblock n %}{% endblock %} => 0 CallBlock("b")␊block b␊0 CallBlock("n")␊block n␊0 EmitRaw(" ")␊hint 1␊
{% block b %}{% call(p) g() %}x{% endcall %}{% endblock %} => 0 CallBlock("b")␊block b␊0 LoadConst("caller")␊1 Jump(5)␊2 StoreLocal("p")␊3 EmitRaw("x")␊4 Return␊5 GetClosure␊6 LoadConst(["p"])␊7 BuildMacro("caller", 2, 0)␊8 BuildKwargs(1)␊9 CallFunction("g", 1)␊10 Emit␊hint 1␊
{% block b %}{% extends 'p' %}{% endblock %} => 0 CallBlock("b")␊block b␊0 LoadConst("p")␊1 LoadBlocks␊hint 1␊
{% block b %}{% include 'p' ignore missing %}{% endblock %} => 0 CallBlock("b")␊block b␊0 LoadConst("p")␊1 Include(true)␊hint 1␊
"#;
    hold::<Code>(rt.alloc(), rows)
}

/// Rows that differ from the upstream program's: a macro encloses what its defaults name, and a
/// `DiscardTop` drops what is left.
#[test]
fn what_differs_in_a_block(rt: HostRuntime) -> Result<(), Fail> {
    let rows = r#"
{% block b %}{% macro k(p, q=p) %}x{% endmacro %}{% endblock %} => 0 CallBlock("b")␊block b␊0 Jump(10)␊1 DupTop␊2 IsUndefined␊3 JumpIfFalse(6)␊4 DiscardTop␊5 Lookup("p")␊6 StoreLocal("q")␊7 StoreLocal("p")␊8 EmitRaw("x")␊9 Return␊10 Enclose("p")␊11 GetClosure␊12 LoadConst(["p", "q"])␊13 BuildMacro("k", 1, 0)␊14 StoreLocal("k")␊hint 1␊
{% block b %}{% import 'p' as i %}{% endblock %} => 0 CallBlock("b")␊block b␊0 BeginCapture(Capture)␊1 PushWith␊2 LoadConst("p")␊3 Include(false)␊4 EndCapture␊5 DiscardTop␊6 ExportLocals␊7 PopFrame␊8 StoreLocal("i")␊hint 1␊
{% block b %}{% from 'p' import g, h as k %}{% endblock %} => 0 CallBlock("b")␊block b␊0 BeginCapture(Discard)␊1 PushWith␊2 LoadConst("p")␊3 Include(false)␊4 Lookup("g")␊5 Lookup("h")␊6 PopFrame␊7 StoreLocal("k")␊8 StoreLocal("g")␊9 EndCapture␊10 DiscardTop␊hint 1␊
{% block b %}{% do f(x) %}{% endblock %} => 0 CallBlock("b")␊block b␊0 Lookup("x")␊1 CallFunction("f", 1)␊2 DiscardTop␊hint 1␊
"#;
    hold::<Code>(rt.alloc(), rows)
}

/// A block in each statement.
#[test]
fn a_block_in_each_statement(rt: HostRuntime) -> Result<(), Fail> {
    let rows = r#"
{% for x in y %}{% block b %}v{% endblock %}{% endfor %} => 0 Lookup("y")␊1 PushLoop(1)␊2 Iterate(6)␊3 StoreLocal("x")␊4 CallBlock("b")␊5 Jump(2)␊6 PopLoopFrame␊block b␊0 EmitRaw("v")␊hint 1␊
{% for x in y %}a{% else %}{% block b %}v{% endblock %}{% endfor %} => 0 Lookup("y")␊1 PushLoop(1)␊2 Iterate(6)␊3 StoreLocal("x")␊4 EmitRaw("a")␊5 Jump(2)␊6 PushDidNotIterate␊7 PopLoopFrame␊8 JumpIfFalse(10)␊9 CallBlock("b")␊block b␊0 EmitRaw("v")␊hint 2␊
{% if c %}{% block b %}v{% endblock %}{% endif %} => 0 Lookup("c")␊1 JumpIfFalse(3)␊2 CallBlock("b")␊block b␊0 EmitRaw("v")␊hint 1␊
{% if c %}a{% else %}{% block b %}v{% endblock %}{% endif %} => 0 Lookup("c")␊1 JumpIfFalse(4)␊2 EmitRaw("a")␊3 Jump(5)␊4 CallBlock("b")␊block b␊0 EmitRaw("v")␊hint 2␊
{% if c %}a{% elif d %}{% block b %}v{% endblock %}{% else %}e{% endif %} => 0 Lookup("c")␊1 JumpIfFalse(4)␊2 EmitRaw("a")␊3 Jump(9)␊4 Lookup("d")␊5 JumpIfFalse(8)␊6 CallBlock("b")␊7 Jump(9)␊8 EmitRaw("e")␊block b␊0 EmitRaw("v")␊hint 4␊
{% with a = 1 %}{% block b %}v{% endblock %}{% endwith %} => 0 PushWith␊1 LoadConst(1)␊2 StoreLocal("a")␊3 CallBlock("b")␊4 PopFrame␊block b␊0 EmitRaw("v")␊hint 1␊
{% set s | f %}{% block b %}v{% endblock %}{% endset %} => 0 BeginCapture(Capture)␊1 CallBlock("b")␊2 EndCapture␊3 ApplyFilter("f", 1, 0)␊4 StoreLocal("s")␊block b␊0 EmitRaw("v")␊hint 1␊
{% filter f(x) %}{% block b %}v{% endblock %}{% endfilter %} => 0 BeginCapture(Capture)␊1 CallBlock("b")␊2 EndCapture␊3 Lookup("x")␊4 ApplyFilter("f", 2, 0)␊5 Emit␊block b␊0 EmitRaw("v")␊hint 1␊
{% autoescape z %}{% block b %}v{% endblock %}{% endautoescape %} => 0 Lookup("z")␊1 PushAutoEscape␊2 CallBlock("b")␊3 PopAutoEscape␊block b␊0 EmitRaw("v")␊hint 1␊
"#;
    hold::<Code>(rt.alloc(), rows)
}

#[test]
fn refuses_what_is_no_block(rt: HostRuntime) -> Result<(), Fail> {
    let rows = r#"
{% block a required %}x{% endblock %} => ! 1 mjc: SyntaxError
{% block a required %}{{ x }}{% endblock %} => ! 1 mjc: SyntaxError
{% block a required %}{% if x %}{% endif %}{% endblock %} => ! 1 mjc: SyntaxError
{% block a required %} {% block b %}{% endblock %}{% endblock %} => ! 1 mjc: SyntaxError
{% block a %}{% endblock %}{% block a %}{% endblock %} => ! 1 mjc: SyntaxError
{% block a %}{% block a %}{% endblock %}{% endblock %} => ! 1 mjc: SyntaxError
{% if x %}{% block a %}{% endblock %}{% else %}{% block a %}{% endblock %}{% endif %} => ! 1 mjc: SyntaxError
{% block a %}{% endblock b %} => ! 1 mjc: SyntaxError
{% block a %}{% block b %}{% endblock a %}{% endblock b %} => ! 1 mjc: SyntaxError
{% block a %} => ! 1 mjc: SyntaxError
{% block a %}{% endfor %} => ! 1 mjc: SyntaxError
{% block %}{% endblock %} => ! 1 mjc: SyntaxError
{% block "a" %}{% endblock %} => ! 1 mjc: SyntaxError
{% block a b %}{% endblock %} => ! 1 mjc: SyntaxError
{% block a required scoped %}{% endblock %} => ! 1 mjc: SyntaxError
{% block a.b %}{% endblock %} => ! 1 mjc: SyntaxError
{% endblock %} => ! 1 mjc: SyntaxError
{% for x in y %}{% block a %}{% break %}{% endblock %}{% endfor %} => ! 1 mjc: SyntaxError
{% for x in y %}{% block a %}{% continue %}{% endblock %}{% endfor %} => ! 1 mjc: SyntaxError
{% macro m() %}{% block a %}{% endblock %}{% endmacro %} => ! 1 mjc: SyntaxError
{% macro m() %}{% if x %}{% block a %}{% endblock %}{% endif %}{% endmacro %} => ! 1 mjc: SyntaxError
{% call f() %}{% block a %}{% endblock %}{% endcall %} => ! 1 mjc: SyntaxError
{% call self.b() %}{% block a %}{% endblock %}{% endcall %} => ! 1 mjc: SyntaxError
{% extends %} => ! 1 mjc: SyntaxError
{% extends 'a', 'b' %} => ! 1 mjc: SyntaxError
"#;
    hold::<RefusedSomewhere>(rt.alloc(), rows)
}

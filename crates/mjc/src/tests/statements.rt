//! The code of statements.
//!
//! Unless a test says otherwise, its rows are the upstream program's.
use super::words::Commands;
use super::{CODE, Code, output};
use minijinja_test_rows::rows::{Subject, hold, parted};
use std::alloc::Global;
use std::test::Fail;

/// Each statement by itself.
#[test]
fn each_statement_alone(rt: HostRuntime) -> Result<(), Fail> {
    let rows = r#"
{% for x in y %}x{% endfor %} => 0 Lookup("y")␊1 PushLoop(1)␊2 Iterate(6)␊3 StoreLocal("x")␊4 EmitRaw("x")␊5 Jump(2)␊6 PopLoopFrame␊hint 2␊
{% for x in y if x %}x{% endfor %} => 0 LoadConst(0)␊1 Lookup("y")␊2 PushLoop(0)␊3 Iterate(14)␊4 DupTop␊5 StoreLocal("x")␊6 Lookup("x")␊7 JumpIfFalse(12)␊8 Swap␊9 LoadConst(1)␊10 Add␊11 Jump(13)␊12 DiscardTop␊13 Jump(3)␊14 PopLoopFrame␊15 BuildList(none)␊16 PushLoop(1)␊17 Iterate(21)␊18 StoreLocal("x")␊19 EmitRaw("x")␊20 Jump(17)␊21 PopLoopFrame␊hint 2␊
{% for x in y recursive %}x{% endfor %} => 0 Lookup("y")␊1 PushLoop(3)␊2 Iterate(6)␊3 StoreLocal("x")␊4 EmitRaw("x")␊5 Jump(2)␊6 PopLoopFrame␊hint 2␊
{% for x in y %}a{% else %}x{% endfor %} => 0 Lookup("y")␊1 PushLoop(1)␊2 Iterate(6)␊3 StoreLocal("x")␊4 EmitRaw("a")␊5 Jump(2)␊6 PushDidNotIterate␊7 PopLoopFrame␊8 JumpIfFalse(10)␊9 EmitRaw("x")␊hint 4␊
{% if c %}x{% endif %} => 0 Lookup("c")␊1 JumpIfFalse(3)␊2 EmitRaw("x")␊hint 2␊
{% if c %}a{% else %}x{% endif %} => 0 Lookup("c")␊1 JumpIfFalse(4)␊2 EmitRaw("a")␊3 Jump(5)␊4 EmitRaw("x")␊hint 4␊
{% if c %}a{% elif d %}x{% else %}e{% endif %} => 0 Lookup("c")␊1 JumpIfFalse(4)␊2 EmitRaw("a")␊3 Jump(9)␊4 Lookup("d")␊5 JumpIfFalse(8)␊6 EmitRaw("x")␊7 Jump(9)␊8 EmitRaw("e")␊hint 8␊
{% with a = 1, (b, c) = d %}x{% endwith %} => 0 PushWith␊1 LoadConst(1)␊2 StoreLocal("a")␊3 Lookup("d")␊4 UnpackList(2)␊5 StoreLocal("b")␊6 StoreLocal("c")␊7 EmitRaw("x")␊8 PopFrame␊hint 2␊
{% set s %}x{% endset %} => 0 BeginCapture(Capture)␊1 EmitRaw("x")␊2 EndCapture␊3 StoreLocal("s")␊hint 2␊
{% set s.t | f | g(1) %}x{% endset %} => 0 BeginCapture(Capture)␊1 EmitRaw("x")␊2 EndCapture␊3 ApplyFilter("f", 1, 0)␊4 LoadConst(1)␊5 ApplyFilter("g", 2, 1)␊6 Lookup("s")␊7 SetAttr("t")␊hint 2␊
{% filter f(x)|g %}x{% endfilter %} => 0 BeginCapture(Capture)␊1 EmitRaw("x")␊2 EndCapture␊3 Lookup("x")␊4 ApplyFilter("f", 2, 0)␊5 ApplyFilter("g", 1, 1)␊6 Emit␊hint 2␊
{% autoescape z %}x{% endautoescape %} => 0 Lookup("z")␊1 PushAutoEscape␊2 EmitRaw("x")␊3 PopAutoEscape␊hint 2␊
"#;
    hold::<Code>(rt.alloc(), rows)
}

/// Each statement in each body.
#[test]
fn each_statement_in_each(rt: HostRuntime) -> Result<(), Fail> {
    let rows = r#"
{% for x in y %}{% for x in y %}x{% endfor %}{% endfor %} => 0 Lookup("y")␊1 PushLoop(1)␊2 Iterate(12)␊3 StoreLocal("x")␊4 Lookup("y")␊5 PushLoop(1)␊6 Iterate(10)␊7 StoreLocal("x")␊8 EmitRaw("x")␊9 Jump(6)␊10 PopLoopFrame␊11 Jump(2)␊12 PopLoopFrame␊hint 2␊
{% for x in y %}{% for x in y if x %}x{% endfor %}{% endfor %} => 0 Lookup("y")␊1 PushLoop(1)␊2 Iterate(27)␊3 StoreLocal("x")␊4 LoadConst(0)␊5 Lookup("y")␊6 PushLoop(0)␊7 Iterate(18)␊8 DupTop␊9 StoreLocal("x")␊10 Lookup("x")␊11 JumpIfFalse(16)␊12 Swap␊13 LoadConst(1)␊14 Add␊15 Jump(17)␊16 DiscardTop␊17 Jump(7)␊18 PopLoopFrame␊19 BuildList(none)␊20 PushLoop(1)␊21 Iterate(25)␊22 StoreLocal("x")␊23 EmitRaw("x")␊24 Jump(21)␊25 PopLoopFrame␊26 Jump(2)␊27 PopLoopFrame␊hint 2␊
{% for x in y %}{% for x in y recursive %}x{% endfor %}{% endfor %} => 0 Lookup("y")␊1 PushLoop(1)␊2 Iterate(12)␊3 StoreLocal("x")␊4 Lookup("y")␊5 PushLoop(3)␊6 Iterate(10)␊7 StoreLocal("x")␊8 EmitRaw("x")␊9 Jump(6)␊10 PopLoopFrame␊11 Jump(2)␊12 PopLoopFrame␊hint 2␊
{% for x in y %}{% for x in y %}o{% else %}x{% endfor %}{% endfor %} => 0 Lookup("y")␊1 PushLoop(1)␊2 Iterate(15)␊3 StoreLocal("x")␊4 Lookup("y")␊5 PushLoop(1)␊6 Iterate(10)␊7 StoreLocal("x")␊8 EmitRaw("o")␊9 Jump(6)␊10 PushDidNotIterate␊11 PopLoopFrame␊12 JumpIfFalse(14)␊13 EmitRaw("x")␊14 Jump(2)␊15 PopLoopFrame␊hint 4␊
{% for x in y %}{% if c %}x{% endif %}{% endfor %} => 0 Lookup("y")␊1 PushLoop(1)␊2 Iterate(8)␊3 StoreLocal("x")␊4 Lookup("c")␊5 JumpIfFalse(7)␊6 EmitRaw("x")␊7 Jump(2)␊8 PopLoopFrame␊hint 2␊
{% for x in y %}{% if c %}o{% else %}x{% endif %}{% endfor %} => 0 Lookup("y")␊1 PushLoop(1)␊2 Iterate(10)␊3 StoreLocal("x")␊4 Lookup("c")␊5 JumpIfFalse(8)␊6 EmitRaw("o")␊7 Jump(9)␊8 EmitRaw("x")␊9 Jump(2)␊10 PopLoopFrame␊hint 4␊
{% for x in y %}{% if c %}o{% elif d %}x{% else %}e{% endif %}{% endfor %} => 0 Lookup("y")␊1 PushLoop(1)␊2 Iterate(14)␊3 StoreLocal("x")␊4 Lookup("c")␊5 JumpIfFalse(8)␊6 EmitRaw("o")␊7 Jump(13)␊8 Lookup("d")␊9 JumpIfFalse(12)␊10 EmitRaw("x")␊11 Jump(13)␊12 EmitRaw("e")␊13 Jump(2)␊14 PopLoopFrame␊hint 8␊
{% for x in y %}{% with a = 1, (b, c) = d %}x{% endwith %}{% endfor %} => 0 Lookup("y")␊1 PushLoop(1)␊2 Iterate(14)␊3 StoreLocal("x")␊4 PushWith␊5 LoadConst(1)␊6 StoreLocal("a")␊7 Lookup("d")␊8 UnpackList(2)␊9 StoreLocal("b")␊10 StoreLocal("c")␊11 EmitRaw("x")␊12 PopFrame␊13 Jump(2)␊14 PopLoopFrame␊hint 2␊
{% for x in y %}{% set s %}x{% endset %}{% endfor %} => 0 Lookup("y")␊1 PushLoop(1)␊2 Iterate(9)␊3 StoreLocal("x")␊4 BeginCapture(Capture)␊5 EmitRaw("x")␊6 EndCapture␊7 StoreLocal("s")␊8 Jump(2)␊9 PopLoopFrame␊hint 2␊
{% for x in y %}{% set s.t | f | g(1) %}x{% endset %}{% endfor %} => 0 Lookup("y")␊1 PushLoop(1)␊2 Iterate(13)␊3 StoreLocal("x")␊4 BeginCapture(Capture)␊5 EmitRaw("x")␊6 EndCapture␊7 ApplyFilter("f", 1, 0)␊8 LoadConst(1)␊9 ApplyFilter("g", 2, 1)␊10 Lookup("s")␊11 SetAttr("t")␊12 Jump(2)␊13 PopLoopFrame␊hint 2␊
{% for x in y %}{% filter f(x)|g %}x{% endfilter %}{% endfor %} => 0 Lookup("y")␊1 PushLoop(1)␊2 Iterate(12)␊3 StoreLocal("x")␊4 BeginCapture(Capture)␊5 EmitRaw("x")␊6 EndCapture␊7 Lookup("x")␊8 ApplyFilter("f", 2, 0)␊9 ApplyFilter("g", 1, 1)␊10 Emit␊11 Jump(2)␊12 PopLoopFrame␊hint 2␊
{% for x in y %}{% autoescape z %}x{% endautoescape %}{% endfor %} => 0 Lookup("y")␊1 PushLoop(1)␊2 Iterate(9)␊3 StoreLocal("x")␊4 Lookup("z")␊5 PushAutoEscape␊6 EmitRaw("x")␊7 PopAutoEscape␊8 Jump(2)␊9 PopLoopFrame␊hint 2␊
{% for x in y if x %}{% for x in y %}x{% endfor %}{% endfor %} => 0 LoadConst(0)␊1 Lookup("y")␊2 PushLoop(0)␊3 Iterate(14)␊4 DupTop␊5 StoreLocal("x")␊6 Lookup("x")␊7 JumpIfFalse(12)␊8 Swap␊9 LoadConst(1)␊10 Add␊11 Jump(13)␊12 DiscardTop␊13 Jump(3)␊14 PopLoopFrame␊15 BuildList(none)␊16 PushLoop(1)␊17 Iterate(27)␊18 StoreLocal("x")␊19 Lookup("y")␊20 PushLoop(1)␊21 Iterate(25)␊22 StoreLocal("x")␊23 EmitRaw("x")␊24 Jump(21)␊25 PopLoopFrame␊26 Jump(17)␊27 PopLoopFrame␊hint 2␊
{% for x in y if x %}{% for x in y if x %}x{% endfor %}{% endfor %} => 0 LoadConst(0)␊1 Lookup("y")␊2 PushLoop(0)␊3 Iterate(14)␊4 DupTop␊5 StoreLocal("x")␊6 Lookup("x")␊7 JumpIfFalse(12)␊8 Swap␊9 LoadConst(1)␊10 Add␊11 Jump(13)␊12 DiscardTop␊13 Jump(3)␊14 PopLoopFrame␊15 BuildList(none)␊16 PushLoop(1)␊17 Iterate(42)␊18 StoreLocal("x")␊19 LoadConst(0)␊20 Lookup("y")␊21 PushLoop(0)␊22 Iterate(33)␊23 DupTop␊24 StoreLocal("x")␊25 Lookup("x")␊26 JumpIfFalse(31)␊27 Swap␊28 LoadConst(1)␊29 Add␊30 Jump(32)␊31 DiscardTop␊32 Jump(22)␊33 PopLoopFrame␊34 BuildList(none)␊35 PushLoop(1)␊36 Iterate(40)␊37 StoreLocal("x")␊38 EmitRaw("x")␊39 Jump(36)␊40 PopLoopFrame␊41 Jump(17)␊42 PopLoopFrame␊hint 2␊
{% for x in y if x %}{% for x in y recursive %}x{% endfor %}{% endfor %} => 0 LoadConst(0)␊1 Lookup("y")␊2 PushLoop(0)␊3 Iterate(14)␊4 DupTop␊5 StoreLocal("x")␊6 Lookup("x")␊7 JumpIfFalse(12)␊8 Swap␊9 LoadConst(1)␊10 Add␊11 Jump(13)␊12 DiscardTop␊13 Jump(3)␊14 PopLoopFrame␊15 BuildList(none)␊16 PushLoop(1)␊17 Iterate(27)␊18 StoreLocal("x")␊19 Lookup("y")␊20 PushLoop(3)␊21 Iterate(25)␊22 StoreLocal("x")␊23 EmitRaw("x")␊24 Jump(21)␊25 PopLoopFrame␊26 Jump(17)␊27 PopLoopFrame␊hint 2␊
{% for x in y if x %}{% for x in y %}o{% else %}x{% endfor %}{% endfor %} => 0 LoadConst(0)␊1 Lookup("y")␊2 PushLoop(0)␊3 Iterate(14)␊4 DupTop␊5 StoreLocal("x")␊6 Lookup("x")␊7 JumpIfFalse(12)␊8 Swap␊9 LoadConst(1)␊10 Add␊11 Jump(13)␊12 DiscardTop␊13 Jump(3)␊14 PopLoopFrame␊15 BuildList(none)␊16 PushLoop(1)␊17 Iterate(30)␊18 StoreLocal("x")␊19 Lookup("y")␊20 PushLoop(1)␊21 Iterate(25)␊22 StoreLocal("x")␊23 EmitRaw("o")␊24 Jump(21)␊25 PushDidNotIterate␊26 PopLoopFrame␊27 JumpIfFalse(29)␊28 EmitRaw("x")␊29 Jump(17)␊30 PopLoopFrame␊hint 4␊
{% for x in y if x %}{% if c %}x{% endif %}{% endfor %} => 0 LoadConst(0)␊1 Lookup("y")␊2 PushLoop(0)␊3 Iterate(14)␊4 DupTop␊5 StoreLocal("x")␊6 Lookup("x")␊7 JumpIfFalse(12)␊8 Swap␊9 LoadConst(1)␊10 Add␊11 Jump(13)␊12 DiscardTop␊13 Jump(3)␊14 PopLoopFrame␊15 BuildList(none)␊16 PushLoop(1)␊17 Iterate(23)␊18 StoreLocal("x")␊19 Lookup("c")␊20 JumpIfFalse(22)␊21 EmitRaw("x")␊22 Jump(17)␊23 PopLoopFrame␊hint 2␊
{% for x in y if x %}{% if c %}o{% else %}x{% endif %}{% endfor %} => 0 LoadConst(0)␊1 Lookup("y")␊2 PushLoop(0)␊3 Iterate(14)␊4 DupTop␊5 StoreLocal("x")␊6 Lookup("x")␊7 JumpIfFalse(12)␊8 Swap␊9 LoadConst(1)␊10 Add␊11 Jump(13)␊12 DiscardTop␊13 Jump(3)␊14 PopLoopFrame␊15 BuildList(none)␊16 PushLoop(1)␊17 Iterate(25)␊18 StoreLocal("x")␊19 Lookup("c")␊20 JumpIfFalse(23)␊21 EmitRaw("o")␊22 Jump(24)␊23 EmitRaw("x")␊24 Jump(17)␊25 PopLoopFrame␊hint 4␊
{% for x in y if x %}{% if c %}o{% elif d %}x{% else %}e{% endif %}{% endfor %} => 0 LoadConst(0)␊1 Lookup("y")␊2 PushLoop(0)␊3 Iterate(14)␊4 DupTop␊5 StoreLocal("x")␊6 Lookup("x")␊7 JumpIfFalse(12)␊8 Swap␊9 LoadConst(1)␊10 Add␊11 Jump(13)␊12 DiscardTop␊13 Jump(3)␊14 PopLoopFrame␊15 BuildList(none)␊16 PushLoop(1)␊17 Iterate(29)␊18 StoreLocal("x")␊19 Lookup("c")␊20 JumpIfFalse(23)␊21 EmitRaw("o")␊22 Jump(28)␊23 Lookup("d")␊24 JumpIfFalse(27)␊25 EmitRaw("x")␊26 Jump(28)␊27 EmitRaw("e")␊28 Jump(17)␊29 PopLoopFrame␊hint 8␊
{% for x in y if x %}{% with a = 1, (b, c) = d %}x{% endwith %}{% endfor %} => 0 LoadConst(0)␊1 Lookup("y")␊2 PushLoop(0)␊3 Iterate(14)␊4 DupTop␊5 StoreLocal("x")␊6 Lookup("x")␊7 JumpIfFalse(12)␊8 Swap␊9 LoadConst(1)␊10 Add␊11 Jump(13)␊12 DiscardTop␊13 Jump(3)␊14 PopLoopFrame␊15 BuildList(none)␊16 PushLoop(1)␊17 Iterate(29)␊18 StoreLocal("x")␊19 PushWith␊20 LoadConst(1)␊21 StoreLocal("a")␊22 Lookup("d")␊23 UnpackList(2)␊24 StoreLocal("b")␊25 StoreLocal("c")␊26 EmitRaw("x")␊27 PopFrame␊28 Jump(17)␊29 PopLoopFrame␊hint 2␊
{% for x in y if x %}{% set s %}x{% endset %}{% endfor %} => 0 LoadConst(0)␊1 Lookup("y")␊2 PushLoop(0)␊3 Iterate(14)␊4 DupTop␊5 StoreLocal("x")␊6 Lookup("x")␊7 JumpIfFalse(12)␊8 Swap␊9 LoadConst(1)␊10 Add␊11 Jump(13)␊12 DiscardTop␊13 Jump(3)␊14 PopLoopFrame␊15 BuildList(none)␊16 PushLoop(1)␊17 Iterate(24)␊18 StoreLocal("x")␊19 BeginCapture(Capture)␊20 EmitRaw("x")␊21 EndCapture␊22 StoreLocal("s")␊23 Jump(17)␊24 PopLoopFrame␊hint 2␊
{% for x in y if x %}{% set s.t | f | g(1) %}x{% endset %}{% endfor %} => 0 LoadConst(0)␊1 Lookup("y")␊2 PushLoop(0)␊3 Iterate(14)␊4 DupTop␊5 StoreLocal("x")␊6 Lookup("x")␊7 JumpIfFalse(12)␊8 Swap␊9 LoadConst(1)␊10 Add␊11 Jump(13)␊12 DiscardTop␊13 Jump(3)␊14 PopLoopFrame␊15 BuildList(none)␊16 PushLoop(1)␊17 Iterate(28)␊18 StoreLocal("x")␊19 BeginCapture(Capture)␊20 EmitRaw("x")␊21 EndCapture␊22 ApplyFilter("f", 1, 0)␊23 LoadConst(1)␊24 ApplyFilter("g", 2, 1)␊25 Lookup("s")␊26 SetAttr("t")␊27 Jump(17)␊28 PopLoopFrame␊hint 2␊
{% for x in y if x %}{% filter f(x)|g %}x{% endfilter %}{% endfor %} => 0 LoadConst(0)␊1 Lookup("y")␊2 PushLoop(0)␊3 Iterate(14)␊4 DupTop␊5 StoreLocal("x")␊6 Lookup("x")␊7 JumpIfFalse(12)␊8 Swap␊9 LoadConst(1)␊10 Add␊11 Jump(13)␊12 DiscardTop␊13 Jump(3)␊14 PopLoopFrame␊15 BuildList(none)␊16 PushLoop(1)␊17 Iterate(27)␊18 StoreLocal("x")␊19 BeginCapture(Capture)␊20 EmitRaw("x")␊21 EndCapture␊22 Lookup("x")␊23 ApplyFilter("f", 2, 0)␊24 ApplyFilter("g", 1, 1)␊25 Emit␊26 Jump(17)␊27 PopLoopFrame␊hint 2␊
{% for x in y if x %}{% autoescape z %}x{% endautoescape %}{% endfor %} => 0 LoadConst(0)␊1 Lookup("y")␊2 PushLoop(0)␊3 Iterate(14)␊4 DupTop␊5 StoreLocal("x")␊6 Lookup("x")␊7 JumpIfFalse(12)␊8 Swap␊9 LoadConst(1)␊10 Add␊11 Jump(13)␊12 DiscardTop␊13 Jump(3)␊14 PopLoopFrame␊15 BuildList(none)␊16 PushLoop(1)␊17 Iterate(24)␊18 StoreLocal("x")␊19 Lookup("z")␊20 PushAutoEscape␊21 EmitRaw("x")␊22 PopAutoEscape␊23 Jump(17)␊24 PopLoopFrame␊hint 2␊
{% for x in y recursive %}{% for x in y %}x{% endfor %}{% endfor %} => 0 Lookup("y")␊1 PushLoop(3)␊2 Iterate(12)␊3 StoreLocal("x")␊4 Lookup("y")␊5 PushLoop(1)␊6 Iterate(10)␊7 StoreLocal("x")␊8 EmitRaw("x")␊9 Jump(6)␊10 PopLoopFrame␊11 Jump(2)␊12 PopLoopFrame␊hint 2␊
{% for x in y recursive %}{% for x in y if x %}x{% endfor %}{% endfor %} => 0 Lookup("y")␊1 PushLoop(3)␊2 Iterate(27)␊3 StoreLocal("x")␊4 LoadConst(0)␊5 Lookup("y")␊6 PushLoop(0)␊7 Iterate(18)␊8 DupTop␊9 StoreLocal("x")␊10 Lookup("x")␊11 JumpIfFalse(16)␊12 Swap␊13 LoadConst(1)␊14 Add␊15 Jump(17)␊16 DiscardTop␊17 Jump(7)␊18 PopLoopFrame␊19 BuildList(none)␊20 PushLoop(1)␊21 Iterate(25)␊22 StoreLocal("x")␊23 EmitRaw("x")␊24 Jump(21)␊25 PopLoopFrame␊26 Jump(2)␊27 PopLoopFrame␊hint 2␊
{% for x in y recursive %}{% for x in y recursive %}x{% endfor %}{% endfor %} => 0 Lookup("y")␊1 PushLoop(3)␊2 Iterate(12)␊3 StoreLocal("x")␊4 Lookup("y")␊5 PushLoop(3)␊6 Iterate(10)␊7 StoreLocal("x")␊8 EmitRaw("x")␊9 Jump(6)␊10 PopLoopFrame␊11 Jump(2)␊12 PopLoopFrame␊hint 2␊
{% for x in y recursive %}{% for x in y %}o{% else %}x{% endfor %}{% endfor %} => 0 Lookup("y")␊1 PushLoop(3)␊2 Iterate(15)␊3 StoreLocal("x")␊4 Lookup("y")␊5 PushLoop(1)␊6 Iterate(10)␊7 StoreLocal("x")␊8 EmitRaw("o")␊9 Jump(6)␊10 PushDidNotIterate␊11 PopLoopFrame␊12 JumpIfFalse(14)␊13 EmitRaw("x")␊14 Jump(2)␊15 PopLoopFrame␊hint 4␊
{% for x in y recursive %}{% if c %}x{% endif %}{% endfor %} => 0 Lookup("y")␊1 PushLoop(3)␊2 Iterate(8)␊3 StoreLocal("x")␊4 Lookup("c")␊5 JumpIfFalse(7)␊6 EmitRaw("x")␊7 Jump(2)␊8 PopLoopFrame␊hint 2␊
{% for x in y recursive %}{% if c %}o{% else %}x{% endif %}{% endfor %} => 0 Lookup("y")␊1 PushLoop(3)␊2 Iterate(10)␊3 StoreLocal("x")␊4 Lookup("c")␊5 JumpIfFalse(8)␊6 EmitRaw("o")␊7 Jump(9)␊8 EmitRaw("x")␊9 Jump(2)␊10 PopLoopFrame␊hint 4␊
{% for x in y recursive %}{% if c %}o{% elif d %}x{% else %}e{% endif %}{% endfor %} => 0 Lookup("y")␊1 PushLoop(3)␊2 Iterate(14)␊3 StoreLocal("x")␊4 Lookup("c")␊5 JumpIfFalse(8)␊6 EmitRaw("o")␊7 Jump(13)␊8 Lookup("d")␊9 JumpIfFalse(12)␊10 EmitRaw("x")␊11 Jump(13)␊12 EmitRaw("e")␊13 Jump(2)␊14 PopLoopFrame␊hint 8␊
{% for x in y recursive %}{% with a = 1, (b, c) = d %}x{% endwith %}{% endfor %} => 0 Lookup("y")␊1 PushLoop(3)␊2 Iterate(14)␊3 StoreLocal("x")␊4 PushWith␊5 LoadConst(1)␊6 StoreLocal("a")␊7 Lookup("d")␊8 UnpackList(2)␊9 StoreLocal("b")␊10 StoreLocal("c")␊11 EmitRaw("x")␊12 PopFrame␊13 Jump(2)␊14 PopLoopFrame␊hint 2␊
{% for x in y recursive %}{% set s %}x{% endset %}{% endfor %} => 0 Lookup("y")␊1 PushLoop(3)␊2 Iterate(9)␊3 StoreLocal("x")␊4 BeginCapture(Capture)␊5 EmitRaw("x")␊6 EndCapture␊7 StoreLocal("s")␊8 Jump(2)␊9 PopLoopFrame␊hint 2␊
{% for x in y recursive %}{% set s.t | f | g(1) %}x{% endset %}{% endfor %} => 0 Lookup("y")␊1 PushLoop(3)␊2 Iterate(13)␊3 StoreLocal("x")␊4 BeginCapture(Capture)␊5 EmitRaw("x")␊6 EndCapture␊7 ApplyFilter("f", 1, 0)␊8 LoadConst(1)␊9 ApplyFilter("g", 2, 1)␊10 Lookup("s")␊11 SetAttr("t")␊12 Jump(2)␊13 PopLoopFrame␊hint 2␊
{% for x in y recursive %}{% filter f(x)|g %}x{% endfilter %}{% endfor %} => 0 Lookup("y")␊1 PushLoop(3)␊2 Iterate(12)␊3 StoreLocal("x")␊4 BeginCapture(Capture)␊5 EmitRaw("x")␊6 EndCapture␊7 Lookup("x")␊8 ApplyFilter("f", 2, 0)␊9 ApplyFilter("g", 1, 1)␊10 Emit␊11 Jump(2)␊12 PopLoopFrame␊hint 2␊
{% for x in y recursive %}{% autoescape z %}x{% endautoescape %}{% endfor %} => 0 Lookup("y")␊1 PushLoop(3)␊2 Iterate(9)␊3 StoreLocal("x")␊4 Lookup("z")␊5 PushAutoEscape␊6 EmitRaw("x")␊7 PopAutoEscape␊8 Jump(2)␊9 PopLoopFrame␊hint 2␊
{% for x in y %}a{% else %}{% for x in y %}x{% endfor %}{% endfor %} => 0 Lookup("y")␊1 PushLoop(1)␊2 Iterate(6)␊3 StoreLocal("x")␊4 EmitRaw("a")␊5 Jump(2)␊6 PushDidNotIterate␊7 PopLoopFrame␊8 JumpIfFalse(16)␊9 Lookup("y")␊10 PushLoop(1)␊11 Iterate(15)␊12 StoreLocal("x")␊13 EmitRaw("x")␊14 Jump(11)␊15 PopLoopFrame␊hint 4␊
{% for x in y %}a{% else %}{% for x in y if x %}x{% endfor %}{% endfor %} => 0 Lookup("y")␊1 PushLoop(1)␊2 Iterate(6)␊3 StoreLocal("x")␊4 EmitRaw("a")␊5 Jump(2)␊6 PushDidNotIterate␊7 PopLoopFrame␊8 JumpIfFalse(31)␊9 LoadConst(0)␊10 Lookup("y")␊11 PushLoop(0)␊12 Iterate(23)␊13 DupTop␊14 StoreLocal("x")␊15 Lookup("x")␊16 JumpIfFalse(21)␊17 Swap␊18 LoadConst(1)␊19 Add␊20 Jump(22)␊21 DiscardTop␊22 Jump(12)␊23 PopLoopFrame␊24 BuildList(none)␊25 PushLoop(1)␊26 Iterate(30)␊27 StoreLocal("x")␊28 EmitRaw("x")␊29 Jump(26)␊30 PopLoopFrame␊hint 4␊
{% for x in y %}a{% else %}{% for x in y recursive %}x{% endfor %}{% endfor %} => 0 Lookup("y")␊1 PushLoop(1)␊2 Iterate(6)␊3 StoreLocal("x")␊4 EmitRaw("a")␊5 Jump(2)␊6 PushDidNotIterate␊7 PopLoopFrame␊8 JumpIfFalse(16)␊9 Lookup("y")␊10 PushLoop(3)␊11 Iterate(15)␊12 StoreLocal("x")␊13 EmitRaw("x")␊14 Jump(11)␊15 PopLoopFrame␊hint 4␊
{% for x in y %}a{% else %}{% for x in y %}o{% else %}x{% endfor %}{% endfor %} => 0 Lookup("y")␊1 PushLoop(1)␊2 Iterate(6)␊3 StoreLocal("x")␊4 EmitRaw("a")␊5 Jump(2)␊6 PushDidNotIterate␊7 PopLoopFrame␊8 JumpIfFalse(19)␊9 Lookup("y")␊10 PushLoop(1)␊11 Iterate(15)␊12 StoreLocal("x")␊13 EmitRaw("o")␊14 Jump(11)␊15 PushDidNotIterate␊16 PopLoopFrame␊17 JumpIfFalse(19)␊18 EmitRaw("x")␊hint 8␊
{% for x in y %}a{% else %}{% if c %}x{% endif %}{% endfor %} => 0 Lookup("y")␊1 PushLoop(1)␊2 Iterate(6)␊3 StoreLocal("x")␊4 EmitRaw("a")␊5 Jump(2)␊6 PushDidNotIterate␊7 PopLoopFrame␊8 JumpIfFalse(12)␊9 Lookup("c")␊10 JumpIfFalse(12)␊11 EmitRaw("x")␊hint 4␊
{% for x in y %}a{% else %}{% if c %}o{% else %}x{% endif %}{% endfor %} => 0 Lookup("y")␊1 PushLoop(1)␊2 Iterate(6)␊3 StoreLocal("x")␊4 EmitRaw("a")␊5 Jump(2)␊6 PushDidNotIterate␊7 PopLoopFrame␊8 JumpIfFalse(14)␊9 Lookup("c")␊10 JumpIfFalse(13)␊11 EmitRaw("o")␊12 Jump(14)␊13 EmitRaw("x")␊hint 8␊
{% for x in y %}a{% else %}{% if c %}o{% elif d %}x{% else %}e{% endif %}{% endfor %} => 0 Lookup("y")␊1 PushLoop(1)␊2 Iterate(6)␊3 StoreLocal("x")␊4 EmitRaw("a")␊5 Jump(2)␊6 PushDidNotIterate␊7 PopLoopFrame␊8 JumpIfFalse(18)␊9 Lookup("c")␊10 JumpIfFalse(13)␊11 EmitRaw("o")␊12 Jump(18)␊13 Lookup("d")␊14 JumpIfFalse(17)␊15 EmitRaw("x")␊16 Jump(18)␊17 EmitRaw("e")␊hint 8␊
{% for x in y %}a{% else %}{% with a = 1, (b, c) = d %}x{% endwith %}{% endfor %} => 0 Lookup("y")␊1 PushLoop(1)␊2 Iterate(6)␊3 StoreLocal("x")␊4 EmitRaw("a")␊5 Jump(2)␊6 PushDidNotIterate␊7 PopLoopFrame␊8 JumpIfFalse(18)␊9 PushWith␊10 LoadConst(1)␊11 StoreLocal("a")␊12 Lookup("d")␊13 UnpackList(2)␊14 StoreLocal("b")␊15 StoreLocal("c")␊16 EmitRaw("x")␊17 PopFrame␊hint 4␊
{% for x in y %}a{% else %}{% set s %}x{% endset %}{% endfor %} => 0 Lookup("y")␊1 PushLoop(1)␊2 Iterate(6)␊3 StoreLocal("x")␊4 EmitRaw("a")␊5 Jump(2)␊6 PushDidNotIterate␊7 PopLoopFrame␊8 JumpIfFalse(13)␊9 BeginCapture(Capture)␊10 EmitRaw("x")␊11 EndCapture␊12 StoreLocal("s")␊hint 4␊
{% for x in y %}a{% else %}{% set s.t | f | g(1) %}x{% endset %}{% endfor %} => 0 Lookup("y")␊1 PushLoop(1)␊2 Iterate(6)␊3 StoreLocal("x")␊4 EmitRaw("a")␊5 Jump(2)␊6 PushDidNotIterate␊7 PopLoopFrame␊8 JumpIfFalse(17)␊9 BeginCapture(Capture)␊10 EmitRaw("x")␊11 EndCapture␊12 ApplyFilter("f", 1, 0)␊13 LoadConst(1)␊14 ApplyFilter("g", 2, 1)␊15 Lookup("s")␊16 SetAttr("t")␊hint 4␊
{% for x in y %}a{% else %}{% filter f(x)|g %}x{% endfilter %}{% endfor %} => 0 Lookup("y")␊1 PushLoop(1)␊2 Iterate(6)␊3 StoreLocal("x")␊4 EmitRaw("a")␊5 Jump(2)␊6 PushDidNotIterate␊7 PopLoopFrame␊8 JumpIfFalse(16)␊9 BeginCapture(Capture)␊10 EmitRaw("x")␊11 EndCapture␊12 Lookup("x")␊13 ApplyFilter("f", 2, 0)␊14 ApplyFilter("g", 1, 1)␊15 Emit␊hint 4␊
{% for x in y %}a{% else %}{% autoescape z %}x{% endautoescape %}{% endfor %} => 0 Lookup("y")␊1 PushLoop(1)␊2 Iterate(6)␊3 StoreLocal("x")␊4 EmitRaw("a")␊5 Jump(2)␊6 PushDidNotIterate␊7 PopLoopFrame␊8 JumpIfFalse(13)␊9 Lookup("z")␊10 PushAutoEscape␊11 EmitRaw("x")␊12 PopAutoEscape␊hint 4␊
{% if c %}{% for x in y %}x{% endfor %}{% endif %} => 0 Lookup("c")␊1 JumpIfFalse(9)␊2 Lookup("y")␊3 PushLoop(1)␊4 Iterate(8)␊5 StoreLocal("x")␊6 EmitRaw("x")␊7 Jump(4)␊8 PopLoopFrame␊hint 2␊
{% if c %}{% for x in y if x %}x{% endfor %}{% endif %} => 0 Lookup("c")␊1 JumpIfFalse(24)␊2 LoadConst(0)␊3 Lookup("y")␊4 PushLoop(0)␊5 Iterate(16)␊6 DupTop␊7 StoreLocal("x")␊8 Lookup("x")␊9 JumpIfFalse(14)␊10 Swap␊11 LoadConst(1)␊12 Add␊13 Jump(15)␊14 DiscardTop␊15 Jump(5)␊16 PopLoopFrame␊17 BuildList(none)␊18 PushLoop(1)␊19 Iterate(23)␊20 StoreLocal("x")␊21 EmitRaw("x")␊22 Jump(19)␊23 PopLoopFrame␊hint 2␊
{% if c %}{% for x in y recursive %}x{% endfor %}{% endif %} => 0 Lookup("c")␊1 JumpIfFalse(9)␊2 Lookup("y")␊3 PushLoop(3)␊4 Iterate(8)␊5 StoreLocal("x")␊6 EmitRaw("x")␊7 Jump(4)␊8 PopLoopFrame␊hint 2␊
{% if c %}{% for x in y %}o{% else %}x{% endfor %}{% endif %} => 0 Lookup("c")␊1 JumpIfFalse(12)␊2 Lookup("y")␊3 PushLoop(1)␊4 Iterate(8)␊5 StoreLocal("x")␊6 EmitRaw("o")␊7 Jump(4)␊8 PushDidNotIterate␊9 PopLoopFrame␊10 JumpIfFalse(12)␊11 EmitRaw("x")␊hint 4␊
{% if c %}{% if c %}x{% endif %}{% endif %} => 0 Lookup("c")␊1 JumpIfFalse(5)␊2 Lookup("c")␊3 JumpIfFalse(5)␊4 EmitRaw("x")␊hint 2␊
{% if c %}{% if c %}o{% else %}x{% endif %}{% endif %} => 0 Lookup("c")␊1 JumpIfFalse(7)␊2 Lookup("c")␊3 JumpIfFalse(6)␊4 EmitRaw("o")␊5 Jump(7)␊6 EmitRaw("x")␊hint 4␊
{% if c %}{% if c %}o{% elif d %}x{% else %}e{% endif %}{% endif %} => 0 Lookup("c")␊1 JumpIfFalse(11)␊2 Lookup("c")␊3 JumpIfFalse(6)␊4 EmitRaw("o")␊5 Jump(11)␊6 Lookup("d")␊7 JumpIfFalse(10)␊8 EmitRaw("x")␊9 Jump(11)␊10 EmitRaw("e")␊hint 8␊
{% if c %}{% with a = 1, (b, c) = d %}x{% endwith %}{% endif %} => 0 Lookup("c")␊1 JumpIfFalse(11)␊2 PushWith␊3 LoadConst(1)␊4 StoreLocal("a")␊5 Lookup("d")␊6 UnpackList(2)␊7 StoreLocal("b")␊8 StoreLocal("c")␊9 EmitRaw("x")␊10 PopFrame␊hint 2␊
{% if c %}{% set s %}x{% endset %}{% endif %} => 0 Lookup("c")␊1 JumpIfFalse(6)␊2 BeginCapture(Capture)␊3 EmitRaw("x")␊4 EndCapture␊5 StoreLocal("s")␊hint 2␊
{% if c %}{% set s.t | f | g(1) %}x{% endset %}{% endif %} => 0 Lookup("c")␊1 JumpIfFalse(10)␊2 BeginCapture(Capture)␊3 EmitRaw("x")␊4 EndCapture␊5 ApplyFilter("f", 1, 0)␊6 LoadConst(1)␊7 ApplyFilter("g", 2, 1)␊8 Lookup("s")␊9 SetAttr("t")␊hint 2␊
{% if c %}{% filter f(x)|g %}x{% endfilter %}{% endif %} => 0 Lookup("c")␊1 JumpIfFalse(9)␊2 BeginCapture(Capture)␊3 EmitRaw("x")␊4 EndCapture␊5 Lookup("x")␊6 ApplyFilter("f", 2, 0)␊7 ApplyFilter("g", 1, 1)␊8 Emit␊hint 2␊
{% if c %}{% autoescape z %}x{% endautoescape %}{% endif %} => 0 Lookup("c")␊1 JumpIfFalse(6)␊2 Lookup("z")␊3 PushAutoEscape␊4 EmitRaw("x")␊5 PopAutoEscape␊hint 2␊
{% if c %}a{% else %}{% for x in y %}x{% endfor %}{% endif %} => 0 Lookup("c")␊1 JumpIfFalse(4)␊2 EmitRaw("a")␊3 Jump(11)␊4 Lookup("y")␊5 PushLoop(1)␊6 Iterate(10)␊7 StoreLocal("x")␊8 EmitRaw("x")␊9 Jump(6)␊10 PopLoopFrame␊hint 4␊
{% if c %}a{% else %}{% for x in y if x %}x{% endfor %}{% endif %} => 0 Lookup("c")␊1 JumpIfFalse(4)␊2 EmitRaw("a")␊3 Jump(26)␊4 LoadConst(0)␊5 Lookup("y")␊6 PushLoop(0)␊7 Iterate(18)␊8 DupTop␊9 StoreLocal("x")␊10 Lookup("x")␊11 JumpIfFalse(16)␊12 Swap␊13 LoadConst(1)␊14 Add␊15 Jump(17)␊16 DiscardTop␊17 Jump(7)␊18 PopLoopFrame␊19 BuildList(none)␊20 PushLoop(1)␊21 Iterate(25)␊22 StoreLocal("x")␊23 EmitRaw("x")␊24 Jump(21)␊25 PopLoopFrame␊hint 4␊
{% if c %}a{% else %}{% for x in y recursive %}x{% endfor %}{% endif %} => 0 Lookup("c")␊1 JumpIfFalse(4)␊2 EmitRaw("a")␊3 Jump(11)␊4 Lookup("y")␊5 PushLoop(3)␊6 Iterate(10)␊7 StoreLocal("x")␊8 EmitRaw("x")␊9 Jump(6)␊10 PopLoopFrame␊hint 4␊
{% if c %}a{% else %}{% for x in y %}o{% else %}x{% endfor %}{% endif %} => 0 Lookup("c")␊1 JumpIfFalse(4)␊2 EmitRaw("a")␊3 Jump(14)␊4 Lookup("y")␊5 PushLoop(1)␊6 Iterate(10)␊7 StoreLocal("x")␊8 EmitRaw("o")␊9 Jump(6)␊10 PushDidNotIterate␊11 PopLoopFrame␊12 JumpIfFalse(14)␊13 EmitRaw("x")␊hint 8␊
{% if c %}a{% else %}{% if c %}x{% endif %}{% endif %} => 0 Lookup("c")␊1 JumpIfFalse(4)␊2 EmitRaw("a")␊3 Jump(7)␊4 Lookup("c")␊5 JumpIfFalse(7)␊6 EmitRaw("x")␊hint 4␊
{% if c %}a{% else %}{% if c %}o{% else %}x{% endif %}{% endif %} => 0 Lookup("c")␊1 JumpIfFalse(4)␊2 EmitRaw("a")␊3 Jump(9)␊4 Lookup("c")␊5 JumpIfFalse(8)␊6 EmitRaw("o")␊7 Jump(9)␊8 EmitRaw("x")␊hint 8␊
{% if c %}a{% else %}{% if c %}o{% elif d %}x{% else %}e{% endif %}{% endif %} => 0 Lookup("c")␊1 JumpIfFalse(4)␊2 EmitRaw("a")␊3 Jump(13)␊4 Lookup("c")␊5 JumpIfFalse(8)␊6 EmitRaw("o")␊7 Jump(13)␊8 Lookup("d")␊9 JumpIfFalse(12)␊10 EmitRaw("x")␊11 Jump(13)␊12 EmitRaw("e")␊hint 8␊
{% if c %}a{% else %}{% with a = 1, (b, c) = d %}x{% endwith %}{% endif %} => 0 Lookup("c")␊1 JumpIfFalse(4)␊2 EmitRaw("a")␊3 Jump(13)␊4 PushWith␊5 LoadConst(1)␊6 StoreLocal("a")␊7 Lookup("d")␊8 UnpackList(2)␊9 StoreLocal("b")␊10 StoreLocal("c")␊11 EmitRaw("x")␊12 PopFrame␊hint 4␊
{% if c %}a{% else %}{% set s %}x{% endset %}{% endif %} => 0 Lookup("c")␊1 JumpIfFalse(4)␊2 EmitRaw("a")␊3 Jump(8)␊4 BeginCapture(Capture)␊5 EmitRaw("x")␊6 EndCapture␊7 StoreLocal("s")␊hint 4␊
{% if c %}a{% else %}{% set s.t | f | g(1) %}x{% endset %}{% endif %} => 0 Lookup("c")␊1 JumpIfFalse(4)␊2 EmitRaw("a")␊3 Jump(12)␊4 BeginCapture(Capture)␊5 EmitRaw("x")␊6 EndCapture␊7 ApplyFilter("f", 1, 0)␊8 LoadConst(1)␊9 ApplyFilter("g", 2, 1)␊10 Lookup("s")␊11 SetAttr("t")␊hint 4␊
{% if c %}a{% else %}{% filter f(x)|g %}x{% endfilter %}{% endif %} => 0 Lookup("c")␊1 JumpIfFalse(4)␊2 EmitRaw("a")␊3 Jump(11)␊4 BeginCapture(Capture)␊5 EmitRaw("x")␊6 EndCapture␊7 Lookup("x")␊8 ApplyFilter("f", 2, 0)␊9 ApplyFilter("g", 1, 1)␊10 Emit␊hint 4␊
{% if c %}a{% else %}{% autoescape z %}x{% endautoescape %}{% endif %} => 0 Lookup("c")␊1 JumpIfFalse(4)␊2 EmitRaw("a")␊3 Jump(8)␊4 Lookup("z")␊5 PushAutoEscape␊6 EmitRaw("x")␊7 PopAutoEscape␊hint 4␊
{% if c %}a{% elif d %}{% for x in y %}x{% endfor %}{% else %}e{% endif %} => 0 Lookup("c")␊1 JumpIfFalse(4)␊2 EmitRaw("a")␊3 Jump(15)␊4 Lookup("d")␊5 JumpIfFalse(14)␊6 Lookup("y")␊7 PushLoop(1)␊8 Iterate(12)␊9 StoreLocal("x")␊10 EmitRaw("x")␊11 Jump(8)␊12 PopLoopFrame␊13 Jump(15)␊14 EmitRaw("e")␊hint 8␊
{% if c %}a{% elif d %}{% for x in y if x %}x{% endfor %}{% else %}e{% endif %} => 0 Lookup("c")␊1 JumpIfFalse(4)␊2 EmitRaw("a")␊3 Jump(30)␊4 Lookup("d")␊5 JumpIfFalse(29)␊6 LoadConst(0)␊7 Lookup("y")␊8 PushLoop(0)␊9 Iterate(20)␊10 DupTop␊11 StoreLocal("x")␊12 Lookup("x")␊13 JumpIfFalse(18)␊14 Swap␊15 LoadConst(1)␊16 Add␊17 Jump(19)␊18 DiscardTop␊19 Jump(9)␊20 PopLoopFrame␊21 BuildList(none)␊22 PushLoop(1)␊23 Iterate(27)␊24 StoreLocal("x")␊25 EmitRaw("x")␊26 Jump(23)␊27 PopLoopFrame␊28 Jump(30)␊29 EmitRaw("e")␊hint 8␊
{% if c %}a{% elif d %}{% for x in y recursive %}x{% endfor %}{% else %}e{% endif %} => 0 Lookup("c")␊1 JumpIfFalse(4)␊2 EmitRaw("a")␊3 Jump(15)␊4 Lookup("d")␊5 JumpIfFalse(14)␊6 Lookup("y")␊7 PushLoop(3)␊8 Iterate(12)␊9 StoreLocal("x")␊10 EmitRaw("x")␊11 Jump(8)␊12 PopLoopFrame␊13 Jump(15)␊14 EmitRaw("e")␊hint 8␊
{% if c %}a{% elif d %}{% for x in y %}o{% else %}x{% endfor %}{% else %}e{% endif %} => 0 Lookup("c")␊1 JumpIfFalse(4)␊2 EmitRaw("a")␊3 Jump(18)␊4 Lookup("d")␊5 JumpIfFalse(17)␊6 Lookup("y")␊7 PushLoop(1)␊8 Iterate(12)␊9 StoreLocal("x")␊10 EmitRaw("o")␊11 Jump(8)␊12 PushDidNotIterate␊13 PopLoopFrame␊14 JumpIfFalse(16)␊15 EmitRaw("x")␊16 Jump(18)␊17 EmitRaw("e")␊hint 8␊
{% if c %}a{% elif d %}{% if c %}x{% endif %}{% else %}e{% endif %} => 0 Lookup("c")␊1 JumpIfFalse(4)␊2 EmitRaw("a")␊3 Jump(11)␊4 Lookup("d")␊5 JumpIfFalse(10)␊6 Lookup("c")␊7 JumpIfFalse(9)␊8 EmitRaw("x")␊9 Jump(11)␊10 EmitRaw("e")␊hint 8␊
{% if c %}a{% elif d %}{% if c %}o{% else %}x{% endif %}{% else %}e{% endif %} => 0 Lookup("c")␊1 JumpIfFalse(4)␊2 EmitRaw("a")␊3 Jump(13)␊4 Lookup("d")␊5 JumpIfFalse(12)␊6 Lookup("c")␊7 JumpIfFalse(10)␊8 EmitRaw("o")␊9 Jump(11)␊10 EmitRaw("x")␊11 Jump(13)␊12 EmitRaw("e")␊hint 8␊
{% if c %}a{% elif d %}{% if c %}o{% elif d %}x{% else %}e{% endif %}{% else %}e{% endif %} => 0 Lookup("c")␊1 JumpIfFalse(4)␊2 EmitRaw("a")␊3 Jump(17)␊4 Lookup("d")␊5 JumpIfFalse(16)␊6 Lookup("c")␊7 JumpIfFalse(10)␊8 EmitRaw("o")␊9 Jump(15)␊10 Lookup("d")␊11 JumpIfFalse(14)␊12 EmitRaw("x")␊13 Jump(15)␊14 EmitRaw("e")␊15 Jump(17)␊16 EmitRaw("e")␊hint 16␊
{% if c %}a{% elif d %}{% with a = 1, (b, c) = d %}x{% endwith %}{% else %}e{% endif %} => 0 Lookup("c")␊1 JumpIfFalse(4)␊2 EmitRaw("a")␊3 Jump(17)␊4 Lookup("d")␊5 JumpIfFalse(16)␊6 PushWith␊7 LoadConst(1)␊8 StoreLocal("a")␊9 Lookup("d")␊10 UnpackList(2)␊11 StoreLocal("b")␊12 StoreLocal("c")␊13 EmitRaw("x")␊14 PopFrame␊15 Jump(17)␊16 EmitRaw("e")␊hint 8␊
{% if c %}a{% elif d %}{% set s %}x{% endset %}{% else %}e{% endif %} => 0 Lookup("c")␊1 JumpIfFalse(4)␊2 EmitRaw("a")␊3 Jump(12)␊4 Lookup("d")␊5 JumpIfFalse(11)␊6 BeginCapture(Capture)␊7 EmitRaw("x")␊8 EndCapture␊9 StoreLocal("s")␊10 Jump(12)␊11 EmitRaw("e")␊hint 8␊
{% if c %}a{% elif d %}{% set s.t | f | g(1) %}x{% endset %}{% else %}e{% endif %} => 0 Lookup("c")␊1 JumpIfFalse(4)␊2 EmitRaw("a")␊3 Jump(16)␊4 Lookup("d")␊5 JumpIfFalse(15)␊6 BeginCapture(Capture)␊7 EmitRaw("x")␊8 EndCapture␊9 ApplyFilter("f", 1, 0)␊10 LoadConst(1)␊11 ApplyFilter("g", 2, 1)␊12 Lookup("s")␊13 SetAttr("t")␊14 Jump(16)␊15 EmitRaw("e")␊hint 8␊
{% if c %}a{% elif d %}{% filter f(x)|g %}x{% endfilter %}{% else %}e{% endif %} => 0 Lookup("c")␊1 JumpIfFalse(4)␊2 EmitRaw("a")␊3 Jump(15)␊4 Lookup("d")␊5 JumpIfFalse(14)␊6 BeginCapture(Capture)␊7 EmitRaw("x")␊8 EndCapture␊9 Lookup("x")␊10 ApplyFilter("f", 2, 0)␊11 ApplyFilter("g", 1, 1)␊12 Emit␊13 Jump(15)␊14 EmitRaw("e")␊hint 8␊
{% if c %}a{% elif d %}{% autoescape z %}x{% endautoescape %}{% else %}e{% endif %} => 0 Lookup("c")␊1 JumpIfFalse(4)␊2 EmitRaw("a")␊3 Jump(12)␊4 Lookup("d")␊5 JumpIfFalse(11)␊6 Lookup("z")␊7 PushAutoEscape␊8 EmitRaw("x")␊9 PopAutoEscape␊10 Jump(12)␊11 EmitRaw("e")␊hint 8␊
{% with a = 1, (b, c) = d %}{% for x in y %}x{% endfor %}{% endwith %} => 0 PushWith␊1 LoadConst(1)␊2 StoreLocal("a")␊3 Lookup("d")␊4 UnpackList(2)␊5 StoreLocal("b")␊6 StoreLocal("c")␊7 Lookup("y")␊8 PushLoop(1)␊9 Iterate(13)␊10 StoreLocal("x")␊11 EmitRaw("x")␊12 Jump(9)␊13 PopLoopFrame␊14 PopFrame␊hint 2␊
{% with a = 1, (b, c) = d %}{% for x in y if x %}x{% endfor %}{% endwith %} => 0 PushWith␊1 LoadConst(1)␊2 StoreLocal("a")␊3 Lookup("d")␊4 UnpackList(2)␊5 StoreLocal("b")␊6 StoreLocal("c")␊7 LoadConst(0)␊8 Lookup("y")␊9 PushLoop(0)␊10 Iterate(21)␊11 DupTop␊12 StoreLocal("x")␊13 Lookup("x")␊14 JumpIfFalse(19)␊15 Swap␊16 LoadConst(1)␊17 Add␊18 Jump(20)␊19 DiscardTop␊20 Jump(10)␊21 PopLoopFrame␊22 BuildList(none)␊23 PushLoop(1)␊24 Iterate(28)␊25 StoreLocal("x")␊26 EmitRaw("x")␊27 Jump(24)␊28 PopLoopFrame␊29 PopFrame␊hint 2␊
{% with a = 1, (b, c) = d %}{% for x in y recursive %}x{% endfor %}{% endwith %} => 0 PushWith␊1 LoadConst(1)␊2 StoreLocal("a")␊3 Lookup("d")␊4 UnpackList(2)␊5 StoreLocal("b")␊6 StoreLocal("c")␊7 Lookup("y")␊8 PushLoop(3)␊9 Iterate(13)␊10 StoreLocal("x")␊11 EmitRaw("x")␊12 Jump(9)␊13 PopLoopFrame␊14 PopFrame␊hint 2␊
{% with a = 1, (b, c) = d %}{% for x in y %}o{% else %}x{% endfor %}{% endwith %} => 0 PushWith␊1 LoadConst(1)␊2 StoreLocal("a")␊3 Lookup("d")␊4 UnpackList(2)␊5 StoreLocal("b")␊6 StoreLocal("c")␊7 Lookup("y")␊8 PushLoop(1)␊9 Iterate(13)␊10 StoreLocal("x")␊11 EmitRaw("o")␊12 Jump(9)␊13 PushDidNotIterate␊14 PopLoopFrame␊15 JumpIfFalse(17)␊16 EmitRaw("x")␊17 PopFrame␊hint 4␊
{% with a = 1, (b, c) = d %}{% if c %}x{% endif %}{% endwith %} => 0 PushWith␊1 LoadConst(1)␊2 StoreLocal("a")␊3 Lookup("d")␊4 UnpackList(2)␊5 StoreLocal("b")␊6 StoreLocal("c")␊7 Lookup("c")␊8 JumpIfFalse(10)␊9 EmitRaw("x")␊10 PopFrame␊hint 2␊
{% with a = 1, (b, c) = d %}{% if c %}o{% else %}x{% endif %}{% endwith %} => 0 PushWith␊1 LoadConst(1)␊2 StoreLocal("a")␊3 Lookup("d")␊4 UnpackList(2)␊5 StoreLocal("b")␊6 StoreLocal("c")␊7 Lookup("c")␊8 JumpIfFalse(11)␊9 EmitRaw("o")␊10 Jump(12)␊11 EmitRaw("x")␊12 PopFrame␊hint 4␊
{% with a = 1, (b, c) = d %}{% if c %}o{% elif d %}x{% else %}e{% endif %}{% endwith %} => 0 PushWith␊1 LoadConst(1)␊2 StoreLocal("a")␊3 Lookup("d")␊4 UnpackList(2)␊5 StoreLocal("b")␊6 StoreLocal("c")␊7 Lookup("c")␊8 JumpIfFalse(11)␊9 EmitRaw("o")␊10 Jump(16)␊11 Lookup("d")␊12 JumpIfFalse(15)␊13 EmitRaw("x")␊14 Jump(16)␊15 EmitRaw("e")␊16 PopFrame␊hint 8␊
{% with a = 1, (b, c) = d %}{% with a = 1, (b, c) = d %}x{% endwith %}{% endwith %} => 0 PushWith␊1 LoadConst(1)␊2 StoreLocal("a")␊3 Lookup("d")␊4 UnpackList(2)␊5 StoreLocal("b")␊6 StoreLocal("c")␊7 PushWith␊8 LoadConst(1)␊9 StoreLocal("a")␊10 Lookup("d")␊11 UnpackList(2)␊12 StoreLocal("b")␊13 StoreLocal("c")␊14 EmitRaw("x")␊15 PopFrame␊16 PopFrame␊hint 2␊
{% with a = 1, (b, c) = d %}{% set s %}x{% endset %}{% endwith %} => 0 PushWith␊1 LoadConst(1)␊2 StoreLocal("a")␊3 Lookup("d")␊4 UnpackList(2)␊5 StoreLocal("b")␊6 StoreLocal("c")␊7 BeginCapture(Capture)␊8 EmitRaw("x")␊9 EndCapture␊10 StoreLocal("s")␊11 PopFrame␊hint 2␊
{% with a = 1, (b, c) = d %}{% set s.t | f | g(1) %}x{% endset %}{% endwith %} => 0 PushWith␊1 LoadConst(1)␊2 StoreLocal("a")␊3 Lookup("d")␊4 UnpackList(2)␊5 StoreLocal("b")␊6 StoreLocal("c")␊7 BeginCapture(Capture)␊8 EmitRaw("x")␊9 EndCapture␊10 ApplyFilter("f", 1, 0)␊11 LoadConst(1)␊12 ApplyFilter("g", 2, 1)␊13 Lookup("s")␊14 SetAttr("t")␊15 PopFrame␊hint 2␊
{% with a = 1, (b, c) = d %}{% filter f(x)|g %}x{% endfilter %}{% endwith %} => 0 PushWith␊1 LoadConst(1)␊2 StoreLocal("a")␊3 Lookup("d")␊4 UnpackList(2)␊5 StoreLocal("b")␊6 StoreLocal("c")␊7 BeginCapture(Capture)␊8 EmitRaw("x")␊9 EndCapture␊10 Lookup("x")␊11 ApplyFilter("f", 2, 0)␊12 ApplyFilter("g", 1, 1)␊13 Emit␊14 PopFrame␊hint 2␊
{% with a = 1, (b, c) = d %}{% autoescape z %}x{% endautoescape %}{% endwith %} => 0 PushWith␊1 LoadConst(1)␊2 StoreLocal("a")␊3 Lookup("d")␊4 UnpackList(2)␊5 StoreLocal("b")␊6 StoreLocal("c")␊7 Lookup("z")␊8 PushAutoEscape␊9 EmitRaw("x")␊10 PopAutoEscape␊11 PopFrame␊hint 2␊
{% set s %}{% for x in y %}x{% endfor %}{% endset %} => 0 BeginCapture(Capture)␊1 Lookup("y")␊2 PushLoop(1)␊3 Iterate(7)␊4 StoreLocal("x")␊5 EmitRaw("x")␊6 Jump(3)␊7 PopLoopFrame␊8 EndCapture␊9 StoreLocal("s")␊hint 2␊
{% set s %}{% for x in y if x %}x{% endfor %}{% endset %} => 0 BeginCapture(Capture)␊1 LoadConst(0)␊2 Lookup("y")␊3 PushLoop(0)␊4 Iterate(15)␊5 DupTop␊6 StoreLocal("x")␊7 Lookup("x")␊8 JumpIfFalse(13)␊9 Swap␊10 LoadConst(1)␊11 Add␊12 Jump(14)␊13 DiscardTop␊14 Jump(4)␊15 PopLoopFrame␊16 BuildList(none)␊17 PushLoop(1)␊18 Iterate(22)␊19 StoreLocal("x")␊20 EmitRaw("x")␊21 Jump(18)␊22 PopLoopFrame␊23 EndCapture␊24 StoreLocal("s")␊hint 2␊
{% set s %}{% for x in y recursive %}x{% endfor %}{% endset %} => 0 BeginCapture(Capture)␊1 Lookup("y")␊2 PushLoop(3)␊3 Iterate(7)␊4 StoreLocal("x")␊5 EmitRaw("x")␊6 Jump(3)␊7 PopLoopFrame␊8 EndCapture␊9 StoreLocal("s")␊hint 2␊
{% set s %}{% for x in y %}o{% else %}x{% endfor %}{% endset %} => 0 BeginCapture(Capture)␊1 Lookup("y")␊2 PushLoop(1)␊3 Iterate(7)␊4 StoreLocal("x")␊5 EmitRaw("o")␊6 Jump(3)␊7 PushDidNotIterate␊8 PopLoopFrame␊9 JumpIfFalse(11)␊10 EmitRaw("x")␊11 EndCapture␊12 StoreLocal("s")␊hint 4␊
{% set s %}{% if c %}x{% endif %}{% endset %} => 0 BeginCapture(Capture)␊1 Lookup("c")␊2 JumpIfFalse(4)␊3 EmitRaw("x")␊4 EndCapture␊5 StoreLocal("s")␊hint 2␊
{% set s %}{% if c %}o{% else %}x{% endif %}{% endset %} => 0 BeginCapture(Capture)␊1 Lookup("c")␊2 JumpIfFalse(5)␊3 EmitRaw("o")␊4 Jump(6)␊5 EmitRaw("x")␊6 EndCapture␊7 StoreLocal("s")␊hint 4␊
{% set s %}{% if c %}o{% elif d %}x{% else %}e{% endif %}{% endset %} => 0 BeginCapture(Capture)␊1 Lookup("c")␊2 JumpIfFalse(5)␊3 EmitRaw("o")␊4 Jump(10)␊5 Lookup("d")␊6 JumpIfFalse(9)␊7 EmitRaw("x")␊8 Jump(10)␊9 EmitRaw("e")␊10 EndCapture␊11 StoreLocal("s")␊hint 8␊
{% set s %}{% with a = 1, (b, c) = d %}x{% endwith %}{% endset %} => 0 BeginCapture(Capture)␊1 PushWith␊2 LoadConst(1)␊3 StoreLocal("a")␊4 Lookup("d")␊5 UnpackList(2)␊6 StoreLocal("b")␊7 StoreLocal("c")␊8 EmitRaw("x")␊9 PopFrame␊10 EndCapture␊11 StoreLocal("s")␊hint 2␊
{% set s %}{% set s %}x{% endset %}{% endset %} => 0 BeginCapture(Capture)␊1 BeginCapture(Capture)␊2 EmitRaw("x")␊3 EndCapture␊4 StoreLocal("s")␊5 EndCapture␊6 StoreLocal("s")␊hint 2␊
{% set s %}{% set s.t | f | g(1) %}x{% endset %}{% endset %} => 0 BeginCapture(Capture)␊1 BeginCapture(Capture)␊2 EmitRaw("x")␊3 EndCapture␊4 ApplyFilter("f", 1, 0)␊5 LoadConst(1)␊6 ApplyFilter("g", 2, 1)␊7 Lookup("s")␊8 SetAttr("t")␊9 EndCapture␊10 StoreLocal("s")␊hint 2␊
{% set s %}{% filter f(x)|g %}x{% endfilter %}{% endset %} => 0 BeginCapture(Capture)␊1 BeginCapture(Capture)␊2 EmitRaw("x")␊3 EndCapture␊4 Lookup("x")␊5 ApplyFilter("f", 2, 0)␊6 ApplyFilter("g", 1, 1)␊7 Emit␊8 EndCapture␊9 StoreLocal("s")␊hint 2␊
{% set s %}{% autoescape z %}x{% endautoescape %}{% endset %} => 0 BeginCapture(Capture)␊1 Lookup("z")␊2 PushAutoEscape␊3 EmitRaw("x")␊4 PopAutoEscape␊5 EndCapture␊6 StoreLocal("s")␊hint 2␊
{% set s.t | f | g(1) %}{% for x in y %}x{% endfor %}{% endset %} => 0 BeginCapture(Capture)␊1 Lookup("y")␊2 PushLoop(1)␊3 Iterate(7)␊4 StoreLocal("x")␊5 EmitRaw("x")␊6 Jump(3)␊7 PopLoopFrame␊8 EndCapture␊9 ApplyFilter("f", 1, 0)␊10 LoadConst(1)␊11 ApplyFilter("g", 2, 1)␊12 Lookup("s")␊13 SetAttr("t")␊hint 2␊
{% set s.t | f | g(1) %}{% for x in y if x %}x{% endfor %}{% endset %} => 0 BeginCapture(Capture)␊1 LoadConst(0)␊2 Lookup("y")␊3 PushLoop(0)␊4 Iterate(15)␊5 DupTop␊6 StoreLocal("x")␊7 Lookup("x")␊8 JumpIfFalse(13)␊9 Swap␊10 LoadConst(1)␊11 Add␊12 Jump(14)␊13 DiscardTop␊14 Jump(4)␊15 PopLoopFrame␊16 BuildList(none)␊17 PushLoop(1)␊18 Iterate(22)␊19 StoreLocal("x")␊20 EmitRaw("x")␊21 Jump(18)␊22 PopLoopFrame␊23 EndCapture␊24 ApplyFilter("f", 1, 0)␊25 LoadConst(1)␊26 ApplyFilter("g", 2, 1)␊27 Lookup("s")␊28 SetAttr("t")␊hint 2␊
{% set s.t | f | g(1) %}{% for x in y recursive %}x{% endfor %}{% endset %} => 0 BeginCapture(Capture)␊1 Lookup("y")␊2 PushLoop(3)␊3 Iterate(7)␊4 StoreLocal("x")␊5 EmitRaw("x")␊6 Jump(3)␊7 PopLoopFrame␊8 EndCapture␊9 ApplyFilter("f", 1, 0)␊10 LoadConst(1)␊11 ApplyFilter("g", 2, 1)␊12 Lookup("s")␊13 SetAttr("t")␊hint 2␊
{% set s.t | f | g(1) %}{% for x in y %}o{% else %}x{% endfor %}{% endset %} => 0 BeginCapture(Capture)␊1 Lookup("y")␊2 PushLoop(1)␊3 Iterate(7)␊4 StoreLocal("x")␊5 EmitRaw("o")␊6 Jump(3)␊7 PushDidNotIterate␊8 PopLoopFrame␊9 JumpIfFalse(11)␊10 EmitRaw("x")␊11 EndCapture␊12 ApplyFilter("f", 1, 0)␊13 LoadConst(1)␊14 ApplyFilter("g", 2, 1)␊15 Lookup("s")␊16 SetAttr("t")␊hint 4␊
{% set s.t | f | g(1) %}{% if c %}x{% endif %}{% endset %} => 0 BeginCapture(Capture)␊1 Lookup("c")␊2 JumpIfFalse(4)␊3 EmitRaw("x")␊4 EndCapture␊5 ApplyFilter("f", 1, 0)␊6 LoadConst(1)␊7 ApplyFilter("g", 2, 1)␊8 Lookup("s")␊9 SetAttr("t")␊hint 2␊
{% set s.t | f | g(1) %}{% if c %}o{% else %}x{% endif %}{% endset %} => 0 BeginCapture(Capture)␊1 Lookup("c")␊2 JumpIfFalse(5)␊3 EmitRaw("o")␊4 Jump(6)␊5 EmitRaw("x")␊6 EndCapture␊7 ApplyFilter("f", 1, 0)␊8 LoadConst(1)␊9 ApplyFilter("g", 2, 1)␊10 Lookup("s")␊11 SetAttr("t")␊hint 4␊
{% set s.t | f | g(1) %}{% if c %}o{% elif d %}x{% else %}e{% endif %}{% endset %} => 0 BeginCapture(Capture)␊1 Lookup("c")␊2 JumpIfFalse(5)␊3 EmitRaw("o")␊4 Jump(10)␊5 Lookup("d")␊6 JumpIfFalse(9)␊7 EmitRaw("x")␊8 Jump(10)␊9 EmitRaw("e")␊10 EndCapture␊11 ApplyFilter("f", 1, 0)␊12 LoadConst(1)␊13 ApplyFilter("g", 2, 1)␊14 Lookup("s")␊15 SetAttr("t")␊hint 8␊
{% set s.t | f | g(1) %}{% with a = 1, (b, c) = d %}x{% endwith %}{% endset %} => 0 BeginCapture(Capture)␊1 PushWith␊2 LoadConst(1)␊3 StoreLocal("a")␊4 Lookup("d")␊5 UnpackList(2)␊6 StoreLocal("b")␊7 StoreLocal("c")␊8 EmitRaw("x")␊9 PopFrame␊10 EndCapture␊11 ApplyFilter("f", 1, 0)␊12 LoadConst(1)␊13 ApplyFilter("g", 2, 1)␊14 Lookup("s")␊15 SetAttr("t")␊hint 2␊
{% set s.t | f | g(1) %}{% set s %}x{% endset %}{% endset %} => 0 BeginCapture(Capture)␊1 BeginCapture(Capture)␊2 EmitRaw("x")␊3 EndCapture␊4 StoreLocal("s")␊5 EndCapture␊6 ApplyFilter("f", 1, 0)␊7 LoadConst(1)␊8 ApplyFilter("g", 2, 1)␊9 Lookup("s")␊10 SetAttr("t")␊hint 2␊
{% set s.t | f | g(1) %}{% set s.t | f | g(1) %}x{% endset %}{% endset %} => 0 BeginCapture(Capture)␊1 BeginCapture(Capture)␊2 EmitRaw("x")␊3 EndCapture␊4 ApplyFilter("f", 1, 0)␊5 LoadConst(1)␊6 ApplyFilter("g", 2, 1)␊7 Lookup("s")␊8 SetAttr("t")␊9 EndCapture␊10 ApplyFilter("f", 1, 0)␊11 LoadConst(1)␊12 ApplyFilter("g", 2, 1)␊13 Lookup("s")␊14 SetAttr("t")␊hint 2␊
{% set s.t | f | g(1) %}{% filter f(x)|g %}x{% endfilter %}{% endset %} => 0 BeginCapture(Capture)␊1 BeginCapture(Capture)␊2 EmitRaw("x")␊3 EndCapture␊4 Lookup("x")␊5 ApplyFilter("f", 2, 0)␊6 ApplyFilter("g", 1, 1)␊7 Emit␊8 EndCapture␊9 ApplyFilter("f", 1, 0)␊10 LoadConst(1)␊11 ApplyFilter("g", 2, 1)␊12 Lookup("s")␊13 SetAttr("t")␊hint 2␊
{% set s.t | f | g(1) %}{% autoescape z %}x{% endautoescape %}{% endset %} => 0 BeginCapture(Capture)␊1 Lookup("z")␊2 PushAutoEscape␊3 EmitRaw("x")␊4 PopAutoEscape␊5 EndCapture␊6 ApplyFilter("f", 1, 0)␊7 LoadConst(1)␊8 ApplyFilter("g", 2, 1)␊9 Lookup("s")␊10 SetAttr("t")␊hint 2␊
{% filter f(x)|g %}{% for x in y %}x{% endfor %}{% endfilter %} => 0 BeginCapture(Capture)␊1 Lookup("y")␊2 PushLoop(1)␊3 Iterate(7)␊4 StoreLocal("x")␊5 EmitRaw("x")␊6 Jump(3)␊7 PopLoopFrame␊8 EndCapture␊9 Lookup("x")␊10 ApplyFilter("f", 2, 0)␊11 ApplyFilter("g", 1, 1)␊12 Emit␊hint 2␊
{% filter f(x)|g %}{% for x in y if x %}x{% endfor %}{% endfilter %} => 0 BeginCapture(Capture)␊1 LoadConst(0)␊2 Lookup("y")␊3 PushLoop(0)␊4 Iterate(15)␊5 DupTop␊6 StoreLocal("x")␊7 Lookup("x")␊8 JumpIfFalse(13)␊9 Swap␊10 LoadConst(1)␊11 Add␊12 Jump(14)␊13 DiscardTop␊14 Jump(4)␊15 PopLoopFrame␊16 BuildList(none)␊17 PushLoop(1)␊18 Iterate(22)␊19 StoreLocal("x")␊20 EmitRaw("x")␊21 Jump(18)␊22 PopLoopFrame␊23 EndCapture␊24 Lookup("x")␊25 ApplyFilter("f", 2, 0)␊26 ApplyFilter("g", 1, 1)␊27 Emit␊hint 2␊
{% filter f(x)|g %}{% for x in y recursive %}x{% endfor %}{% endfilter %} => 0 BeginCapture(Capture)␊1 Lookup("y")␊2 PushLoop(3)␊3 Iterate(7)␊4 StoreLocal("x")␊5 EmitRaw("x")␊6 Jump(3)␊7 PopLoopFrame␊8 EndCapture␊9 Lookup("x")␊10 ApplyFilter("f", 2, 0)␊11 ApplyFilter("g", 1, 1)␊12 Emit␊hint 2␊
{% filter f(x)|g %}{% for x in y %}o{% else %}x{% endfor %}{% endfilter %} => 0 BeginCapture(Capture)␊1 Lookup("y")␊2 PushLoop(1)␊3 Iterate(7)␊4 StoreLocal("x")␊5 EmitRaw("o")␊6 Jump(3)␊7 PushDidNotIterate␊8 PopLoopFrame␊9 JumpIfFalse(11)␊10 EmitRaw("x")␊11 EndCapture␊12 Lookup("x")␊13 ApplyFilter("f", 2, 0)␊14 ApplyFilter("g", 1, 1)␊15 Emit␊hint 4␊
{% filter f(x)|g %}{% if c %}x{% endif %}{% endfilter %} => 0 BeginCapture(Capture)␊1 Lookup("c")␊2 JumpIfFalse(4)␊3 EmitRaw("x")␊4 EndCapture␊5 Lookup("x")␊6 ApplyFilter("f", 2, 0)␊7 ApplyFilter("g", 1, 1)␊8 Emit␊hint 2␊
{% filter f(x)|g %}{% if c %}o{% else %}x{% endif %}{% endfilter %} => 0 BeginCapture(Capture)␊1 Lookup("c")␊2 JumpIfFalse(5)␊3 EmitRaw("o")␊4 Jump(6)␊5 EmitRaw("x")␊6 EndCapture␊7 Lookup("x")␊8 ApplyFilter("f", 2, 0)␊9 ApplyFilter("g", 1, 1)␊10 Emit␊hint 4␊
{% filter f(x)|g %}{% if c %}o{% elif d %}x{% else %}e{% endif %}{% endfilter %} => 0 BeginCapture(Capture)␊1 Lookup("c")␊2 JumpIfFalse(5)␊3 EmitRaw("o")␊4 Jump(10)␊5 Lookup("d")␊6 JumpIfFalse(9)␊7 EmitRaw("x")␊8 Jump(10)␊9 EmitRaw("e")␊10 EndCapture␊11 Lookup("x")␊12 ApplyFilter("f", 2, 0)␊13 ApplyFilter("g", 1, 1)␊14 Emit␊hint 8␊
{% filter f(x)|g %}{% with a = 1, (b, c) = d %}x{% endwith %}{% endfilter %} => 0 BeginCapture(Capture)␊1 PushWith␊2 LoadConst(1)␊3 StoreLocal("a")␊4 Lookup("d")␊5 UnpackList(2)␊6 StoreLocal("b")␊7 StoreLocal("c")␊8 EmitRaw("x")␊9 PopFrame␊10 EndCapture␊11 Lookup("x")␊12 ApplyFilter("f", 2, 0)␊13 ApplyFilter("g", 1, 1)␊14 Emit␊hint 2␊
{% filter f(x)|g %}{% set s %}x{% endset %}{% endfilter %} => 0 BeginCapture(Capture)␊1 BeginCapture(Capture)␊2 EmitRaw("x")␊3 EndCapture␊4 StoreLocal("s")␊5 EndCapture␊6 Lookup("x")␊7 ApplyFilter("f", 2, 0)␊8 ApplyFilter("g", 1, 1)␊9 Emit␊hint 2␊
{% filter f(x)|g %}{% set s.t | f | g(1) %}x{% endset %}{% endfilter %} => 0 BeginCapture(Capture)␊1 BeginCapture(Capture)␊2 EmitRaw("x")␊3 EndCapture␊4 ApplyFilter("f", 1, 0)␊5 LoadConst(1)␊6 ApplyFilter("g", 2, 1)␊7 Lookup("s")␊8 SetAttr("t")␊9 EndCapture␊10 Lookup("x")␊11 ApplyFilter("f", 2, 0)␊12 ApplyFilter("g", 1, 1)␊13 Emit␊hint 2␊
{% filter f(x)|g %}{% filter f(x)|g %}x{% endfilter %}{% endfilter %} => 0 BeginCapture(Capture)␊1 BeginCapture(Capture)␊2 EmitRaw("x")␊3 EndCapture␊4 Lookup("x")␊5 ApplyFilter("f", 2, 0)␊6 ApplyFilter("g", 1, 1)␊7 Emit␊8 EndCapture␊9 Lookup("x")␊10 ApplyFilter("f", 2, 0)␊11 ApplyFilter("g", 1, 1)␊12 Emit␊hint 2␊
{% filter f(x)|g %}{% autoescape z %}x{% endautoescape %}{% endfilter %} => 0 BeginCapture(Capture)␊1 Lookup("z")␊2 PushAutoEscape␊3 EmitRaw("x")␊4 PopAutoEscape␊5 EndCapture␊6 Lookup("x")␊7 ApplyFilter("f", 2, 0)␊8 ApplyFilter("g", 1, 1)␊9 Emit␊hint 2␊
{% autoescape z %}{% for x in y %}x{% endfor %}{% endautoescape %} => 0 Lookup("z")␊1 PushAutoEscape␊2 Lookup("y")␊3 PushLoop(1)␊4 Iterate(8)␊5 StoreLocal("x")␊6 EmitRaw("x")␊7 Jump(4)␊8 PopLoopFrame␊9 PopAutoEscape␊hint 2␊
{% autoescape z %}{% for x in y if x %}x{% endfor %}{% endautoescape %} => 0 Lookup("z")␊1 PushAutoEscape␊2 LoadConst(0)␊3 Lookup("y")␊4 PushLoop(0)␊5 Iterate(16)␊6 DupTop␊7 StoreLocal("x")␊8 Lookup("x")␊9 JumpIfFalse(14)␊10 Swap␊11 LoadConst(1)␊12 Add␊13 Jump(15)␊14 DiscardTop␊15 Jump(5)␊16 PopLoopFrame␊17 BuildList(none)␊18 PushLoop(1)␊19 Iterate(23)␊20 StoreLocal("x")␊21 EmitRaw("x")␊22 Jump(19)␊23 PopLoopFrame␊24 PopAutoEscape␊hint 2␊
{% autoescape z %}{% for x in y recursive %}x{% endfor %}{% endautoescape %} => 0 Lookup("z")␊1 PushAutoEscape␊2 Lookup("y")␊3 PushLoop(3)␊4 Iterate(8)␊5 StoreLocal("x")␊6 EmitRaw("x")␊7 Jump(4)␊8 PopLoopFrame␊9 PopAutoEscape␊hint 2␊
{% autoescape z %}{% for x in y %}o{% else %}x{% endfor %}{% endautoescape %} => 0 Lookup("z")␊1 PushAutoEscape␊2 Lookup("y")␊3 PushLoop(1)␊4 Iterate(8)␊5 StoreLocal("x")␊6 EmitRaw("o")␊7 Jump(4)␊8 PushDidNotIterate␊9 PopLoopFrame␊10 JumpIfFalse(12)␊11 EmitRaw("x")␊12 PopAutoEscape␊hint 4␊
{% autoescape z %}{% if c %}x{% endif %}{% endautoescape %} => 0 Lookup("z")␊1 PushAutoEscape␊2 Lookup("c")␊3 JumpIfFalse(5)␊4 EmitRaw("x")␊5 PopAutoEscape␊hint 2␊
{% autoescape z %}{% if c %}o{% else %}x{% endif %}{% endautoescape %} => 0 Lookup("z")␊1 PushAutoEscape␊2 Lookup("c")␊3 JumpIfFalse(6)␊4 EmitRaw("o")␊5 Jump(7)␊6 EmitRaw("x")␊7 PopAutoEscape␊hint 4␊
{% autoescape z %}{% if c %}o{% elif d %}x{% else %}e{% endif %}{% endautoescape %} => 0 Lookup("z")␊1 PushAutoEscape␊2 Lookup("c")␊3 JumpIfFalse(6)␊4 EmitRaw("o")␊5 Jump(11)␊6 Lookup("d")␊7 JumpIfFalse(10)␊8 EmitRaw("x")␊9 Jump(11)␊10 EmitRaw("e")␊11 PopAutoEscape␊hint 8␊
{% autoescape z %}{% with a = 1, (b, c) = d %}x{% endwith %}{% endautoescape %} => 0 Lookup("z")␊1 PushAutoEscape␊2 PushWith␊3 LoadConst(1)␊4 StoreLocal("a")␊5 Lookup("d")␊6 UnpackList(2)␊7 StoreLocal("b")␊8 StoreLocal("c")␊9 EmitRaw("x")␊10 PopFrame␊11 PopAutoEscape␊hint 2␊
{% autoescape z %}{% set s %}x{% endset %}{% endautoescape %} => 0 Lookup("z")␊1 PushAutoEscape␊2 BeginCapture(Capture)␊3 EmitRaw("x")␊4 EndCapture␊5 StoreLocal("s")␊6 PopAutoEscape␊hint 2␊
{% autoescape z %}{% set s.t | f | g(1) %}x{% endset %}{% endautoescape %} => 0 Lookup("z")␊1 PushAutoEscape␊2 BeginCapture(Capture)␊3 EmitRaw("x")␊4 EndCapture␊5 ApplyFilter("f", 1, 0)␊6 LoadConst(1)␊7 ApplyFilter("g", 2, 1)␊8 Lookup("s")␊9 SetAttr("t")␊10 PopAutoEscape␊hint 2␊
{% autoescape z %}{% filter f(x)|g %}x{% endfilter %}{% endautoescape %} => 0 Lookup("z")␊1 PushAutoEscape␊2 BeginCapture(Capture)␊3 EmitRaw("x")␊4 EndCapture␊5 Lookup("x")␊6 ApplyFilter("f", 2, 0)␊7 ApplyFilter("g", 1, 1)␊8 Emit␊9 PopAutoEscape␊hint 2␊
{% autoescape z %}{% autoescape z %}x{% endautoescape %}{% endautoescape %} => 0 Lookup("z")␊1 PushAutoEscape␊2 Lookup("z")␊3 PushAutoEscape␊4 EmitRaw("x")␊5 PopAutoEscape␊6 PopAutoEscape␊hint 2␊
"#;
    hold::<Code>(rt.alloc(), rows)
}

#[test]
fn targets_and_their_values(rt: HostRuntime) -> Result<(), Fail> {
    let rows = r#"
{% set a = 1 %} => 0 LoadConst(1)␊1 StoreLocal("a")␊hint 1␊
{% set a, b.c = x %} => 0 Lookup("x")␊1 UnpackList(2)␊2 StoreLocal("a")␊3 Lookup("b")␊4 SetAttr("c")␊hint 1␊
{% set (a, b), c = x %} => 0 Lookup("x")␊1 UnpackList(2)␊2 UnpackList(2)␊3 StoreLocal("a")␊4 StoreLocal("b")␊5 StoreLocal("c")␊hint 1␊
{% set a = 1, 2 %} => 0 LoadConst((1, 2))␊1 StoreLocal("a")␊hint 1␊
{% set a = 1, %} => 0 LoadConst((1,))␊1 StoreLocal("a")␊hint 1␊
{% set a.b.c = x %} => 0 Lookup("x")␊1 Lookup("a")␊2 GetAttr("b")␊3 SetAttr("c")␊hint 1␊
{% set (a) = x %} => 0 Lookup("x")␊1 StoreLocal("a")␊hint 1␊
{% set ((a, b),) = x %} => 0 Lookup("x")␊1 UnpackList(1)␊2 UnpackList(2)␊3 StoreLocal("a")␊4 StoreLocal("b")␊hint 1␊
{% set () = x %} => 0 Lookup("x")␊1 UnpackList(0)␊hint 1␊
{% for a, b in c %}{% endfor %} => 0 Lookup("c")␊1 PushLoop(1)␊2 Iterate(7)␊3 UnpackList(2)␊4 StoreLocal("a")␊5 StoreLocal("b")␊6 Jump(2)␊7 PopLoopFrame␊hint 1␊
{% for (a, b), c in d %}{% endfor %} => 0 Lookup("d")␊1 PushLoop(1)␊2 Iterate(9)␊3 UnpackList(2)␊4 UnpackList(2)␊5 StoreLocal("a")␊6 StoreLocal("b")␊7 StoreLocal("c")␊8 Jump(2)␊9 PopLoopFrame␊hint 1␊
{% for a, in b %}{% endfor %} => 0 Lookup("b")␊1 PushLoop(1)␊2 Iterate(6)␊3 UnpackList(1)␊4 StoreLocal("a")␊5 Jump(2)␊6 PopLoopFrame␊hint 1␊
{% for in x %}{% endfor %} => 0 Lookup("x")␊1 PushLoop(1)␊2 Iterate(5)␊3 UnpackList(0)␊4 Jump(2)␊5 PopLoopFrame␊hint 1␊
"#;
    hold::<Code>(rt.alloc(), rows)
}

#[test]
fn loops_and_conditions(rt: HostRuntime) -> Result<(), Fail> {
    let rows = r#"
{% for x in a or b %}{% endfor %} => 0 Lookup("a")␊1 JumpIfTrueOrPop(3)␊2 Lookup("b")␊3 PushLoop(1)␊4 Iterate(7)␊5 StoreLocal("x")␊6 Jump(4)␊7 PopLoopFrame␊hint 1␊
{% for x in y if x recursive %}{{ loop(x) }}{% endfor %} => 0 LoadConst(0)␊1 Lookup("y")␊2 PushLoop(0)␊3 Iterate(14)␊4 DupTop␊5 StoreLocal("x")␊6 Lookup("x")␊7 JumpIfFalse(12)␊8 Swap␊9 LoadConst(1)␊10 Add␊11 Jump(13)␊12 DiscardTop␊13 Jump(3)␊14 PopLoopFrame␊15 BuildList(none)␊16 PushLoop(3)␊17 Iterate(22)␊18 StoreLocal("x")␊19 Lookup("x")␊20 FastRecurse␊21 Jump(17)␊22 PopLoopFrame␊hint 1␊
{% for x in y recursive %}{{ loop(x) }}{% endfor %} => 0 Lookup("y")␊1 PushLoop(3)␊2 Iterate(7)␊3 StoreLocal("x")␊4 Lookup("x")␊5 FastRecurse␊6 Jump(2)␊7 PopLoopFrame␊hint 1␊
{% for x in y %}{{ loop.index }}{% else %}{{ loop }}{% endfor %} => 0 Lookup("y")␊1 PushLoop(1)␊2 Iterate(8)␊3 StoreLocal("x")␊4 Lookup("loop")␊5 GetAttr("index")␊6 Emit␊7 Jump(2)␊8 PushDidNotIterate␊9 PopLoopFrame␊10 JumpIfFalse(13)␊11 Lookup("loop")␊12 Emit␊hint 1␊
{% for x in y %}{% if x %}{% break %}{% endif %}{% endfor %} => 0 Lookup("y")␊1 PushLoop(1)␊2 Iterate(8)␊3 StoreLocal("x")␊4 Lookup("x")␊5 JumpIfFalse(7)␊6 Jump(8)␊7 Jump(2)␊8 PopLoopFrame␊hint 1␊
{% for x in y %}{% if x %}{% continue %}{% endif %}a{% endfor %} => 0 Lookup("y")␊1 PushLoop(1)␊2 Iterate(9)␊3 StoreLocal("x")␊4 Lookup("x")␊5 JumpIfFalse(7)␊6 Jump(2)␊7 EmitRaw("a")␊8 Jump(2)␊9 PopLoopFrame␊hint 2␊
{% for x in y %}{% break %}{% continue %}{% endfor %} => 0 Lookup("y")␊1 PushLoop(1)␊2 Iterate(7)␊3 StoreLocal("x")␊4 Jump(7)␊5 Jump(2)␊6 Jump(2)␊7 PopLoopFrame␊hint 1␊
{% for x in y %}{% for z in x %}{% break %}{% endfor %}{% break %}{% endfor %} => 0 Lookup("y")␊1 PushLoop(1)␊2 Iterate(13)␊3 StoreLocal("x")␊4 Lookup("x")␊5 PushLoop(1)␊6 Iterate(10)␊7 StoreLocal("z")␊8 Jump(10)␊9 Jump(6)␊10 PopLoopFrame␊11 Jump(13)␊12 Jump(2)␊13 PopLoopFrame␊hint 1␊
{% for x in y if x %}{% break %}{% endfor %} => 0 LoadConst(0)␊1 Lookup("y")␊2 PushLoop(0)␊3 Iterate(14)␊4 DupTop␊5 StoreLocal("x")␊6 Lookup("x")␊7 JumpIfFalse(12)␊8 Swap␊9 LoadConst(1)␊10 Add␊11 Jump(13)␊12 DiscardTop␊13 Jump(3)␊14 PopLoopFrame␊15 BuildList(none)␊16 PushLoop(1)␊17 Iterate(21)␊18 StoreLocal("x")␊19 Jump(21)␊20 Jump(17)␊21 PopLoopFrame␊hint 1␊
{% for x in y %}{% break %}{% else %}e{% endfor %} => 0 Lookup("y")␊1 PushLoop(1)␊2 Iterate(6)␊3 StoreLocal("x")␊4 Jump(6)␊5 Jump(2)␊6 PushDidNotIterate␊7 PopLoopFrame␊8 JumpIfFalse(10)␊9 EmitRaw("e")␊hint 2␊
{% for x in y %}{% if a %}{% break %}{% elif b %}{% continue %}{% else %}{% break %}{% endif %}{% endfor %} => 0 Lookup("y")␊1 PushLoop(1)␊2 Iterate(14)␊3 StoreLocal("x")␊4 Lookup("a")␊5 JumpIfFalse(8)␊6 Jump(14)␊7 Jump(13)␊8 Lookup("b")␊9 JumpIfFalse(12)␊10 Jump(2)␊11 Jump(13)␊12 Jump(14)␊13 Jump(2)␊14 PopLoopFrame␊hint 1␊
{% for a in b %}{% for x in y %}{% else %}{% break %}{% endfor %}{% endfor %} => 0 Lookup("b")␊1 PushLoop(1)␊2 Iterate(14)␊3 StoreLocal("a")␊4 Lookup("y")␊5 PushLoop(1)␊6 Iterate(9)␊7 StoreLocal("x")␊8 Jump(6)␊9 PushDidNotIterate␊10 PopLoopFrame␊11 JumpIfFalse(13)␊12 Jump(14)␊13 Jump(2)␊14 PopLoopFrame␊hint 1␊
{% for a in b %}{% for x in y %}{% else %}{% continue %}{% endfor %}{% endfor %} => 0 Lookup("b")␊1 PushLoop(1)␊2 Iterate(14)␊3 StoreLocal("a")␊4 Lookup("y")␊5 PushLoop(1)␊6 Iterate(9)␊7 StoreLocal("x")␊8 Jump(6)␊9 PushDidNotIterate␊10 PopLoopFrame␊11 JumpIfFalse(13)␊12 Jump(2)␊13 Jump(2)␊14 PopLoopFrame␊hint 1␊
{% if a %}{% elif b %}y{% endif %} => 0 Lookup("a")␊1 JumpIfFalse(3)␊2 Jump(6)␊3 Lookup("b")␊4 JumpIfFalse(6)␊5 EmitRaw("y")␊hint 2␊
{% if a %}{% else %}{% endif %} => 0 Lookup("a")␊1 JumpIfFalse(2)␊hint 1␊
{% if a %}{% elif b %}{% elif c %}{% else %}z{% endif %} => 0 Lookup("a")␊1 JumpIfFalse(3)␊2 Jump(10)␊3 Lookup("b")␊4 JumpIfFalse(6)␊5 Jump(10)␊6 Lookup("c")␊7 JumpIfFalse(9)␊8 Jump(10)␊9 EmitRaw("z")␊hint 2␊
{% if not a %}x{% endif %} => 0 Lookup("a")␊1 Not␊2 JumpIfFalse(4)␊3 EmitRaw("x")␊hint 2␊
{% if 1 %}x{% endif %} => 0 LoadConst(1)␊1 JumpIfFalse(3)␊2 EmitRaw("x")␊hint 2␊
"#;
    hold::<Code>(rt.alloc(), rows)
}

#[test]
fn scopes_and_captures(rt: HostRuntime) -> Result<(), Fail> {
    let rows = r#"
{% set %}x{% endset %} => 0 BeginCapture(Capture)␊1 EmitRaw("x")␊2 EndCapture␊3 UnpackList(0)␊hint 2␊
{% with %}x{% endwith %} => 0 PushWith␊1 EmitRaw("x")␊2 PopFrame␊hint 2␊
{% with a = b %}{{ a }}{% endwith %} => 0 PushWith␊1 Lookup("b")␊2 StoreLocal("a")␊3 Lookup("a")␊4 Emit␊5 PopFrame␊hint 1␊
{% with a = 1, b = a %}{{ b }}{% endwith %} => 0 PushWith␊1 LoadConst(1)␊2 StoreLocal("a")␊3 Lookup("a")␊4 StoreLocal("b")␊5 Lookup("b")␊6 Emit␊7 PopFrame␊hint 1␊
{% with in = 1 %}{{ in }}{% endwith %} => 0 PushWith␊1 LoadConst(1)␊2 StoreLocal("in")␊3 Lookup("in")␊4 Emit␊5 PopFrame␊hint 1␊
{% with (a) = 1 %}{% endwith %} => 0 PushWith␊1 LoadConst(1)␊2 StoreLocal("a")␊3 PopFrame␊hint 1␊
{% filter f|g(1) %}x{% endfilter %} => 0 BeginCapture(Capture)␊1 EmitRaw("x")␊2 EndCapture␊3 ApplyFilter("f", 1, 0)␊4 LoadConst(1)␊5 ApplyFilter("g", 2, 1)␊6 Emit␊hint 2␊
{% filter a.b %}x{% endfilter %} => 0 BeginCapture(Capture)␊1 EmitRaw("x")␊2 EndCapture␊3 ApplyFilter("a.b", 1, 0)␊4 Emit␊hint 2␊
{% set a | f %}x{% endset %} => 0 BeginCapture(Capture)␊1 EmitRaw("x")␊2 EndCapture␊3 ApplyFilter("f", 1, 0)␊4 StoreLocal("a")␊hint 2␊
{% set a, b %}x{% endset %} => 0 BeginCapture(Capture)␊1 EmitRaw("x")␊2 EndCapture␊3 UnpackList(2)␊4 StoreLocal("a")␊5 StoreLocal("b")␊hint 2␊
{% autoescape true %}{{ x }}{% endautoescape %} => 0 LoadConst(true)␊1 PushAutoEscape␊2 Lookup("x")␊3 Emit␊4 PopAutoEscape␊hint 1␊
{% autoescape a if b else c %}{% endautoescape %} => 0 Lookup("b")␊1 JumpIfFalse(4)␊2 Lookup("a")␊3 Jump(5)␊4 Lookup("c")␊5 PushAutoEscape␊6 PopAutoEscape␊hint 1␊
"#;
    hold::<Code>(rt.alloc(), rows)
}

/// `break` and `continue` close what is open, and `do` drops its value: here the layout decides.
#[test]
fn what_is_open_is_closed_on_the_way_out(rt: HostRuntime) -> Result<(), Fail> {
    let rows = r#"
{% do f(x) %} => 0 Lookup("x")␊1 CallFunction("f", 1)␊2 DiscardTop␊hint 1␊
{% for x in y %}{% autoescape z %}{% break %}{% endautoescape %}{% endfor %} => 0 Lookup("y")␊1 PushLoop(1)␊2 Iterate(10)␊3 StoreLocal("x")␊4 Lookup("z")␊5 PushAutoEscape␊6 PopAutoEscape␊7 Jump(10)␊8 PopAutoEscape␊9 Jump(2)␊10 PopLoopFrame␊hint 1␊
{% for x in y %}{% with %}{% break %}{% endwith %}{% endfor %} => 0 Lookup("y")␊1 PushLoop(1)␊2 Iterate(9)␊3 StoreLocal("x")␊4 PushWith␊5 PopFrame␊6 Jump(9)␊7 PopFrame␊8 Jump(2)␊9 PopLoopFrame␊hint 1␊
{% for x in y %}{% set s %}a{% continue %}{% endset %}{% endfor %} => 0 Lookup("y")␊1 PushLoop(1)␊2 Iterate(12)␊3 StoreLocal("x")␊4 BeginCapture(Capture)␊5 EmitRaw("a")␊6 EndCapture␊7 DiscardTop␊8 Jump(2)␊9 EndCapture␊10 StoreLocal("s")␊11 Jump(2)␊12 PopLoopFrame␊hint 2␊
{% for x in y %}{% filter f %}{% with %}{% continue %}{% endwith %}{% endfilter %}{% endfor %} => 0 Lookup("y")␊1 PushLoop(1)␊2 Iterate(15)␊3 StoreLocal("x")␊4 BeginCapture(Capture)␊5 PushWith␊6 PopFrame␊7 EndCapture␊8 DiscardTop␊9 Jump(2)␊10 PopFrame␊11 EndCapture␊12 ApplyFilter("f", 1, 0)␊13 Emit␊14 Jump(2)␊15 PopLoopFrame␊hint 1␊
"#;
    hold::<Code>(rt.alloc(), rows)
}

/// What cuts data beside a block tag.
#[test]
fn statements_in_other_syntaxes(rt: HostRuntime) -> Result<(), Fail> {
    let rows = r#"
code, --trim-blocks, --lstrip-blocks, - < <div>␊␠␠{% if True %}␊␠␠␠␠yay␊␠␠{% endif %}␊</div> => template␊0 EmitRaw("<div>\n")␊1 LoadConst(true)␊2 JumpIfFalse(4)␊3 EmitRaw("    yay\n")␊4 EmitRaw("</div>")␊hint 64␊
code, --trim-blocks, - < {% for x in y %}␊{{ x }}␊{% endfor %}␊z => template␊0 Lookup("y")␊1 PushLoop(1)␊2 Iterate(8)␊3 StoreLocal("x")␊4 Lookup("x")␊5 Emit␊6 EmitRaw("\n")␊7 Jump(2)␊8 PopLoopFrame␊9 EmitRaw("z")␊hint 4␊
code, --lstrip-blocks, - < a␊␠␠{% for x in y %}␊␠␠b␊␠␠{% endfor %}␊c => template␊0 EmitRaw("a\n")␊1 Lookup("y")␊2 PushLoop(1)␊3 Iterate(7)␊4 StoreLocal("x")␊5 EmitRaw("\n  b\n")␊6 Jump(3)␊7 PopLoopFrame␊8 EmitRaw("\nc")␊hint 32␊
code, --line-statement, #, --line-comment, ##, - < # if a␍␊x␍␊# endif => template␊0 Lookup("a")␊1 JumpIfFalse(3)␊2 EmitRaw("x\r\n")␊hint 8␊
code, --line-statement, #, --line-comment, ##, - < ## This block is␊## completely removed␊<ul>␊␠␠# for item in [1, 2]␊␠␠␠␠## this is a comment that is also removed including leading whitespace␊␠␠␠␠<li>{{ item }}␊␠␠# endfor␊</ul> => template␊0 EmitRaw("<ul>\n")␊1 LoadConst([1, 2])␊2 PushLoop(1)␊3 Iterate(10)␊4 StoreLocal("item")␊5 EmitRaw("    <li>")␊6 Lookup("item")␊7 Emit␊8 EmitRaw("\n")␊9 Jump(3)␊10 PopLoopFrame␊11 EmitRaw("</ul>")␊hint 64␊
code, --block, \BLOCK{, }, --variable, \VAR{, }, --comment, \#{, }, - < \BLOCK{if a}\VAR{a}\BLOCK{endif} => template␊0 Lookup("a")␊1 JumpIfFalse(4)␊2 Lookup("a")␊3 Emit␊hint 1␊
code, --line-statement, %, - < % for x in y␊␠␠% if x␊{{ x }}␊␠␠% else␊n␊␠␠% endif␊% endfor␊ => template␊0 Lookup("y")␊1 PushLoop(1)␊2 Iterate(12)␊3 StoreLocal("x")␊4 Lookup("x")␊5 JumpIfFalse(10)␊6 Lookup("x")␊7 Emit␊8 EmitRaw("\n")␊9 Jump(11)␊10 EmitRaw("n\n")␊11 Jump(2)␊12 PopLoopFrame␊hint 8␊
code, --keep-newline, - < {% with a = 1 %}␊{%- endwith -%}␊ => template␊0 PushWith␊1 LoadConst(1)␊2 StoreLocal("a")␊3 PopFrame␊hint 1␊
"#;
    hold::<Commands>(rt.alloc(), rows)
}

/// Templates that are refused as syntax errors, whatever place is named.
pub enum RefusedSomewhere {}

impl Subject for RefusedSomewhere {
    fn words(alloc: Global, text: &str) -> Result<String, Fail> {
        let output = output(alloc, &CODE, &mut text.as_bytes())?;
        let (refusal, _) = parted(output.as_str(), " at ");
        Ok(String::from_str(alloc, refusal)?)
    }
}

#[test]
fn refuses_what_is_no_statement(rt: HostRuntime) -> Result<(), Fail> {
    let rows = r#"
{% break %} => ! 1 mjc: SyntaxError
{% continue %} => ! 1 mjc: SyntaxError
{% for x in y %}{% else %}{% break %}{% endfor %} => ! 1 mjc: SyntaxError
{% if a %} => ! 1 mjc: SyntaxError
{% if a %}{% else %} => ! 1 mjc: SyntaxError
{% endif %} => ! 1 mjc: SyntaxError
{% else %} => ! 1 mjc: SyntaxError
{% for x in y %}{% endif %} => ! 1 mjc: SyntaxError
{% for x in y %} => ! 1 mjc: SyntaxError
{% for x y %}{% endfor %} => ! 1 mjc: SyntaxError
{% for loop in y %}{% endfor %} => ! 1 mjc: SyntaxError
{% set true = 1 %} => ! 1 mjc: SyntaxError
{% set a.b, self = 1 %} => ! 1 mjc: SyntaxError
{% set a, = x %} => ! 1 mjc: SyntaxError
{% set = x %} => ! 1 mjc: SyntaxError
{% set a b %} => ! 1 mjc: SyntaxError
{% set in = 1 %} => ! 1 mjc: SyntaxError
{% for in in y %}{% endfor %} => ! 1 mjc: SyntaxError
{% with (in) = 1 %}{% endwith %} => ! 1 mjc: SyntaxError
{% with loop = 1 %}{% endwith %} => ! 1 mjc: SyntaxError
{% with a %}{% endwith %} => ! 1 mjc: SyntaxError
{% with a = 1, %}{% endwith %} => ! 1 mjc: SyntaxError
{% with a.b = 1 %}{% endwith %} => ! 1 mjc: SyntaxError
{% for a.b in c %}{% endfor %} => ! 1 mjc: SyntaxError
{% filter %}x{% endfilter %} => ! 1 mjc: SyntaxError
{% filter a| %}x{% endfilter %} => ! 1 mjc: SyntaxError
{% set a | %}{% endset %} => ! 1 mjc: SyntaxError
{% autoescape %}{% endautoescape %} => ! 1 mjc: SyntaxError
{% do x %} => ! 1 mjc: SyntaxError
{% do f %} => ! 1 mjc: SyntaxError
{% do %} => ! 1 mjc: SyntaxError
{% for x in a if b else c %}{% endfor %} => ! 1 mjc: SyntaxError
{% if a %}{% else %}{% elif b %}{% endif %} => ! 1 mjc: SyntaxError
{% if a %}{% else %}{% else %}{% endif %} => ! 1 mjc: SyntaxError
{% for x in y recursive if x %}{% endfor %} => ! 1 mjc: SyntaxError
{% for x in y %}{% endfor x %} => ! 1 mjc: SyntaxError
{% if %}{% endif %} => ! 1 mjc: SyntaxError
{% with a = 1 %}{% endset %} => ! 1 mjc: SyntaxError
"#;
    hold::<RefusedSomewhere>(rt.alloc(), rows)
}

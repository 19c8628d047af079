//! Expressions, and the upstream program's code for them.
//!
//! Constants are folded as this project's values are.
use super::{after_head, output};
use minijinja_test_rows::rows::{Subject, hold};
use std::alloc::Global;
use std::test::Fail;

/// Expressions: their code.
enum Code {}

impl Subject for Code {
    fn words(alloc: Global, text: &str) -> Result<String, Fail> {
        let output = output(alloc, &["expr", text], &mut b"".as_slice())?;
        Ok(after_head(alloc, output.as_str(), "expression\n")?)
    }
}

#[test]
fn names_and_literals(rt: HostRuntime) -> Result<(), Fail> {
    let rows = r#"
a => 0 Lookup("a")␊
true => 0 LoadConst(true)␊
False => 0 LoadConst(false)␊
none => 0 LoadConst(none)␊
"it's" => 0 LoadConst("it's")␊
'a' 'b' "c" => 0 LoadConst("abc")␊
0x1F => 0 LoadConst(31)␊
18446744073709551616 => 0 LoadConst(18446744073709551616)␊
340282366920938463463374607431768211455 => 0 LoadConst(340282366920938463463374607431768211455)␊
() => 0 LoadConst(())␊
(a,) => 0 Lookup("a")␊1 BuildTuple(1)␊
(a, b) => 0 Lookup("a")␊1 Lookup("b")␊2 BuildTuple(2)␊
[a, 1] => 0 Lookup("a")␊1 LoadConst(1)␊2 BuildList(2)␊
[1, "x", none] => 0 LoadConst([1, "x", none])␊
{"a": b} => 0 LoadConst("a")␊1 Lookup("b")␊2 BuildMap(1)␊
{"a": 1, "b": [2]} => 0 LoadConst("a")␊1 LoadConst(1)␊2 LoadConst("b")␊3 LoadConst([2])␊4 BuildMap(2)␊
(1, 2) => 0 LoadConst((1, 2))␊
[[1]] => 0 LoadConst([1])␊1 BuildList(1)␊
{'a': x, 'b': 2} => 0 LoadConst("a")␊1 Lookup("x")␊2 LoadConst("b")␊3 LoadConst(2)␊4 BuildMap(2)␊
"#;
    hold::<Code>(rt.alloc(), rows)
}

#[test]
fn operators(rt: HostRuntime) -> Result<(), Fail> {
    let rows = r#"
-a => 0 Lookup("a")␊1 Neg␊
- x.y => 0 Lookup("x")␊1 GetAttr("y")␊2 Neg␊
not a => 0 Lookup("a")␊1 Not␊
not not a => 0 Lookup("a")␊1 Not␊2 Not␊
a + b => 0 Lookup("a")␊1 Lookup("b")␊2 Add␊
a - b => 0 Lookup("a")␊1 Lookup("b")␊2 Sub␊
a * b => 0 Lookup("a")␊1 Lookup("b")␊2 Mul␊
a / b => 0 Lookup("a")␊1 Lookup("b")␊2 Div␊
a // b => 0 Lookup("a")␊1 Lookup("b")␊2 IntDiv␊
a % b => 0 Lookup("a")␊1 Lookup("b")␊2 Rem␊
a ** b => 0 Lookup("a")␊1 Lookup("b")␊2 Pow␊
2**3**2 => 0 LoadConst(512)␊
(2**3)**2 => 0 LoadConst(64)␊
x**y**z => 0 Lookup("x")␊1 Lookup("y")␊2 Lookup("z")␊3 Pow␊4 Pow␊
2 * x ** 2 ** 3 => 0 LoadConst(2)␊1 Lookup("x")␊2 LoadConst(8)␊3 Pow␊4 Mul␊
a ~ b => 0 Lookup("a")␊1 Lookup("b")␊2 StringConcat␊
"x" ~ 1 => 0 LoadConst("x1")␊
a == b => 0 Lookup("a")␊1 Lookup("b")␊2 Eq␊
a != b => 0 Lookup("a")␊1 Lookup("b")␊2 Ne␊
a < b => 0 Lookup("a")␊1 Lookup("b")␊2 Lt␊
a <= b => 0 Lookup("a")␊1 Lookup("b")␊2 Lte␊
a > b => 0 Lookup("a")␊1 Lookup("b")␊2 Gt␊
a >= b => 0 Lookup("a")␊1 Lookup("b")␊2 Gte␊
a in b => 0 Lookup("a")␊1 Lookup("b")␊2 In␊
a not in b => 0 Lookup("a")␊1 Lookup("b")␊2 In␊3 Not␊
1 not in [2] => 0 LoadConst(true)␊
a < b < c => 0 Lookup("a")␊1 Lookup("b")␊2 CompareAndPreserve(Lt)␊3 JumpIfFalseOrPop(7)␊4 Lookup("c")␊5 Lt␊6 Jump(9)␊7 Swap␊8 DiscardTop␊
1 < 2 < 3 => 0 LoadConst(true)␊
1 > 2 > x => 0 LoadConst(false)␊
1 < 2 > x => 0 LoadConst(1)␊1 LoadConst(2)␊2 CompareAndPreserve(Lt)␊3 JumpIfFalseOrPop(7)␊4 Lookup("x")␊5 Gt␊6 Jump(9)␊7 Swap␊8 DiscardTop␊
a in b not in c => 0 Lookup("a")␊1 Lookup("b")␊2 CompareAndPreserve(In)␊3 JumpIfFalseOrPop(8)␊4 Lookup("c")␊5 In␊6 Not␊7 Jump(10)␊8 Swap␊9 DiscardTop␊
a and b => 0 Lookup("a")␊1 JumpIfFalseOrPop(3)␊2 Lookup("b")␊
a or b => 0 Lookup("a")␊1 JumpIfTrueOrPop(3)␊2 Lookup("b")␊
false and 1 // 0 => 0 LoadConst(false)␊1 JumpIfFalseOrPop(5)␊2 LoadConst(1)␊3 LoadConst(0)␊4 IntDiv␊
true or a => 0 LoadConst(true)␊1 JumpIfTrueOrPop(3)␊2 Lookup("a")␊
a or b and not c => 0 Lookup("a")␊1 JumpIfTrueOrPop(6)␊2 Lookup("b")␊3 JumpIfFalseOrPop(6)␊4 Lookup("c")␊5 Not␊
a if b else c => 0 Lookup("b")␊1 JumpIfFalse(4)␊2 Lookup("a")␊3 Jump(5)␊4 Lookup("c")␊
a if b => 0 Lookup("b")␊1 JumpIfFalse(4)␊2 Lookup("a")␊3 Jump(5)␊4 LoadConst(silent)␊
a if b if c else d => 0 Lookup("c")␊1 JumpIfFalse(8)␊2 Lookup("b")␊3 JumpIfFalse(6)␊4 Lookup("a")␊5 Jump(7)␊6 LoadConst(silent)␊7 Jump(9)␊8 Lookup("d")␊
1 < x < 3 < y => 0 LoadConst(1)␊1 Lookup("x")␊2 CompareAndPreserve(Lt)␊3 JumpIfFalseOrPop(10)␊4 LoadConst(3)␊5 CompareAndPreserve(Lt)␊6 JumpIfFalseOrPop(10)␊7 Lookup("y")␊8 Lt␊9 Jump(12)␊10 Swap␊11 DiscardTop␊
a if b and c else d => 0 Lookup("b")␊1 JumpIfFalseOrPop(3)␊2 Lookup("c")␊3 JumpIfFalse(6)␊4 Lookup("a")␊5 Jump(7)␊6 Lookup("d")␊
a + 1 * 2 => 0 Lookup("a")␊1 LoadConst(2)␊2 Add␊
"#;
    hold::<Code>(rt.alloc(), rows)
}

#[test]
fn postfix_and_arguments(rt: HostRuntime) -> Result<(), Fail> {
    let rows = r#"
a.b => 0 Lookup("a")␊1 GetAttr("b")␊
a.0 => 0 Lookup("a")␊1 LoadConst(0)␊2 GetItem␊
a[b] => 0 Lookup("a")␊1 Lookup("b")␊2 GetItem␊
a["k"].c[1] => 0 Lookup("a")␊1 LoadConst("k")␊2 GetItem␊3 GetAttr("c")␊4 LoadConst(1)␊5 GetItem␊
x[1:] => 0 Lookup("x")␊1 LoadConst(1)␊2 LoadConst(none)␊3 LoadConst(none)␊4 Slice␊
x[:2] => 0 Lookup("x")␊1 LoadConst(none)␊2 LoadConst(2)␊3 LoadConst(none)␊4 Slice␊
x[::3] => 0 Lookup("x")␊1 LoadConst(none)␊2 LoadConst(none)␊3 LoadConst(3)␊4 Slice␊
x[a:b:c] => 0 Lookup("x")␊1 Lookup("a")␊2 Lookup("b")␊3 Lookup("c")␊4 Slice␊
f() => 0 CallFunction("f", 0)␊
f(a, 1) => 0 Lookup("a")␊1 LoadConst(1)␊2 CallFunction("f", 2)␊
f(a, b=c) => 0 Lookup("a")␊1 LoadConst("b")␊2 Lookup("c")␊3 BuildKwargs(1)␊4 CallFunction("f", 2)␊
f(a=1, b="x") => 0 LoadConst(kwargs{"a": 1, "b": "x"})␊1 CallFunction("f", 1)␊
f(b=x, *y) => 0 Lookup("y")␊1 LoadConst("b")␊2 Lookup("x")␊3 BuildKwargs(1)␊4 BuildList(1)␊5 UnpackLists(2)␊6 CallFunction("f", none)␊
f(*a, **b) => 0 Lookup("a")␊1 Lookup("b")␊2 MergeKwargs(1)␊3 BuildList(1)␊4 UnpackLists(2)␊5 CallFunction("f", none)␊
f(x, *y, z, k=1, **m) => 0 Lookup("x")␊1 BuildList(1)␊2 Lookup("y")␊3 Lookup("z")␊4 LoadConst("k")␊5 LoadConst(1)␊6 BuildKwargs(1)␊7 Lookup("m")␊8 MergeKwargs(2)␊9 BuildList(2)␊10 UnpackLists(3)␊11 CallFunction("f", none)␊
f(**m) => 0 Lookup("m")␊1 MergeKwargs(1)␊2 CallFunction("f", 1)␊
f(**m, k=1) => 0 Lookup("m")␊1 LoadConst("k")␊2 LoadConst(1)␊3 BuildKwargs(1)␊4 MergeKwargs(2)␊5 CallFunction("f", 1)␊
a.m(b) => 0 Lookup("a")␊1 Lookup("b")␊2 CallMethod("m", 2)␊
a.m(*b) => 0 Lookup("a")␊1 BuildList(1)␊2 Lookup("b")␊3 UnpackLists(2)␊4 CallMethod("m", none)␊
a[0](b) => 0 Lookup("a")␊1 LoadConst(0)␊2 GetItem␊3 Lookup("b")␊4 CallObject(2)␊
(f)(a) => 0 Lookup("a")␊1 CallFunction("f", 1)␊
self.b(x) => 0 BeginCapture(Capture)␊1 CallBlock("b")␊2 EndCapture␊
self.b => 0 Lookup("self")␊1 GetAttr("b")␊
f(a)(b) => 0 Lookup("a")␊1 CallFunction("f", 1)␊2 Lookup("b")␊3 CallObject(2)␊
x[1::y] => 0 Lookup("x")␊1 LoadConst(1)␊2 LoadConst(none)␊3 Lookup("y")␊4 Slice␊
f(1, *a, 2, *b, 3, k=4, **c, l=m) => 0 LoadConst(1)␊1 BuildList(1)␊2 Lookup("a")␊3 LoadConst(2)␊4 BuildList(1)␊5 Lookup("b")␊6 LoadConst(3)␊7 LoadConst("k")␊8 LoadConst(4)␊9 BuildKwargs(1)␊10 Lookup("c")␊11 LoadConst("l")␊12 Lookup("m")␊13 BuildKwargs(1)␊14 MergeKwargs(3)␊15 BuildList(2)␊16 UnpackLists(5)␊17 CallFunction("f", none)␊
f(a=x, b=1) => 0 LoadConst("a")␊1 Lookup("x")␊2 LoadConst("b")␊3 LoadConst(1)␊4 BuildKwargs(2)␊5 CallFunction("f", 1)␊
o.m(*x, y) => 0 Lookup("o")␊1 BuildList(1)␊2 Lookup("x")␊3 Lookup("y")␊4 BuildList(1)␊5 UnpackLists(3)␊6 CallMethod("m", none)␊
"#;
    hold::<Code>(rt.alloc(), rows)
}

#[test]
fn filters_and_tests(rt: HostRuntime) -> Result<(), Fail> {
    let rows = r#"
a|f => 0 Lookup("a")␊1 ApplyFilter("f", 1, 0)␊
a|f(1)|g => 0 Lookup("a")␊1 LoadConst(1)␊2 ApplyFilter("f", 2, 0)␊3 ApplyFilter("g", 1, 1)␊
x|a . b => 0 Lookup("x")␊1 ApplyFilter("a . b", 1, 0)␊
a|f(*b) => 0 Lookup("a")␊1 BuildList(1)␊2 Lookup("b")␊3 UnpackLists(2)␊4 ApplyFilter("f", none, 0)␊
a|f(k=v) => 0 Lookup("a")␊1 LoadConst("k")␊2 Lookup("v")␊3 BuildKwargs(1)␊4 ApplyFilter("f", 2, 0)␊
-x|abs => 0 Lookup("x")␊1 Neg␊2 ApplyFilter("abs", 1, 0)␊
a is defined => 0 Lookup("a")␊1 PerformTest("defined", 1, 0)␊
a is not defined => 0 Lookup("a")␊1 PerformTest("defined", 1, 0)␊2 Not␊
a is divisibleby 3 => 0 Lookup("a")␊1 LoadConst(3)␊2 PerformTest("divisibleby", 2, 0)␊
a is divisibleby(3) => 0 Lookup("a")␊1 LoadConst(3)␊2 PerformTest("divisibleby", 2, 0)␊
a is sameas b => 0 Lookup("a")␊1 Lookup("b")␊2 PerformTest("sameas", 2, 0)␊
not a is defined => 0 Lookup("a")␊1 PerformTest("defined", 1, 0)␊2 Not␊
1 if a is defined else 2 => 0 Lookup("a")␊1 PerformTest("defined", 1, 0)␊2 JumpIfFalse(5)␊3 LoadConst(1)␊4 Jump(6)␊5 LoadConst(2)␊
a is in [1] => 0 Lookup("a")␊1 LoadConst([1])␊2 PerformTest("in", 2, 0)␊
o|f(*x, y) => 0 Lookup("o")␊1 BuildList(1)␊2 Lookup("x")␊3 Lookup("y")␊4 BuildList(1)␊5 UnpackLists(3)␊6 ApplyFilter("f", none, 0)␊
"#;
    hold::<Code>(rt.alloc(), rows)
}

#[test]
fn constants_fold(rt: HostRuntime) -> Result<(), Fail> {
    let rows = r#"
foo.1.0 => 0 Lookup("foo")␊1 LoadConst(1)␊2 GetItem␊3 LoadConst(0)␊4 GetItem␊
1 // 0 => 0 LoadConst(1)␊1 LoadConst(0)␊2 IntDiv␊
1 / 2 => 0 LoadConst(1)␊1 LoadConst(2)␊2 Div␊
-2**2 => 0 LoadConst(4)␊
7 // -2 => 0 LoadConst(-3)␊
-7 % 3 => 0 LoadConst(2)␊
2 ** 127 => 0 LoadConst(170141183460469231731687303715884105728)␊
1 + 2 * 3 - 4 => 0 LoadConst(3)␊
[1] + [2] => 0 LoadConst([1])␊1 LoadConst([2])␊2 Add␊
-1 is odd => 0 LoadConst(-1)␊1 PerformTest("odd", 1, 0)␊
{1: 2, 1: 3} => 0 LoadConst({1: 3})␊
"a" in "abc" => 0 LoadConst(true)␊
1 < 2 and "x" => 0 LoadConst("x")␊
0 or none => 0 LoadConst(none)␊
-'a' => 0 LoadConst("a")␊1 Neg␊
1 + 2 + x => 0 LoadConst(3)␊1 Lookup("x")␊2 Add␊
x + 1 + 2 => 0 Lookup("x")␊1 LoadConst(1)␊2 Add␊3 LoadConst(2)␊4 Add␊
2 + 1 // 0 => 0 LoadConst(2)␊1 LoadConst(1)␊2 LoadConst(0)␊3 IntDiv␊4 Add␊
1 and 2 => 0 LoadConst(2)␊
x and 1 => 0 Lookup("x")␊1 JumpIfFalseOrPop(3)␊2 LoadConst(1)␊
'a' in 'ab' not in 1 => 0 LoadConst("a")␊1 LoadConst("ab")␊2 CompareAndPreserve(In)␊3 JumpIfFalseOrPop(8)␊4 LoadConst(1)␊5 In␊6 Not␊7 Jump(10)␊8 Swap␊9 DiscardTop␊
[1, 1 + 1] => 0 LoadConst(1)␊1 LoadConst(2)␊2 BuildList(2)␊
"#;
    hold::<Code>(rt.alloc(), rows)
}

/// Expressions: why and where they are refused.
enum Refused {}

impl Subject for Refused {
    fn words(alloc: Global, text: &str) -> Result<String, Fail> {
        let output = output(alloc, &["expr", text], &mut b"".as_slice())?;
        Ok(after_head(alloc, output.as_str(), "! 1 mjc: ")?)
    }
}

/// The places are the upstream program's but in three rows: it reads the first, and gives no place
/// for a float and a bad escape, which stand after the integer digits and at the string.
#[test]
fn refusals_name_their_place(rt: HostRuntime) -> Result<(), Fail> {
    let rows = r#"
'a' ? => SyntaxError at 1:4␊
␀ => SyntaxError at 0:0␊
1.5 => SyntaxError at 1:1␊
1_ => SyntaxError at 1:2␊
0b2 => SyntaxError at 1:3␊
0x => SyntaxError at 1:2␊
340282366920938463463374607431768211456 => SyntaxError at 1:39␊
'\q' => BadEscape at 1:0␊
a is defined if b => SyntaxError at 1:16␊
f(b=x, y) => SyntaxError at 1:7␊
f(**x, y) => SyntaxError at 1:7␊
f(1=2) => SyntaxError at 1:3␊
a is => SyntaxError at 1:2␊
a| => SyntaxError at 1:1␊
a[1 => SyntaxError at 1:2␊
a[1:2:3:4] => SyntaxError at 1:7␊
( => SyntaxError at 1:0␊
(a => SyntaxError at 1:1␊
[a => SyntaxError at 1:1␊
{a => SyntaxError at 1:1␊
{a: => SyntaxError at 1:2␊
{a: b => SyntaxError at 1:4␊
f( => SyntaxError at 1:1␊
f(a= => SyntaxError at 1:3␊
f(* => SyntaxError at 1:2␊
not => SyntaxError at 1:0␊
-␠ => SyntaxError at 1:0␊
a + => SyntaxError at 1:2␊
a if => SyntaxError at 1:2␊
a if b else => SyntaxError at 1:7␊
a b => SyntaxError at 1:2␊
a, => SyntaxError at 1:1␊
a not b => SyntaxError at 1:6␊
+a => SyntaxError at 1:0␊
a is + => SyntaxError at 1:5␊
a..b => SyntaxError at 1:2␊
{a} => SyntaxError at 1:2␊
[,] => SyntaxError at 1:1␊
a is 3 => SyntaxError at 1:5␊
a|3 => SyntaxError at 1:2␊
"#;
    hold::<Refused>(rt.alloc(), rows)
}

/// Expressions on standard input: what `expr -` prints, and the status.
enum Input {}

impl Subject for Input {
    fn words(alloc: Global, text: &str) -> Result<String, Fail> {
        output(alloc, &["expr", "-"], &mut text.as_bytes())
    }
}

/// The line that ends there is whitespace, as any other is.
#[test]
fn a_dash_is_standard_input(rt: HostRuntime) -> Result<(), Fail> {
    let rows = r#"
a.b => expression␊0 Lookup("a")␊1 GetAttr("b")␊
a.b␊ => expression␊0 Lookup("a")␊1 GetAttr("b")␊
␊a␊+␉b␍␊␊ => expression␊0 Lookup("a")␊1 Lookup("b")␊2 Add␊
- => ! 1 mjc: SyntaxError at 1:0␊
␊a +␊ => ! 1 mjc: SyntaxError at 2:2␊
'\q'␊ => ! 1 mjc: BadEscape at 1:0␊
␀ => ! 1 mjc: SyntaxError at 0:0␊
"#;
    hold::<Input>(rt.alloc(), rows)
}

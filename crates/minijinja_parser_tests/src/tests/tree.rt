//! The trees of expressions: their values, what they are called, and whether they are well formed.
use super::values::{Constants, printed};
use minijinja_parser::parser::parse_expr;
use minijinja_test_rows::rows::{Subject, hold};
use minijinja_tree::ast::{BinOpKind, CallType, CompareOpKind, Expr, UnaryOpKind};
use minijinja_tree::constants::constant_kwargs;
use minijinja_value::value::{OpError, TemplateValue, Value, ValueFault};
use minijinja_well_formed::well_formed::WellFormed;
use std::alloc::{AllocError, Global};
use std::test::Fail;

/// A node has a value if it is a constant, if its items or keys and values are constants, and if it
/// is an operator over operands that have values.
#[test]
fn expressions_of_constants_have_values(rt: HostRuntime) -> Result<(), Fail> {
    let rows = r#"
1 => 1
x => unknown
[1, x] => unknown
[1, [1, 2]] => unknown
(1, 2) => (1, 2)
{'a': x} => unknown
not 0 => true
- 3 => -3
- 'b' => unknown
not x => unknown
7 == 2 => false
7 != 2 => true
7 < 2 => false
7 <= 2 => false
7 > 2 => true
7 >= 2 => true
7 and 2 => 2
7 or 2 => 7
7 + 2 => 9
7 - 2 => 5
7 * 2 => 14
7 / 2 => unknown
7 % 2 => 1
7 ** 2 => 49
7 ~ 2 => "72"
7 in 2 => unknown
1 // 0 => unknown
0 and 2 => 0
0 or 2 => 2
0 and x => unknown
1 or x => unknown
'b' in 'abc' => true
1 < 2 < 3 => true
1 < 2 < 2 => false
3 < 2 < x => false
1 < 2 < x => unknown
1 not in 2 => unknown
'd' not in 'abc' => true
"#;
    hold::<Constants>(rt.alloc(), rows)
}

/// An operator on constants gives a value or says which fault it met.
#[test]
fn operators_on_constants_say_their_faults(rt: HostRuntime) -> Result<(), Fail> {
    let alloc = rt.alloc();
    let (six, zero) = (Value::of_u64(6), Value::of_u64(0));
    let negated = UnaryOpKind::Neg.fold(alloc, &Value::of_bool(true));
    assert!(rt; matches!(&negated, Err(OpError::Fault(ValueFault::WrongType))));
    let contained = CompareOpKind::In.holds(alloc, &six, &zero);
    assert!(rt; matches!(&contained, Err(OpError::Fault(ValueFault::WrongType))));
    let divided = BinOpKind::FloorDiv.fold(alloc, six, zero);
    assert!(rt; matches!(&divided, Err(OpError::Fault(ValueFault::DivisionByZero))));
    Ok(())
}

/// A product is computed, and a quotient is not.
#[test]
fn quotients_of_constants_are_not_computed(rt: HostRuntime) -> Result<(), Fail> {
    let alloc = rt.alloc();
    let (six, zero) = (Value::of_u64(6), Value::of_u64(0));
    let product = BinOpKind::Mul.fold_of(alloc, &six, &zero);
    assert!(rt; matches!(&product, Ok(Some(value)) if *value == zero));
    let quotient = BinOpKind::Div.fold_of(alloc, &six, &zero);
    assert!(rt; matches!(&quotient, Ok(None)));
    let greater = CompareOpKind::Gt.holds(alloc, &six, &zero);
    assert!(rt; matches!(&greater, Ok(true)));
    Ok(())
}

/// What a call calls.
fn callee(alloc: Global, callee: CallType<'_, '_, Value>) -> Result<String, AllocError> {
    match callee {
        CallType::Function(name) => format!(in alloc; "function {name}"),
        CallType::Method(_, name) => format!(in alloc; "method {name}"),
        CallType::Block(name) => format!(in alloc; "block {name}"),
        CallType::Object(_) => String::from_str(alloc, "object"),
    }
}

/// Calls, told by what they call.
enum Callees {}

impl Subject for Callees {
    fn words(alloc: Global, text: &str) -> Result<String, Fail> {
        match &parse_expr::<Value>(alloc, text)? {
            Expr::Call(call) => Ok(callee(alloc, call.node().identify_call())?),
            _ => Err(Fail::from("no call")),
        }
    }
}

#[test]
fn what_is_called_is_told_by_its_form(rt: HostRuntime) -> Result<(), Fail> {
    let rows = r#"
f(x) => function f
x.f() => method f
x.self.f() => method f
self.f() => block f
1() => object
f()(x) => object
x[y]() => object
"#;
    hold::<Callees>(rt.alloc(), rows)
}

/// Calls, told by their constant keyword arguments.
enum KeywordArguments {}

impl Subject for KeywordArguments {
    fn words(alloc: Global, text: &str) -> Result<String, Fail> {
        match &parse_expr::<Value>(alloc, text)? {
            Expr::Call(call) => {
                let value = constant_kwargs(alloc, &call.node().args)?;
                Ok(printed(alloc, value)?)
            }
            _ => Err(Fail::from("no call")),
        }
    }
}

#[test]
fn constant_keyword_arguments_are_a_value(rt: HostRuntime) -> Result<(), Fail> {
    let rows = r#"
f(x) => unknown
f(x, k=1, *y) => kwargs{"k": 1}
f(x, k=1, l=x) => unknown
f(x, k=1, *y, **z) => unknown
"#;
    hold::<KeywordArguments>(rt.alloc(), rows)
}

/// The description of a node, its span, and the spans of the operands of an operator.
fn described(alloc: Global, node: &Expr<'_, Value>) -> Result<String, Fail> {
    let mut words = format!(in alloc; "{}{:?}", node.description(), node.span())?;
    if !node.is_well_formed() {
        words.push_str(", ill formed")?;
    }
    if let Expr::BinOp(operation) = node {
        let (left, right) = (&operation.node().left, &operation.node().right);
        write!(words, " of{:?} and{:?}", left.span(), right.span())?;
    }
    Ok(words)
}

/// Well formed expressions, told by their descriptions and spans.
enum Nodes {}

impl Subject for Nodes {
    fn words(alloc: Global, text: &str) -> Result<String, Fail> {
        let tree = parse_expr::<Value>(alloc, text)?;
        described(alloc, &tree)
    }
}

/// As in the upstream crate, the span of a filter or a test begins at its name, and that of a
/// comparison or an if expression at the token before it, or at 0:0 where there is none.
#[test]
fn expressions_are_described_and_have_their_place(rt: HostRuntime) -> Result<(), Fail> {
    let rows = r#"
x => variable @ 1:0-1:1
1 => constant @ 1:0-1:1
x.f => expression @ 1:0-1:3
x[y] => expression @ 1:0-1:4
x[1:] => expression @ 1:0-1:5
[1, 2] => list literal @ 1:0-1:6
(1, 2) => tuple literal @ 1:0-1:6
{'a': 1} => map literal @ 1:0-1:8
x|f => filter expression @ 1:2-1:3
x is t => test expression @ 1:5-1:6
f() => call @ 1:0-1:3
- x => expression @ 1:0-1:3
a + f(b).c|d => expression @ 1:0-1:12 of @ 1:0-1:1 and @ 1:11-1:12
x < y < z => expression @ 0:0-1:9
a if b else c => expression @ 0:0-1:13
"#;
    hold::<Nodes>(rt.alloc(), rows)
}

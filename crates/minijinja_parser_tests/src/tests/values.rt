//! How values are printed, and the results of their operators and calls.
use minijinja_parser::parser::parse_expr;
use minijinja_syntax::error::Error;
use minijinja_test_rows::rows::{Subject, hold, parted};
use minijinja_value::value::{OpError, Rendered, TemplateValue, Value, ValueFault, ValueMap};
use std::alloc::{AllocError, Global};
use std::process::Abort;
use std::test::Fail;

/// The value of an expression, if it is known. The two undefined values, which no expression has,
/// are named by the words that print them.
fn known(alloc: Global, text: &str) -> Result<Option<Value>, Error<'_>> {
    match text {
        "undefined" => Ok(Some(Value::Undefined)),
        "silent" => Ok(Some(Value::silent_undefined())),
        _ => Ok(parse_expr::<Value>(alloc, text)?.as_const(alloc)?),
    }
}

fn value_of(alloc: Global, text: &str) -> Result<Value, Fail> {
    Ok(known(alloc, text)?.ok_or("no value")?)
}

/// The printed form of a value, or `unknown` where none is known.
pub fn printed(alloc: Global, value: Option<Value>) -> Result<String, AllocError> {
    match value {
        Some(value) => value.to_string(alloc),
        None => String::from_str(alloc, "unknown"),
    }
}

/// Expressions: their values.
pub enum Constants {}

impl Subject for Constants {
    fn words(alloc: Global, text: &str) -> Result<String, Fail> {
        Ok(printed(alloc, known(alloc, text)?)?)
    }
}

/// An equal key of a map keeps its place and takes the new value.
#[test]
fn values_are_printed(rt: HostRuntime) -> Result<(), Fail> {
    let rows = r#"
undefined => undefined
silent => silent
none => none
true => true
false => false
0 => 0
340282366920938463463374607431768211455 => 340282366920938463463374607431768211455
- (2 ** 127) => -170141183460469231731687303715884105728
'a"b\\c\n' => "a\"b\\c\n"
'abcdefghijklmnopqrstuvwx' => "abcdefghijklmnopqrstuvwx"
'abcdefghijklmnopqrstuvwxy' => "abcdefghijklmnopqrstuvwxy"
'abcdefghijklmnopqrstuvé' => "abcdefghijklmnopqrstuvé"
'abcdefghijklmnopqrstuvwé' => "abcdefghijklmnopqrstuvwé"
[1, 'b'] => [1, "b"]
(1,) => (1,)
() => ()
{'a': 1, 'b': 2} => {"a": 1, "b": 2}
{} => {}
{'a': 1, 'b': 2, 'a': 3} => {"a": 3, "b": 2}
"#;
    hold::<Constants>(rt.alloc(), rows)
}

/// Whether a value counts as true, and which count it is.
enum Counted {}

impl Subject for Counted {
    fn words(alloc: Global, text: &str) -> Result<String, Fail> {
        let value = value_of(alloc, text)?;
        Ok(format!(in alloc; "{} {:?}", value.is_true(), value.as_count())?)
    }
}

/// What is undefined, empty or zero is false, and a count is an integer from 0 to 2^64 - 1.
#[test]
fn values_are_tested_and_counted(rt: HostRuntime) -> Result<(), Fail> {
    let rows = r#"
undefined => false None
silent => false None
none => false None
false => false None
true => true None
0 => false Some(0)
7 => true Some(7)
18446744073709551615 => true Some(18446744073709551615)
18446744073709551616 => true None
- 1 => true None
'' => false None
'a' => true None
'abcdefghijklmnopqrstuvwxy' => true None
(0,) => true None
[] => false None
{} => false None
{'a': 1} => true None
"#;
    hold::<Counted>(rt.alloc(), rows)
}

#[test]
fn integers_are_computed_with(rt: HostRuntime) -> Result<(), Fail> {
    let rows = r#"
2 + - 3 => -1
2 - - 3 => 5
340282366920938463463374607431768211455 - 340282366920938463463374607431768211455 => 0
7 * - 2 => -14
7 // 2 => 3
- 7 // 2 => -4
7 // - 2 => -3
- 7 // - 2 => 4
7 % - 2 => 1
- 7 % 2 => 1
- (2 ** 127) // - 1 => 170141183460469231731687303715884105728
- 1 % 340282366920938463463374607431768211455 => 340282366920938463463374607431768211454
0 ** 0 => 1
0 ** 340282366920938463463374607431768211455 => 0
1 ** 340282366920938463463374607431768211455 => 1
(- 1) ** 340282366920938463463374607431768211455 => -1
(- 2) ** 127 => -170141183460469231731687303715884105728
3 ** 80 => 147808829414345923316083210206383297601
"#;
    hold::<Constants>(rt.alloc(), rows)
}

/// For values without an order all four comparisons are false.
#[test]
fn values_are_joined_compared_and_searched(rt: HostRuntime) -> Result<(), Fail> {
    let rows = r#"
'a' ~ 'b' => "ab"
'a' ~ 7 => "a7"
'abcdefghijkl' ~ 'mnopqrstuvwx' == 'abcdefghijklmnopqrstuvwx' => true
'abcdefghijklm' ~ 'nopqrstuvwxy' == 'abcdefghijklmnopqrstuvwxy' => true
'abcdefghijklmnopqrstuvwx' == 'abcdefghijklmnopqrstuvwxy' => false
'abcdefghijklmnopqrstuvwx' < 'abcdefghijklmnopqrstuvwxy' => true
'abcdefghijklmnopqrstuvwx' in 'abcdefghijklmnopqrstuvwxy' => true
none ~ ('a',) => "none(\"a\",)"
1 == true => false
(1,) == (1,) => true
[1] == (1,) => false
{'a': 1, 'b': 2} == {'a': 1, 'b': 2} => true
{'a': 1, 'b': 2, 'a': 3} == {'b': 1, 'b': 2, 'a': 3} => true
{'a': 1, 'b': 2} == {'b': 1, 'a': 2} => false
{'a': 1, 'b': 2, 'a': 3} == {'c': 1, 'b': 2, 'a': 3} => false
- 5 < 2 => true
false < true => true
'b' > 'abc' => true
[1, 2] < [1, 3] => true
(1,) > () => true
[none, 1] < [none, 2] => false
[none, 1] >= [none, 2] => false
none <= none => false
1 < true => false
1 >= true => false
'bc' in 'abc' => true
'' in 'abc' => true
'ca' in 'abc' => false
2 in (2,) => true
3 in [1, 2] => false
'b' in {'a': 1, 'b': 2} => true
1 in {'a': 1, 'b': 2} => false
"#;
    hold::<Constants>(rt.alloc(), rows)
}

/// The result of an operator for two values; `neg` takes only the second.
fn apply(
    alloc: Global,
    op: &str,
    left: &Value,
    right: &Value,
) -> Result<Value, OpError<ValueFault>> {
    match op {
        "+" => left.add(alloc, right),
        "-" => left.sub(alloc, right),
        "*" => left.mul(alloc, right),
        "//" => left.int_div(alloc, right),
        "%" => left.rem(alloc, right),
        "**" => left.pow(alloc, right),
        "~" => Ok(left.try_clone()?.concat(alloc, right)?),
        "in" => Ok(Value::of_bool(right.contains(alloc, left)?)),
        "neg" => right.neg(alloc),
        _ => Ok(Value::of_bool(left.equals(right))),
    }
}

/// The printed result of an operator for two values, or the fault.
fn outcome(alloc: Global, op: &str, left: &Value, right: &Value) -> Result<String, Fail> {
    match apply(alloc, op, left, right) {
        Ok(value) => Ok(value.to_string(alloc)?),
        Err(error) => Ok(format!(in alloc; "{error:?}")?),
    }
}

/// A value, an operator and a value: the result or the fault, which an expression does not show.
enum Applied {}

impl Subject for Applied {
    fn words(alloc: Global, text: &str) -> Result<String, Fail> {
        let (left, rest) = parted(text, " | ");
        let (op, right) = parted(rest, " | ");
        let (left, right) = (value_of(alloc, left)?, value_of(alloc, right)?);
        outcome(alloc, op, &left, &right)
    }
}

#[test]
fn operators_fault(rt: HostRuntime) -> Result<(), Fail> {
    let rows = r#"
340282366920938463463374607431768211455 | + | 1 => Fault(Overflow)
- (2 ** 127) | - | 1 => Fault(Overflow)
340282366920938463463374607431768211455 | * | 2 => Fault(Overflow)
340282366920938463463374607431768211455 | // | - 1 => Fault(Overflow)
2 | ** | 128 => Fault(Overflow)
3 | ** | 340282366920938463463374607431768211455 => Fault(Overflow)
1 | // | 0 => Fault(DivisionByZero)
1 | % | 0 => Fault(DivisionByZero)
true | + | 1 => Fault(WrongType)
1 | - | none => Fault(WrongType)
'a' | * | 2 => Fault(WrongType)
'a' | // | 0 => Fault(WrongType)
1 | % | (1,) => Fault(WrongType)
undefined | ** | 0 => Fault(WrongType)
2 | ** | - 1 => Fault(WrongType)
1 | in | '1' => Fault(WrongType)
1 | in | 1 => Fault(WrongType)
none | neg | 340282366920938463463374607431768211455 => Fault(Overflow)
none | neg | '1' => Fault(WrongType)
"#;
    hold::<Applied>(rt.alloc(), rows)
}

#[test]
fn what_is_undefined_is_joined_as_nothing(rt: HostRuntime) -> Result<(), Fail> {
    let rows = r#"
silent | ~ | ('a',) => "(\"a\",)"
undefined | ~ | none => "none"
undefined | == | silent => true
undefined | == | none => false
"#;
    hold::<Applied>(rt.alloc(), rows)
}

/// Values: nothing if a copy is equal to its value.
enum Copied {}

impl Subject for Copied {
    fn words(alloc: Global, text: &str) -> Result<String, Fail> {
        let value = value_of(alloc, text)?;
        let copy = value.try_clone()?;
        let differs = if copy.equals(&value) {
            ""
        } else {
            "another value"
        };
        Ok(String::from_str(alloc, differs)?)
    }
}

#[test]
fn values_are_copied(rt: HostRuntime) -> Result<(), Fail> {
    let rows = r#"
['a', 340282366920938463463374607431768211455]
['abcdefghijklmnopqrstuvwx', 'abcdefghijklmnopqrstuvwxy']
{'a': none}
"#;
    hold::<Copied>(rt.alloc(), rows)
}

/// A map built by hand: an equal key keeps its place and takes its new value.
fn map_of_two_keys(alloc: Global) -> Result<ValueMap, AllocError> {
    let mut map = ValueMap::new(alloc);
    map.insert(Value::of_u64(1), Value::of_bool(true))?;
    map.insert(Value::of_u64(2), Value::none())?;
    map.insert(Value::of_u64(1), Value::of_bool(false))?;
    Ok(map)
}

#[test]
fn maps_made_by_hand_have_no_equal_keys(rt: HostRuntime) -> Result<(), Fail> {
    assert!(rt; ValueMap::new(rt.alloc()).is_empty());
    let map = map_of_two_keys(rt.alloc())?;
    assert!(rt; map.len() == 2 && map.pairs().len() == 2);
    assert!(rt; map.get(&Value::of_u64(1)) == Some(&Value::of_bool(false)));
    assert!(rt; map.get(&Value::of_u64(3)).is_none());
    assert!(rt; Value::Map(map) == value_of(rt.alloc(), "{2: none, 1: false}")?);
    Ok(())
}

fn map_value(alloc: Global, text: &str) -> Result<ValueMap, Fail> {
    match value_of(alloc, text)? {
        Value::Map(map) => Ok(map),
        _ => Err(Fail::from("no map")),
    }
}

/// A map and a text: the value of the key that is this text.
enum Found {}

impl Subject for Found {
    fn words(alloc: Global, text: &str) -> Result<String, Fail> {
        let (map, key) = parted(text, " | ");
        let map = map_value(alloc, map)?;
        match map.get_str(key) {
            Some(value) => Ok(value.to_string(alloc)?),
            None => Ok(String::from_str(alloc, "no key")?),
        }
    }
}

#[test]
fn keys_are_found_by_their_text(rt: HostRuntime) -> Result<(), Fail> {
    let rows = r#"
{'a': 1, 'b': 2} | b => 2
{'a': 1, 'b': 2, 'a': 3} | a => 3
{1: 2, 'abcdefghijklmnopqrstuvwxy': 3} | abcdefghijklmnopqrstuvwxy => 3
{1: 2, 'a': none} | 1 => no key
{'a': 1} | ab => no key
{'ab': 1} | a => no key
{'a': 1, '': 2} => 2
{} => no key
"#;
    hold::<Found>(rt.alloc(), rows)
}

fn push_pair(words: &mut String, key: &Value, value: &Value) -> Result<(), AllocError> {
    write!(words, "{}={}", Rendered(key), Rendered(value))
}

/// Maps: what a template prints for each key and its value, once by reference and once taken out.
enum Pairs {}

impl Subject for Pairs {
    fn words(alloc: Global, text: &str) -> Result<String, Fail> {
        let map = map_value(alloc, text)?;
        let mut words = String::new(alloc);
        for (key, value) in &map {
            push_pair(&mut words, key, value)?;
            words.push_str(",")?;
        }
        for (key, value) in map.into_pairs() {
            words.push_str(";")?;
            push_pair(&mut words, &key, &value)?;
        }
        Ok(words)
    }
}

#[test]
fn pairs_are_read_and_taken_out_in_order(rt: HostRuntime) -> Result<(), Fail> {
    let rows = r#"
{'b': 1, 'a': 'x'} => b=1,a=x,;b=1;a=x
{'b': 1, 'a': none, 'b': 'y'} => b=y,a=none,;b=y;a=none
{}
"#;
    hold::<Pairs>(rt.alloc(), rows)
}

/// Values: what a template prints for them.
enum InTemplate {}

impl Subject for InTemplate {
    fn words(alloc: Global, text: &str) -> Result<String, Fail> {
        Ok(Rendered(&value_of(alloc, text)?).to_string(alloc)?)
    }
}

/// A text inside another value stands between quotes.
#[test]
fn values_are_rendered_without_quotes(rt: HostRuntime) -> Result<(), Fail> {
    let rows = r#"
undefined
silent
''
none => none
true => true
- 7 => -7
'a"b' => a"b
'abcdefghijklmnopqrstuvwxy' => abcdefghijklmnopqrstuvwxy
['a', 1] => ["a", 1]
{'a': 1} => {"a": 1}
"#;
    hold::<InTemplate>(rt.alloc(), rows)
}

/// An integer: whether it is negative, its magnitude, and itself as an `i128` and a `u128` if it
/// fits.
enum Integers {}

impl Subject for Integers {
    fn words(alloc: Global, text: &str) -> Result<String, Fail> {
        let Value::Integer(number) = value_of(alloc, text)? else {
            return Err(Fail::from("no integer"));
        };
        let (negative, magnitude) = (number.is_negative(), number.magnitude());
        let (signed, unsigned) = (number.as_i128(), number.as_u128());
        Ok(format!(in alloc; "{negative} {magnitude} {signed:?} {unsigned:?}")?)
    }
}

#[test]
fn integers_are_read(rt: HostRuntime) -> Result<(), Fail> {
    let rows = r#"
0 => false 0 Some(0) Some(0)
7 => false 7 Some(7) Some(7)
-7 => true 7 Some(-7) None
- (2 ** 127) => true 170141183460469231731687303715884105728 Some(-170141183460469231731687303715884105728) None
2 ** 127 => false 170141183460469231731687303715884105728 None Some(170141183460469231731687303715884105728)
340282366920938463463374607431768211455 => false 340282366920938463463374607431768211455 None Some(340282366920938463463374607431768211455)
"#;
    hold::<Integers>(rt.alloc(), rows)
}

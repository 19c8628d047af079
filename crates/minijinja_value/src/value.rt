//! The values that templates hold, and the trait of what the compiler needs of a value type.
ghost use Rattle.std.specs.Prelude.{◌≡◌, ℕ, ◌+◌, ◌<◌, ◌^◌, ◌↔◌, Bool, IsTrue, IfOk, OnOk, OnErr, Some, Ok, length, map, option_map};
ghost use Rattle.std.specs.Option.{option_copied};
ghost use Rattle.std.specs.Slice.Iter.{iter_rest};
ghost use Rattle.std.specs.Iterator.Adapters.{IterYieldsInOrder};
ghost use Rattle.minijinja_value.specs.Values.{Functions};
ghost use Rattle.minijinja_value.specs.Outcomes.{IsOutcome, IsNotOutOfMemory, map_pairs};
ghost use Rattle.minijinja_value.specs.ValueContents.{Contents, no_pairs, text};
ghost use Rattle.minijinja_value.specs.ValueComparison.{pair_count, value_for};
ghost use Rattle.minijinja_value.specs.ValueFunctions.{value_functions, put, built};
ghost use Rattle.minijinja_value.specs.ValueViews.{contents_of, pairs_view, map_view};
ghost use Rattle.minijinja_value.specs.declared.value.Value.{Value};
ghost use Rattle.minijinja_value.specs.declared.value.ValueFault.{ValueFault};
ghost use Rattle.std.proofs.Common.{rules};

mod build;
mod compare;
pub mod integer;
mod operate;
mod print;
pub mod text;

pub use crate::value::integer::Integer;
pub use crate::value::print::{Quoted, Rendered};
pub use crate::value::text::Text;
use std::alloc::{AllocError, AllocFailed, Global};
use std::cmp::Ordering;
use std::mem::size_of;
use std::slice;

/// A value type of templates. Each result is a function of the contents of the arguments, so values
/// of equal contents are interchangeable in every call. Where memory is refused, a call returns
/// [`AllocError`] or [`OpError::OutOfMemory`], and where an operator has no result for its
/// operands, [`OpError::Fault`].
pub trait TemplateValue: Sized + Drop {
    /// Why an operator has no result.
    type Fault: Drop;

    // What a value holds, and what a fault says.
    ghost Contents: { Type 0 };

    ghost FaultContents: { Type 0 };

    ghost contents: { Self → Contents };

    ghost fault_contents: { Self.Fault → FaultContents };

    ghost functions: { Functions Contents FaultContents };

    /// The value `none`.
    fn none() -> Self
        ensures { contents result ≡ functions.none };

    /// The value of an if expression without an else part whose test fails.
    fn silent_undefined() -> Self
        ensures { contents result ≡ functions.silent_undefined };

    /// A truth value.
    fn of_bool(value: bool) -> Self
        ensures { contents result ≡ functions.of_bool value };

    /// An integer.
    fn of_u64(value: u64) -> Self
        ensures { contents result ≡ functions.of_u64 value };

    /// An integer that may be 2^64 or more.
    fn of_u128(alloc: Global, value: u128) -> Result<Self, AllocError>
        ensures { IfOk result (λ v. contents v ≡ functions.of_u128 value) };

    /// A text, which is copied.
    fn of_str(alloc: Global, value: &str) -> Result<Self, AllocError>
        ensures { IfOk result (λ v. contents v ≡ functions.of_str value.now) };

    /// A list of values.
    fn list(alloc: Global, items: Vec<Self>) -> Result<Self, AllocError>
        ensures { IfOk result (λ v. contents v ≡ functions.list (map contents items.items)) };

    /// A tuple of values.
    fn tuple(alloc: Global, items: Vec<Self>) -> Result<Self, AllocError>
        ensures { IfOk result (λ v. contents v ≡ functions.tuple (map contents items.items)) };

    /// A map of keys and values.
    fn map(alloc: Global, pairs: Vec<(Self, Self)>) -> Result<Self, AllocError>
        ensures { IfOk result (λ v. contents v ≡ functions.map (map_pairs contents pairs.items)) };

    /// The keyword arguments of a call, by name.
    fn kwargs(alloc: Global, pairs: Vec<(Self, Self)>) -> Result<Self, AllocError>
        ensures { IfOk result
            (λ v. contents v ≡ functions.kwargs (map_pairs contents pairs.items)) };

    /// Another value with the same contents.
    fn try_clone(&self) -> Result<Self, AllocError>
        ensures { IfOk result (λ v. contents v ≡ contents self.now) };

    /// Whether a test of the value succeeds.
    fn is_true(&self) -> bool
        ensures { result ≡ functions.is_true (contents self.now) };

    /// Whether the value is undefined, silently or not.
    fn is_undefined(&self) -> bool
        ensures { result ≡ functions.is_undefined (contents self.now) };

    /// The value as a count of values, if it is one.
    fn as_count(&self) -> Option<usize>
        ensures { result ≡ functions.as_count (contents self.now) };

    /// Whether two values are equal.
    fn equals(&self, other: &Self) -> bool
        ensures { result ≡ functions.equals (contents self.now) (contents other.now) };

    /// The order of two values, if they have one.
    fn order(&self, other: &Self) -> Option<Ordering>
        ensures { result ≡ functions.order (contents self.now) (contents other.now) };

    /// The texts of two values joined, in the memory of the first where it has some.
    fn concat(self, alloc: Global, other: &Self) -> Result<Self, AllocError>
        ensures { IfOk result
            (λ v. contents v ≡ functions.concat (contents self) (contents other.now)) };

    /// Whether an item is in the value.
    fn contains(&self, alloc: Global, item: &Self) -> Result<bool, OpError<Self::Fault>>
        ensures { IsOutcome (λ b. b) fault_contents
            (functions.contains (contents self.now) (contents item.now)) result };

    /// The value with the other sign.
    fn neg(&self, alloc: Global) -> Result<Self, OpError<Self::Fault>>
        ensures { IsOutcome contents fault_contents (functions.neg (contents self.now)) result };

    /// The sum.
    fn add(&self, alloc: Global, other: &Self) -> Result<Self, OpError<Self::Fault>>
        ensures { IsOutcome contents fault_contents
            (functions.add (contents self.now) (contents other.now)) result };

    /// The difference.
    fn sub(&self, alloc: Global, other: &Self) -> Result<Self, OpError<Self::Fault>>
        ensures { IsOutcome contents fault_contents
            (functions.sub (contents self.now) (contents other.now)) result };

    /// The product.
    fn mul(&self, alloc: Global, other: &Self) -> Result<Self, OpError<Self::Fault>>
        ensures { IsOutcome contents fault_contents
            (functions.mul (contents self.now) (contents other.now)) result };

    /// The quotient as an integer.
    fn int_div(&self, alloc: Global, other: &Self) -> Result<Self, OpError<Self::Fault>>
        ensures { IsOutcome contents fault_contents
            (functions.int_div (contents self.now) (contents other.now)) result };

    /// The remainder.
    fn rem(&self, alloc: Global, other: &Self) -> Result<Self, OpError<Self::Fault>>
        ensures { IsOutcome contents fault_contents
            (functions.rem (contents self.now) (contents other.now)) result };

    /// The power.
    fn pow(&self, alloc: Global, other: &Self) -> Result<Self, OpError<Self::Fault>>
        ensures { IsOutcome contents fault_contents
            (functions.pow (contents self.now) (contents other.now)) result };

    // The truth value of a truth value is itself.
    ghost is_true_of_bool: { (b : Bool) → functions.is_true (functions.of_bool b) ≡ b };

    // An integer below 2^64 is a count.
    ghost as_count_of_u64: { (n : ℕ) → n < 2 ^ 64 →
        functions.as_count (functions.of_u64 n) ≡ Some n };

    // The next integer is the sum with 1.
    ghost add_one: { (n : ℕ) → n + 1 < 2 ^ 64 →
        functions.add (functions.of_u64 n) (functions.of_u64 1) ≡ Ok (functions.of_u64 (n + 1)) };
}

/// Why an operator gave no value.
#[derive(Clone, Copy, Debug, Drop, PartialEq, Eq)]
pub enum OpError<F> {
    /// Memory was refused.
    OutOfMemory,
    /// The operator has no result for its operands.
    Fault(F),
}

/// Refused memory is [`OpError::OutOfMemory`].
impl<F> From<AllocError> for OpError<F> {
    ghost use Rattle.std.specs.Prelude.{◌≡◌};
    ghost use Rattle.minijinja_value.specs.declared.value.OpError.TheVariants.{OutOfMemory};

    ghost from_gives = { λ _ e. e ≡ OutOfMemory };

    fn from(_: AllocError) -> Self {
        OpError::OutOfMemory
    }
}

impl<F, T: Drop> From<AllocFailed<T>> for OpError<F> {
    ghost use Rattle.std.specs.Prelude.{◌≡◌};
    ghost use Rattle.minijinja_value.specs.declared.value.OpError.TheVariants.{OutOfMemory};

    ghost from_gives = { λ _ e. e ≡ OutOfMemory };

    fn from(_: AllocFailed<T>) -> Self {
        OpError::OutOfMemory
    }
}

/// Why an operator of [`Value`] has no result.
#[derive(Clone, Copy, Debug, PartialEq, Eq)]
pub enum ValueFault {
    /// An operand of a kind that the operator does not take.
    WrongType,
    /// A zero divisor.
    DivisionByZero,
    /// A result out of the range of integers.
    Overflow,
}

/// This project's own value type.
#[cycle(value)]
#[derive(Debug, Drop)]
pub enum Value {
    Undefined,
    /// The value of an if expression without an else part whose test fails.
    SilentUndefined,
    None,
    Bool(bool),
    Integer(Integer),
    String(Text),
    List(Vec<Value>),
    Tuple(Vec<Value>),
    Map(ValueMap),
    /// The keyword arguments of a call, by name.
    Kwargs(ValueMap),
}

// A value is no larger than a text with the value's kind before it.
const _: () = prove!(size_of::<Value>() == 8 + size_of::<Text>());

/// [`TemplateValue::equals`], tried both ways round: so `==` is an equivalence even for values with
/// maps whose keys are not known to be distinct.
impl PartialEq for Value {
    ghost use Rattle.minijinja_value.specs.ValueComparison.{equals_both_ways};
    ghost use Rattle.minijinja_value.specs.ValueViews.{contents_of};
    ghost use Rattle.minijinja_value.specs.private.EqualContents.{equal_values-partial};

    ghost eq = { λ a b. equals_both_ways (contents_of a) (contents_of b) };

    ghost laws = { equal_values-partial };

    fn eq(&self, other: &Value) -> bool {
        compare::equals(self, other) && compare::equals(other, self)
    }
}

impl Eq for Value {
    ghost use Rattle.minijinja_value.specs.private.EqualContents.{equal_values-equivalence};

    ghost laws = { equal_values-equivalence };
}

/// Keys, each with its value, in the order in which the keys were first inserted.
///
/// No two keys are equal by [`TemplateValue::equals`]: a map is made only by [`ValueMap::new`],
/// [`ValueMap::from_pairs`], [`ValueMap::insert`] and copying, and `laws::keys_are_distinct` says
/// that what the first three make has distinct keys. The pairs are private, which keeps it so; no
/// contract can assume it of a map that comes in.
#[cycle(value)]
#[derive(Debug, Drop)]
pub struct ValueMap {
    // Made only by `put`, and by copying what it made.
    pairs: Vec<(Value, Value)>,
}

impl ValueMap {
    /// A map with no pairs.
    pub fn new(alloc: Global) -> ValueMap
        ensures { map_view result ≡ no_pairs }
    {
        ValueMap {
            pairs: Vec::new(alloc),
        }
    }

    /// A map of the pairs, inserted one after another: an equal key keeps its place and takes the
    /// new value.
    pub fn from_pairs(alloc: Global, pairs: Vec<(Value, Value)>) -> Result<ValueMap, AllocError>
        ensures { IfOk result (λ m. map_view m ≡ built (map_pairs contents_of pairs.items)) }
    {
        Ok(ValueMap {
            pairs: build::distinct(alloc, pairs)?,
        })
    }

    /// Inserts a value for a key. An equal key keeps its place and takes the new value. Where
    /// memory is refused, the map is unchanged.
    pub fn insert(&mut self, key: Value, value: Value) -> Result<(), AllocError>
        ensures ok { OnOk result
            (map_view self.new ≡ put (contents_of key) (contents_of value) (map_view self.old)) }
        ensures err { OnErr result (map_view self.new ≡ map_view self.old) }
    {
        build::put(&mut self.pairs, key, value)
    }

    /// The value of the key that is equal to this one.
    pub fn get(&self, key: &Value) -> Option<&Value>
        ensures { option_map contents_of (option_copied result) ≡ value_for (contents_of key.now)
            (map_view self.now) }
    {
        match compare::position_of_key(&self.pairs, key) {
            Some(at) => Some(&self.pairs[at].1),
            None => None,
        }
    }

    /// The value of the key that is this text.
    pub fn get_str(&self, key: &str) -> Option<&Value>
        ensures { option_map contents_of (option_copied result) ≡ value_for (text key.now)
            (map_view self.now) }
    {
        match compare::position_of_text(&self.pairs, key) {
            Some(at) => Some(&self.pairs[at].1),
            None => None,
        }
    }

    /// How many keys there are.
    pub fn len(&self) -> usize
        ensures { result ≡ pair_count (map_view self.now) }
    {
        self.pairs.len()
    }

    /// Whether there are no keys.
    pub fn is_empty(&self) -> bool
        ensures { IsTrue result ↔ (map_view self.now ≡ no_pairs) }
    {
        self.pairs.is_empty()
    }

    /// Keys, each with its value.
    pub fn pairs(&self) -> &[(Value, Value)]
        ensures { pairs_view result.now ≡ map_view self.now }
    {
        &self.pairs
    }

    /// Goes over the keys, each with its value, in order.
    pub fn iter(&self) -> slice::Iter<'_, (Value, Value)>
        ensures pairs { pairs_view (iter_rest result) ≡ map_view self.now }
        ensures bound { length (iter_rest result) < 2 ^ 64 }
        ensures in_order { IterYieldsInOrder (Value × Value) }
    {
        self.pairs.iter()
    }

    /// Takes the pairs out, in order.
    pub fn into_pairs(self) -> Vec<(Value, Value)>
        ensures { pairs_view result.items ≡ map_view self }
    {
        self.pairs
    }
}

impl<'m> IntoIterator for &'m ValueMap {
    type Item = &'m (Value, Value);

    type IntoIter = slice::Iter<'m, (Value, Value)>;

    ghost use Rattle.std.specs.Prelude.{◌≡◌, ◌<◌, ◌^◌, length};
    ghost use Rattle.std.specs.Slice.Iter.{iter_rest};
    ghost use Rattle.std.specs.Iterator.Adapters.{IterYieldsInOrder};
    ghost use Rattle.minijinja_value.specs.ValueViews.{pairs_view, map_view};
    ghost use Rattle.minijinja_value.specs.declared.value.Value.{Value};

    ghost into_iter_gives = { λ map it. (pairs_view (iter_rest it) ≡ map_view map.now)
        × (length (iter_rest it) < 2 ^ 64) × IterYieldsInOrder (Value × Value) };

    fn into_iter(self) -> Self::IntoIter {
        self.iter()
    }
}

impl TemplateValue for Value {
    type Fault = ValueFault;

    ghost Contents = { Contents };

    ghost FaultContents = { ValueFault };

    ghost contents = { contents_of };

    ghost fault_contents = { λ f. f };

    ghost functions = { value_functions };

    ghost is_true_of_bool = { λ b. Prim.search rules };

    ghost as_count_of_u64 = { λ n h. Prim.grind rules };

    ghost add_one = { λ n h. Prim.grind rules };

    fn none() -> Value {
        Value::None
    }

    fn silent_undefined() -> Value {
        Value::SilentUndefined
    }

    fn of_bool(value: bool) -> Value {
        Value::Bool(value)
    }

    fn of_u64(value: u64) -> Value {
        Value::Integer(Integer::from_u128(u128::from(value)))
    }

    fn of_u128(_alloc: Global, value: u128) -> Result<Value, AllocError> {
        Ok(Value::Integer(Integer::from_u128(value)))
    }

    fn of_str(alloc: Global, value: &str) -> Result<Value, AllocError> {
        Ok(Value::String(Text::new(alloc, value)?))
    }

    fn list(_alloc: Global, items: Vec<Value>) -> Result<Value, AllocError>
        ensures { IfOk result
            (λ v. contents_of v ≡ value_functions.list (map contents_of items.items)) }
    {
        Ok(Value::List(items))
    }

    fn tuple(_alloc: Global, items: Vec<Value>) -> Result<Value, AllocError>
        ensures { IfOk result
            (λ v. contents_of v ≡ value_functions.tuple (map contents_of items.items)) }
    {
        Ok(Value::Tuple(items))
    }

    /// An equal key keeps its place and takes the new value.
    fn map(alloc: Global, pairs: Vec<(Value, Value)>) -> Result<Value, AllocError>
        ensures { IfOk result
            (λ v. contents_of v ≡ value_functions.map (map_pairs contents_of pairs.items)) }
    {
        Ok(Value::Map(ValueMap::from_pairs(alloc, pairs)?))
    }

    /// An equal key keeps its place and takes the new value.
    fn kwargs(alloc: Global, pairs: Vec<(Value, Value)>) -> Result<Value, AllocError>
        ensures { IfOk result
            (λ v. contents_of v ≡ value_functions.kwargs (map_pairs contents_of pairs.items)) }
    {
        Ok(Value::Kwargs(ValueMap::from_pairs(alloc, pairs)?))
    }

    fn try_clone(&self) -> Result<Value, AllocError> {
        build::copy(self)
    }

    /// False for both undefined, `none`, `false`, `0` and whatever is empty.
    fn is_true(&self) -> bool {
        match self {
            Value::Undefined | Value::SilentUndefined | Value::None => false,
            Value::Bool(value) => *value,
            Value::Integer(value) => !value.is_zero(),
            Value::String(text) => !text.as_str().is_empty(),
            Value::List(items) | Value::Tuple(items) => !items.is_empty(),
            Value::Map(map) | Value::Kwargs(map) => !map.is_empty(),
        }
    }

    fn is_undefined(&self) -> bool {
        matches!(self, Value::Undefined | Value::SilentUndefined)
    }

    /// An integer from 0 to 2^64 - 1.
    fn as_count(&self) -> Option<usize> {
        match self {
            Value::Integer(value) => value.as_count(),
            _ => None,
        }
    }

    /// Values of one kind are equal if they hold equal things, in maps in any order. Both undefined
    /// are equal.
    fn equals(&self, other: &Value) -> bool {
        compare::equals(self, other)
    }

    /// Two integers, two truth values, two texts, and two lists or two tuples have an order: texts
    /// byte by byte, lists and tuples item by item.
    fn order(&self, other: &Value) -> Option<Ordering> {
        compare::order(self, other)
    }

    /// Joins what [`Rendered`] prints for them.
    fn concat(self, alloc: Global, other: &Value) -> Result<Value, AllocError> {
        operate::concat(self, alloc, other)
    }

    /// A text in a text, an equal item in a list or tuple, an equal key in a map.
    fn contains(&self, _alloc: Global, item: &Value) -> Result<bool, OpError<ValueFault>>
        ensures outcome { IsOutcome (λ b. b) (λ f. f)
            (value_functions.contains (contents_of self.now) (contents_of item.now)) result }
        ensures needs_no_memory { IsNotOutOfMemory result }
    {
        operate::contains(self, item)
    }

    fn neg(&self, _alloc: Global) -> Result<Value, OpError<ValueFault>>
        ensures outcome { IsOutcome contents_of (λ f. f)
            (value_functions.neg (contents_of self.now)) result }
        ensures needs_no_memory { IsNotOutOfMemory result }
    {
        operate::neg(self)
    }

    fn add(&self, _alloc: Global, other: &Value) -> Result<Value, OpError<ValueFault>>
        ensures outcome { IsOutcome contents_of (λ f. f)
            (value_functions.add (contents_of self.now) (contents_of other.now)) result }
        ensures needs_no_memory { IsNotOutOfMemory result }
    {
        operate::add(self, other)
    }

    fn sub(&self, _alloc: Global, other: &Value) -> Result<Value, OpError<ValueFault>>
        ensures outcome { IsOutcome contents_of (λ f. f)
            (value_functions.sub (contents_of self.now) (contents_of other.now)) result }
        ensures needs_no_memory { IsNotOutOfMemory result }
    {
        operate::sub(self, other)
    }

    fn mul(&self, _alloc: Global, other: &Value) -> Result<Value, OpError<ValueFault>>
        ensures outcome { IsOutcome contents_of (λ f. f)
            (value_functions.mul (contents_of self.now) (contents_of other.now)) result }
        ensures needs_no_memory { IsNotOutOfMemory result }
    {
        operate::mul(self, other)
    }

    /// The quotient whose remainder is not negative.
    fn int_div(&self, _alloc: Global, other: &Value) -> Result<Value, OpError<ValueFault>>
        ensures outcome { IsOutcome contents_of (λ f. f)
            (value_functions.int_div (contents_of self.now) (contents_of other.now)) result }
        ensures needs_no_memory { IsNotOutOfMemory result }
    {
        operate::int_div(self, other)
    }

    /// The remainder that is not negative.
    fn rem(&self, _alloc: Global, other: &Value) -> Result<Value, OpError<ValueFault>>
        ensures outcome { IsOutcome contents_of (λ f. f)
            (value_functions.rem (contents_of self.now) (contents_of other.now)) result }
        ensures needs_no_memory { IsNotOutOfMemory result }
    {
        operate::rem(self, other)
    }

    /// The exponent is at least 0.
    fn pow(&self, _alloc: Global, other: &Value) -> Result<Value, OpError<ValueFault>>
        ensures outcome { IsOutcome contents_of (λ f. f)
            (value_functions.pow (contents_of self.now) (contents_of other.now)) result }
        ensures needs_no_memory { IsNotOutOfMemory result }
    {
        operate::pow(self, other)
    }
}

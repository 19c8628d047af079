//! Integers from -2^127 to 2^128 - 1.
ghost use Rattle.std.specs.Prelude.{◌≡◌, ◌<◌, ◌≤◌, ◌^◌, ◌↔◌, IsTrue, true, false, pos, neg_ℤ, ◌+ℤ◌, ◌-ℤ◌, ◌*ℤ◌, ◌<ℤ◌, unsigned_abs, FitsSigned};
ghost use Rattle.std.specs.Option.{SomeIff};
ghost use Rattle.std.specs.Ordering.{int_cmp, int_eq, as_partial_cmp};
ghost use Rattle.std.specs.Int.{w128, FitsUnsigned, int_div_euclid, int_rem_euclid, int_pow};
ghost use Rattle.std.specs.Cmp.{partial_order_from_own_ties};
ghost use Rattle.std.specs.Cmp.Rules.{comparing};
ghost use Rattle.std.proofs.Common.{rules};
ghost use Rattle.minijinja_value.specs.Integers.{signed, in_range, is_zero, count_in};

use std::cmp::Ordering;
use std::marker::Model;

/// How many numbers a half of a magnitude may be.
const HALF: u128 = 1 << 64;

/// An integer from -2^127 to 2^128 - 1: a number of either 128-bit type. Contracts see the number.
/// Its magnitude is kept in two halves, since a `u128` would make a value larger by what aligns it.
#[derive(Clone, Copy)]
pub struct Integer {
    is_negative: bool,
    high: u64,
    low: u64,
}

impl Model for Integer {
    ghost use Rattle.std.specs.Prelude.{◌≡◌, ◌<◌, ◌≤◌, ◌^◌, true, ℤ};
    ghost use Rattle.minijinja_value.specs.Integers.{signed};

    ghost Value = { ℤ };

    ghost use Rattle.minijinja_value.specs.private.IntegerParts.{joined, parts_of, parts_of-signed};

    ghost view = { λ a. signed a.is_negative (joined a.high a.low) };

    ghost invariant = { λ a. (a.low < 2 ^ 64) × (a.is_negative ≡ true →
        (0 < joined a.high a.low) × (joined a.high a.low ≤ 2 ^ 127)) };

    ghost inverse = { parts_of };

    ghost inverse_ok = { parts_of-signed };
}

impl Integer {
    /// An integer that is not negative.
    pub fn from_u128(value: u128) -> Integer
        ensures { result ≡ pos value }
    {
        Integer::new(false, value)
    }

    /// The integer of a sign and a magnitude, if it is in range.
    pub(super) fn from_parts(is_negative: bool, magnitude: u128) -> Option<Integer>
        ensures { result ≡ in_range (signed is_negative magnitude) }
    {
        if !is_negative || magnitude == 0 {
            return Some(Integer::from_u128(magnitude));
        }
        if magnitude > 1 << 127 {
            return None;
        }
        Some(Integer::new(is_negative, magnitude))
    }

    /// The integer of a sign and a magnitude that are in range.
    fn new(is_negative: bool, magnitude: u128) -> Integer
        requires { is_negative ≡ true → (0 < magnitude) × (magnitude ≤ 2 ^ 127) }
        ensures { result ≡ signed is_negative magnitude }
    {
        Integer {
            is_negative,
            high: (magnitude / HALF) as u64,
            low: (magnitude % HALF) as u64,
        }
    }

    /// The sign and the magnitude.
    pub(super) fn parts(self) -> (bool, u128)
        ensures value { self ≡ signed result.0 result.1 }
        ensures negative { result.0 ≡ true → (0 < result.1) × (result.1 ≤ 2 ^ 127) }
    {
        let magnitude = u128::from(self.high) * HALF + u128::from(self.low);
        (self.is_negative, magnitude)
    }

    /// Whether it is below 0.
    pub fn is_negative(self) -> bool
        ensures { IsTrue result ↔ (self <ℤ pos 0) }
    {
        self.is_negative
    }

    /// How far it is from 0.
    pub fn magnitude(self) -> u128
        ensures { result ≡ unsigned_abs self }
    {
        self.parts().1
    }

    /// The number, if it is from -2^127 to 2^127 - 1.
    pub fn as_i128(self) -> Option<i128>
        ensures { SomeIff result (FitsSigned w128 self) self }
    {
        let (is_negative, magnitude) = self.parts();
        if !is_negative {
            return i128::try_from(magnitude).ok();
        }
        // The least number has no counterpart above 0.
        Some(-1 - (magnitude - 1) as i128)
    }

    /// The number, if it is not negative.
    pub fn as_u128(self) -> Option<u128>
        ensures { SomeIff result (FitsUnsigned w128 self) (unsigned_abs self) }
    {
        let (is_negative, magnitude) = self.parts();
        if is_negative {
            return None;
        }
        Some(magnitude)
    }

    /// Whether it is 0.
    pub fn is_zero(self) -> bool
        ensures { result ≡ is_zero self }
    {
        self.parts().1 == 0
    }

    /// The number, if it is from 0 to 2^64 - 1.
    pub fn as_count(self) -> Option<usize>
        ensures { result ≡ count_in self }
    {
        let (is_negative, magnitude) = self.parts();
        if is_negative || magnitude > usize::MAX as u128 {
            return None;
        }
        Some(magnitude as usize)
    }

    /// The integer with the other sign, if it is in range.
    pub fn checked_neg(self) -> Option<Integer>
        ensures { result ≡ in_range (neg_ℤ self) }
    {
        let (is_negative, magnitude) = self.parts();
        Integer::from_parts(!is_negative, magnitude)
    }

    /// The sum, if it is in range.
    pub fn checked_add(self, other: Integer) -> Option<Integer>
        ensures { result ≡ in_range (self +ℤ other) }
    {
        let (is_negative, magnitude) = self.parts();
        let (other_is_negative, other_magnitude) = other.parts();
        sum_of(is_negative, magnitude, other_is_negative, other_magnitude)
    }

    /// The difference, if it is in range.
    pub fn checked_sub(self, other: Integer) -> Option<Integer>
        ensures { result ≡ in_range (self -ℤ other) }
    {
        let (is_negative, magnitude) = self.parts();
        let (other_is_negative, other_magnitude) = other.parts();
        sum_of(is_negative, magnitude, !other_is_negative, other_magnitude)
    }

    /// The product, if it is in range.
    pub fn checked_mul(self, other: Integer) -> Option<Integer>
        ensures { result ≡ in_range (self *ℤ other) }
    {
        let (is_negative, magnitude) = self.parts();
        let (other_is_negative, other_magnitude) = other.parts();
        match magnitude.checked_mul(other_magnitude) {
            Some(product) => Integer::from_parts(is_negative != other_is_negative, product),
            None => None,
        }
    }

    /// The quotient whose remainder is not negative, if it is in range.
    pub fn checked_div_euclid(self, divisor: Integer) -> Option<Integer>
        requires { is_zero divisor ≡ false }
        ensures { result ≡ in_range (int_div_euclid self divisor) }
    {
        let (is_negative, magnitude) = self.parts();
        let (divisor_is_negative, divisor) = divisor.parts();
        if is_negative {
            Integer::from_parts(!divisor_is_negative, (magnitude - 1) / divisor + 1)
        } else {
            Integer::from_parts(divisor_is_negative, magnitude / divisor)
        }
    }

    /// The remainder that is not negative.
    pub fn rem_euclid(self, divisor: Integer) -> Integer
        requires { is_zero divisor ≡ false }
        ensures { result ≡ int_rem_euclid self divisor }
    {
        let (is_negative, magnitude) = self.parts();
        let (_, divisor) = divisor.parts();
        Integer::from_u128(if is_negative {
            divisor - 1 - (magnitude - 1) % divisor
        } else {
            magnitude % divisor
        })
    }

    /// The power with an exponent that is not negative, if it is in range.
    pub fn checked_pow(self, exponent: u128) -> Option<Integer>
        ensures { result ≡ in_range (int_pow self exponent) }
    {
        let (is_negative, magnitude) = self.parts();
        match power_of(magnitude, exponent) {
            Some(power) => Integer::from_parts(is_negative && exponent % 2 == 1, power),
            None => None,
        }
    }
}

impl PartialEq for Integer {
    ghost eq = { int_eq };

    ghost laws = { Prim.search (comparing, rules) };

    fn eq(&self, other: &Integer) -> bool {
        self.cmp(other) == Ordering::Equal
    }
}

impl Eq for Integer {
    ghost laws = { Prim.search (comparing, rules) };
}

impl PartialOrd for Integer {
    ghost partial_cmp = { as_partial_cmp int_cmp };

    ghost laws = { partial_order_from_own_ties (Prim.search (comparing, rules))
        (Prim.search (comparing, rules)) };

    fn partial_cmp(&self, other: &Integer) -> Option<Ordering> {
        Some(self.cmp(other))
    }
}

/// Ordered as numbers.
impl Ord for Integer {
    ghost cmp = { int_cmp };

    ghost total = { Prim.search (comparing, rules) };

    ghost matches_partial_cmp = { Prim.search (comparing, rules) };

    ghost matches_eq = { Prim.search (comparing, rules) };

    fn cmp(&self, other: &Integer) -> Ordering {
        let (is_negative, magnitude) = self.parts();
        let (other_is_negative, other_magnitude) = other.parts();
        match (is_negative, other_is_negative) {
            (false, false) => magnitude.cmp(&other_magnitude),
            (false, true) => Ordering::Greater,
            (true, false) => Ordering::Less,
            (true, true) => other_magnitude.cmp(&magnitude),
        }
    }
}

/// The sum of two integers, each given by a sign and a magnitude, if it is in range.
fn sum_of(
    left_is_negative: bool,
    left: u128,
    right_is_negative: bool,
    right: u128,
) -> Option<Integer>
    ensures { result ≡ in_range (signed left_is_negative left +ℤ signed right_is_negative right) }
{
    if left_is_negative == right_is_negative {
        match left.checked_add(right) {
            Some(sum) => Integer::from_parts(left_is_negative, sum),
            None => None,
        }
    } else if left >= right {
        Integer::from_parts(left_is_negative, left - right)
    } else {
        Integer::from_parts(right_is_negative, right - left)
    }
}

/// The power, if it is under 2^128. It is found by squaring, which stops where it is too large.
fn power_of(base: u128, exponent: u128) -> Option<u128>
    ensures { SomeIff result (base ^ exponent < 2 ^ 128) (base ^ exponent) }
{
    if exponent == 0 {
        return Some(1);
    }
    if base < 2 {
        return Some(base);
    }
    let mut power: u128 = 1;
    let mut square = base;
    let mut left = exponent;
    while left > 1 {
        if left % 2 == 1 {
            power = power.checked_mul(square)?;
        }
        square = square.checked_mul(square)?;
        left /= 2;
    }
    power.checked_mul(square)
}

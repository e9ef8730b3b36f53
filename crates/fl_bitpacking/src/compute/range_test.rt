//! Comparisons with constants and between bounds, as tests of one range of integers, or of their sums with a reference.

ghost use Rattle.std.specs.Prelude.{◌≡◌, ◌&&◌, ◌||◌, ◌-◌, ◌%◌, ◌^◌, ◌<◌, ◌≤◌, ◌⊎◌, ◌+◌, ◌≤ℤ◌, ◌<ℤ◌, ◌+ℤ◌, ◌-ℤ◌, ℕ, ℤ, IfNone, IfSome, None, pos, negsuc, int_le, nat_eq, nat_le, nat_lt, if◌then◌else◌};
ghost use Rattle.fl_types.specs.Integers.{bits_of_type, pattern_of, wrap};
ghost use Rattle.fl_types.specs.Values.{integer_of, ptype_of_value};
ghost use Rattle.fl_column.specs.Queries.{holds, is_before, is_between};
ghost use Rattle.fl_bitpacking.specs.RangeTests.{IsTestOf, TestsPatterns, TestsRange, answer_of, is_from, is_up_to, passes};
ghost use Rattle.fl_bitpacking.specs.LeastIntegers.{least_of};

use fl_column::PhysicalPType;
use fl_types::{
    BetweenOptions, CompareOperator, NativePType, PType, PValue, StrictComparison,
    match_each_integer_ptype,
};
use num_traits::WrappingAdd;

/// Whether an integer lies in a range, which may be unbounded on either side; or, negated, whether it does not. Where there is a
/// reference, the sum of the integer and the reference is looked at, modulo 2 to the reference's bits.
#[derive(Clone, Copy)]
pub struct RangeTest {
    /// The smallest integer of the range, if there is one.
    pub lower: Option<i128>,
    /// The largest integer of the range, if there is one.
    pub upper: Option<i128>,
    /// Whether the integers out of the range pass instead of those in it.
    pub negated: bool,
    /// What is added to each integer, where there is a reference.
    pub reference: Option<PValue>,
}

/// The test of a type's integers by their patterns: whether the pattern minus `low`, modulo 2 to the type's bits, is at most
/// `span`; or, negated, whether it is above.
#[derive(Clone, Copy)]
pub(crate) struct PatternTest {
    /// The pattern of the smallest integer of the range.
    pub(crate) low: u64,
    /// How far the greatest one is above it.
    pub(crate) span: u64,
    /// Whether the patterns out of the range pass instead of those in it.
    pub(crate) negated: bool,
    /// The largest pattern of the type.
    pub(crate) greatest: u64,
}

/// The integer of a value. One more and one less are an `i128` as well.
fn integer(value: PValue) -> i128
    ensures value { result ≡ integer_of value }
    ensures low { negsuc 9223372036854775807 ≤ℤ result }
    ensures high { result ≤ℤ pos 18446744073709551615 }
{
    match value {
        PValue::U8(x) => x as i128,
        PValue::U16(x) => x as i128,
        PValue::U32(x) => x as i128,
        PValue::U64(x) => x as i128,
        PValue::I8(x) => x as i128,
        PValue::I16(x) => x as i128,
        PValue::I32(x) => x as i128,
        PValue::I64(x) => x as i128,
    }
}

/// The smallest integer of a type.
fn least_integer(ptype: PType) -> i128
    ensures { result ≡ least_of ptype }
{
    match ptype {
        PType::U8 | PType::U16 | PType::U32 | PType::U64 => 0,
        PType::I8 => i8::MIN as i128,
        PType::I16 => i16::MIN as i128,
        PType::I32 => i32::MIN as i128,
        PType::I64 => i64::MIN as i128,
    }
}

/// The largest integer of a type.
fn greatest_integer(ptype: PType) -> i128
    ensures { result ≡ least_of ptype +ℤ pos (2 ^ bits_of_type ptype - 1) }
{
    match ptype {
        PType::U8 => u8::MAX as i128,
        PType::U16 => u16::MAX as i128,
        PType::U32 => u32::MAX as i128,
        PType::U64 => u64::MAX as i128,
        PType::I8 => i8::MAX as i128,
        PType::I16 => i16::MAX as i128,
        PType::I32 => i32::MAX as i128,
        PType::I64 => i64::MAX as i128,
    }
}

/// The largest pattern of a type.
fn greatest_pattern(ptype: PType) -> u64
    ensures { result ≡ 2 ^ bits_of_type ptype - 1 }
{
    match ptype {
        PType::U8 | PType::I8 => u8::MAX as u64,
        PType::U16 | PType::I16 => u16::MAX as u64,
        PType::U32 | PType::I32 => u32::MAX as u64,
        PType::U64 | PType::I64 => u64::MAX,
    }
}

/// The smallest integer above a bound, or from it on.
fn lower_end(bound: PValue, strict: StrictComparison) -> i128
    ensures { (z : ℤ) → int_le result z ≡ is_before strict (integer_of bound) z }
{
    match strict {
        StrictComparison::Strict => integer(bound) + 1,
        StrictComparison::NonStrict => integer(bound),
    }
}

/// The largest integer below a bound, or up to it.
fn upper_end(bound: PValue, strict: StrictComparison) -> i128
    ensures { (z : ℤ) → int_le z result ≡ is_before strict z (integer_of bound) }
{
    match strict {
        StrictComparison::Strict => integer(bound) - 1,
        StrictComparison::NonStrict => integer(bound),
    }
}

/// The smallest integer of a range from `least` on.
fn least_within(lower: Option<i128>, least: i128) -> i128
    ensures inside { (z : ℤ) → least ≤ℤ z → is_from lower z ≡ int_le result z }
    ensures low { least ≤ℤ result }
{
    match lower {
        Some(lower) => lower.max(least),
        None => least,
    }
}

/// The largest integer of a range up to `greatest`.
fn greatest_within(upper: Option<i128>, greatest: i128) -> i128
    ensures inside { (z : ℤ) → z ≤ℤ greatest → is_up_to upper z ≡ int_le z result }
    ensures high { result ≤ℤ greatest }
{
    match upper {
        Some(upper) => upper.min(greatest),
        None => greatest,
    }
}

fn sum_typed<T: NativePType + WrappingAdd>(x: PValue, y: PValue) -> PValue
    requires x { ptype_of_value x ≡ T.PTYPE }
    requires y { ptype_of_value y ≡ T.PTYPE }
    ensures sum { integer_of result ≡ wrap T.PTYPE (integer_of x +ℤ integer_of y) }
    ensures typed { ptype_of_value result ≡ T.PTYPE }
{
    let x = T::from_pvalue(x).unwrap();
    let y = T::from_pvalue(y).unwrap();
    x.wrapping_add(&y).into_pvalue()
}

/// The sum of two values of one type, modulo 2 to the type's bits.
fn sum(x: PValue, y: PValue) -> PValue
    requires { ptype_of_value x ≡ ptype_of_value y }
    ensures sum { integer_of result ≡ wrap (ptype_of_value x) (integer_of x +ℤ integer_of y) }
    ensures typed { ptype_of_value result ≡ ptype_of_value x }
{
    match_each_integer_ptype!(x.ptype(), sum_typed(x, y))
}

fn pattern_typed<T: PhysicalPType>(value: PValue) -> u64
    requires { ptype_of_value value ≡ T.PTYPE }
    ensures { result ≡ pattern_of T.PTYPE (integer_of value) }
{
    let value = T::from_pvalue(value).unwrap();
    value.pattern()
}

/// The pattern of a value.
pub(crate) fn pattern(value: PValue) -> u64
    ensures { result ≡ pattern_of (ptype_of_value value) (integer_of value) }
{
    match_each_integer_ptype!(value.ptype(), pattern_typed(value))
}

/// How far a pattern is above another one, modulo 2 to a type's bits, of which `greatest` is the largest pattern.
fn distance_above(pattern: u64, low: u64, greatest: u64) -> u64
    requires pattern { pattern ≤ greatest }
    requires low { low ≤ greatest }
    ensures { result ≡ (pattern + (greatest + 1 - low)) % (greatest + 1) }
{
    if low <= pattern {
        pattern - low
    } else {
        pattern + (greatest - low) + 1
    }
}

impl RangeTest {
    /// The test of the integers from `lower` to `upper`, as far as they are given, or of all others.
    #[tactic(auto, unfolding(crate::specs::RangeTests::passes))]
    fn new(lower: Option<i128>, upper: Option<i128>, negated: bool) -> RangeTest
        ensures test { (z : ℤ) → passes result z ≡ answer_of negated (is_from lower z && is_up_to upper z) }
        ensures plain { result.reference ≡ None }
    {
        RangeTest {
            lower,
            upper,
            negated,
            reference: None,
        }
    }

    /// The test of the places from `start` to below `end`, or of all others.
    pub(crate) fn of_places(start: usize, end: usize, negated: bool) -> RangeTest
        ensures test { (k : ℕ) → passes result (pos k) ≡ answer_of negated (nat_le start k && nat_lt k end) }
        ensures plain { result.reference ≡ None }
    {
        RangeTest::new(Some(start as i128), Some(end as i128 - 1), negated)
    }

    /// The test of the integers in the range, whether this one is of those or of all others.
    #[tactic(auto, unfolding(crate::specs::RangeTests::passes))]
    pub(crate) fn inside(self) -> RangeTest
        ensures test { (z : ℤ) → passes self z ≡ answer_of self.negated (passes result z) }
        ensures reference { result.reference ≡ self.reference }
    {
        RangeTest {
            negated: false,
            ..self
        }
    }

    /// The test of an item by a comparison with a constant.
    pub fn comparing(operator: CompareOperator, constant: PValue) -> RangeTest
        ensures test { (z : ℤ) → passes result z ≡ holds operator (integer_of constant) z }
        ensures plain { result.reference ≡ None }
    {
        let (from, up_to) = (
            lower_end(constant, StrictComparison::NonStrict),
            upper_end(constant, StrictComparison::NonStrict),
        );
        match operator {
            CompareOperator::Eq => RangeTest::new(Some(from), Some(up_to), false),
            CompareOperator::NotEq => RangeTest::new(Some(from), Some(up_to), true),
            CompareOperator::Gte => RangeTest::new(Some(from), None, false),
            CompareOperator::Lte => RangeTest::new(None, Some(up_to), false),
            CompareOperator::Gt => {
                let above = lower_end(constant, StrictComparison::Strict);
                RangeTest::new(Some(above), None, false)
            }
            CompareOperator::Lt => {
                let below = upper_end(constant, StrictComparison::Strict);
                RangeTest::new(None, Some(below), false)
            }
        }
    }

    /// The test of an item by two bounds.
    pub fn between(lower: PValue, upper: PValue, options: BetweenOptions) -> RangeTest
        ensures test { (z : ℤ) → passes result z ≡ is_between options (integer_of lower) (integer_of upper) z }
        ensures plain { result.reference ≡ None }
    {
        let from = lower_end(lower, options.lower_strict);
        let up_to = upper_end(upper, options.upper_strict);
        RangeTest::new(Some(from), Some(up_to), false)
    }

    /// The same test of the sums of the integers and a reference, modulo 2 to the reference's bits. Where the test has a
    /// reference already, both are added, so the two are of one type.
    pub fn of_sums(self, reference: PValue) -> RangeTest
        requires { IsTestOf (ptype_of_value reference) self }
        ensures test { (z : ℤ) → passes result z ≡ passes self (wrap (ptype_of_value reference) (z +ℤ integer_of reference)) }
        ensures typed { IsTestOf (ptype_of_value reference) result }
    {
        let reference = match self.reference {
            Some(other) => sum(reference, other),
            None => reference,
        };
        RangeTest {
            reference: Some(reference),
            ..self
        }
    }

    /// The ends of the range among the integers from `least` to `greatest`. Where none of these is in the range, the first end
    /// is above the second.
    fn ends(self, least: i128, greatest: i128) -> (i128, i128)
        ensures inside { (z : ℤ) → least ≤ℤ z → z ≤ℤ greatest → (is_from self.lower z && is_up_to self.upper z) ≡ (int_le result.0 z && int_le z result.1) }
        ensures low { least ≤ℤ result.0 }
        ensures high { result.1 ≤ℤ greatest }
    {
        (
            least_within(self.lower, least),
            greatest_within(self.upper, greatest),
        )
    }

    /// The ends of the range among the integers of a type, as `ends` gives them.
    fn ends_of_type(self, ptype: PType) -> (i128, i128)
        ensures inside { (z : ℤ) → least_of ptype ≤ℤ z → z <ℤ (least_of ptype +ℤ pos (2 ^ bits_of_type ptype)) → (is_from self.lower z && is_up_to self.upper z) ≡ (int_le result.0 z && int_le z result.1) }
        ensures low { least_of ptype ≤ℤ result.0 }
        ensures high { result.1 <ℤ (least_of ptype +ℤ pos (2 ^ bits_of_type ptype)) }
    {
        self.ends(least_integer(ptype), greatest_integer(ptype))
    }

    /// The test of a type's integers by their patterns.
    pub(crate) fn on_patterns(self, ptype: PType) -> PatternTest
        requires { IsTestOf ptype self }
        ensures { TestsPatterns ptype self result }
    {
        let (lower, upper) = self.ends_of_type(ptype);
        let patterns = pattern_test(ptype, lower, upper, self.negated);
        match self.reference {
            Some(reference) => patterns.of_sums(pattern(reference)),
            None => patterns,
        }
    }
}

impl PatternTest {
    /// The same test of the sums of the patterns and another one: the range begins lower by as much.
    pub(crate) fn of_sums(self, reference: u64) -> PatternTest
        requires low { self.low ≤ self.greatest }
        requires reference { reference ≤ self.greatest }
        ensures { result ≡ record self { low = (self.low + (self.greatest + 1 - reference)) % (self.greatest + 1) } }
    {
        PatternTest {
            low: distance_above(self.low, reference, self.greatest),
            ..self
        }
    }

    /// Whether a pattern passes.
    pub(crate) fn is_passed_by(self, pattern: u64) -> bool
        requires low { self.low ≤ self.greatest }
        requires pattern { pattern ≤ self.greatest }
        ensures { result ≡ answer_of self.negated (nat_le ((pattern + (self.greatest + 1 - self.low)) % (self.greatest + 1)) self.span) }
    {
        let inside = distance_above(pattern, self.low, self.greatest) <= self.span;
        if self.negated { !inside } else { inside }
    }

    /// Whether either all patterns up to `last` pass, or none does: they are `last + 1` neighbours, of which 0 is so far above
    /// `low`, and the range may wrap around after the largest pattern.
    pub(crate) fn has_one_answer(self, last: u64) -> bool
        requires { self.low ≤ self.greatest }
        ensures { let first = (self.greatest + 1 - self.low) % (self.greatest + 1) in result ≡ (if nat_le first self.span then nat_eq self.span self.greatest || nat_le last (self.span - first) else nat_le last (self.greatest - first)) }
    {
        let first = distance_above(0, self.low, self.greatest);
        if first <= self.span {
            self.span == self.greatest || last <= self.span - first
        } else {
            last <= self.greatest - first
        }
    }
}

/// The test of a type's integers from `lower` to `upper`, or of all its others, by their patterns.
fn pattern_test(ptype: PType, lower: i128, upper: i128, negated: bool) -> PatternTest
    requires low { least_of ptype ≤ℤ lower }
    requires high { upper <ℤ (least_of ptype +ℤ pos (2 ^ bits_of_type ptype)) }
    ensures { TestsRange ptype lower upper negated result }
{
    let greatest = greatest_pattern(ptype);
    match distance(lower, upper) {
        Some(span) => PatternTest {
            low: pattern_of_integer(lower, greatest),
            span,
            negated,
            greatest,
        },
        // Each pattern is in the whole range, and none is out of it.
        None => PatternTest {
            low: 0,
            span: greatest,
            negated: !negated,
            greatest,
        },
    }
}

/// How far an integer is above another one, or `None` where it is below.
fn distance(lower: i128, upper: i128) -> Option<u64>
    requires { upper <ℤ (lower +ℤ pos 18446744073709551616) }
    ensures above { IfSome result (λ n. pos n ≡ upper -ℤ lower) }
    ensures below { IfNone result (upper <ℤ lower) }
{
    if lower > upper {
        return None;
    }
    Some((upper - lower) as u64)
}

/// The pattern of an integer of a type, by the type's largest pattern.
fn pattern_of_integer(z: i128, greatest: u64) -> u64
    requires low { negsuc greatest ≤ℤ z }
    requires high { z ≤ℤ pos greatest }
    ensures below { result ≤ greatest }
    ensures same { pos result ≡ z ⊎ pos result ≡ z +ℤ pos (greatest + 1) }
{
    if z < 0 {
        (z + greatest as i128 + 1) as u64
    } else {
        z as u64
    }
}

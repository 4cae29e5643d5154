// The whole part and the exact fraction of a weight in millionths, by integer arithmetic on its bits, and who comes first by the fractions.
#![tactic(auto)]

ghost use Rattle.std.specs.Prelude.{◌≡◌, true, ◌&&◌, ◌||◌, ◌+◌, ◌-◌, ◌*◌, ◌/◌, ◌%◌, ◌^◌, ◌≤◌, ◌<◌, min, ltb, eqb, length};
ghost use Rattle.arithmetic.specs.Inner.{worth};
ghost use Rattle.lent.specs.Grid.{tab, over};
ghost use Rattle.fields.specs.Split.{all};
ghost use Rattle.fractions.specs.Fractions.{in_range, rank_of, wholes_in, ranks_in, fractions_outcome, wholes_laid, ranks_laid};
ghost use Rattle.fractions.specs.Inner.{Worth, Exactly, value_of, Normal, Holds, value_at, Keyed, AllKeyed, Fillable};

use refusal::Refusal;

// m * 2^place units of 2^-1074.
#[derive(Clone, Copy)]
struct Digits {
    m: u64,
    place: u64,
}

// A fraction left over: (high * 2^32 + low) * 2^place units of 2^-1074, where top is place * 2^41 + high. Two compare by top, then by low.
#[derive(Clone, Copy, PartialEq, Eq, PartialOrd, Ord)]
struct Fraction {
    top: u64,
    low: u64,
}

// A weight in millionths: its whole part, and the fraction left over.
#[derive(Clone, Copy)]
struct Parts {
    whole: usize,
    left: Fraction,
}

// A NaN's bits are above those of 1, and so are those of every weight below 0 and of −0.
#[tactic(auto, using(crate::proofs::Pattern::range_zero, crate::proofs::Pattern::range_bits, arithmetic::proofs::Facts::truth))]
fn in_range(w: f64) -> bool
    ensures { result ≡ in_range w }
{
    let b = arithmetic::to_bits(w);
    b == 0x8000_0000_0000_0000 || b <= 0x3ff0_0000_0000_0000
}

fn all_in_range(weights: &[f64]) -> bool
    ensures { result ≡ all in_range weights.now }
{
    weights.iter().all(|w| in_range(*w))
}

#[tactic(auto, unfolding(crate::specs::Fractions::fractions_outcome, crate::specs::Fractions::fractions_table, refusal::specs::Table::first, refusal::specs::Table::or_else))]
fn judge(weights: &[f64], wholes: usize, ranks: usize) -> Result<(), Refusal>
    ensures { result ≡ fractions_outcome weights.now wholes ranks }
{
    let n = weights.len();
    refusal::refuse(lent::MOST_ASSETS < n, Refusal::OverLimit)?;
    refusal::refuse(wholes < n || ranks < n, Refusal::ShortBuffer)?;
    refusal::refuse(!all_in_range(weights), Refusal::WeightOutOfRange)
}

// The digits of a double from 0 to 1, by its pattern.
fn digits_of(b: u64) -> Digits
    requires { b ≤ 1023 * 2 ^ 52 }
    ensures { Worth result (worth b) }
{
    let f = b / 0x10_0000_0000_0000;
    let t = b % 0x10_0000_0000_0000;
    if f == 0 {
        return Digits { m: t, place: 0 };
    }
    Digits {
        m: t + 0x10_0000_0000_0000,
        place: f - 1,
    }
}

// m * 1,000,000 / 2^32, which has up to 73 bits before the division: m is cut into 21 and 32 bits.
fn scaled(m: u64) -> u64
    requires { m < 2 ^ 53 }
    ensures { result ≡ m * 1000000 / 2 ^ 32 }
{
    m / 0x1_0000_0000 * 1000000 + m % 0x1_0000_0000 * 1000000 / 0x1_0000_0000
}

// How many of the scaled digits stand right of the whole part; past 63 all do.
fn right_of_whole(place: u64) -> u64
    requires { place ≤ 1022 }
    ensures { result ≡ min (1042 - place) 63 }
{
    if place < 979 {
        return 63;
    }
    1042 - place
}

// What the s lowest binary digits of x are.
fn lowest(x: u64, s: u64) -> u64
    requires { s < 64 }
    ensures { result ≡ x % 2 ^ s }
{
    x % (1 << s)
}

// Shifted to the left until high has its 41 digits or the place is 0, so that two compare place first.
fn normal(high0: u64, low0: u64, place0: u64) -> Fraction
    requires high0_bound { high0 < 2 ^ 41 }
    requires low0_bound { low0 < 2 ^ 32 }
    requires place0_bound { place0 ≤ 1022 }
    ensures { Holds result ((high0 * 2 ^ 32 + low0) * 2 ^ place0) }
{
    if high0 == 0 && low0 == 0 {
        return Fraction { top: 0, low: 0 };
    }
    let mut high = high0;
    let mut low = low0;
    let mut place = place0;
    while place > 0 && high < 0x100_0000_0000 {
        high = high * 2 + low * 2 / 0x1_0000_0000;
        low = low * 2 % 0x1_0000_0000;
        place -= 1;
    }
    Fraction {
        top: place * 0x200_0000_0000 + high,
        low,
    }
}

// What the scaled digits have right of the whole part is the fraction. The sign of −0 is left out.
fn parts_of(w: f64) -> Parts
    requires { in_range w ≡ true }
    ensures { Exactly result w }
{
    let d = digits_of(arithmetic::to_bits(w) % 0x8000_0000_0000_0000);
    let x = scaled(d.m);
    let s = right_of_whole(d.place);
    let low = d.m % 0x1_0000_0000 * 1000000 % 0x1_0000_0000;
    Parts {
        whole: (x >> s) as usize,
        left: normal(lowest(x, s), low, d.place),
    }
}

// Whether x comes before y: the larger does, and on a tie the lower number.
fn is_sooner(x: Fraction, y: Fraction, lower: bool) -> bool
    requires normal { Normal x }
    requires normal_2 { Normal y }
    ensures { result ≡ (ltb (value_of y) (value_of x) || (eqb (value_of x) (value_of y) && lower)) }
{
    y < x || (x == y && lower)
}

// How many of the fractions come before fraction i.
fn rank(left: &[Fraction], i: usize) -> usize
    requires all_keyed { AllKeyed left.now }
    requires i_in_bounds { i < length left.now }
    ensures { result ≡ rank_of (value_at left.now) (length left.now) i }
{
    let own = left[i];
    let mut k = 0;
    for (j, other) in left.iter().enumerate() {
        k += usize::from(is_sooner(*other, own, j < i));
    }
    k
}

// The rank of each fraction.
fn put_ranks(left: &[Fraction], ranks: &mut [usize])
    requires all_keyed { AllKeyed left.now }
    requires in_bounds { length left.now ≤ length ranks.old }
    ensures { ranks.new ≡ over (tab (length left.now) (rank_of (value_at left.now) (length left.now))) ranks.old }
{
    for i in 0..left.len() {
        ranks[i] = rank(left, i);
    }
}

// Each weight's whole part, and the fraction left over.
fn measure(weights: &[f64], wholes: &mut [usize], left: &mut [Fraction])
    requires weights_value { all in_range weights.now ≡ true }
    requires in_bounds { length weights.now ≤ length wholes.old }
    requires same_len { length left.old ≡ length weights.now }
    ensures wholes_after { wholes.new ≡ over (wholes_in weights.now) wholes.old }
    ensures keyed { Keyed weights.now (length weights.now) left.new }
{
    for (i, w) in weights.iter().enumerate() {
        let x = parts_of(*w);
        wholes[i] = x.whole;
        left[i] = x.left;
    }
}

// Each fraction is made once.
fn fill(weights: &[f64], wholes: &mut [usize], ranks: &mut [usize])
    requires { Fillable weights.now (length wholes.old) (length ranks.old) }
    ensures wholes_after { wholes.new ≡ over (wholes_in weights.now) wholes.old }
    ensures ranks_after { ranks.new ≡ over (ranks_in weights.now) ranks.old }
{
    let mut room = [Fraction { top: 0, low: 0 }; 64];
    let left = &mut room[..weights.len()];
    measure(weights, wholes, left);
    put_ranks(left, ranks);
}

// Of each weight the whole part in millionths, and how many of the weights come before it by the fractions left over.
pub fn rank_fractions(
    weights: &[f64],
    wholes: &mut [usize],
    ranks: &mut [usize],
) -> Result<(), Refusal>
    ensures value { result ≡ fractions_outcome weights.now (length wholes.old) (length ranks.old) }
    ensures wholes_after { wholes.new ≡ wholes_laid weights.now (length wholes.old) (length ranks.old) }
    ensures ranks_after { ranks.new ≡ ranks_laid weights.now (length wholes.old) (length ranks.old) }
{
    let said = judge(weights, wholes.len(), ranks.len());
    lent::clear(wholes);
    lent::clear(ranks);
    said?;
    fill(weights, wholes, ranks);
    Ok(())
}

// Document 01's arithmetic on doubles that the language does not have as one operation. Every function is total.
#![tactic(auto)]

ghost use Rattle.std.specs.Prelude.{◌≡◌, from_bits, to_bits};
ghost use Rattle.std.specs.Float.{binary64};
ghost use Rattle.arithmetic.specs.Arithmetic.{max_of, min_of, clamp_of, abs_of, finite_of, count_of, one_over};

mod root;

pub use root::sqrt;

// The larger of two; with one NaN the other, and of equals the first.
pub fn max(x: f64, y: f64) -> f64
    ensures { result ≡ max_of x y }
{
    if x != x {
        return settled(y);
    }
    if x < y { y } else { x }
}

// The smaller of two; with one NaN the other, and of equals the first.
pub fn min(x: f64, y: f64) -> f64
    ensures { result ≡ min_of x y }
{
    if x != x {
        return settled(y);
    }
    if y < x { y } else { x }
}

// A number beyond an end becomes that end; NaN and −0 stay.
pub fn clamp(x: f64, low: f64, high: f64) -> f64
    ensures { result ≡ clamp_of x low high }
{
    if x < low {
        return low;
    }
    if high < x { high } else { settled(x) }
}

// |x|: the bits without the sign's.
pub fn abs(x: f64) -> f64
    ensures { result ≡ abs_of x }
{
    from_bits(to_bits(x) % 0x8000_0000_0000_0000)
}

// Neither NaN nor an infinity.
pub fn is_finite(x: f64) -> bool
    ensures { result ≡ finite_of x }
{
    -1.0 / 0.0 < x && x < 1.0 / 0.0
}

// The double nearest to n. A cast takes no more than 2^53, so n goes in two parts: the casts and the product are exact, and only the sum rounds.
pub fn count(n: usize) -> f64
    ensures { result ≡ count_of n }
{
    (n / 0x1_0000_0000) as f64 * 4294967296.0 + (n % 0x1_0000_0000) as f64
}

// The double of a bit pattern; every NaN pattern gives NaN.
pub fn from_bits(b: u64) -> f64
    ensures { result ≡ from_bits binary64 b }
{
    if 0x7ff0_0000_0000_0000 < b % 0x8000_0000_0000_0000 {
        return 0.0 / 0.0;
    }
    f64::from_bits(b)
}

// The bits of a double; a NaN's are 7ff8000000000000.
pub fn to_bits(x: f64) -> u64
    ensures { result ≡ to_bits binary64 x }
{
    if x != x {
        return 0x7ff8_0000_0000_0000;
    }
    x.to_bits()
}

// x itself. The logic has one NaN and compiled code many: an answer goes through here so that the stored one is 7ff8000000000000, which 0.0 / 0.0 is.
pub fn settled(x: f64) -> f64
    ensures { result ≡ x }
{
    if x != x { 0.0 / 0.0 } else { x }
}

// The double nearest 1/m.
pub fn one_over(m: usize) -> f64
    ensures { result ≡ one_over m }
{
    1.0 / count(m)
}

// The square root of a double, rounded to the nearest double, by integer arithmetic.
ghost use Rattle.std.specs.Prelude.{◌≡◌, ℕ, ◌+◌, ◌*◌, ◌^◌, ◌<◌, ◌≤◌, not, T, is_nan};
ghost use Rattle.std.specs.Float.Ieee.Positive.{positive};
ghost use Rattle.arithmetic.specs.Inner.{worth, Positive, Radicand, Near};
ghost use Rattle.arithmetic.specs.Root.{root};

// q * (q + 1) / 2^52, which has up to 106 bits before the division: q is cut into 27 and 26 bits.
fn over(q: u64) -> u64
    requires { q < 2 ^ 53 }
    ensures { (result * 2 ^ 52 ≤ q * q + q) × (q * q + q < result * 2 ^ 52 + 2 ^ 52) }
{
    let a = q / 0x400_0000;
    let b = q % 0x400_0000;
    let mid = a * b;
    let low = mid % 0x200_0000 * 0x800_0000 + b * b + q;
    a * a + mid / 0x200_0000 + low / 0x10_0000_0000_0000
}

// The root of m * 2^52 to the nearest whole number, by halving an interval.
fn search(m: u64) -> u64
    requires { (2 ^ 52 ≤ m) × (m + 2 ≤ 2 ^ 54) }
    ensures { Near (m * 2 ^ 52) result }
{
    // for these m the guess rounds up to 2^53, and its digits are those of 2^52: no other m is known to come here
    if 0x3f_ffff_ffff_fffa < m {
        return 0x1f_ffff_ffff_ffff;
    }
    let mut lo: u64 = 0xf_ffff_ffff_ffff;
    let mut hi: u64 = 0x1f_ffff_ffff_ffff;
    while hi - lo > 1 {
        let mid = (lo + hi) / 2;
        if m <= over(mid) {
            hi = mid;
        } else {
            lo = mid;
        }
    }
    hi
}

// r, or a number where r is none. (1e-200 is below the root of every double that is not subnormal.)
fn tame(r: f64) -> f64
    ensures { T (not (is_nan result)) }
{
    if 1e-200 < r { r } else { 1e-200 }
}

// A guess at the first 53 digits of the root of the double with the bits i, of which nothing is proved but their number. x is the next double above, so
// they are the root's or one more, rarely two more, and never fewer. y0 is about 0.63 / √x, by a trick on the bits; then g, x * y0^2, is about 0.4, and p,
// a polynomial in g, makes 1 / √x of it to 20 digits, but for the factor 7.8482703. So s is √x to 20 digits, from below, and a step of the third order
// mends it. Nothing leaves the range of doubles, but for the x of the largest double.
fn guess(i: u64) -> u64
    requires { (2 ^ 52 ≤ i) × (i < 2047 * 2 ^ 52) }
    ensures { (2 ^ 52 ≤ result) × (result < 2 ^ 53) }
{
    let x = f64::from_bits(i + 1);
    let y0 = f64::from_bits(0x5fdc_0000_0000_0000 - i / 2);
    let s0 = x * y0;
    let g = s0 * y0;
    let p = (1.67334091 - g) * (g * g + 1.1104979) - 1.41631377;
    let y = y0 * p;
    let s = 7.8482703 * s0 * p;
    let r = tame(s + y * (x - s * s) * (6.8672365125 - 23.0982550132 * (s * y)));
    r.to_bits() % 0x10_0000_0000_0000 + 0x10_0000_0000_0000
}

// q or one less: the whole number nearest to the root of q * q + q - t. The test is subtracted, and not branched on: it cannot be foretold.
fn lowered(q: u64, t: u64) -> u64
    requires { (2 ^ 52 ≤ q) × (q < 2 ^ 53) × (t + 2 < 4 * q) }
    ensures { (v : ℕ) → v + t ≡ q * q + q → Near v result }
{
    q - (2 * q <= t) as u64
}

// The root of m * 2^52 to the nearest whole number, from a guess q: q or one or two less where that is right, and else by search.
fn settle(m: u64, q: u64) -> u64
    requires { (2 ^ 52 ≤ m) × (m + 2 ≤ 2 ^ 54) × (2 ^ 52 ≤ q) × (q < 2 ^ 53) }
    ensures { Near (m * 2 ^ 52) result }
{
    let a = q / 0x400_0000;
    let b = q % 0x400_0000;
    // t is q * q + q - m * 2^52, summed modulo 2^64 from the top: with q nearly right no part of the sum is far from 0
    let c = (a * a).wrapping_sub(m);
    if c.wrapping_add(0x2000_0000) < 0x4000_0000 {
        let d = (c << 25).wrapping_add(a * b);
        if d.wrapping_add(0x1000_0000) < 0x4000_0000 {
            let t = (d << 27).wrapping_add(b * b + q);
            if t < 4 * q - 2 {
                return lowered(q, t);
            }
            if t < 6 * q - 6 {
                return q - 2;
            }
        }
    }
    search(m)
}

// The root of m * 2^52 to the nearest whole number; the double with the bits i is m times a power of 4.
fn nearest(m: u64, i: u64) -> u64
    requires { (2 ^ 52 ≤ m) × (m + 2 ≤ 2 ^ 54) × (2 ^ 52 ≤ i) × (i < 2047 * 2 ^ 52) }
    ensures { Near (m * 2 ^ 52) result }
{
    settle(m, guess(i))
}

// How far t is to be shifted to the left to have 53 digits.
fn lift(t: u64) -> u32
    requires { (0 < t) × (t < 2 ^ 52) }
    ensures { (2 ^ 52 ≤ t * 2 ^ result) × (t * 2 ^ result < 2 ^ 53) × (result ≤ 52) }
{
    t.leading_zeros() - 11
}

// m * 4^k; and, for the guess, the bits of a double that is not subnormal and a power of 4 times as large.
#[derive(Clone, Copy)]
struct Scaled {
    m: u64,
    k: u64,
    i: u64,
}

// m * 2^e as a number times a power of 4.
fn paired(m: u64, e: u64, i: u64) -> Scaled
    requires { (2 ^ 52 ≤ m) × (m < 2 ^ 53) × (e ≤ 3067) }
    ensures value { m * 2 ^ e ≡ result.m * (2 ^ result.k * 2 ^ result.k) }
    ensures range { (2 ^ 52 ≤ result.m) × (result.m + 2 ≤ 2 ^ 54) × (result.k ≤ 1533) × (result.i ≡ i) }
{
    let k = e / 2;
    if e % 2 == 0 {
        Scaled { m, k, i }
    } else {
        Scaled { m: m + m, k, i }
    }
}

// What the pattern b is worth, for the root: its digits, 53 or 54 of them, and half of its exponent.
fn radicand(b: u64) -> Scaled
    requires { Positive b }
    ensures value { Radicand (worth b) result.m result.k }
    ensures normal { (2 ^ 52 ≤ result.i) × (result.i < 2047 * 2 ^ 52) }
{
    let t = b % 0x10_0000_0000_0000;
    let f = b / 0x10_0000_0000_0000;
    if f == 0 {
        let z = lift(t);
        let m = t << z;
        let e = 1022 - z as u64;
        paired(m, e, e * 0x10_0000_0000_0000 + m)
    } else {
        paired(t + 0x10_0000_0000_0000, f + 1021, b)
    }
}

// The root of a double that is above zero and finite.
fn positive_root(x: f64) -> f64
    requires { T (positive x) }
    ensures { result ≡ root x }
{
    let b = x.to_bits();
    let s = radicand(b);
    let q = nearest(s.m, s.i);
    f64::from_bits(s.k * 0x10_0000_0000_0000 + q)
}

pub fn sqrt(x: f64) -> f64
    ensures { result ≡ root x }
{
    if 0.0 < x {
        if x < 1.0 / 0.0 { positive_root(x) } else { x }
    } else if x == 0.0 {
        x
    } else {
        0.0 / 0.0
    }
}

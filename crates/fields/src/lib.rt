// Bytes cut at a byte, and numerals in bases 10 and 16.
#![tactic(auto)]

ghost use Rattle.std.specs.Prelude.{◌≡◌, ◌+◌, ◌-◌, ◌*◌, ◌^◌, ◌≤◌, length};
ghost use Rattle.fields.specs.Split.{split, end_of, last_piece, piece as piece_of};
ghost use Rattle.fields.specs.Numerals.{bits_read, numeral_read, digit as digit_of};
ghost use Rattle.fields.specs.Inner.{spelled_after};

// The place of the first d from a place on, or the end. A place past the end stays.
#[tactic(auto, using(crate::proofs::Pieces::end_here, crate::proofs::Pieces::end_on, crate::proofs::Pieces::end_none))]
pub fn end_of(s: &[u8], d: u8, from: usize) -> usize
    ensures { result ≡ end_of d s.now from }
{
    for i in from..s.len() {
        if s[i] == d {
            return i;
        }
    }
    from.max(s.len())
}

// How many d's there are: one fewer than pieces.
pub fn count(s: &[u8], d: u8) -> usize
    ensures { result ≡ length (split d s.now) - 1 }
{
    let mut n = 0;
    for &b in s {
        if b == d {
            n += 1;
        }
    }
    n
}

// Piece k between the d's, counted from 0; nothing where there are not as many.
pub fn piece(s: &[u8], d: u8, k: usize) -> &[u8]
    ensures { result.now ≡ piece_of d s.now k }
{
    let mut at = 0;
    for _ in 0..k {
        let e = end_of(s, d, at);
        if e == s.len() {
            return &s[e..];
        }
        at = e + 1;
    }
    let e = end_of(s, d, at);
    &s[at..e]
}

// The piece after the last d; all where there is none.
pub fn last_piece(s: &[u8], d: u8) -> &[u8]
    ensures { result.now ≡ last_piece d s.now }
{
    for k in (0..s.len()).rev() {
        if s[k] == d {
            return &s[k + 1..];
        }
    }
    s
}

// What a digit is worth; 16 where the byte is no digit.
#[tactic(auto, using(std::proofs::lemmas::Bool::Decides::nat_tests), unfolding(crate::specs::Numerals::digit))]
pub fn digit(b: u8) -> usize
    ensures { result ≡ digit_of b }
{
    match b {
        b'0'..=b'9' => usize::from(b - b'0'),
        b'a'..=b'f' => usize::from(b - b'a') + 10,
        _ => 16,
    }
}

// The number that digits of a base spell after digits worth n, each looked at as it is added.
fn spelled(w: &[u8], base: usize, n: usize) -> Option<usize>
    requires { (n + 1) * base ^ length w.now ≤ 2 ^ 64 }
    ensures { result ≡ spelled_after base n w.now }
{
    let mut m = n;
    for b in w {
        let v = digit(*b);
        if base <= v {
            return None;
        }
        m = m * base + v;
    }
    Some(m)
}

// A double from the 16 lower-case hex digits of its bits.
#[tactic(auto, using(crate::proofs::Digits::bits_other, crate::proofs::Digits::bits_spelled))]
pub fn read_bits(w: &[u8]) -> Option<f64>
    ensures { result ≡ bits_read w.now }
{
    if w.len() != 16 {
        return None;
    }
    let bits = spelled(w, 16, 0)?;
    Some(arithmetic::from_bits(bits as u64))
}

// A number from its 1 to 9 digits.
#[tactic(auto, using(crate::proofs::Digits::room_of_ten, crate::proofs::Digits::numeral_none, crate::proofs::Digits::numeral_long, crate::proofs::Digits::numeral_spelled))]
pub fn read_numeral(w: &[u8]) -> Option<usize>
    ensures { result ≡ numeral_read w.now }
{
    match w.len() {
        1..=9 => spelled(w, 10, 0),
        _ => None,
    }
}

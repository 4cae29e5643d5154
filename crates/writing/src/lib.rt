// Bytes and numerals written into a lent buffer, where they fit.
#![tactic(auto)]

ghost use Rattle.std.specs.Prelude.{◌≡◌, [], ◌∷◌, ◌+◌, ◌≤◌, ◌<◌, ltb, length};
ghost use Rattle.writing.specs.Writing.{digit_byte, digits, decimal, hex_of, Put};

// Whether k bytes from place `at` on go past the end of the room.
#[tactic(auto, using(std::proofs::lemmas::Bool::Decides::nat_tests))]
fn lacks_room(room: usize, at: usize, k: usize) -> bool
    ensures { result ≡ ltb room (at + k) }
{
    room < at || room - at < k
}

// s is written from place `at` on; the answer is the place after it. Nothing is written where it does not fit.
pub fn put_bytes(out: &mut [u8], at: usize, s: &[u8]) -> usize
    ensures { Put out.old at s.now out.new result }
{
    if lacks_room(out.len(), at, s.len()) {
        return at;
    }
    for i in 0..s.len() {
        out[at + i] = s[i];
    }
    at + s.len()
}

// One byte, likewise.
pub fn put_byte(out: &mut [u8], at: usize, b: u8) -> usize
    ensures { Put out.old at (b ∷ []) out.new result }
{
    if out.len() <= at {
        return at;
    }
    out[at] = b;
    at + 1
}

// A digit as a byte: 0 to 9, then a to f.
#[tactic(auto, using(std::proofs::lemmas::Bool::Decides::nat_tests), unfolding(crate::specs::Writing::digit_byte))]
fn digit_byte(d: u64) -> u8
    requires { d < 16 }
    ensures { result ≡ digit_byte d }
{
    match d {
        0..=9 => b'0' + d as u8,
        _ => b'a' + (d as u8 - 10),
    }
}

// The k last digits of n, from the last one to the first.
fn put_digits(out: &mut [u8], at: usize, base: u64, k: usize, n: u64) -> usize
    requires base_nonzero { 0 < base }
    requires base_bound { base ≤ 16 }
    ensures { Put out.old at (digits base k n) out.new result }
{
    if lacks_room(out.len(), at, k) {
        return at;
    }
    let mut left = n;
    for i in (0..k).rev() {
        out[at + i] = digit_byte(left % base);
        left /= base;
    }
    at + k
}

// The 16 hex digits of n.
pub fn put_hex(out: &mut [u8], at: usize, n: u64) -> usize
    ensures { Put out.old at (hex_of n) out.new result }
{
    put_digits(out, at, 16, 16, n)
}

// How many decimal digits n takes.
pub fn places(n: u64) -> usize
    ensures { result ≡ length (decimal n) }
{
    let mut k = 1;
    let mut left = n;
    while left >= 10 {
        left /= 10;
        k += 1;
    }
    k
}

// The decimal digits of n, without leading zeros.
pub fn put_decimal(out: &mut [u8], at: usize, n: u64) -> usize
    ensures { Put out.old at (decimal n) out.new result }
{
    put_digits(out, at, 10, places(n), n)
}

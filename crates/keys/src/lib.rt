// An asset's name as two numbers, which compare as its bytes do.
#![tactic(auto)]

ghost use Rattle.std.specs.Prelude.{◌≡◌, ◌<◌, ◌≤◌, length, get_or};
ghost use Rattle.lent.specs.Grid.{tab};
ghost use Rattle.writing.specs.Writing.{Put};
ghost use Rattle.keys.specs.Keys.{word_from, shortened, key_of, key_same, key_before, key_byte, key_bytes};

// A name of up to 16 bytes: its first eight and its last eight as numbers in base 256, zeros past its end.
#[derive(Clone, Copy, PartialEq, Eq, PartialOrd, Ord)]
pub struct Key {
    pub high: usize,
    pub low: usize,
}

fn byte(s: &[u8], i: usize) -> usize
    ensures value { result ≡ get_or s.now i 0 }
    ensures upper_bound { result < 256 }
{
    s.get(i).map_or(0, |b| usize::from(*b))
}

// Eight bytes from a place on as a number, the first the highest.
fn word(s: &[u8], from: usize) -> usize
    requires { from ≤ 8 }
    ensures { result ≡ word_from s.now from 8 }
{
    let mut w: usize = 0;
    for k in 0..8 {
        w = w * 256 + byte(s, from + k);
    }
    w
}

// The key of a name; bytes after the sixteenth are not looked at.
pub fn key_of(s: &[u8]) -> Key
    ensures { result ≡ key_of s.now }
{
    Key {
        high: word(s, 0),
        low: word(s, 8),
    }
}

#[tactic(auto, using(std::proofs::lemmas::Bool::Decides::nat_tests), unfolding(crate::specs::Keys::key_before))]
pub fn is_before(x: Key, y: Key) -> bool
    ensures { result ≡ key_before x y }
{
    x < y
}

#[tactic(auto, unfolding(crate::specs::Keys::key_same))]
pub fn is_same(x: Key, y: Key) -> bool
    ensures { result ≡ key_same x y }
{
    x == y
}

// A number without its last k bytes.
fn shift(w: usize, k: usize) -> usize
    ensures { result ≡ shortened k w }
{
    let mut left = w;
    for _ in 0..k {
        left /= 256;
    }
    left
}

// Byte i of the sixteen.
fn byte_of(key: Key, i: usize) -> u8
    requires { i < 16 }
    ensures { result ≡ key_byte key i }
{
    if i < 8 {
        return (shift(key.high, 7 - i) % 256) as u8;
    }
    (shift(key.low, 15 - i) % 256) as u8
}

fn fill(bytes: &mut [u8; 16], key: Key)
    requires { length bytes.old ≡ 16 }
    ensures { bytes.new ≡ tab 16 (key_byte key) }
{
    for (i, b) in bytes.iter_mut().enumerate() {
        *b = byte_of(key, i);
    }
}

// The bytes of a key's name are written from place `at` on, and the answer is the place after them; nothing where they do not fit.
pub fn put_key(out: &mut [u8], at: usize, key: Key) -> usize
    ensures { Put out.old at (key_bytes key) out.new result }
{
    let mut bytes = [0u8; 16];
    fill(&mut bytes, key);
    let e = fields::end_of(&bytes, 0, 0);
    writing::put_bytes(out, at, &bytes[..e])
}

// Cells that are ordinary decimals, or 16 hex digits. Every public function is total.
#![tactic(auto)]

ghost use Rattle.std.specs.Prelude.{◌≡◌, ◌+◌, ◌-◌, ◌*◌, ◌^◌, ◌≤◌, ◌<◌, length};
ghost use Rattle.decimals.specs.Decimal.{over_tens, signed_by, decimal_read, cell_read};
ghost use Rattle.decimals.specs.Inner.{fraction_read, bare_read};
ghost use Rattle.fields.specs.Inner.{spelled_after};
ghost use Rattle.decimals.specs.Decimal.{signed as signed_of, bare as bare_of, shaped as shaped_of};

// Whether the first byte is a minus.
#[tactic(auto, using(crate::proofs::Reading::signed_front, crate::proofs::Reading::signed_other, crate::proofs::Reading::signed_none))]
fn signed(w: &[u8]) -> bool
    ensures { result ≡ signed_of w.now }
{
    matches!(w, [b'-', ..])
}

// What stands after the minus, or all of it.
#[tactic(auto, using(crate::proofs::Reading::bare_front, crate::proofs::Reading::bare_other, crate::proofs::Reading::bare_empty))]
fn bare(w: &[u8]) -> &[u8]
    ensures { result.now ≡ bare_of w.now }
{
    match w {
        [b'-', size @ ..] => size,
        _ => w,
    }
}

// Whether so many points, bytes before and bytes after are a decimal's.
#[tactic(auto, unfolding(crate::specs::Decimal::shaped))]
fn shaped(points: usize, before: usize, after: usize) -> bool
    ensures { result ≡ shaped_of points before after }
{
    points <= 1 && 1 <= before && points <= after && before <= 15 && after <= 15 - before
}

// The number that digits spell after digits worth n, each looked at as it is added. (What `fields` has for its own numbers is private: no
// public function has a `requires`.)
fn digits(w: &[u8], n: usize) -> Option<usize>
    requires { (n + 1) * 10 ^ length w.now ≤ 2 ^ 64 }
    ensures { result ≡ spelled_after 10 n w.now }
{
    let mut m = n;
    for b in w {
        let v = fields::digit(*b);
        if 10 <= v {
            return None;
        }
        m = m * 10 + v;
    }
    Some(m)
}

// n / 10^k: both are doubles, so that only the division rounds.
#[tactic(auto, unfolding(crate::specs::Decimal::over_tens, arithmetic::specs::Arithmetic::count_of))]
fn over_tens(n: usize, k: usize) -> f64
    requires { k ≤ 15 }
    ensures { result ≡ over_tens n k }
{
    arithmetic::count(n) / arithmetic::count(10_usize.pow(k as u32))
}

// x with the minus, if there is one.
#[tactic(auto, unfolding(crate::specs::Decimal::signed_by))]
fn signed_by(minus: bool, x: f64) -> f64
    ensures { result ≡ signed_by minus x }
{
    if minus { -x } else { x }
}

// The digits after the point, after those before it, which are worth n.
#[tactic(auto, using(crate::proofs::Reading::room_for, crate::proofs::Reading::fraction_none, crate::proofs::Reading::fraction_some))]
fn fraction(w: &[u8], n: usize) -> Option<f64>
    requires w_len_bound { length w.now ≤ 15 }
    requires n_bound { n < 10 ^ (15 - length w.now) }
    ensures { result ≡ fraction_read n w.now }
{
    let m = digits(w, n)?;
    Some(over_tens(m, w.len()))
}

// A decimal without its minus.
fn read_bare(w: &[u8]) -> Option<f64>
    ensures { result ≡ bare_read w.now }
{
    let front = fields::piece(w, b'.', 0);
    let back = fields::piece(w, b'.', 1);
    if !shaped(fields::count(w, b'.'), front.len(), back.len()) {
        return None;
    }
    let n = digits(front, 0)?;
    fraction(back, n)
}

// A decimal: the double nearest to it.
#[tactic(auto, using(crate::proofs::Reading::decimal_none, crate::proofs::Reading::decimal_some))]
pub fn read_decimal(w: &[u8]) -> Option<f64>
    ensures { result ≡ decimal_read w.now }
{
    let size = read_bare(bare(w))?;
    Some(signed_by(signed(w), size))
}

// A cell in either form: 16 lower-case hex digits, or a decimal.
#[tactic(auto, using(crate::proofs::Reading::cell_other, crate::proofs::Reading::cell_bits))]
pub fn read_cell(w: &[u8]) -> Option<f64>
    ensures { result ≡ cell_read w.now }
{
    fields::read_bits(w).or_else(|| read_decimal(w))
}

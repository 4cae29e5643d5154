// Doubles in ascending order, −0 before +0 and every NaN last, and the entry that stands at a part of such a list.
#![tactic(auto)]

ghost use Rattle.std.specs.Prelude.{◌≡◌, ◌+◌, ◌*◌, ◌/◌, ◌^◌, ◌<◌, ◌≤◌, false, [], ◌∷◌, ◌++◌, length, take, drop};
ghost use Rattle.std.specs.Float.Ieee.Exact.{HasValue};
ghost use Rattle.ordering.specs.Order.{before, insert, sorted};
ghost use Rattle.ordering.specs.Inner.{leads, interleaved, Part, Short};
ghost use Rattle.refusal.specs.Table.{first};
ghost use Rattle.ordering.specs.Nearest.{whole_of, place, quantile, no_part, part_table, quantile_answer, quantile_laid, sort_outcome, sort_laid};

use refusal::Refusal;

// The rows of a portfolio's series, and its start.
const MOST_ENTRIES: usize = 4097;

// Under so many, an insertion each is as quick as a merge.
const FEW: usize = 8;

// Of equal numbers, the two zeros are told apart.
fn comes_before(x: f64, y: f64) -> bool
    ensures { result ≡ before x y }
{
    if x < y {
        return true;
    }
    if x == y {
        return x.is_sign_negative() && !y.is_sign_negative();
    }
    !x.is_nan() && y.is_nan()
}

// x goes through the list: at each place the earlier stays and the later goes on. The last one is the answer.
fn pass(xs: &mut [f64], x: f64) -> f64
    ensures { xs.new ++ (result ∷ []) ≡ insert x xs.old }
{
    let mut hold = x;
    for y in xs.iter_mut() {
        let here = *y;
        if comes_before(hold, here) {
            *y = hold;
            hold = here;
        }
    }
    hold
}

// Entry by entry: quick for a few.
fn insert_each(xs: &mut [f64])
    ensures { xs.new ≡ sorted xs.old }
{
    for i in 0..xs.len() {
        let x = xs[i];
        xs[i] = pass(&mut xs[..i], x);
    }
}

// Whether the entry at j, if there is one, stands before x.
fn is_next(xs: &[f64], j: usize, x: f64) -> bool
    requires { j ≤ length xs.now }
    ensures { result ≡ leads (drop j xs.now) x }
{
    j < xs.len() && comes_before(xs[j], x)
}

// The room's entries and those of xs past as many become one list in xs, the next of the two at each place. Of equals the room's is first.
// The place written is never past the next entry of xs, and what is left of xs stands where it belongs.
fn weave(xs: &mut [f64], room: &[f64])
    requires { length room.now ≤ length xs.old }
    ensures { xs.new ≡ interleaved room.now (drop (length room.now) xs.old) }
{
    let mut i = 0;
    let mut j = room.len();
    let mut k = 0;
    while i < room.len() {
        let x = room[i];
        if is_next(&xs[..], j, x) {
            xs[k] = xs[j];
            j += 1;
        } else {
            xs[k] = x;
            i += 1;
        }
        k += 1;
    }
}

// The two parts of xs, which meet at mid, become one list.
fn merge(xs: &mut [f64], mid: usize, room: &mut [f64])
    requires { (mid ≤ length xs.old) × (mid ≤ length room.old) }
    ensures { xs.new ≡ interleaved (take mid xs.old) (drop mid xs.old) }
{
    lent::copy(&xs[..mid], &mut room[..mid]);
    weave(xs, &room[..mid]);
}

// The two halves are put in order, then merged.
fn sort_in(xs: &mut [f64], room: &mut [f64])
    requires { length xs.old / 2 ≤ length room.old }
    ensures { xs.new ≡ sorted xs.old }
{
    let n = xs.len();
    if n < FEW {
        insert_each(xs);
        return;
    }
    let mid = n / 2;
    sort_in(&mut xs[..mid], room);
    sort_in(&mut xs[mid..], room);
    merge(xs, mid, room);
}

// Every NaN of an ordered list stands last: each is stored as an answer that is NaN is.
fn settle_last(xs: &mut [f64])
    ensures { xs.new ≡ xs.old }
{
    for k in (0..xs.len()).rev() {
        let x = xs[k];
        if !x.is_nan() {
            return;
        }
        xs[k] = arithmetic::settled(x);
    }
}

// The first half of the longest list has 2,048 entries.
fn put_in_order(xs: &mut [f64])
    requires { length xs.old ≤ 4097 }
    ensures { xs.new ≡ sorted xs.old }
{
    let mut room = [0.0; 2048];
    sort_in(xs, &mut room);
    settle_last(xs);
}

// Puts a list in order. The list is lent to be written over: what it held is not kept.
pub fn sort(xs: &mut [f64]) -> Result<(), Refusal>
    ensures value { result ≡ sort_outcome xs.old }
    ensures xs_after { xs.new ≡ sort_laid xs.old }
{
    if MOST_ENTRIES < xs.len() {
        lent::clear(xs);
        return Err(Refusal::OverLimit);
    }
    put_in_order(xs);
    Ok(())
}

// t and a half, exactly.
fn half_past(t: u64) -> f64
    requires { t < 2 ^ 52 }
    ensures { HasValue result false (2 * t + 1) 2 }
{
    (2 * t + 1) as f64 / 2.0
}

// The nearest whole number, halves to even.
fn nearest_whole(x: f64) -> u64
    requires { Short x }
    ensures { result ≡ whole_of x }
{
    let t = std::num::truncating_f64_to_u64(x);
    let half = half_past(t);
    if x < half {
        return t;
    }
    if half < x {
        return t + 1;
    }
    t + t % 2
}

// Which entry of an ordered list of n stands at the part q.
fn place_of(q: f64, n: usize) -> usize
    requires part { Part q }
    requires n_nonzero { (0 < n) × (n ≤ 4097) }
    ensures { (result ≡ place q n) × (result < n) }
{
    nearest_whole(q * ((n - 1) as f64)) as usize
}

// The entry of xs that stands at the part q once xs is in order. xs is put in order.
fn quantile_in(xs: &mut [f64], q: f64) -> f64
    requires part { Part q }
    requires xs_len_bound { length xs.old ≤ 4097 }
    ensures value { result ≡ quantile q xs.old }
    ensures xs_after { xs.new ≡ sorted xs.old }
{
    let n = xs.len();
    put_in_order(xs);
    if n == 0 {
        return 0.0;
    }
    let k = place_of(q, n);
    xs[k]
}

// A NaN, or a number outside 0 to 1.
#[tactic(auto, unfolding(crate::specs::Nearest::no_part))]
pub fn is_no_part(q: f64) -> bool
    ensures { result ≡ no_part q }
{
    !(0.0 <= q && q <= 1.0)
}

// Too long a list, then a part that isn't one.
#[tactic(auto, unfolding(crate::specs::Nearest::part_table, refusal::specs::Table::first, refusal::specs::Table::or_else))]
fn judge(n: usize, q: f64) -> Result<(), Refusal>
    ensures { result ≡ first (part_table n q) }
{
    refusal::refuse(MOST_ENTRIES < n, Refusal::OverLimit)?;
    refusal::refuse(is_no_part(q), Refusal::ConfidenceOutOfRange)
}

// The entry that stands at the part q of a list once it is in order. The list is lent to be written over: it is left in order.
pub fn quantile(xs: &mut [f64], q: f64) -> Result<f64, Refusal>
    ensures value { result ≡ quantile_answer xs.old q }
    ensures xs_after { xs.new ≡ quantile_laid xs.old q }
{
    if let Err(r) = judge(xs.len(), q) {
        lent::clear(xs);
        return Err(r);
    }
    Ok(arithmetic::settled(quantile_in(xs, q)))
}

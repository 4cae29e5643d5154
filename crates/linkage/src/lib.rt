// The merge step: from a matrix of distances to merge rows.
#![tactic(auto)]

ghost use Rattle.std.specs.Prelude.{List, [], ◌∷◌, ◌++◌, ◌≡◌, Bool, true, cond, ◌+◌, ◌-◌, ◌*◌, ◌<◌, ◌≤◌, length, take, drop, get_or, Float};
ghost use Rattle.std.specs.Float.{nan};
ghost use Rattle.refusal.specs.Table.{first};
ghost use Rattle.lent.specs.Grid.{over, zeros};
ghost use Rattle.lent.specs.Range.{range};
ghost use Rattle.pairing.specs.Inner.{Far};
ghost use Rattle.slots.specs.Inner.{packed, Below, Rising};
ghost use Rattle.triangle.specs.Triangle.{met, place_of, mirrored};
ghost use Rattle.triangle.specs.Inner.{room_of, held_at, write_of, Lined, Holds};
ghost use Rattle.linkage.specs.Names.{distance_named, linkage_named};
ghost use Rattle.linkage.specs.Merge.{ward_f, update_f, step, copied, merge_rows};
ghost use Rattle.linkage.specs.Pairs.{pairs_visited};
ghost use Rattle.linkage.specs.Inner.{state, numbered, meet, meet_all, drawn, drawn_at, Merges, OnRow, FarTo, Stands, tried_of};
ghost use Rattle.linkage.specs.Children.{children_table, children_answer, children_rows};

use pairing::{Best, Slot};
use refusal::Refusal;
use tree::{Asset, Node};
use triangle::Form;

#[derive(Clone, Copy)]
pub enum Distance {
    Correlation,
    DistanceOfDistances,
}

#[derive(Clone, Copy)]
pub enum Linkage {
    Single,
    Complete,
    Average,
    Ward,
}

// The merge rows made, and the pairs of slots looked at for them.
#[derive(Clone, Copy)]
pub struct Merged {
    pub rows: usize,
    pub pairs: usize,
}

// The best of the pairs looked at, and how many they are.
#[derive(Clone, Copy)]
struct Looked {
    best: Best,
    pairs: usize,
}

// The slots that are merged, the distance between them, and their sizes.
#[derive(Clone, Copy)]
struct Merging {
    x: Slot,
    y: Slot,
    dxy: f64,
    nx: f64,
    ny: f64,
}

pub fn distance_named(name: &[u8]) -> Result<Distance, Refusal>
    ensures { result ≡ distance_named name.now }
{
    if text::is_word(name, b"correlation") {
        return Ok(Distance::Correlation);
    }
    if text::is_word(name, b"distance_of_distances") {
        return Ok(Distance::DistanceOfDistances);
    }
    Err(Refusal::UnknownDistance)
}

pub fn linkage_named(name: &[u8]) -> Result<Linkage, Refusal>
    ensures { result ≡ linkage_named name.now }
{
    if text::is_word(name, b"single") {
        return Ok(Linkage::Single);
    }
    if text::is_word(name, b"complete") {
        return Ok(Linkage::Complete);
    }
    if text::is_word(name, b"average") {
        return Ok(Linkage::Average);
    }
    if text::is_word(name, b"ward") {
        return Ok(Linkage::Ward);
    }
    Err(Refusal::UnknownLinkage)
}

// Ward's distance, t being one over the three sizes' sum.
fn ward(d_xi: f64, d_yi: f64, d_xy: f64, n_x: f64, n_y: f64, n_i: f64, t: f64) -> f64
    ensures { result ≡ ward_f d_xi d_yi d_xy n_x n_y n_i t }
{
    arithmetic::sqrt(arithmetic::max(
        (n_i + n_x) * t * d_xi * d_xi + (n_i + n_y) * t * d_yi * d_yi - n_i * t * d_xy * d_xy,
        0.0,
    ))
}

impl Linkage {
    // The distance from the union of clusters x and y to a cluster i.
    pub fn update(self, d_xi: f64, d_yi: f64, d_xy: f64, n_x: f64, n_y: f64, n_i: f64) -> f64
        ensures { result ≡ update_f self d_xi d_yi d_xy n_x n_y n_i }
    {
        match self {
            Self::Single => arithmetic::min(d_xi, d_yi),
            Self::Complete => arithmetic::max(d_xi, d_yi),
            Self::Average => arithmetic::settled((n_x * d_xi + n_y * d_yi) / (n_x + n_y)),
            Self::Ward => ward(d_xi, d_yi, d_xy, n_x, n_y, n_i, 1.0 / (n_x + n_y + n_i)),
        }
    }
}

// How many rows n assets have.
fn merges(n: usize) -> usize
    ensures { result ≡ n - 1 }
{
    n.saturating_sub(1)
}

// Where the distance between slots r and c stands: the one accessor that knows the form.
fn place(form: Form, shifts: &[usize; 64], n: usize, r: usize, c: usize) -> usize
    requires { (n ≤ 64) × (r < n) × (c < n) × (r ≡ c → ⊥) × Lined form n shifts.now }
    ensures { result ≡ place_of form n r c }
{
    match form {
        Form::Square => r * n + c,
        Form::Triangle => {
            if r < c {
                shifts[r] + (c - 1)
            } else {
                shifts[c] + (r - 1)
            }
        }
    }
}

fn at(form: Form, shifts: &[usize; 64], d: &[f64], n: usize, r: usize, c: usize) -> f64
    requires { (n ≤ 64) × (r < n) × (c < n) × (r ≡ c → ⊥) × Lined form n shifts.now × (room_of form n ≤ length d.now) }
    ensures { result ≡ held_at form n d.now r c }
{
    let k = place(form, shifts, n, r, c);
    d[k]
}

// The distance to slot b in a row cut off at its shift.
fn right(row: &[f64], b: usize) -> f64
    requires { (0 < b) × (b - 1 < length row.now) }
    ensures { result ≡ get_or row.now (b - 1) nan }
{
    row[b - 1]
}

// The slot at place j is too far off to replace a best at this distance.
fn is_far_at(row: &[f64], slots: &[usize; 64], j: usize, limit: f64) -> bool
    requires { (j < 64) × (0 < get_or slots.now j 0) × (get_or slots.now j 0 - 1 < length row.now) }
    ensures { result ≡ true → Far (get_or row.now (get_or slots.now j 0 - 1) nan) limit }
{
    pairing::is_far(right(row, slots[j]), limit)
}

// The first place from `from` on whose slot is not too far off, or m. Nearly all are: this loop is the merge step's time, and takes two places at a turn.
fn next_near(row: &[f64], slots: &[usize; 64], from: usize, m: usize, limit: f64) -> usize
    requires { (m ≤ 64) × (from ≤ m) × OnRow row.now slots.now from m }
    ensures { (from ≤ result) × (result ≤ m) × FarTo row.now slots.now limit from result }
{
    let mut j = from;
    while j + 1 < m {
        if !is_far_at(row, slots, j, limit) {
            return j;
        }
        if !is_far_at(row, slots, j + 1, limit) {
            return j + 1;
        }
        j += 2;
    }
    if j < m {
        if !is_far_at(row, slots, j, limit) {
            return j;
        }
    }
    m
}

// The pairs of the slot at place i with those at places `from` to m - 1.
fn scan_row(
    form: Form,
    shifts: &[usize; 64],
    n: usize,
    d: &[f64],
    ids: &[usize; 64],
    slots: &[usize; 64],
    m: usize,
    i: usize,
    from: usize,
    first: Best,
) -> Looked
    requires { (n ≤ 64) × (m ≤ 64) × (i < from) × (i < m) × (from ≤ m) × Below n m slots.now × Rising m slots.now × Lined form n shifts.now
        × (room_of form n ≤ length d.now) × (first.found ≡ true) }
    ensures { (result.best ≡ range (meet (held_at form n d.now) ids.now slots.now (get_or slots.now i 0)) from m first)
        × (result.pairs + from ≡ m) }
{
    let a = slots[i];
    let p = Node(ids[a]);
    let shift = shifts[a];
    let row = &d[shift..]; // cut off once, so that a pair costs no addition
    let mut best = first;
    let mut j = next_near(row, slots, from, m, best.dist);
    while j < m {
        let b = slots[j];
        best = pairing::offered(Slot(a), Slot(b), right(row, b), p, Node(ids[b]), best);
        j = next_near(row, slots, j + 1, m, best.dist);
    }
    Looked {
        best,
        pairs: m - from,
    }
}

// The pairs of the slots at m places, in order. The first is taken before the rows, so that no row asks whether there is a best.
fn scan_all(
    form: Form,
    shifts: &[usize; 64],
    n: usize,
    d: &[f64],
    ids: &[usize; 64],
    slots: &[usize; 64],
    m: usize,
) -> Looked
    requires { (n ≤ 64) × (2 ≤ m) × (m ≤ 64) × Below n m slots.now × Rising m slots.now × Lined form n shifts.now
        × (room_of form n ≤ length d.now) }
    ensures { (result.best ≡ meet_all (held_at form n d.now) ids.now slots.now m) × (result.pairs ≡ met m m) }
{
    let a = slots[0];
    let b = slots[1];
    let mut best = pairing::paired(
        Slot(a),
        Slot(b),
        at(form, shifts, d, n, a, b),
        Node(ids[a]),
        Node(ids[b]),
    );
    let mut pairs = 1;
    let mut from = 2;
    for i in 0..m {
        let row = scan_row(form, shifts, n, d, ids, slots, m, i, from, best);
        best = row.best;
        pairs += row.pairs;
        from = i + 2;
    }
    Looked { best, pairs }
}

// The distance between slots x and i, whose place is k: there, and in the square form across the diagonal too.
fn put_both(form: Form, d: &mut [f64], n: usize, k: usize, x: usize, i: usize, v: f64)
    requires { (n ≤ 64) × (x < n) × (i < n) × (x ≡ i → ⊥) × (k ≡ place_of form n x i) × (room_of form n ≤ length d.old) }
    ensures { d.new ≡ write_of form n x i v d.old }
{
    d[k] = v;
    if let Form::Square = form {
        d[i * n + x] = v;
    }
}

fn move_one(
    method: Linkage,
    form: Form,
    shifts: &[usize; 64],
    n: usize,
    d: &mut [f64],
    sizes: &[f64; 64],
    pair: Merging,
    other: Slot,
)
    requires { (n ≤ 64) × (other.0 < n) × Lined form n shifts.now × (room_of form n ≤ length d.old) × Merges n sizes.now pair }
    ensures { d.new ≡ drawn method form n sizes.now pair.x.0 pair.y.0 pair.dxy other.0 d.old }
{
    let p = pair.x.0;
    let q = pair.y.0;
    let i = other.0;
    if i != p && i != q {
        let k = place(form, shifts, n, p, i);
        let v = method.update(
            d[k],
            at(form, shifts, d, n, q, i),
            pair.dxy,
            pair.nx,
            pair.ny,
            sizes[i],
        );
        put_both(form, d, n, k, p, i, v);
    }
}

fn move_all(
    method: Linkage,
    form: Form,
    shifts: &[usize; 64],
    n: usize,
    d: &mut [f64],
    sizes: &[f64; 64],
    slots: &[usize; 64],
    m: usize,
    pair: Merging,
)
    requires { (n ≤ 64) × (m ≤ 64) × Below n m slots.now × Lined form n shifts.now × (room_of form n ≤ length d.old) × Merges n sizes.now pair }
    ensures { d.new ≡ range (drawn_at method form n sizes.now slots.now pair.x.0 pair.y.0 pair.dxy) 0 m d.old }
{
    for j in 0..m {
        move_one(method, form, shifts, n, d, sizes, pair, Slot(slots[j]));
    }
}

// The entries before row k stay, and those after it.
fn put_row(rows: &mut [usize], k: usize, lo: Node, hi: Node)
    requires { 2 * k + 1 < length rows.old }
    ensures { (take (2 * (k + 1)) rows.new ≡ take (2 * k) rows.old ++ (lo.0 ∷ hi.0 ∷ []))
        × (drop (2 * (k + 1)) rows.new ≡ drop (2 * (k + 1)) rows.old) }
{
    rows[2 * k] = lo.0;
    rows[2 * k + 1] = hi.0;
}

// Row k: the best pair of the slots at m places is merged. Rows 0 to k - 1 stand in the first 2k entries. The answer is the pairs looked at.
fn step_once(
    method: Linkage,
    form: Form,
    shifts: &[usize; 64],
    n: usize,
    k: usize,
    m: usize,
    d: &mut [f64],
    ids: &mut [usize; 64],
    slots: &mut [usize; 64],
    sizes: &mut [f64; 64],
    rows: &mut [usize],
) -> usize
    requires { (n ≤ 64) × (k < n) × (2 ≤ m) × (m ≤ 64) × Below n m slots.old × Rising m slots.old × (length slots.old ≡ 64)
        × (2 * k + 1 < length rows.old) × Lined form n shifts.now × (room_of form n ≤ length d.old) }
    ensures { ((cells : List Float) (live : List Bool) → Holds form n d.old cells → n ≤ length live → take m slots.old ≡ packed n live
        → Stands form n (step method n k (state cells ids.old live sizes.old (take (2 * k) rows.old)))
        d.new ids.new (take (m - 1) slots.new) sizes.new (take (2 * (k + 1)) rows.new))
        × (drop (2 * (k + 1)) rows.new ≡ drop (2 * (k + 1)) rows.old)
        × (length slots.new ≡ 64)
        × (result ≡ met m m) }
{
    let looked = scan_all(form, shifts, n, d, ids, slots, m);
    let best = looked.best;
    let x = best.a;
    let y = best.b;
    let p = x.0;
    let q = y.0;
    let pair = Merging {
        x,
        y,
        dxy: best.dist,
        nx: sizes[p],
        ny: sizes[q],
    };
    move_all(method, form, shifts, n, d, sizes, slots, m, pair);
    let merged = Node(n + k);
    ids[p] = merged.0;
    sizes[p] = pair.nx + pair.ny;
    slots::close_gap(slots, m, q);
    put_row(rows, k, best.low, best.high);
    looked.pairs
}

// The caller's cells, copied to the front.
fn fill(xs: &[f64], d: &mut [f64; 4096], m: usize)
    requires { (m ≤ 4096) × (m ≤ length xs.now) }
    ensures { d.new ≡ range (copied xs.now) 0 m d.old }
{
    d[..m].copy_from_slice(&xs[..m]);
}

// An asset's own node has the asset's number.
fn leaf(asset: Asset) -> Node
    ensures { result.0 ≡ asset.0 }
{
    Node(asset.0)
}

// Slot k begins with asset k, of n.
fn number(ids: &mut [usize; 64], n: usize)
    requires { n ≤ 64 }
    ensures { ids.new ≡ range numbered 0 n ids.old }
{
    for k in 0..n {
        let id = leaf(Asset(k));
        ids[k] = id.0;
    }
}

// The n - 1 steps, from distances that are held already. The answer is the pairs looked at.
fn steps(
    method: Linkage,
    form: Form,
    n: usize,
    xs: &[f64],
    d: &mut [f64],
    rows: &mut [usize],
) -> usize
    requires { (n ≤ 64) × Holds form n d.old (range (copied xs.now) 0 (n * n) (zeros 4096)) × (2 * (n - 1) ≤ length rows.old) }
    ensures { (take (2 * (n - 1)) rows.new ≡ merge_rows method n xs.now)
        × (drop (2 * (n - 1)) rows.new ≡ drop (2 * (n - 1)) rows.old)
        × (result ≡ pairs_visited method n xs.now) }
{
    let mut ids = [0usize; 64];
    let mut slots = [0usize; 64];
    let mut shifts = [0usize; 64];
    let mut sizes = [1.0; 64];
    number(&mut ids, n);
    number(&mut slots, n);
    triangle::shifts(form, n, &mut shifts);
    let mut pairs = 0;
    for k in 0..merges(n) {
        pairs += step_once(
            method,
            form,
            &shifts,
            n,
            k,
            n - k,
            d,
            &mut ids,
            &mut slots,
            &mut sizes,
            rows,
        );
    }
    pairs
}

// The rows from every cell, in a working matrix of 4,096.
fn in_square(method: Linkage, n: usize, xs: &[f64], rows: &mut [usize]) -> usize
    requires { (n ≤ 64) × (length xs.now ≡ n * n) × (2 * (n - 1) ≤ length rows.old) }
    ensures { (rows.new ≡ over (merge_rows method n xs.now) rows.old) × (result ≡ pairs_visited method n xs.now) }
{
    let mut d = [0.0; 4096];
    fill(xs, &mut d, n * n);
    steps(method, Form::Square, n, xs, &mut d, rows)
}

// The same rows from the cells above the diagonal, copied to the front of d, where each is its mirror.
fn from_above(
    method: Linkage,
    n: usize,
    xs: &[f64],
    d: &mut [f64],
    rows: &mut [usize],
) -> Option<usize>
    requires { (n ≤ 64) × (length xs.now ≡ n * n) × (2 * (n - 1) ≤ length rows.old) × (met n n ≤ length d.old) }
    ensures { (result ≡ tried_of (mirrored n xs.now) (pairs_visited method n xs.now))
        × (rows.new ≡ cond (mirrored n xs.now) (over (merge_rows method n xs.now) rows.old) rows.old) }
{
    if !triangle::above(xs, n, d) {
        return None;
    }
    let pairs = steps(method, Form::Triangle, n, xs, d, rows);
    Some(pairs)
}

// In N places: clearing more than is used takes its time.
fn in_room<const N: usize>(
    method: Linkage,
    n: usize,
    xs: &[f64],
    rows: &mut [usize],
) -> Option<usize>
    requires { (n ≤ 64) × (length xs.now ≡ n * n) × (2 * (n - 1) ≤ length rows.old) × (met n n ≤ N) × (N ≤ 4096) }
    ensures { (result ≡ tried_of (mirrored n xs.now) (pairs_visited method n xs.now))
        × (rows.new ≡ cond (mirrored n xs.now) (over (merge_rows method n xs.now) rows.old) rows.old) }
{
    let mut d = [0.0; N];
    from_above(method, n, xs, &mut d, rows)
}

// 496 places are enough for 32 assets, and 2,016 for 64. Each array has a call of its own: so they lie over each other.
fn in_triangle(method: Linkage, n: usize, xs: &[f64], rows: &mut [usize]) -> Option<usize>
    requires { (n ≤ 64) × (length xs.now ≡ n * n) × (2 * (n - 1) ≤ length rows.old) }
    ensures { (result ≡ tried_of (mirrored n xs.now) (pairs_visited method n xs.now))
        × (rows.new ≡ cond (mirrored n xs.now) (over (merge_rows method n xs.now) rows.old) rows.old) }
{
    if n <= 32 {
        in_room::<496>(method, n, xs, rows)
    } else {
        in_room::<2016>(method, n, xs, rows)
    }
}

// The merge rows of n assets over the front of rows. The answer is the pairs looked at.
#[tactic(auto, using(crate::proofs::Forms::tried_lopsided))]
fn merge_rows(method: Linkage, n: usize, xs: &[f64], rows: &mut [usize]) -> usize
    requires { (n ≤ 64) × (length xs.now ≡ n * n) × (2 * (n - 1) ≤ length rows.old) }
    ensures { (rows.new ≡ over (merge_rows method n xs.now) rows.old) × (result ≡ pairs_visited method n xs.now) }
{
    if let Some(pairs) = in_triangle(method, n, xs, rows) {
        return pairs;
    }
    in_square(method, n, xs, rows)
}

#[tactic(auto, unfolding(crate::specs::Children::children_table, lent::specs::Lent::sizes, refusal::specs::Table::first, refusal::specs::Table::or_else))]
fn judge(len: usize, rows: usize, columns: usize, room: usize) -> Result<(), Refusal>
    ensures { result ≡ first (children_table len rows columns room) }
{
    lent::sized(len, rows, columns)?;
    refusal::refuse(lent::lacks_rows(room, columns), Refusal::ShortBuffer)?;
    refusal::refuse(rows != columns, Refusal::DimensionMismatch)
}

// Row k holds the ids of the two nodes that are merged into node n + k, the smaller first. The answer is the rows made and the pairs looked at.
#[tactic(auto, using(crate::proofs::Judged::children_done, lent::proofs::Sizes::laid_done), unfolding(crate::specs::Children::joined_of, crate::specs::Children::children_answer, crate::specs::Children::children_rows, crate::specs::Children::children_outcome, lent::specs::Lent::laid))]
pub fn linkage_children(
    distance: &[f64],
    rows: usize,
    columns: usize,
    method: Linkage,
    out: &mut [usize],
) -> Result<Merged, Refusal>
    ensures value { result ≡ children_answer method distance.now rows columns (length out.old) }
    ensures out_after { out.new ≡ children_rows method distance.now rows columns (length out.old) }
{
    let said = judge(distance.len(), rows, columns, out.len());
    lent::clear(out);
    said?;
    let pairs = merge_rows(method, columns, distance, out);
    Ok(Merged {
        rows: merges(columns),
        pairs,
    })
}

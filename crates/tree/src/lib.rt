// Merge rows as a tree, its leaf order, and a matrix put in a leaf order. Rows are a flat slice: row k is the entries 2k and 2k + 1.
#![tactic(auto)]

ghost use Rattle.std.specs.Prelude.{◌≡◌, [], ◌∷◌, ◌+◌, ◌-◌, ◌*◌, ◌≤◌, ◌<◌, ltb, eqb, length, set};
ghost use Rattle.lent.specs.Count.{count};
ghost use Rattle.lent.specs.Grid.{cell, grid, over};
ghost use Rattle.tree.specs.Rows.{below, once, is_tree, is_order};
ghost use Rattle.tree.specs.Order.{order_outcome, order_answer, order_laid, seriated_cell, seriate_outcome, seriate_answer, seriated};
ghost use Rattle.tree.specs.Inner.{Tallied, Ready, Written, Seriable};

use lent::Size;
use refusal::Refusal;

// A node's id: an asset's number below n, and n + k for row k.
#[derive(Clone, Copy)]
pub struct Node(pub usize);

// An asset's number.
#[derive(Clone, Copy)]
pub struct Asset(pub usize);

// How often x stands in the list.
fn occurs(list: &[usize], x: usize) -> usize
    ensures { result ≡ count x list.now }
{
    let mut c = 0;
    for &y in list {
        if y == x {
            c += 1;
        }
    }
    c
}

// How often each number below 128 stands in the list, in one pass.
fn tally(list: &[usize]) -> [usize; 128]
    ensures { Tallied list.now result }
{
    let mut t = [0usize; 128];
    for &x in list {
        if x < 128 {
            t[x] += 1;
        }
    }
    t
}

// As many numbers as a tree of 64 assets has ids are looked up in their tally.
fn each_tallied_once(list: &[usize], m: usize) -> bool
    requires { m ≤ 128 }
    ensures { result ≡ once list.now m }
{
    let t = tally(list);
    t[..m].iter().all(|seen| *seen == 1)
}

// Of more numbers, each is looked for, the largest first.
fn each_found_once(list: &[usize], m: usize) -> bool
    ensures { result ≡ once list.now m }
{
    for k in (0..m).rev() {
        if occurs(list, k) != 1 {
            return false;
        }
    }
    true
}

// Each number below m stands in the list once.
fn each_once(list: &[usize], m: usize) -> bool
    ensures { result ≡ once list.now m }
{
    if m <= 128 {
        return each_tallied_once(list, m);
    }
    each_found_once(list, m)
}

// There are n − 1 rows. By a division: the product could overflow.
fn has_rows(len: usize, n: usize) -> bool
    ensures { result ≡ eqb len (2 * (n - 1)) }
{
    len % 2 == 0 && len / 2 == n.saturating_sub(1)
}

// Each row names only ids below its own node's, which fits since the length does.
fn each_below(rows: &[usize], n: usize) -> bool
    requires { length rows.now ≡ 2 * (n - 1) }
    ensures { result ≡ below n 0 rows.now }
{
    for (i, id) in rows.iter().enumerate() {
        if *id >= n + i / 2 {
            return false;
        }
    }
    true
}

#[tactic(auto, using(crate::proofs::Rows::tree_once), unfolding(crate::specs::Rows::is_tree))]
pub fn is_tree(rows: &[usize], n: usize) -> bool
    ensures { result ≡ is_tree rows.now n }
{
    has_rows(rows.len(), n) && each_below(rows, n) && each_once(rows, rows.len())
}

#[tactic(auto, unfolding(crate::specs::Rows::is_order))]
pub fn is_order(order: &[usize], n: usize) -> bool
    ensures { result ≡ is_order order.now n }
{
    order.len() == n && each_once(order, n)
}

// Writes a leaf to the front of out.
fn give(asset: Asset, out: &mut [usize])
    requires { 0 < length out.old }
    ensures { out.new ≡ over (asset.0 ∷ []) out.old }
{
    out[0] = asset.0;
}

// Writes the leaves below a node to the front of out, and says how many there are.
fn leaves(rows: &[usize], n: usize, node: Node, out: &mut [usize]) -> usize
    requires { Ready rows.now n node.0 out.old }
    ensures { Written rows.now n node.0 out.old out.new result }
{
    let at = node.0;
    if at < n {
        give(Asset(at), out);
        return 1;
    }
    let k = at - n;
    let left = rows[2 * k];
    let right = rows[2 * k + 1];
    let l = leaves(rows, n, Node(left), out);
    let r = leaves(rows, n, Node(right), &mut out[l..]);
    l + r
}

// The node's id is above 2n − 2, or above 0 where n is 0. By its half, rounded up: 2n could overflow.
pub fn is_above(node: Node, n: usize) -> bool
    ensures { result ≡ ltb (2 * n - 2) node.0 }
{
    n.saturating_sub(1) < node.0 / 2 + node.0 % 2
}

// The refusal of a leaf order into a buffer of `room`, if there is one.
#[tactic(auto, unfolding(crate::specs::Order::order_outcome, crate::specs::Order::order_table, refusal::specs::Table::first, refusal::specs::Table::or_else))]
fn judge_order(rows: &[usize], n: usize, node: Node, room: usize) -> Result<(), Refusal>
    ensures { result ≡ order_outcome rows.now n node.0 room }
{
    refusal::refuse(lent::MOST_ASSETS < n, Refusal::OverLimit)?;
    refusal::refuse(room < n, Refusal::ShortBuffer)?;
    refusal::refuse(n == 0, Refusal::NoData)?;
    refusal::refuse(!is_tree(rows, n), Refusal::NoTree)?;
    refusal::refuse(is_above(node, n), Refusal::NoTree)
}

// The leaves below a node, the left child's before the right child's, with zeros after them.
#[tactic(auto, using(lent::proofs::Laws::over_replicate), unfolding(crate::specs::Order::order_answer, crate::specs::Order::order_laid, lent::specs::Lent::answer_of, lent::specs::Lent::laid))]
pub fn quasi_diagonalization(
    rows: &[usize],
    n: usize,
    node: Node,
    out: &mut [usize],
) -> Result<Size, Refusal>
    ensures value { result ≡ order_answer rows.now n node.0 (length out.old) }
    ensures out_after { out.new ≡ order_laid rows.now n node.0 (length out.old) }
{
    let said = judge_order(rows, n, node, out.len());
    lent::clear(out);
    said?;
    let columns = leaves(rows, n, node, out);
    Ok(Size { rows: 1, columns })
}

// The cell of two assets in a matrix of n.
fn at(matrix: &[f64], n: usize, a: Asset, b: Asset) -> f64
    requires { a.0 * n + b.0 < length matrix.now }
    ensures { result ≡ cell matrix.now n a.0 b.0 }
{
    matrix[a.0 * n + b.0]
}

// v is put into cell (r, c), as an answer is stored.
fn put(out: &mut [f64], n: usize, r: usize, c: usize, v: f64)
    requires { r * n + c < length out.old }
    ensures { out.new ≡ set out.old (r * n + c) v }
{
    out[r * n + c] = arithmetic::settled(v);
}

// Row i, after the rows above it.
fn seriate_row(matrix: &[f64], n: usize, order: &[usize], i: usize, out: &mut [f64])
    requires seriable { Seriable matrix.now n order.now }
    requires i_lt_n { i < n }
    requires n_in_bounds { n * n ≤ length out.old }
    requires out_value { over (grid i n (seriated_cell matrix.now n order.now)) out.old ≡ out.old }
    ensures { out.new ≡ over (grid (i + 1) n (seriated_cell matrix.now n order.now)) out.old }
{
    for j in 0..n {
        let v = at(matrix, n, Asset(order[i]), Asset(order[j]));
        put(out, n, i, j, v);
    }
}

fn seriate_rows(matrix: &[f64], n: usize, order: &[usize], out: &mut [f64])
    requires seriable { Seriable matrix.now n order.now }
    requires n_in_bounds { n * n ≤ length out.old }
    ensures { out.new ≡ over (grid n n (seriated_cell matrix.now n order.now)) out.old }
{
    for i in 0..n {
        seriate_row(matrix, n, order, i, out);
    }
}

// The refusal of a matrix to be seriated into a buffer of `room`, if there is one.
#[tactic(auto, using(refusal::proofs::Tables::first_append), unfolding(crate::specs::Order::seriate_outcome, refusal::specs::Table::and_then, refusal::specs::Table::first, refusal::specs::Table::or_else))]
fn judge_seriation(
    matrix: &[f64],
    rows: usize,
    columns: usize,
    order: &[usize],
    room: usize,
) -> Result<(), Refusal>
    ensures { result ≡ seriate_outcome matrix.now rows columns order.now room }
{
    lent::squared(matrix.len(), rows, columns, room)?;
    refusal::refuse(!is_order(order, columns), Refusal::NoTree)
}

// Cell (i, j) of the answer is the cell of the order's i-th and j-th asset.
#[tactic(auto, using(crate::proofs::Answer::seriate_done, lent::proofs::Laws::over_replicate), unfolding(crate::specs::Order::seriate_answer, crate::specs::Order::seriated, lent::specs::Lent::answer_of, lent::specs::Lent::laid))]
pub fn seriate_matrix(
    matrix: &[f64],
    rows: usize,
    columns: usize,
    order: &[usize],
    out: &mut [f64],
) -> Result<Size, Refusal>
    ensures value { result ≡ seriate_answer matrix.now rows columns order.now (length out.old) }
    ensures out_after { out.new ≡ seriated matrix.now rows columns order.now (length out.old) }
{
    let said = judge_seriation(matrix, rows, columns, order, out.len());
    lent::clear(out);
    said?;
    seriate_rows(matrix, columns, order, out);
    Ok(Size {
        rows: columns,
        columns,
    })
}

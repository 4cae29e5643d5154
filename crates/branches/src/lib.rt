// A summary of a tree: for each node its first place in the leaf order, its size and its depth; and a node's members as a part of that order.
#![tactic(auto)]

ghost use Rattle.std.specs.Prelude.{◌≡◌, ◌+◌, ◌-◌, ◌*◌, ◌≤◌, ◌<◌, length};
ghost use Rattle.lent.specs.Grid.{tab, over};
ghost use Rattle.branches.specs.Branch.{first_of, size_of, depth_of};
ghost use Rattle.branches.specs.Inner.{Rooted, Measured, Emptied};
ghost use Rattle.branches.specs.Summary.{lacks_nodes, summary_outcome, summary_laid, lacks_part, members_outcome, part_of};

use refusal::Refusal;
use tree::Node;

// An asset has size 1, and a row's node the sizes of its two children.
fn size_at(rows: &[usize], n: usize, sizes: &[usize], v: usize) -> usize
    requires measured { Measured rows.now n v sizes.now }
    requires v_bound { v < 2 * n - 1 }
    ensures { result ≡ size_of rows.now n v }
{
    if v < n {
        return 1;
    }
    let k = v - n;
    let left = rows[2 * k];
    let right = rows[2 * k + 1];
    sizes[left] + sizes[right]
}

// Upwards: each node after its children.
fn measure(rows: &[usize], n: usize, sizes: &mut [usize])
    requires rooted { Rooted rows.now n }
    requires n_in_bounds { 2 * n - 1 ≤ length sizes.old }
    ensures { sizes.new ≡ over (tab (2 * n - 1) (size_of rows.now n)) sizes.old }
{
    for v in 0..2 * n - 1 {
        sizes[v] = size_at(rows, n, sizes, v);
    }
}

// Downwards: the left child's leaves begin where the node's do, the right child's after the left child's; both have one node more above them.
fn descend(rows: &[usize], n: usize, sizes: &[usize], firsts: &mut [usize], depths: &mut [usize])
    requires measured { Measured rows.now n (2 * n - 1) sizes.now }
    requires emptied { Emptied n firsts.old }
    requires emptied_2 { Emptied n depths.old }
    ensures firsts_after { firsts.new ≡ over (tab (2 * n - 1) (first_of rows.now n)) firsts.old }
    ensures depths_after { depths.new ≡ over (tab (2 * n - 1) (depth_of rows.now n)) depths.old }
{
    for k in (0..n - 1).rev() {
        let left = rows[2 * k];
        let right = rows[2 * k + 1];
        let p = firsts[n + k];
        let q = p + sizes[left];
        let d = depths[n + k] + 1;
        firsts[left] = p;
        firsts[right] = q;
        depths[left] = d;
        depths[right] = d;
    }
}

// One of three lists has too few numbers for the nodes of n assets; n is at most 64, so that 2n fits.
fn lacks_nodes(n: usize, a: usize, b: usize, c: usize) -> bool
    requires { n ≤ 64 }
    ensures { result ≡ lacks_nodes n a b c }
{
    let nodes = (2 * n).saturating_sub(1);
    a < nodes || b < nodes || c < nodes
}

// The refusal of a summary into lists of a, b and c numbers, if there is one.
#[tactic(auto, unfolding(crate::specs::Summary::summary_outcome, crate::specs::Summary::summary_table, refusal::specs::Table::first, refusal::specs::Table::or_else))]
fn judge(rows: &[usize], n: usize, a: usize, b: usize, c: usize) -> Result<(), Refusal>
    ensures { result ≡ summary_outcome rows.now n a b c }
{
    refusal::refuse(lent::MOST_ASSETS < n, Refusal::OverLimit)?;
    refusal::refuse(lacks_nodes(n, a, b, c), Refusal::ShortBuffer)?;
    refusal::refuse(n == 0, Refusal::NoData)?;
    refusal::refuse(!tree::is_tree(rows, n), Refusal::NoTree)
}

// Each node's first place in the leaf order, its size, and its depth, with zeros after them.
pub fn summarize(
    rows: &[usize],
    n: usize,
    firsts: &mut [usize],
    sizes: &mut [usize],
    depths: &mut [usize],
) -> Result<(), Refusal>
    ensures value { result ≡ summary_outcome rows.now n (length firsts.old) (length sizes.old) (length depths.old) }
    ensures firsts_after { firsts.new ≡ summary_laid (first_of rows.now n) result n (length firsts.old) }
    ensures sizes_after { sizes.new ≡ summary_laid (size_of rows.now n) result n (length sizes.old) }
    ensures depths_after { depths.new ≡ summary_laid (depth_of rows.now n) result n (length depths.old) }
{
    let said = judge(rows, n, firsts.len(), sizes.len(), depths.len());
    lent::clear(firsts);
    lent::clear(sizes);
    lent::clear(depths);
    said?;
    measure(rows, n, sizes);
    descend(rows, n, sizes, firsts, depths);
    Ok(())
}

// The summary has no node v, or its part ends past the end of an order of `len`.
fn lacks_part(len: usize, firsts: &[usize], sizes: &[usize], v: usize) -> bool
    ensures { result ≡ lacks_part len firsts.now sizes.now v }
{
    if v >= firsts.len() || v >= sizes.len() {
        return true;
    }
    len < firsts[v] || len - firsts[v] < sizes[v]
}

// The refusal of a node's members, if there is one.
#[tactic(auto, unfolding(crate::specs::Summary::members_outcome, crate::specs::Summary::members_table, refusal::specs::Table::first, refusal::specs::Table::or_else))]
pub fn judge_members(
    order: &[usize],
    firsts: &[usize],
    sizes: &[usize],
    n: usize,
    node: Node,
) -> Result<(), Refusal>
    ensures { result ≡ members_outcome order.now firsts.now sizes.now n node.0 }
{
    refusal::refuse(lent::MOST_ASSETS < n, Refusal::OverLimit)?;
    refusal::refuse(n == 0, Refusal::NoData)?;
    refusal::refuse(tree::is_above(node, n), Refusal::NoTree)?;
    refusal::refuse(
        lacks_part(order.len(), firsts, sizes, node.0),
        Refusal::NoTree,
    )
}

// The members of a node: the part of the order that the summary says, and an empty one where `judge_members` refuses.
pub fn members<'a>(
    order: &'a [usize],
    firsts: &[usize],
    sizes: &[usize],
    n: usize,
    node: Node,
) -> &'a [usize]
    ensures { result.now ≡ part_of order.now firsts.now sizes.now n node.0 }
{
    let Ok(()) = judge_members(order, firsts, sizes, n, node) else {
        return &order[..0];
    };
    let at = node.0;
    let start = firsts[at];
    let size = sizes[at];
    let end = start + size;
    &order[start..end]
}

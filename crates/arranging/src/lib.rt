// From correlations to the tree and its leaf order, as both allocators need them.
#![tactic(auto)]

ghost use Rattle.std.specs.Prelude.{◌≡◌, ◌-◌, ◌*◌, ◌≤◌, length, Ok};
ghost use Rattle.refusal.specs.Table.{first};
ghost use Rattle.lent.specs.Grid.{zeros, noughts};
ghost use Rattle.lent.specs.Lent.{laid};
ghost use Rattle.linkage.specs.Merge.{merge_rows};
ghost use Rattle.linkage.specs.declared.Distance.TheVariants.{DistanceOfDistances};
ghost use Rattle.arranging.specs.Arranging.{tree_distances, arrange_table, Arranged};

use distances::Measure;
use linkage::{Distance, Linkage};
use refusal::Refusal;
use tree::Node;

// The tree of the distances of n by n distances, at the front of rows. They are worked out in the front of the room: the call clears all that it is lent.
fn link_between(linkage: Linkage, n: usize, d: &[f64], room: &mut [f64], rows: &mut [usize])
    requires n_bound { n ≤ 64 }
    requires d_len { length d.now ≡ n * n }
    requires n_in_bounds { n * n ≤ length room.old }
    requires n_in_bounds_2 { 2 * (n - 1) ≤ length rows.old }
    ensures { rows.new ≡ laid 0 (Ok tt) (length rows.old) (merge_rows linkage n (tree_distances DistanceOfDistances d.now n)) }
{
    let m = n * n;
    let _ = distances::distance_of_distances(d, n, n, &mut room[..m]);
    let _ = linkage::linkage_children(&room[..m], n, n, linkage, rows);
}

// The tree of n by n distances, at the front of rows. Few assets have a room of their own: the zeros of a large one would take longer than they do.
fn link(distance: Distance, linkage: Linkage, n: usize, d: &[f64], rows: &mut [usize])
    requires n_bound { n ≤ 64 }
    requires d_len { length d.now ≡ n * n }
    requires n_in_bounds { 2 * (n - 1) ≤ length rows.old }
    ensures { rows.new ≡ laid 0 (Ok tt) (length rows.old) (merge_rows linkage n (tree_distances distance d.now n)) }
{
    match distance {
        Distance::Correlation => {
            let _ = linkage::linkage_children(d, n, n, linkage, rows);
        }
        Distance::DistanceOfDistances => {
            if n <= 16 {
                let mut small = [0.0; 256];
                link_between(linkage, n, d, &mut small, rows);
            } else {
                let mut room = [0.0; 4096];
                link_between(linkage, n, d, &mut room, rows);
            }
        }
    }
}

// What the sizes of all the slices refuse.
#[tactic(auto, unfolding(crate::specs::Arranging::arrange_table, lent::specs::Lent::sizes, refusal::specs::Table::first, refusal::specs::Table::or_else))]
fn judge(
    len: usize,
    rows_in: usize,
    columns: usize,
    rows: usize,
    order: usize,
    distances: usize,
) -> Result<(), Refusal>
    ensures { result ≡ first (arrange_table len rows_in columns (record { rows = rows; order = order; distances = distances })) }
{
    lent::sized(len, rows_in, columns)?;
    refusal::refuse(lent::lacks_rows(rows, columns), Refusal::ShortBuffer)?;
    refusal::refuse(order < columns, Refusal::ShortBuffer)?;
    refusal::refuse(lent::lacks_cells(distances, columns), Refusal::ShortBuffer)?;
    refusal::refuse(rows_in != columns, Refusal::DimensionMismatch)?;
    refusal::refuse(columns == 0, Refusal::NoData)
}

fn clear_all(rows: &mut [usize], order: &mut [usize], distances: &mut [f64])
    ensures rows_after { rows.new ≡ noughts (length rows.old) }
    ensures order_after { order.new ≡ noughts (length order.old) }
    ensures distances_after { distances.new ≡ zeros (length distances.old) }
{
    lent::clear(rows);
    lent::clear(order);
    lent::clear(distances);
}

// The tree of correlations, its leaf order, and the distances, each at the front of its buffer.
#[tactic(auto, using(crate::proofs::Laws::arrangeable, lent::proofs::Laws::square_in))]
pub fn arrange(
    of: Measure,
    distance: Distance,
    linkage: Linkage,
    corr: &[f64],
    rows_in: usize,
    columns: usize,
    rows: &mut [usize],
    order: &mut [usize],
    distances: &mut [f64],
) -> Result<(), Refusal>
    ensures { Arranged of distance linkage corr.now rows_in columns
        (record { rows = length rows.old; order = length order.old; distances = length distances.old })
        result rows.new order.new distances.new }
{
    if let Err(refused) = judge(
        corr.len(),
        rows_in,
        columns,
        rows.len(),
        order.len(),
        distances.len(),
    ) {
        clear_all(rows, order, distances);
        return Err(refused);
    }
    distances::corr_to_distances(of, corr, columns, columns, distances)?;
    let m = columns * columns;
    let far = &distances[..m];
    link(distance, linkage, columns, far, rows);
    let k = 2 * (columns - 1);
    let last = 2 * columns - 2;
    tree::quasi_diagonalization(&rows[..k], columns, Node(last), order)?;
    Ok(())
}

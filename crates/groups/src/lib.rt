// The group lines of a sheet: a line per node of a tree, from the root down, left first.
#![tactic(auto)]

ghost use Rattle.std.specs.Prelude.{◌≡◌, ◌+◌, ◌-◌, ◌*◌, ◌≤◌, length};
ghost use Rattle.refusal.specs.Table.{first};
ghost use Rattle.lent.specs.Grid.{tab, over};
ghost use Rattle.ceilings.specs.Figures.{figures_in};
ghost use Rattle.branches.specs.Branch.{subtotal};
ghost use Rattle.branches.specs.Summary.{part_of};
ghost use Rattle.writing.specs.Writing.{joined, Wrote};
ghost use Rattle.listing.specs.Listing.{ListingMade, name_in};
ghost use Rattle.listing.specs.Inner.{Named};
ghost use Rattle.groups.specs.Groups.{group_fields, indent, tag_of, group_line, group_sheet, least_sheet, group_lines, group_outcome};
ghost use Rattle.groups.specs.Inner.{NodesReady, NodesWritten, Summable, Looked, line_room, Lined, line_at, Sheetable};

use refusal::Refusal;
use tree::Node;

// A node's depth, size and subtotal.
#[derive(Clone, Copy)]
pub struct Group {
    pub depth: usize,
    pub size: usize,
    pub total: usize,
}

// Writes the nodes below a node to the front of out, itself first and the left child's before the right child's; says how many there are.
fn nodes_below(rows: &[usize], n: usize, node: Node, out: &mut [usize]) -> usize
    requires { NodesReady rows.now n node.0 out.old }
    ensures { NodesWritten rows.now n node.0 out.old out.new result }
{
    let at = node.0;
    out[0] = at;
    if at < n {
        return 1;
    }
    let k = at - n;
    let left = rows[2 * k];
    let right = rows[2 * k + 1];
    let l = 1 + nodes_below(rows, n, Node(left), &mut out[1..]);
    let r = nodes_below(rows, n, Node(right), &mut out[l..]);
    l + r
}

// What some assets' parts add up to.
fn total(parts: &[usize], members: &[usize]) -> usize
    requires { Summable parts.now members.now }
    ensures { result ≡ subtotal parts.now members.now }
{
    let mut sum: usize = 0;
    for &m in members {
        sum += parts[m];
    }
    sum
}

// Each node's subtotal, by way of its members.
fn put_totals(
    order: &[usize],
    firsts: &[usize],
    sizes: &[usize],
    n: usize,
    parts: &[usize],
    out: &mut [usize],
)
    requires { Looked order.now firsts.now sizes.now n parts.now (length out.old) }
    ensures { out.new ≡ over (tab (2 * n - 1) (λ v. subtotal parts.now (part_of order.now firsts.now sizes.now n v))) out.old }
{
    for v in 0..2 * n - 1 {
        out[v] = total(parts, branches::members(order, firsts, sizes, n, Node(v)));
    }
}

// Depth, size and subtotal.
fn put_fields(out: &mut [u8], at: usize, group: Group) -> usize
    requires { at + 62 ≤ length out.old }
    ensures { Wrote out.old at (group_fields group) out.new result }
{
    let deep = writing::put_decimal(out, at, group.depth as u64);
    let tabbed = writing::put_byte(out, deep, b'\t');
    let sized = writing::put_decimal(out, tabbed, group.size as u64);
    let parted = writing::put_byte(out, sized, b'\t');
    writing::put_decimal(out, parted, group.total as u64)
}

// Two spaces for each node above.
fn put_indent(out: &mut [u8], at: usize, depth: usize) -> usize
    requires { at + 2 * depth ≤ length out.old }
    ensures { Wrote out.old at (indent depth) out.new result }
{
    let mut end = at;
    for _ in 0..depth {
        end = writing::put_bytes(out, end, b"  ");
    }
    end
}

// On an asset's line its name, after a tab.
fn put_tag(text: &[u8], starts: &[usize], v: usize, out: &mut [u8], at: usize) -> usize
    requires named { Named text.now starts.now }
    requires at_in_bounds { at + 17 ≤ length out.old }
    ensures { Wrote out.old at (tag_of (name_in text.now starts.now) (length starts.now) v) out.new result }
{
    if v >= starts.len() {
        return at;
    }
    let tabbed = writing::put_byte(out, at, b'\t');
    writing::put_bytes(out, tabbed, names::name(text, starts[v]))
}

// A node's line.
fn put_line(
    text: &[u8],
    starts: &[usize],
    v: usize,
    group: Group,
    named: bool,
    out: &mut [u8],
    at: usize,
) -> usize
    requires named { Named text.now starts.now }
    requires depth_bound { group.depth ≤ 63 }
    requires named_in_bounds { at + line_room named ≤ length out.old }
    ensures { Wrote out.old at (group_line named (name_in text.now starts.now) (length starts.now) v group) out.new result }
{
    if !named {
        let counted = put_fields(out, at, group);
        return writing::put_byte(out, counted, b'\n');
    }
    let indented = put_indent(out, at, group.depth);
    let counted = put_fields(out, indented, group);
    let tagged = put_tag(text, starts, v, out, counted);
    writing::put_byte(out, tagged, b'\n')
}

// A line for each of the nodes, from the start of the buffer on; the answer is their length.
fn put_lines(
    text: &[u8],
    starts: &[usize],
    nodes: &[usize],
    depths: &[usize],
    sizes: &[usize],
    totals: &[usize],
    named: bool,
    out: &mut [u8],
) -> usize
    requires named { Named text.now starts.now }
    requires lined { Lined nodes.now depths.now sizes.now totals.now }
    requires named_in_bounds { least_sheet named ≤ length out.old }
    ensures { Wrote out.old 0 (joined (length nodes.now) (line_at named (name_in text.now starts.now) (length starts.now) nodes.now depths.now sizes.now totals.now)) out.new result }
{
    let mut at = 0;
    for &v in nodes {
        let group = Group {
            depth: depths[v],
            size: sizes[v],
            total: totals[v],
        };
        at = put_line(text, starts, v, group, named, out, at);
    }
    at
}

// The sheet, from the start of the buffer on; the answer is its length.
fn put_sheet(
    text: &[u8],
    starts: &[usize],
    rows: &[usize],
    parts: &[usize],
    named: bool,
    out: &mut [u8],
) -> usize
    requires sheetable { Sheetable text.now starts.now rows.now parts.now }
    requires named_in_bounds { least_sheet named ≤ length out.old }
    ensures { Wrote out.old 0 (group_sheet named (name_in text.now starts.now) rows.now parts.now (length starts.now)) out.new result }
{
    let n = starts.len();
    let mut firsts = [0usize; 127];
    let mut sizes = [0usize; 127];
    let mut depths = [0usize; 127];
    let _ = branches::summarize(rows, n, &mut firsts, &mut sizes, &mut depths);
    let mut order = [0usize; 64];
    let _ = tree::quasi_diagonalization(rows, n, Node(2 * n - 2), &mut order);
    let mut totals = [0usize; 127];
    put_totals(&order, &firsts, &sizes, n, parts, &mut totals);
    let mut nodes = [0usize; 127];
    let lines = nodes_below(rows, n, Node(2 * n - 2), &mut nodes);
    put_lines(
        text,
        starts,
        &nodes[..lines],
        &depths,
        &sizes,
        &totals,
        named,
        out,
    )
}

// 8,192 bytes hold every sheet, and 32,768 every sheet with names.
#[tactic(auto, unfolding(crate::specs::Groups::least_sheet))]
pub fn least_sheet(named: bool) -> usize
    ensures { result ≡ least_sheet named }
{
    if named { 32768 } else { 8192 }
}

// 9, 11, 3, 1, 14 and 15 of a sheet.
#[tactic(auto, unfolding(crate::specs::Groups::group_lines, refusal::specs::Table::first, refusal::specs::Table::or_else))]
fn judge(
    text: &[u8],
    starts: &[usize],
    weights: usize,
    ceilings: &[usize],
    rows: &[usize],
    named: bool,
    room: usize,
) -> Result<(), Refusal>
    ensures { result ≡ first (group_lines text.now starts.now weights ceilings.now rows.now named room) }
{
    let n = starts.len();
    refusal::refuse(reading::MOST_BYTES < text.len(), Refusal::OverLimit)?;
    refusal::refuse(lent::MOST_ASSETS < n, Refusal::OverLimit)?;
    refusal::refuse(room < least_sheet(named), Refusal::ShortBuffer)?;
    refusal::refuse(weights != n, Refusal::DimensionMismatch)?;
    refusal::refuse(
        ceilings::are_unlike(ceilings, n),
        Refusal::DimensionMismatch,
    )?;
    refusal::refuse(n == 0, Refusal::NoData)?;
    refusal::refuse(!tree::is_tree(rows, n), Refusal::NoTree)?;
    refusal::refuse(!listing::all_short(text, starts), Refusal::MalformedText)
}

// The sheet of the assets whose names begin at `starts`, by their weights, their ceilings or none, and the rows of their tree, at the front of out. A refused sheet leaves zeros.
pub fn group_sheet(
    text: &[u8],
    starts: &[usize],
    weights: &[f64],
    ceilings: &[usize],
    rows: &[usize],
    named: bool,
    out: &mut [u8],
) -> Result<usize, Refusal>
    ensures { ListingMade
        (group_outcome text.now starts.now weights.now ceilings.now rows.now named (length out.old))
        (group_sheet named (name_in text.now starts.now) rows.now (figures_in weights.now ceilings.now) (length starts.now))
        (length out.old) result out.new }
{
    let mut parts = [0usize; 64];
    let parted = ceilings::figures(weights, ceilings, &mut parts);
    let judged = judge(
        text,
        starts,
        weights.len(),
        ceilings,
        rows,
        named,
        out.len(),
    );
    let said = refusal::and_then(judged, parted);
    lent::clear(out);
    said?;
    Ok(put_sheet(text, starts, rows, &parts[..starts.len()], named, out))
}

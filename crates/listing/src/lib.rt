// The listing of an answer, and the line of a refusal: bytes written into a lent buffer.
#![tactic(auto)]

ghost use Rattle.std.specs.Prelude.{◌≡◌, false, ℕ, ◌+◌, ◌*◌, ◌≤◌, ◌<◌, length, get_or};
ghost use Rattle.refusal.specs.Table.{first};
ghost use Rattle.fields.specs.Split.{all};
ghost use Rattle.writing.specs.Writing.{joined, Wrote, Fitting};
ghost use Rattle.ceilings.specs.Figures.{are_unlike};
ghost use Rattle.listing.specs.Listing.{ceiling_at, ceiling_field, holding_line, line_of, ordered, listing, refusal_line};
ghost use Rattle.listing.specs.Listing.{bytes_in, ListingMade, name_in, is_short, sheet_lines, sheet_outcome, refusal_outcome};
ghost use Rattle.listing.specs.Inner.{Named, Parted, Listable};

use refusal::Refusal;

// 8,192 bytes hold every listing.
pub const LEAST_LISTING: usize = 8192;

// How many bytes were written.
pub fn bytes(listed: Result<usize, Refusal>) -> usize
    ensures { result ≡ bytes_in listed }
{
    listed.unwrap_or(0)
}

// What an asset's record has beside its name.
#[derive(Clone, Copy)]
pub struct Holding {
    pub weight: f64,
    pub millionths: usize,
    pub ceiling: Option<usize>,
}

// A tab and a ceiling, where there is one.
fn put_ceiling(out: &mut [u8], at: usize, ceiling: Option<usize>) -> usize
    ensures { Fitting out.old at (ceiling_field ceiling) out.new result }
{
    let Some(c) = ceiling else {
        return at;
    };
    let tabbed = writing::put_byte(out, at, b'\t');
    writing::put_decimal(out, tabbed, c as u64)
}

// An asset's line: name, weight bits, millionths, and its ceiling.
fn put_asset(out: &mut [u8], at: usize, name: &[u8], holding: Holding) -> usize
    requires name_len_bound { length name.now ≤ 16 }
    requires at_in_bounds { at + 76 ≤ length out.old }
    ensures { Wrote out.old at (holding_line name.now holding) out.new result }
{
    let named = writing::put_bytes(out, at, name);
    let tabbed = writing::put_byte(out, named, b'\t');
    let weighed = writing::put_hex(out, tabbed, arithmetic::to_bits(holding.weight));
    let parted = writing::put_byte(out, weighed, b'\t');
    let counted = writing::put_decimal(out, parted, holding.millionths as u64);
    let ceiling = holding.ceiling;
    let limited = put_ceiling(out, counted, ceiling);
    writing::put_byte(out, limited, b'\n')
}

// Asset i's ceiling.
#[tactic(auto, using(crate::proofs::Lines::ceiling_absent, crate::proofs::Lines::ceiling_given))]
fn ceiling_at(ceilings: &[usize], i: usize) -> Option<usize>
    requires { 0 < length ceilings.now → i < length ceilings.now }
    ensures { result ≡ ceiling_at ceilings.now i }
{
    if ceilings.is_empty() {
        return None;
    }
    Some(ceilings[i])
}

// A line for each weight, from the start of the buffer on.
fn put_assets(
    text: &[u8],
    starts: &[usize],
    weights: &[f64],
    ceilings: &[usize],
    parts: &[usize],
    out: &mut [u8],
) -> usize
    requires named { Named text.now starts.now }
    requires weights_len { length weights.now ≡ length starts.now }
    requires starts_value { are_unlike ceilings.now (length starts.now) ≡ false }
    requires parted { Parted weights.now ceilings.now parts.now }
    requires in_bounds { 8192 ≤ length out.old }
    ensures { Wrote out.old 0 (joined (length weights.now) (line_of (name_in text.now starts.now) weights.now ceilings.now)) out.new result }
{
    let mut at = 0;
    for (i, weight) in weights.iter().enumerate() {
        let holding = Holding {
            weight: *weight,
            millionths: parts[i],
            ceiling: ceiling_at(ceilings, i),
        };
        at = put_asset(out, at, names::name(text, starts[i]), holding);
    }
    at
}

// The names in the leaf order, each after a tab.
fn put_order(text: &[u8], starts: &[usize], order: &[usize], out: &mut [u8], from: usize) -> usize
    requires named { Named text.now starts.now }
    requires by_index { (k : ℕ) → k < length order.now → get_or order.now k 0 < length starts.now }
    requires order_in_bounds { from + 17 * length order.now ≤ length out.old }
    ensures { Wrote out.old from (joined (length order.now) (ordered (name_in text.now starts.now) order.now)) out.new result }
{
    let mut at = from;
    for k in 0..order.len() {
        let tabbed = writing::put_byte(out, at, b'\t');
        at = writing::put_bytes(out, tabbed, names::name(text, starts[order[k]]));
    }
    at
}

// The listing, from the start of the buffer on; the answer is its length.
fn put_listing(
    text: &[u8],
    starts: &[usize],
    weights: &[f64],
    ceilings: &[usize],
    parts: &[usize],
    order: &[usize],
    out: &mut [u8],
) -> usize
    requires { Listable text.now starts.now weights.now ceilings.now parts.now order.now (length out.old) }
    ensures { Wrote out.old 0 (listing (name_in text.now starts.now) weights.now ceilings.now order.now) out.new result }
{
    let listed = put_assets(text, starts, weights, ceilings, parts, out);
    let headed = writing::put_bytes(out, listed, b"order");
    let named = put_order(text, starts, order, out, headed);
    writing::put_byte(out, named, b'\n')
}

// Whether every name has at most 16 bytes.
pub fn all_short(text: &[u8], starts: &[usize]) -> bool
    ensures { result ≡ all (is_short text.now) starts.now }
{
    starts
        .iter()
        .all(|start| names::name(text, *start).len() <= 16)
}

// 9, 11, 3, 14 and 15 of a listing.
#[tactic(auto, unfolding(crate::specs::Listing::sheet_lines, refusal::specs::Table::first, refusal::specs::Table::or_else))]
fn judge(
    text: &[u8],
    starts: &[usize],
    weights: usize,
    ceilings: &[usize],
    order: &[usize],
    room: usize,
) -> Result<(), Refusal>
    ensures { result ≡ first (sheet_lines text.now starts.now weights ceilings.now order.now room) }
{
    let n = starts.len();
    refusal::refuse(reading::MOST_BYTES < text.len(), Refusal::OverLimit)?;
    refusal::refuse(lent::MOST_ASSETS < n, Refusal::OverLimit)?;
    refusal::refuse(room < LEAST_LISTING, Refusal::ShortBuffer)?;
    refusal::refuse(weights != n, Refusal::DimensionMismatch)?;
    refusal::refuse(
        ceilings::are_unlike(ceilings, n),
        Refusal::DimensionMismatch,
    )?;
    refusal::refuse(!tree::is_order(order, n), Refusal::NoTree)?;
    refusal::refuse(!all_short(text, starts), Refusal::MalformedText)
}

// The listing of the assets whose names begin at `starts`, with ceilings or with none, at the front of out. A refused listing leaves zeros.
pub fn sheet(
    text: &[u8],
    starts: &[usize],
    weights: &[f64],
    ceilings: &[usize],
    order: &[usize],
    out: &mut [u8],
) -> Result<usize, Refusal>
    ensures { ListingMade
        (sheet_outcome text.now starts.now weights.now ceilings.now order.now (length out.old))
        (listing (name_in text.now starts.now) weights.now ceilings.now order.now)
        (length out.old) result out.new }
{
    let mut parts = [0usize; 64];
    let parted = ceilings::figures(weights, ceilings, &mut parts);
    let judged = judge(text, starts, weights.len(), ceilings, order, out.len());
    let said = refusal::and_then(judged, parted);
    lent::clear(out);
    said?;
    Ok(put_listing(text, starts, weights, ceilings, &parts, order, out))
}

// The line of a number, from the start of the buffer on; the answer is its length.
fn put_refusal(number: u64, out: &mut [u8]) -> usize
    requires { length (refusal_line number) ≤ length out.old }
    ensures { Wrote out.old 0 (refusal_line number) out.new result }
{
    let headed = writing::put_bytes(out, 0, b"refused\t");
    let counted = writing::put_decimal(out, headed, number);
    writing::put_byte(out, counted, b'\n')
}

// The line of a refusal's number, at the front of a buffer: `refused`, tab, number, newline.
pub fn refusal_line(number: u8, line: &mut [u8]) -> Result<usize, Refusal>
    ensures { ListingMade
        (refusal_outcome number (length line.old)) (refusal_line number) (length line.old) result line.new }
{
    let k = writing::places(number as u64);
    lent::clear(line);
    refusal::refuse(line.len() < k + 9, Refusal::ShortBuffer)?;
    Ok(put_refusal(number as u64, line))
}

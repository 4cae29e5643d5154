// Ceilings for single holdings: figures cut to them, and what was cut handed out in order.
#![tactic(auto)]

ghost use Rattle.std.specs.Prelude.{◌≡◌, min, length};
ghost use Rattle.refusal.specs.Table.{first};
ghost use Rattle.millionths.specs.Meaning.{total_of};
ghost use Rattle.ceilings.specs.Ceilings.{cut_total, capped_in, capped_outcome, capped_laid};
ghost use Rattle.ceilings.specs.Figures.{are_unlike, figures_outcome, figures_laid};
ghost use Rattle.ceilings.specs.Written.{ceiling_read};
ghost use Rattle.ceilings.specs.Inner.{Cappable, size_lines};

use refusal::Refusal;

const MILLION: usize = 1000000;

// What a list adds up to, as far as one above 1,000,000, so that no sum can overflow.
fn total(list: &[usize]) -> usize
    ensures { result ≡ min (total_of list.now) 1000001 }
{
    let mut sum = 0;
    for &x in list {
        sum += x.min(1000001 - sum);
    }
    sum
}

// What the ceilings cut off.
fn cut_total(parts: &[usize], ceilings: &[usize]) -> usize
    requires { Cappable parts.now ceilings.now }
    ensures { result ≡ cut_total parts.now ceilings.now }
{
    let mut cut = 0;
    for (i, part) in parts.iter().enumerate() {
        cut += part.saturating_sub(ceilings[i]);
    }
    cut
}

// Each part cut to its ceiling, and what was cut handed out in order, each one filled up to its ceiling.
fn cap(parts: &mut [usize], ceilings: &[usize])
    requires { Cappable parts.old ceilings.now }
    ensures { parts.new ≡ capped_in parts.old ceilings.now }
{
    let mut left = cut_total(&parts[..], ceilings);
    for (i, &ceiling) in ceilings.iter().enumerate() {
        let kept = parts[i].min(ceiling);
        let gap = ceiling - kept;
        let more = gap.min(left);
        parts[i] = kept + more;
        left -= more;
    }
}

// 9, 3, 18 and 20 of a list of millionths and its ceilings.
#[tactic(auto, using(crate::proofs::Totals::kept_low, crate::proofs::Totals::kept_off), unfolding(crate::specs::Ceilings::capped_outcome, crate::specs::Ceilings::capped_table, refusal::specs::Table::first, refusal::specs::Table::or_else))]
fn judge(parts: &[usize], ceilings: &[usize]) -> Result<(), Refusal>
    ensures { result ≡ capped_outcome parts.now ceilings.now }
{
    let n = parts.len();
    refusal::refuse(lent::MOST_ASSETS < n, Refusal::OverLimit)?;
    refusal::refuse(ceilings.len() != n, Refusal::DimensionMismatch)?;
    refusal::refuse(total(parts) != MILLION, Refusal::TotalOutOfReach)?;
    refusal::refuse(total(ceilings) < MILLION, Refusal::CeilingsTooLow)
}

// Millionths that total 1,000,000, put under ceilings. A ceiling above 1,000,000 binds nobody. A refused list is cleared.
pub fn under_ceilings(parts: &mut [usize], ceilings: &[usize]) -> Result<(), Refusal>
    ensures value { result ≡ capped_outcome parts.old ceilings.now }
    ensures parts_after { parts.new ≡ capped_laid parts.old ceilings.now }
{
    let said = judge(&parts[..], ceilings);
    match said {
        Ok(()) => cap(parts, ceilings),
        Err(_) => lent::clear(parts),
    }
    said
}

// Whether there are ceilings, and not one for each of n assets.
pub fn are_unlike(ceilings: &[usize], n: usize) -> bool
    ensures { result ≡ are_unlike ceilings.now n }
{
    !ceilings.is_empty() && ceilings.len() != n
}

// 9, 11 and 3 of weights and their ceilings, which may be none.
#[tactic(auto, unfolding(crate::specs::Inner::size_lines, refusal::specs::Table::first, refusal::specs::Table::or_else))]
fn judge_sizes(weights: usize, ceilings: &[usize], room: usize) -> Result<(), Refusal>
    ensures { result ≡ first (size_lines weights ceilings.now room) }
{
    refusal::refuse(lent::MOST_ASSETS < weights, Refusal::OverLimit)?;
    refusal::refuse(room < weights, Refusal::ShortBuffer)?;
    refusal::refuse(are_unlike(ceilings, weights), Refusal::DimensionMismatch)
}

// Each weight in millionths, which total 1,000,000, under ceilings where there are any.
pub fn figures(weights: &[f64], ceilings: &[usize], out: &mut [usize]) -> Result<(), Refusal>
    ensures value { result ≡ figures_outcome weights.now ceilings.now (length out.old) }
    ensures out_after { out.new ≡ figures_laid weights.now ceilings.now (length out.old) }
{
    let n = weights.len();
    let sized = judge_sizes(n, ceilings, out.len());
    lent::clear(out);
    sized?;
    millionths::weights_in_millionths(weights, out)?;
    if ceilings.is_empty() {
        return Ok(());
    }
    under_ceilings(&mut out[..n], ceilings)
}

// A ceiling from its 1 to 7 digits.
#[tactic(auto, unfolding(crate::specs::Written::ceiling_read, crate::specs::Written::is_ceiling, crate::specs::Written::ceiling_of, fields::specs::Numerals::numeral_read))]
pub fn read_ceiling(w: &[u8]) -> Option<usize>
    ensures { result ≡ ceiling_read w.now }
{
    if 7 < w.len() {
        return None;
    }
    fields::read_numeral(w).filter(|&c| c <= MILLION)
}

// The first line of a job text: which allocator it asks for, how, and whether prices and ceilings follow it.
#![tactic(auto)]

ghost use Rattle.std.specs.Prelude.{◌≡◌, ◌≤◌};
ghost use Rattle.linkage.specs.Names.{distance_named, linkage_named};
ghost use Rattle.heading.specs.Heading.{field, clusters_of, well_asked, prices_after, ceilings_after, is_of, is_hrp, is_hcaa, own_fields, is_priced, is_ceiled, hrp_asked, hcaa_asked, head_of};

use linkage::{Distance, Linkage};
use refusal::Refusal;

// How many clusters a job asks for.
#[derive(Clone, Copy)]
pub enum Asked {
    Malformed,
    All,
    Count(usize),
}

// What a first line asks for.
#[derive(Clone, Copy)]
pub enum Task {
    Hrp {
        distance: Distance,
    },
    Hcaa {
        linkage: Linkage,
        distance: Distance,
    },
}

// The clusters that a field asks for.
#[tactic(auto, unfolding(crate::specs::Heading::clusters_of))]
pub fn clusters_asked(w: &[u8]) -> Asked
    ensures { result ≡ clusters_of w.now }
{
    if text::same(w, b"-") {
        return Asked::All;
    }
    fields::read_numeral(w).map_or(Asked::Malformed, Asked::Count)
}

// Whether a field asks for clusters.
fn is_asked(w: &[u8]) -> bool
    ensures { result ≡ well_asked (clusters_of w.now) }
{
    !matches!(clusters_asked(w), Asked::Malformed)
}

// Whether `prices` stands after k fields.
#[tactic(auto, unfolding(crate::specs::Heading::prices_after))]
fn prices_after(line: &[u8], k: usize) -> bool
    ensures { result ≡ prices_after k line.now }
{
    text::same(fields::piece(line, b'\t', k), b"prices")
}

// Whether `ceilings` stands last, after k fields or more.
#[tactic(auto, using(crate::proofs::FirstLine::ceilings_other, crate::proofs::FirstLine::ceilings_named))]
fn ceilings_after(line: &[u8], k: usize) -> bool
    ensures { result ≡ ceilings_after k line.now }
{
    k <= fields::count(line, b'\t') && text::same(fields::last_piece(line, b'\t'), b"ceilings")
}

// Whether a line has k fields, and after them nothing but `prices` and `ceilings`.
#[tactic(auto, using(crate::proofs::FirstLine::of_fields_lem))]
fn is_of(line: &[u8], k: usize) -> bool
    requires le_k { 1 ≤ k }
    requires k_bound { k ≤ 5 }
    ensures { result ≡ is_of k line.now }
{
    let said = usize::from(prices_after(line, k)) + usize::from(ceilings_after(line, k));
    fields::count(line, b'\t') == k - 1 + said
}

// A first line of an `hrp` job, its name exact.
#[tactic(auto, unfolding(crate::specs::Heading::is_hrp))]
fn is_hrp(line: &[u8]) -> bool
    ensures { result ≡ is_hrp line.now }
{
    is_of(line, 2) && text::same(fields::piece(line, b'\t', 0), b"hrp")
}

// A first line of an `hcaa` job. Its metric is the allocator's to look at.
#[tactic(auto, unfolding(crate::specs::Heading::is_hcaa))]
fn is_hcaa(line: &[u8]) -> bool
    ensures { result ≡ is_hcaa line.now }
{
    is_of(line, 5)
        && text::same(fields::piece(line, b'\t', 0), b"hcaa")
        && is_asked(fields::piece(line, b'\t', 4))
}

// The fields that a job has before `prices` and `ceilings`; all, where the line is none of a job.
#[tactic(auto, using(crate::proofs::FirstLine::tabs_between), unfolding(crate::specs::Heading::own_fields))]
fn own_fields(line: &[u8]) -> usize
    ensures { result ≡ own_fields line.now }
{
    if is_hrp(line) {
        return 2;
    }
    if is_hcaa(line) {
        return 5;
    }
    fields::count(line, b'\t') + 1
}

// Whether prices follow, in place of a covariance.
#[tactic(auto, unfolding(crate::specs::Heading::is_priced))]
pub fn is_priced(line: &[u8]) -> bool
    ensures { result ≡ is_priced line.now }
{
    prices_after(line, own_fields(line))
}

// Whether the assets have ceilings.
#[tactic(auto, unfolding(crate::specs::Heading::is_ceiled))]
pub fn is_ceiled(line: &[u8]) -> bool
    ensures { result ≡ is_ceiled line.now }
{
    ceilings_after(line, own_fields(line))
}

// What an `hrp` line asks for.
fn hrp_asked(line: &[u8]) -> Result<Task, Refusal>
    ensures { result ≡ hrp_asked (distance_named (field line.now 1)) }
{
    let distance = linkage::distance_named(fields::piece(line, b'\t', 1))?;
    Ok(Task::Hrp { distance })
}

// What an `hcaa` line asks for: its linkage is looked at before its distance (8, then 7).
fn hcaa_asked(line: &[u8]) -> Result<Task, Refusal>
    ensures { result ≡ hcaa_asked (linkage_named (field line.now 2)) (distance_named (field line.now 3)) }
{
    let linkage = linkage::linkage_named(fields::piece(line, b'\t', 2))?;
    let distance = linkage::distance_named(fields::piece(line, b'\t', 3))?;
    Ok(Task::Hcaa { linkage, distance })
}

// What a first line asks for, or 15, 8, 7.
#[tactic(auto, unfolding(crate::specs::Heading::head_of))]
pub fn head(line: &[u8]) -> Result<Task, Refusal>
    ensures { result ≡ head_of line.now }
{
    if is_hrp(line) {
        return hrp_asked(line);
    }
    if is_hcaa(line) {
        return hcaa_asked(line);
    }
    Err(Refusal::MalformedText)
}

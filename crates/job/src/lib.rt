// From a job text to its listing or its sheet: read, allocated, written into a lent buffer.
#![tactic(auto)]

ghost use Rattle.std.specs.Prelude.{◌≡◌, cond, ltb, length, Ok};
ghost use Rattle.refusal.specs.declared.Refusal.TheVariants.{OverLimit, ShortBuffer};
ghost use Rattle.heading.specs.Heading.{field, clusters_of};
ghost use Rattle.job.specs.Inner.{BlankListing, Read, block_read, Held, Placed, Allotted, Told};
ghost use Rattle.job.specs.Job.{clusters_as, cells_if, least_for, TextListed, TextSheeted};
ghost use Rattle.reading.specs.declared.Job.TheVariants as jobs;

use heading::Asked;
use linkage::{Distance, Linkage};
use reading::{Block, Job};
use refusal::Refusal;

// What is printed of a job.
#[derive(Clone, Copy)]
pub enum Form {
    Listing,
    Sheet { named: bool },
}

// What was said of a text, and an allocator's answer at the front of buffers for 64 assets.
#[derive(Drop)]
struct Allotment {
    said: Result<(), Refusal>,
    rows: [usize; 126],
    order: [usize; 64],
    weights: [f64; 64],
}

// What the tail-risk metrics read of prices.
const CONFIDENCE: f64 = 0.05;

// The cells where they are given as this, else none.
#[tactic(auto, unfolding(crate::specs::Job::cells_if))]
fn cells_if(given: bool, cells: &[f64]) -> &[f64]
    ensures { result.now ≡ cells_if given cells.now }
{
    if given { cells } else { &[] }
}

// What was said of a text. Where it is accepted, the allocator's answer is printed: for the assets whose names begin at `starts`, under their ceilings where there are any.
fn finish(
    text: &[u8],
    starts: &[usize],
    ceilings: &[usize],
    found: Allotment,
    form: Form,
    out: &mut [u8],
) -> Result<usize, Refusal>
    requires placed { Placed text.now starts.now ceilings.now }
    requires allotted { Allotted text.now found }
    requires blank_listing { BlankListing form out.old }
    ensures { Told text.now form (length out.old) result out.new }
{
    let said = found.said;
    let weights = found.weights;
    said?;
    let n = starts.len();
    match form {
        Form::Listing => {
            let order = found.order;
            listing::sheet(text, starts, &weights[..n], ceilings, &order[..n], out)
        }
        Form::Sheet { named } => {
            let rows = found.rows;
            groups::group_sheet(
                text,
                starts,
                &weights[..n],
                ceilings,
                &rows[..2 * (n - 1)],
                named,
                out,
            )
        }
    }
}

// HRP's answer for a text.
fn by_hrp(text: &[u8], cells: &[f64], block: Block, distance: Distance) -> Allotment
    requires { Read text.now (Ok (jobs.Hrp block distance)) cells.now }
    ensures { Allotted text.now result }
{
    let mut rows = [0usize; 126];
    let mut order = [0usize; 64];
    let mut weights = [0.0; 64];
    let mut correlations = [0.0; 4096];
    let mut distances = [0.0; 4096];
    let mut scratch = [0.0; 8192];
    let said = hrp::allocate(
        block.assets,
        cells_if(block.priced, cells),
        lent::shape_if(block.priced, block.rows, block.assets),
        &cells[..0],
        None,
        cells_if(!block.priced, cells),
        lent::shape_if(!block.priced, block.rows, block.assets),
        &text[..0],
        false,
        distance,
        &mut rows,
        &mut order,
        &mut weights,
        &mut correlations,
        &mut distances,
        &mut scratch,
    );
    Allotment {
        said,
        rows,
        order,
        weights,
    }
}

// The clusters that the first line of an `hcaa` job asks for.
#[tactic(auto, unfolding(crate::specs::Job::clusters_as))]
fn clusters_in(line: &[u8]) -> Option<usize>
    ensures { result ≡ clusters_as (clusters_of (field line.now 4)) }
{
    match heading::clusters_asked(fields::piece(line, b'\t', 4)) {
        Asked::Count(k) => Some(k),
        _ => None,
    }
}

// HCAA's answer for a text.
fn by_hcaa(
    text: &[u8],
    cells: &[f64],
    block: Block,
    linkage: Linkage,
    distance: Distance,
) -> Allotment
    requires { Read text.now (Ok (jobs.Hcaa block linkage distance)) cells.now }
    ensures { Allotted text.now result }
{
    let line = fields::piece(text, b'\n', 0);
    let mut rows = [0usize; 126];
    let mut order = [0usize; 64];
    let mut weights = [0.0; 64];
    let mut scratch = [0.0; 8192];
    let said = hcaa::allocate(
        block.assets,
        cells_if(block.priced, cells),
        lent::shape_if(block.priced, block.rows, block.assets),
        &cells[..0],
        None,
        cells_if(!block.priced, cells),
        lent::shape_if(!block.priced, block.rows, block.assets),
        &cells[..0],
        false,
        fields::piece(line, b'\t', 1),
        b"mean",
        CONFIDENCE,
        clusters_in(line),
        &line[..0],
        distance,
        linkage,
        &mut rows,
        &mut order,
        &mut weights,
        &mut scratch,
    );
    Allotment {
        said,
        rows,
        order,
        weights,
    }
}

// What was read, handed to the allocator that it asks for.
fn allocate(text: &[u8], cells: &[f64], read: Result<Job, Refusal>) -> Allotment
    requires { Held text.now read cells.now }
    ensures { Allotted text.now result }
{
    match read {
        Err(r) => Allotment {
            said: Err(r),
            rows: [0; 126],
            order: [0; 64],
            weights: [0.0; 64],
        },
        Ok(job) => match job {
            Job::Hrp { block, distance } => by_hrp(text, cells, block, distance),
            Job::Hcaa {
                block,
                linkage,
                distance,
            } => by_hcaa(text, cells, block, linkage, distance),
        },
    }
}

// What stands after the first line: nothing, where the text is refused.
#[tactic(auto, unfolding(crate::specs::Inner::block_read))]
fn block_of(read: Result<Job, Refusal>) -> Block
    ensures { result ≡ block_read read }
{
    match read {
        Err(_) => Block {
            assets: 0,
            rows: 0,
            priced: false,
            ceiled: false,
        },
        Ok(Job::Hrp { block, .. }) => block,
        Ok(Job::Hcaa { block, .. }) => block,
    }
}

// How many ceilings a block has.
fn ceilings_in(block: Block) -> usize
    ensures { result ≡ cond block.ceiled block.assets 0 }
{
    if block.ceiled { block.assets } else { 0 }
}

// The bytes that hold everything of a form.
#[tactic(auto, unfolding(crate::specs::Job::least_for))]
fn least_for(form: Form) -> usize
    ensures { result ≡ least_for form }
{
    match form {
        Form::Listing => listing::LEAST_LISTING,
        Form::Sheet { named } => groups::least_sheet(named),
    }
}

// Why a call is refused whose buffer is too short.
#[tactic(auto, using(std::proofs::lemmas::Bool::Decides::nat_tests))]
fn unlisted(bytes: usize) -> Refusal
    ensures { result ≡ cond (ltb 65536 bytes) OverLimit ShortBuffer }
{
    if reading::MOST_BYTES < bytes {
        Refusal::OverLimit
    } else {
        Refusal::ShortBuffer
    }
}

// What is asked of a text, at the front of out. A refused text leaves zeros: `listing::refusal_line` writes its line.
fn text_to(text: &[u8], form: Form, out: &mut [u8]) -> Result<usize, Refusal>
    ensures { Told text.now form (length out.old) result out.new }
{
    lent::clear(out);
    if out.len() < least_for(form) {
        return Err(unlisted(text.len()));
    }
    let mut cells = [0.0; 4096];
    let mut starts = [0usize; 64];
    let mut ceilings = [0usize; 64];
    let read = reading::read_job(text, &mut cells, &mut starts, &mut ceilings);
    let block = block_of(read);
    let n = block.assets;
    let k = block.rows * n;
    let limits = ceilings_in(block);
    let found = allocate(text, &cells[..k], read);
    finish(text, &starts[..n], &ceilings[..limits], found, form, out)
}

// The listing of a job text.
pub fn text_to_listing(text: &[u8], out: &mut [u8]) -> Result<usize, Refusal>
    ensures { TextListed text.now (length out.old) result out.new }
{
    text_to(text, Form::Listing, out)
}

// The sheet of a job text: a line for each node of its tree.
pub fn text_to_sheet(text: &[u8], named: bool, out: &mut [u8]) -> Result<usize, Refusal>
    ensures { TextSheeted text.now named (length out.old) result out.new }
{
    text_to(text, Form::Sheet { named }, out)
}

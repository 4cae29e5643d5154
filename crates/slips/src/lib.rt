// The lines of listings, read again: a holding, a leaf order, or a refusal.
#![tactic(auto)]

ghost use Rattle.std.specs.Prelude.{◌≡◌, length, drop};
ghost use Rattle.fields.specs.Split.{tabulator, split, all};
ghost use Rattle.fields.specs.Numerals.{is_bits};
ghost use Rattle.names.specs.Names.{is_name};
ghost use Rattle.slips.specs.Slips.{is_amount, is_given, held_in, order_in, refused_in, slip_of};
ghost use Rattle.slips.specs.Inner.{is_padded, trim_read, amount_read, ends_well, is_framed, holding};

// The longest line: `order`, and 256 names of 16 bytes, each after its tab.
pub const MOST_LINE: usize = 4357;

// A line: so many millionths of the name in its first field; a leaf order of so many names, which ends a job; a refused job; or none of these.
#[derive(Clone, Copy)]
pub enum Slip {
    Other,
    Held(usize),
    Order(usize),
    Refused,
}

// Whether the first of several digits is 0.
#[tactic(auto, using(std::proofs::lemmas::Bool::Decides::nat_tests), unfolding(crate::specs::Inner::is_padded))]
fn is_padded(w: &[u8]) -> bool
    ensures { result ≡ is_padded w.now }
{
    matches!(w, [b'0', _, ..])
}

// A number from its 1 to 9 digits, the first of several not 0.
#[tactic(auto, using(crate::proofs::Amounts::trim_padded, crate::proofs::Amounts::trim_plain))]
fn read_trim(w: &[u8]) -> Option<usize>
    ensures { result ≡ trim_read w.now }
{
    if is_padded(w) {
        return None;
    }
    fields::read_numeral(w)
}

// Such a number of at most 1,000,000.
#[tactic(auto, using(std::proofs::lemmas::Bool::Decides::nat_tests), unfolding(crate::specs::Inner::trim_read, crate::specs::Inner::amount_read, crate::specs::Slips::is_amount))]
fn read_amount(w: &[u8]) -> Option<usize>
    ensures { result ≡ amount_read w.now }
{
    read_trim(w).filter(|n| *n <= 1_000_000)
}

#[tactic(auto, using(crate::proofs::Amounts::amount_no, crate::proofs::Amounts::amount_yes))]
fn is_amount(w: &[u8]) -> bool
    ensures { result ≡ is_amount w.now }
{
    read_amount(w).is_some()
}

// Whether a document gives a refusal of this number.
#[tactic(auto, using(std::proofs::lemmas::Bool::Decides::nat_tests), unfolding(crate::specs::Inner::trim_read, crate::specs::Slips::is_given))]
fn is_given(w: &[u8]) -> bool
    ensures { result ≡ is_given w.now }
{
    read_trim(w).is_some_and(|n| 1 <= n && n <= 20)
}

#[tactic(auto, using(crate::proofs::Amounts::no_bits, crate::proofs::Amounts::some_bits))]
fn is_bits(w: &[u8]) -> bool
    ensures { result ≡ is_bits w.now }
{
    fields::read_bits(w).is_some()
}

fn fields_in(line: &[u8]) -> usize
    ensures { result ≡ length (split tabulator line.now) }
{
    fields::count(line, b'\t') + 1
}

// Whether every field after the first is a name. A tab at the end leaves one more field, which is empty.
fn all_names(line: &[u8]) -> bool
    ensures { result ≡ all is_name (drop 1 (split tabulator line.now)) }
{
    let mut at = fields::end_of(line, b'\t', 0) + 1;
    while at < line.len() {
        let e = fields::end_of(line, b'\t', at);
        if !names::is_name(&line[at..e]) {
            return false;
        }
        at = e + 1;
    }
    line.len() < at
}

// A leaf order.
#[tactic(auto, using(crate::proofs::Lines::order_yes, crate::proofs::Lines::order_no))]
fn read_order(line: &[u8]) -> Slip
    ensures { result ≡ order_in (split tabulator line.now) }
{
    if all_names(line) {
        return Slip::Order(fields::count(line, b'\t'));
    }
    Slip::Other
}

// A refusal.
#[tactic(auto, using(std::proofs::lemmas::Bool::Decides::nat_tests), unfolding(crate::specs::Slips::refused_in))]
fn read_refused(line: &[u8]) -> Slip
    ensures { result ≡ refused_in (split tabulator line.now) }
{
    if fields_in(line) == 2 && is_given(fields::piece(line, b'\t', 1)) {
        return Slip::Refused;
    }
    Slip::Other
}

// Whether the millionths are last, or a ceiling after them.
#[tactic(auto, using(std::proofs::lemmas::Bool::Decides::nat_tests), unfolding(crate::specs::Inner::ends_well))]
fn ends_well(line: &[u8]) -> bool
    ensures { result ≡ ends_well (split tabulator line.now) }
{
    let n = fields_in(line);
    n == 3 || n == 4 && is_amount(fields::piece(line, b'\t', 3))
}

// So many millionths, of a line whose other fields are good.
#[tactic(auto, unfolding(crate::specs::Inner::holding))]
fn hold(good: bool, amount: Option<usize>) -> Slip
    ensures { result ≡ holding good amount }
{
    if !good {
        return Slip::Other;
    }
    amount.map_or(Slip::Other, Slip::Held)
}

// Whether an asset's record has a name, weight bits, and either form's length.
#[tactic(auto, using(std::proofs::lemmas::Bool::Decides::nat_tests), unfolding(crate::specs::Inner::is_framed))]
fn is_framed(line: &[u8]) -> bool
    ensures { result ≡ is_framed (split tabulator line.now) }
{
    names::is_name(fields::piece(line, b'\t', 0))
        && is_bits(fields::piece(line, b'\t', 1))
        && ends_well(line)
}

// An asset's record, with or without its ceiling.
#[tactic(auto, using(crate::proofs::Lines::held_is))]
fn read_held(line: &[u8]) -> Slip
    ensures { result ≡ held_in (split tabulator line.now) }
{
    let amount = read_amount(fields::piece(line, b'\t', 2));
    hold(is_framed(line), amount)
}

// A line of a listing.
#[tactic(auto, using(crate::proofs::Lines::too_long, crate::proofs::Lines::an_order, crate::proofs::Lines::a_refusal, crate::proofs::Lines::a_holding))]
pub fn read_slip(line: &[u8]) -> Slip
    ensures { result ≡ slip_of line.now }
{
    if MOST_LINE < line.len() {
        return Slip::Other;
    }
    let head = fields::piece(line, b'\t', 0);
    if text::same(head, b"order") {
        return read_order(line);
    }
    if text::same(head, b"refused") {
        return read_refused(line);
    }
    read_held(line)
}

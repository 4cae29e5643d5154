// The names of assets in a job text.
#![tactic(auto)]

ghost use Rattle.std.specs.Prelude.{◌≡◌};
ghost use Rattle.fields.specs.Split.{all};
ghost use Rattle.names.specs.Names.{in_name, is_name, name_from};

fn all_in_name(w: &[u8]) -> bool
    ensures { result ≡ all in_name w.now }
{
    w.iter().all(|b| b.is_ascii_graphic())
}

// An asset's name. The two words that begin other lines of a listing are none.
#[tactic(auto, using(std::proofs::lemmas::Bool::Decides::nat_tests), unfolding(crate::specs::Names::is_name))]
pub fn is_name(w: &[u8]) -> bool
    ensures { result ≡ is_name w.now }
{
    1 <= w.len()
        && w.len() <= 16
        && all_in_name(w)
        && !text::same(w, b"order")
        && !text::same(w, b"refused")
}

// The name that begins at a place.
pub fn name(text: &[u8], start: usize) -> &[u8]
    ensures { result.now ≡ name_from text.now start }
{
    if text.len() <= start {
        return &text[text.len()..];
    }
    // the tab first: it is near, and the line's end may be far
    let e = fields::end_of(text, b'\t', start);
    let field = &text[start..e];
    let k = fields::end_of(field, b'\n', 0);
    &field[..k]
}

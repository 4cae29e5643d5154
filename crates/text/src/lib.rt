// Bytes of a text, and names.
#![tactic(auto)]

ghost use Rattle.std.specs.Prelude.{◌≡◌};
ghost use Rattle.text.specs.Bytes.{same, is_word};

// The same bytes.
#[tactic(auto, using(crate::proofs::Names::pointwise_same))]
pub fn same(a: &[u8], b: &[u8]) -> bool
    ensures { result ≡ same a.now b.now }
{
    a == b
}

// Whether the name is the word, in whatever case it is written. The word's letters are small.
pub fn is_word(name: &[u8], word: &[u8]) -> bool
    ensures { result ≡ is_word name.now word.now }
{
    name.len() == word.len()
        && name
            .iter()
            .zip(word)
            .all(|(b, w)| b.to_ascii_lowercase() == *w)
}

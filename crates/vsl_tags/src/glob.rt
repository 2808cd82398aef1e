//! Whether an element of a taglist is a name's.

ghost use Rattle.std.specs.Prelude.{◌≡◌};
ghost use Rattle.vsl_tags.specs.Glob as spec;

/// Whether the element is the name, or matches it: a star at its beginning stands for any bytes, and
/// so does one at its end. Capitals don't count.
#[tactic(auto, unfolding(crate::specs::Glob::matches))]
pub(crate) fn matches(element: &[u8], name: &[u8]) -> bool
    ensures { result ≡ spec.matches element.now name.now }
{
    let (before, rest) = cut_first_star(element);
    let (after, text) = cut_last_star(rest);
    match (before, after) {
        (true, true) => has_part(name, text),
        (true, false) => has_suffix(name, text),
        (false, true) => has_prefix(name, text),
        (false, false) => is_same(text, name),
    }
}

/// Whether the text begins with a star, and the text without it.
fn cut_first_star(text: &[u8]) -> (bool, &[u8])
    ensures star { result.0 ≡ spec.has_first_star text.now }
    ensures rest { result.1.now ≡ spec.without_first_star text.now }
{
    match text {
        [b'*', rest @ ..] => (true, rest),
        _ => (false, text),
    }
}

/// Whether the text ends with a star, and the text without it.
fn cut_last_star(text: &[u8]) -> (bool, &[u8])
    ensures star { result.0 ≡ spec.has_last_star text.now }
    ensures rest { result.1.now ≡ spec.without_last_star text.now }
{
    match text {
        [rest @ .., b'*'] => (true, rest),
        _ => (false, text),
    }
}

/// Whether the texts are alike, without regard to case.
fn is_same(a: &[u8], b: &[u8]) -> bool
    ensures { result ≡ spec.is_same a.now b.now }
{
    a.eq_ignore_ascii_case(b)
}

/// Whether the name begins with the text.
fn has_prefix(name: &[u8], text: &[u8]) -> bool
    ensures { result ≡ spec.has_prefix name.now text.now }
{
    name.len() >= text.len() && is_same(text, &name[..text.len()])
}

/// Whether the name ends with the text.
fn has_suffix(name: &[u8], text: &[u8]) -> bool
    ensures { result ≡ spec.has_suffix name.now text.now }
{
    name.len() >= text.len() && is_same(text, &name[name.len() - text.len()..])
}

/// Whether the name has the text at one of its places.
fn has_part(name: &[u8], text: &[u8]) -> bool
    ensures { result ≡ spec.has_part name.now text.now }
{
    let mut rest = name;
    while let [_, after @ ..] = rest {
        if has_prefix(rest, text) {
            return true;
        }
        rest = after;
    }
    text.is_empty()
}

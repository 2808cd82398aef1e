//! The fields of a payload, one after another: each byte is looked at once.

ghost use Rattle.std.specs.Prelude.{◌≡◌, [], ◌∷◌, ◌<◌, ◌≤◌, length, take, drop, IfSome, IfNone};
ghost use Rattle.vsl_decimal.specs.Field.{fields, is_space};
ghost use Rattle.vsl_decimal.specs.Prefix.{NoSpaceFirst};

/// The first field of a text and what follows it, as `req` and ` 1 rxreq` of `req 1 rxreq`, where there is one.
///
/// Source: vsl-query(7), "Record selection criteria".
pub(crate) fn first_field(text: &[u8]) -> Option<(&[u8], &[u8])>
    ensures some { IfSome result (λ x. fields text.now ≡ x.0.now ∷ fields x.1.now) }
    ensures none { IfNone result (fields text.now ≡ []) }
{
    let rest = without_white(text);
    let end = end_of_field(rest);
    if end == 0 {
        return None;
    }
    Some(rest.split_at(end))
}

/// Whether a byte is white space.
fn is_white(b: u8) -> bool
    ensures { result ≡ is_space b }
{
    (9 <= b && b <= 13) || b == 32
}

/// The text without its leading white space.
fn without_white(text: &[u8]) -> &[u8]
    ensures same { fields result.now ≡ fields text.now }
    ensures first { NoSpaceFirst result.now }
{
    let mut rest = text;
    while let Some((b, after)) = rest.split_first() {
        if !is_white(*b) {
            return rest;
        }
        rest = after;
    }
    rest
}

/// Where the field ends with which a text begins.
fn end_of_field(text: &[u8]) -> usize
    requires { NoSpaceFirst text.now }
    ensures within { result ≤ length text.now }
    ensures some { 0 < result → fields text.now ≡ take result text.now ∷ fields
        (drop result text.now) }
    ensures none { result ≡ 0 → fields text.now ≡ [] }
{
    for i in 0..text.len() {
        if is_white(text[i]) {
            return i;
        }
    }
    text.len()
}

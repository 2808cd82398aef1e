//! White space round a text.

ghost use Rattle.std.specs.Prelude.{◌≡◌};
ghost use Rattle.vsl_decimal.specs.Prefix.{trimmed, without_spaces, without_spaces_behind};

use crate::is_white;

/// The text without leading and trailing white space, as `200.9` for ` 200.9 `, and nothing for ` `. White space
/// within the text stays.
///
/// Source: vsl-query(7), "Operand". That white space round a number doesn't count is this project's choice.
pub fn trim(text: &[u8]) -> &[u8]
    ensures { result.now ≡ trimmed text.now }
{
    without_blanks_behind(without_blanks(text))
}

/// The text without its leading white space.
pub fn without_blanks(text: &[u8]) -> &[u8]
    ensures { result.now ≡ without_spaces text.now }
{
    let mut rest = text;
    while let Some((b, after)) = rest.split_first() {
        if !is_white(*b) {
            return rest;
        }
        rest = after;
    }
    rest
}

/// The text without its trailing white space.
fn without_blanks_behind(text: &[u8]) -> &[u8]
    ensures { result.now ≡ without_spaces_behind text.now }
{
    let mut rest = text;
    while let Some((b, before)) = rest.split_last() {
        if !is_white(*b) {
            return rest;
        }
        rest = before;
    }
    rest
}

//! Prefixes: what follows `Header:`.

ghost use Rattle.std.specs.Prelude.{◌≡◌, List, ℕ, IfSome, IfNone};
ghost use Rattle.std.specs.Option.{option_copied};
ghost use Rattle.vsl_decimal.specs.Prefix.{FollowsPrefix, IsValueAfter, value_after};

use crate::after_byte;
use crate::blanks::without_blanks;

/// What follows the prefix and a colon, without leading white space, as `a` for `Host: a` and `host`. The case of
/// ASCII letters doesn't count. There is nothing where the text doesn't begin with the prefix and a colon.
///
/// Source: vsl-query(7), "Record selection criteria".
#[inline(always)]
pub fn after_prefix<'a>(text: &'a [u8], prefix: &[u8]) -> Option<&'a [u8]>
    ensures found { IfSome result (λ value. IsValueAfter prefix.now text.now value.now) }
    ensures refused { IfNone result ((behind : List ℕ) →
        ¬ (FollowsPrefix prefix.now text.now behind)) }
    ensures value { option_copied result ≡ value_after prefix.now text.now }
{
    let (name, after) = text.split_at_checked(prefix.len())?;
    // A name of another length has no colon there, so most need no comparison.
    let behind = after_byte(after, b':')?;
    if !name.eq_ignore_ascii_case(prefix) {
        return None;
    }
    Some(without_blanks(behind))
}

//! Adding texts of which some bytes are printed as escapes.
#![tactic(auto, using(crate::proofs::PrefixLemmas::adding))]

ghost use Rattle.std.specs.Prelude.{◌≡◌, ◌≤◌, ◌<◌, ◌+◌, ◌∷◌, [], false, ℕ, Bool, List, length, take};
ghost use Rattle.std.specs.List.{flat_map, list_any};
ghost use Rattle.log_model.specs.Adding.{Puts};
ghost use Rattle.log_model.specs.Escaping.{hex_digit, hex_escape};

use crate::fault::NoMemory;

/// Which bytes are printed as an escape, and how.
pub trait Escapes {
    /// Whether a byte is printed as an escape.
    ghost escapes: { ℕ → Bool };

    /// A byte as it is printed.
    ghost printed: { ℕ → List ℕ };

    /// Whether a byte is printed as an escape.
    fn has_escape(byte: u8) -> bool
        ensures { result ≡ escapes byte };

    /// Adds a byte as it is printed.
    fn put_byte(byte: u8, out: &mut Vec<u8>) -> Result<(), NoMemory>
        ensures { Puts result out.old.items out.new.items (printed byte) };

    /// Every other byte is printed as it is.
    ghost plain: { (byte : ℕ) → escapes byte ≡ false → printed byte ≡ byte ∷ [] };
}

/// A hexadecimal digit, in lower case.
fn digit_of(n: u8) -> u8
    requires { n < 16 }
    ensures { result ≡ hex_digit n }
{
    if n < 10 { 48 + n } else { 87 + n }
}

/// Adds a byte as `\x` and two digits.
pub fn put_hex(byte: u8, out: &mut Vec<u8>) -> Result<(), NoMemory>
    ensures { Puts result out.old.items out.new.items (hex_escape byte) }
{
    out.extend_from_slice(&[b'\\', b'x', digit_of(byte / 16), digit_of(byte % 16)])?;
    Ok(())
}

/// How many bytes before the first escape are printed as they are.
fn plain_length<E: Escapes>(bytes: &[u8]) -> usize
    ensures within { result ≤ length bytes.now }
    ensures plain { flat_map E.printed (take result bytes.now) ≡ take result bytes.now }
{
    for at in 0..bytes.len() {
        if E::has_escape(bytes[at]) {
            return at;
        }
    }
    bytes.len()
}

/// Adds a text, run by run. It is kept out of line, since few texts have an escape.
#[cold]
#[inline(never)]
fn put_with_escapes<E: Escapes>(text: &[u8], out: &mut Vec<u8>) -> Result<(), NoMemory>
    ensures { Puts result out.old.items out.new.items (flat_map E.printed text.now) }
{
    let mut rest = text;
    while !rest.is_empty() {
        let (plain, after) = rest.split_at(plain_length::<E>(rest));
        out.extend_from_slice(plain)?;
        let [byte, behind @ ..] = after else {
            return Ok(());
        };
        E::put_byte(*byte, out)?;
        rest = behind;
    }
    Ok(())
}

/// Whether any of these bytes is printed as an escape. It looks at all bytes, which is faster than to stop.
#[inline(always)]
#[tactic(auto, using(std::proofs::lemmas::List::Folds::list_any_more))]
fn any_has_escape<E: Escapes>(bytes: &[u8]) -> bool
    ensures { result ≡ list_any E.escapes bytes.now }
{
    let mut found = false;
    for byte in bytes {
        found |= E::has_escape(*byte);
    }
    found
}

/// Whether any byte is printed as an escape, of at most twice so many: it looks at the first so many and at the last, which may overlap.
#[inline(always)]
#[tactic(auto, using(crate::proofs::EscapingLemmas::any_ends))]
fn either_end_has_escape<E: Escapes>(bytes: &[u8], count: usize) -> bool
    requires least { count ≤ length bytes.now }
    requires most { length bytes.now ≤ count + count }
    ensures { result ≡ list_any E.escapes bytes.now }
{
    let (first, _) = bytes.split_at(count);
    let (_, last) = bytes.split_at(bytes.len() - count);
    any_has_escape::<E>(first) | any_has_escape::<E>(last)
}

/// Whether any byte of a short text is printed as an escape.
#[inline(always)]
fn short_has_escape<E: Escapes>(text: &[u8]) -> bool
    requires { length text.now < 16 }
    ensures { result ≡ list_any E.escapes text.now }
{
    if text.len() < 4 {
        any_has_escape::<E>(text)
    } else if text.len() < 8 {
        either_end_has_escape::<E>(text, 4)
    } else {
        either_end_has_escape::<E>(text, 8)
    }
}

/// Whether any byte of a text is printed as an escape. It looks at runs of 16 bytes, for which the compiler has vectors,
/// and then at the last 16, of which some may have been seen.
fn has_any_escape<E: Escapes>(text: &[u8]) -> bool
    ensures { result ≡ list_any E.escapes text.now }
{
    if text.len() < 16 {
        return short_has_escape::<E>(text);
    }
    let mut at = 0;
    while at + 16 <= text.len() {
        let (_, rest) = text.split_at(at);
        let (run, _) = rest.split_at(16);
        if any_has_escape::<E>(run) {
            return true;
        }
        at += 16;
    }
    let (_, last) = text.split_at(text.len() - 16);
    any_has_escape::<E>(last)
}

/// Adds a text; at once where no byte of it needs an escape, as in most.
pub fn put_escaped<E: Escapes>(text: &[u8], out: &mut Vec<u8>) -> Result<(), NoMemory>
    ensures { Puts result out.old.items out.new.items (flat_map E.printed text.now) }
{
    if has_any_escape::<E>(text) {
        return put_with_escapes::<E>(text, out);
    }
    out.extend_from_slice(text)?;
    Ok(())
}

//! Patterns.

ghost use Rattle.std.specs.Prelude.{◌≡◌, true, false, IfOk, OnOk};
ghost use Rattle.log_model.specs.Halts.{IfFault};
ghost use Rattle.regex.specs.Bytes.{regex_pattern, matcher_pattern};
ghost use Rattle.vsl_pattern.specs.inside.Reading.{IsReadUnder};

use log_model::Halt;
use regex::bytes::{Matcher, Regex};
use regex::{Error, RegexBuilder};
use std::alloc::{AllocError, Global};
use std::str;
use thiserror::Error;

/// The text is no good pattern.
#[derive(Clone, Copy, Debug, PartialEq, Eq, Error)]
#[error("no good pattern")]
pub struct NoGoodPattern;

/// A pattern, as it was read.
#[derive(Debug, Drop)]
pub struct Pattern {
    regex: Regex,
    caseless: bool,
    ghost read: { ∥ IsReadUnder caseless regex ∥₁ },
}

impl Pattern {
    ghost use Rattle.vsl_pattern.specs.Patterns.{is_good_pattern, pattern_text, pattern_caseless, matching_text, matching_caseless};

    /// Reads a pattern, as `^/item/[0-9]+`. With `caseless` the case of letters doesn't count.
    ///
    /// Want of memory is answered also where its tables would be too large.
    ///
    /// Source: varnishlog(1), "-C" and "-I"; that a text nested deeper than 250 is refused is the crate `regex`'s limit.
    pub fn new(alloc: Global, text: &[u8], caseless: bool) -> Result<Pattern, Halt<NoGoodPattern>>
        ensures text { IfOk result (λ p. pattern_text p ≡ text.now) }
        ensures caseless { IfOk result (λ p. pattern_caseless p ≡ caseless) }
        ensures good { OnOk result (is_good_pattern caseless text.now ≡ true) }
        ensures refused { IfFault result (λ _. is_good_pattern caseless text.now ≡ false) }
    {
        let Ok(text) = str::from_utf8(text) else {
            return Err(Halt::Fault(NoGoodPattern));
        };
        let builder = RegexBuilder::new(text).case_insensitive(caseless);
        match builder.build_bytes(alloc) {
            Ok(regex) => Ok(Pattern { regex, caseless }),
            Err(Error::Syntax(_)) => Err(Halt::Fault(NoGoodPattern)),
            Err(_) => Err(Halt::NoMemory),
        }
    }

    /// What asks the pattern, again and again. It borrows the pattern.
    pub fn matching(&self, alloc: Global) -> Result<Matching<'_>, AllocError>
        ensures text { IfOk result (λ m. matching_text m ≡ pattern_text self.now) }
        ensures caseless { IfOk result (λ m. matching_caseless m ≡ pattern_caseless self.now) }
    {
        let matcher = self.regex.matcher(alloc)?;
        Ok(Matching {
            matcher,
            pattern: self,
        })
    }
}

/// A pattern that is asked. It borrows the pattern.
#[derive(Drop)]
pub struct Matching<'p> {
    matcher: Matcher<'p>,
    pattern: &'p Pattern,
    ghost compiled: { ∥ matcher_pattern matcher ≡ regex_pattern pattern.now.regex ∥₁ },
}

impl<'p> Matching<'p> {
    ghost use Rattle.vsl_pattern.specs.Patterns.{is_match, matching_text, matching_caseless};

    /// Whether the pattern matches somewhere in the bytes.
    pub fn is_match(&mut self, bytes: &[u8]) -> bool
        ensures found { result ≡ is_match (matching_caseless self.old) (matching_text self.old) bytes.now }
        ensures text { matching_text self.new ≡ matching_text self.old }
        ensures caseless { matching_caseless self.new ≡ matching_caseless self.old }
    {
        self.matcher.is_match(bytes)
    }
}

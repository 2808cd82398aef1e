//! The globs of a command line.

ghost use Rattle.std.specs.Prelude.{◌≡◌};
ghost use Rattle.std.specs.List.{list_any};
ghost use Rattle.vsl_stat.specs.Glob as spec;
ghost use Rattle.vsl_stat.specs.Glob.{is_selected};

use crate::glob::glob_matches;
use log_model::Text;
use std::marker::Model;

/// Globs that select names: all, where there are no globs. Contracts see the list of their texts.
///
/// Source: varnishstat(1), `-f`.
#[derive(Debug, Drop)]
pub struct Globs {
    texts: Vec<Text>,
}

impl Model for Globs {
    ghost use Rattle.std.specs.Prelude.{List, ℕ};

    ghost Value = { List (List ℕ) };

    ghost view = { λ g. g.texts.items };
}

impl Globs {
    /// The globs of these texts.
    pub fn new(texts: Vec<Text>) -> Globs
        ensures { result ≡ texts.items }
    {
        Globs { texts }
    }

    /// Whether a name is selected: a glob matches it whole, with regard to case, or there are no globs.
    pub fn selects(&self, name: &[u8]) -> bool
        ensures { result ≡ is_selected self.now name.now }
    {
        self.texts.len() == 0 || has_match(&self.texts, name)
    }
}

/// Whether a glob matches a name.
fn has_match(globs: &[Text], name: &[u8]) -> bool
    ensures { result ≡ list_any (λ glob. spec.glob_matches glob name.now) globs.now }
{
    for glob in globs {
        if glob_matches(glob.as_bytes(), name) {
            return true;
        }
    }
    false
}

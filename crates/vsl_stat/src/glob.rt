//! Whether a name matches a glob.

ghost use Rattle.std.specs.Prelude.{◌≡◌, ◌∷◌};
ghost use Rattle.vsl_stat.specs.Glob as spec;
ghost use Rattle.vsl_stat.specs.inside.Reading.{IsMet};

/// What comes first, where a glob and a name are read side by side.
enum Met<'a> {
    /// The end, or two bytes that differ: whether the name matches.
    Answer(bool),
    /// A star of the glob: what follows it, and what is left of the name.
    Star(&'a [u8], &'a [u8]),
}

/// Reads a glob and a name side by side up to a star.
#[tactic(auto, using(crate::proofs::GlobLemmas::reading))]
fn read_to_star<'a>(glob: &'a [u8], name: &'a [u8]) -> Met<'a>
    ensures { IsMet glob.now name.now result }
{
    let mut glob_rest = glob;
    let mut name_rest = name;
    while let Some((byte, glob_after)) = glob_rest.split_first() {
        if *byte == b'*' {
            return Met::Star(glob_after, name_rest);
        }
        let Some((other, name_after)) = name_rest.split_first() else {
            return Met::Answer(false);
        };
        if *byte == *other {
            glob_rest = glob_after;
            name_rest = name_after;
        } else {
            return Met::Answer(false);
        }
    }
    Met::Answer(name_rest.len() == 0)
}

/// Whether a name, or what is left of it after some of its bytes, matches a glob.
#[tactic(auto, using(crate::proofs::GlobLemmas::seeking))]
fn matches_later(glob: &[u8], name: &[u8]) -> bool
    ensures { result ≡ spec.at_some_place (spec.glob_matches glob.now) name.now }
{
    let mut glob_rest = glob;
    let mut name_rest = name;
    loop {
        match read_to_star(glob_rest, name_rest) {
            Met::Answer(true) => return true,
            Met::Answer(false) => {
                let Some((_, behind)) = name_rest.split_first() else {
                    return false;
                };
                name_rest = behind;
            }
            Met::Star(glob_after, name_after) => {
                glob_rest = glob_after;
                name_rest = name_after;
            }
        }
    }
}

/// Whether a name matches a glob, in at most as many steps as the product of their lengths.
#[tactic(auto, using(crate::proofs::GlobLemmas::after_first_star))]
pub(crate) fn glob_matches(glob: &[u8], name: &[u8]) -> bool
    ensures { result ≡ spec.glob_matches glob.now name.now }
{
    match read_to_star(glob, name) {
        Met::Answer(answer) => answer,
        Met::Star(glob_after, name_after) => matches_later(glob_after, name_after),
    }
}

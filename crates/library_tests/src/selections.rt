//! Selections: rules that are refused, and what a good one shows.

use crate::support::{no_sides, record_of, same};
use log_model::Text;
use std::alloc::Global;
use std::process::Abort;
use vsl_select::{RuleText, SelectFault, Selection, Viewer};
use vsl_tags::TagSet;
use vsl_tags::named::{BEGIN, END};

/// A selection of one rule, which includes, and whose text is the word 2.
fn selection(
    rt: &impl Abort,
    alloc: Global,
    regex: bool,
    text: &str,
) -> Result<Selection, SelectFault> {
    let rule = RuleText {
        include: true,
        regex,
        text: Text::new(alloc, text).expect(rt, "memory"),
        word: 2,
    };
    let rules = Vec::from_array(alloc, [rule]).expect(rt, "memory");
    Selection::new(alloc, no_sides(), rules, false)
}

#[test]
fn a_rule_that_is_refused_tells_its_word(rt: HostRuntime) {
    let alloc = rt.alloc();
    let tags = selection(&rt, alloc, false, "Nope").err();
    same(&rt, tags, Some(SelectFault::BadTags { word: 2 }));
    let pattern = selection(&rt, alloc, true, "(").err();
    same(&rt, pattern, Some(SelectFault::BadPattern { word: 2 }));
}

/// A tag, a payload, and whether the rule below shows them.
const RECORDS: [(u8, &[u8], bool); 3] = [
    (BEGIN, b"req 1 rxreq", true),
    (BEGIN, b"bereq 2 fetch", false),
    (END, b"req 1 rxreq", false),
];

#[test]
fn a_rule_with_a_pattern_shows_what_matches(rt: HostRuntime) {
    let alloc = rt.alloc();
    let shown = selection(&rt, alloc, true, "Begin:^req").expect(&rt, "a selection");
    let mut viewer = Viewer::new(alloc, &shown).expect(&rt, "memory");
    for (tag, payload, is_shown) in RECORDS {
        let rec = record_of(&rt, alloc, tag, payload);
        same(&rt, viewer.shows(&rec.view()), Ok(is_shown));
    }
}

/// The set of a taglist.
fn set_of(rt: &impl Abort, list: &str) -> TagSet {
    TagSet::from_list(list).expect(rt, "a set")
}

#[test]
fn sets_of_the_same_tags_are_equal(rt: HostRuntime) {
    let set = set_of(&rt, "ReqURL,End");
    same(&rt, set_of(&rt, "End,ReqURL,end") == set, true);
    same(&rt, set_of(&rt, "ReqURL") == set, false);
    same(&rt, set_of(&rt, "ReqURL,End,Begin") == set, false);
}

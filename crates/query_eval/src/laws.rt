//! The laws of queries. A law is a function that does nothing.

ghost use Rattle.std.specs.Prelude.{◌≡◌, ◌++◌, ◌||◌, ◌&&◌, ℕ, List};
ghost use Rattle.std.specs.List.{list_any};
ghost use Rattle.vsl_record.specs.declared.record_type.Record.{Record};
ghost use Rattle.txn_rows.specs.declared.group.Group.{Group};
ghost use Rattle.txn_rows.specs.declared.group.Member.{Member};
ghost use Rattle.query_grammar.specs.Tree as tree;
ghost use Rattle.query_grammar.specs.Tree.{Either};
ghost use Rattle.query_parser.specs.declared.query.Query.{Query};
ghost use Rattle.query_parser.specs.declared.test.Test.{Test};
ghost use Rattle.query_parser.specs.Parsed.{HasTree};
ghost use Rattle.query_eval.specs.Meaning.{is_held, meets_level, member_satisfies, record_marks, tree_holds};
ghost use Rattle.query_eval.specs.Marks.{answer_of, is_held_by, tests_of};

/// A query that has a tree holds for the groups for which its tree holds.
pub fn queries_of_trees()
    ensures tree { (query : Query) (t : tree.Query Test) (group : Group) → HasTree query t →
        is_held query group ≡ tree_holds t group }
{}

/// A query holds for a group where it holds by what the group's members say of its tests. A member satisfies a test where
/// it meets the test's level, and has its mark. The tests of queries that are joined by `or` are those of the first, and
/// then those of the second.
pub fn queries_of_truths()
    ensures truths { (query : Query) (group : Group) →
        is_held query group ≡ is_held_by query (answer_of query group.members) }
    ensures member { (test : Test) (member : Member) → member_satisfies test member ≡
        (meets_level test.criterion.level member.level && list_any
        (record_marks test) member.records) }
    ensures joined { (a b q : Query) (s t : tree.Query Test) → HasTree a s → HasTree b t →
        HasTree q (Either s t) →
        tests_of q ≡ tests_of a ++ tests_of b }
{}

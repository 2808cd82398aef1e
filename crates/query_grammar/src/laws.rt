//! What reading a line says.

ghost use Rattle.std.specs.Prelude.{◌≡◌, ◌∷◌, ◌++◌, ◌&&◌, [], ℕ, Bool, List, Option, Some, None, Ok, Err, true};
ghost use Rattle.std.specs.Str.{IsUtf8};
ghost use Rattle.std.specs.List.{list_all};
ghost use Rattle.query_grammar.specs.Step.{Step, TestParts};
ghost use Rattle.query_grammar.specs.declared.lex.Lex.TheVariants.{Begin};
ghost use Rattle.query_grammar.specs.Bytes.{is_name_byte};
ghost use Rattle.query_grammar.specs.Lexical.{operand_begin, whole_from};
ghost use Rattle.query_grammar.specs.Criterion.{is_all, Level, is_level, is_some_text, is_field, Parts, criterion_text, is_criterion, level_text, names_of, joined_names, prefix_text, field_text, Text, text_of, is_text, meant_by, operand_meaning};
ghost use Rattle.query_grammar.specs.Grammar.{Written, IsQuery, StopsAt};
ghost use Rattle.query_grammar.specs.Judging.{rules_of};
ghost use Rattle.query_grammar.specs.Fine.{IsFine, IsFineText};
ghost use Rattle.query_grammar.specs.Lines.{IsText, lines_of, read_lines};
ghost use Rattle.query_grammar.specs.Tested.{Language};
ghost use Rattle.query_grammar.specs.Stands.{StandsIn, Stands};
ghost use Rattle.query_grammar.specs.QueryFault.{query_fault};
ghost use Rattle.query_grammar.specs.Steps.{steps_of};
ghost use Rattle.query_grammar.specs.Tree.{Query, is_true, tree_of, tree_steps, truths_of};
ghost use Rattle.query_grammar.specs.Scanner.{Fault, Rules, AreRules, Syntax, free, run, begin};

/// A query is read as its steps, and what is read is a query, whatever the rules. A fault of syntax is
/// at the first byte at which no query can go on. Under the rules of tags, numbers and depth the
/// queries without a fault are read, and no others, at each other fault stands what it names, and
/// before any fault nothing is at fault.
pub fn reading()
    ensures complete { (line : List ℕ) (q : Written) → IsQuery line q → run free 0 begin line ≡ Ok (steps_of q) }
    ensures sound { (rules : Rules) → AreRules rules → (line : List ℕ) (out : List Step) → run rules 0 begin line ≡ Ok out → (q : Written) × IsQuery line q × (steps_of q ≡ out) }
    ensures stops { (rules : Rules) → AreRules rules → (line : List ℕ) (at : ℕ) → run rules 0 begin line ≡ Err (Syntax at) → StopsAt IsQuery line at }
    ensures rules { (is_tag is_decimal is_pattern : List ℕ → Bool) (most : ℕ) → AreRules (rules_of is_tag is_decimal is_pattern most) }
    ensures fine { (is_tag is_decimal is_pattern : List ℕ → Bool) (most : ℕ) (line : List ℕ) (q : Written) → IsQuery line q → IsFine is_tag is_decimal is_pattern most 0 q → run (rules_of is_tag is_decimal is_pattern most) 0 begin line ≡ Ok (steps_of q) }
    ensures only_fine { (is_tag is_decimal is_pattern : List ℕ → Bool) (most : ℕ) (line : List ℕ) (out : List Step) → run (rules_of is_tag is_decimal is_pattern most) 0 begin line ≡ Ok out → (q : Written) × IsQuery line q × IsFine is_tag is_decimal is_pattern most 0 q × (steps_of q ≡ out) }
    ensures stands { (l : Language) (line : List ℕ) (f : Fault) → run (rules_of l.is_tag l.is_decimal l.is_pattern l.most) 0 begin line ≡ Err f → StandsIn l 0 line f }
    ensures one_tree { (line : List ℕ) (p q : Written) → IsQuery line p → IsQuery line q → tree_of p ≡ tree_of q }
{}

/// The table of bytes takes the text of a criterion's parts, and of an operand, and no other bytes.
/// A criterion is a level, names, a prefix and a field, one behind the other. The bytes of a criterion
/// have one list of parts, and the bytes of an operand one text; they stand for what it stands for.
pub fn token_bytes()
    ensures criterion { (p : Parts) → is_criterion p ≡ true → whole_from Begin (criterion_text p) ≡ true }
    ensures criterion_only { (w : List ℕ) → whole_from Begin w ≡ true → (p : Parts) × (is_criterion p ≡ true) × (criterion_text p ≡ w) }
    ensures operand { (t : Text) → is_text t ≡ true → whole_from operand_begin (text_of t) ≡ true }
    ensures operand_only { (w : List ℕ) → whole_from operand_begin w ≡ true → (t : Text) × (is_text t ≡ true) × (text_of t ≡ w) }
    ensures parts { (p : Parts) → criterion_text p ≡ level_text p.level ++ joined_names (names_of p) ++ prefix_text p.prefix ++ field_text p.field }
    ensures parts_good { (p : Parts) → is_criterion p ≡ (is_level p.level && list_all (is_all is_name_byte) (names_of p) && is_some_text p.prefix && is_field p.field) }
    ensures parts_any { (level : Option Level) (name : List ℕ) (names : List (List ℕ)) (prefix : Option Text) (field : Option (List ℕ)) → (p : Parts) × (p.level ≡ level) × (names_of p ≡ name ∷ names) × (p.prefix ≡ prefix) × (p.field ≡ field) }
    ensures one_criterion { (p q : Parts) → is_criterion p ≡ true → is_criterion q ≡ true → criterion_text p ≡ criterion_text q → p ≡ q }
    ensures one_operand { (t u : Text) → is_text t ≡ true → is_text u ≡ true → text_of t ≡ text_of u → t ≡ u }
    ensures meaning { (t : Text) → is_text t ≡ true → operand_meaning (text_of t) ≡ meant_by t }
{}

/// What is read of a text is the queries of its lines, joined by `or`, whatever the rules, and those
/// are read. A fault of syntax is at the first byte at which no text of queries can go on. Under the
/// rules of tags, numbers and depth the texts whose queries have no fault are read, and no others.
pub fn text_reading()
    ensures complete { (text : List ℕ) (q : Written) → IsText text q → read_lines free 0 None (lines_of text) ≡ Ok (steps_of q) }
    ensures one_tree { (text : List ℕ) (p q : Written) → IsText text p → IsText text q → tree_of p ≡ tree_of q }
    ensures sound { (rules : Rules) → AreRules rules → (text : List ℕ) (out : List Step) → read_lines rules 0 None (lines_of text) ≡ Ok out → (q : Written) × IsText text q × (steps_of q ≡ out) }
    ensures stops { (rules : Rules) → AreRules rules → (text : List ℕ) (at : ℕ) → read_lines rules 0 None (lines_of text) ≡ Err (Syntax at) → StopsAt IsText text at }
    ensures fine { (is_tag is_decimal is_pattern : List ℕ → Bool) (most : ℕ) (text : List ℕ) (q : Written) → IsFineText is_tag is_decimal is_pattern most text q → read_lines (rules_of is_tag is_decimal is_pattern most) 0 None (lines_of text) ≡ Ok (steps_of q) }
    ensures only_fine { (is_tag is_decimal is_pattern : List ℕ → Bool) (most : ℕ) (text : List ℕ) (out : List Step) → read_lines (rules_of is_tag is_decimal is_pattern most) 0 None (lines_of text) ≡ Ok out → (q : Written) × IsFineText is_tag is_decimal is_pattern most text q × (steps_of q ≡ out) }
{}

/// Steps are those of at most one tree, and leave its truth, whatever the truth of each test.
pub fn steps_of_trees()
    ensures one_tree { (p q : Query TestParts) → tree_steps p ≡ tree_steps q → p ≡ q }
    ensures truth { (test : TestParts → Bool) (q : Query TestParts) → truths_of test (tree_steps q) [] ≡ is_true test q ∷ [] }
{}

/// A text in UTF-8 is queries without a fault just where it has no first fault, so it never has both. Its first
/// fault of syntax is at the first byte at which no text of queries can go on, or at the end of a text without a
/// query. At each other fault stands what it names: a name that is no tag, a number or a pattern that is none, or a
/// parenthesis or a `not` too many. Nothing is at fault before it: each line before its own is passed over or is a
/// query without a fault, and what was read of its line has no other.
pub fn text_faults()
    ensures none { (is_tag is_decimal is_pattern : List ℕ → Bool) (most : ℕ) (text : List ℕ) → query_fault is_tag is_decimal is_pattern most text ≡ None → IsUtf8 text × (q : Written) × IsFineText is_tag is_decimal is_pattern most text q }
    ensures only_none { (is_tag is_decimal is_pattern : List ℕ → Bool) (most : ℕ) (text : List ℕ) (q : Written) → IsUtf8 text → IsFineText is_tag is_decimal is_pattern most text q → query_fault is_tag is_decimal is_pattern most text ≡ None }
    ensures syntax { (is_tag is_decimal is_pattern : List ℕ → Bool) (most : ℕ) (text : List ℕ) (at : ℕ) → IsUtf8 text → query_fault is_tag is_decimal is_pattern most text ≡ Some (Syntax at) → StopsAt IsText text at }
    ensures stands { (l : Language) (text : List ℕ) (f : Fault) → IsUtf8 text → query_fault l.is_tag l.is_decimal l.is_pattern l.most text ≡ Some f → Stands l text f }
{}

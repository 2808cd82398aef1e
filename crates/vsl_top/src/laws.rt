//! Laws: functions that do nothing, for what their clauses say.

ghost use Rattle.std.specs.Prelude.{◌≡◌, ◌<◌, ℕ, Bool, true, List, length, map};
ghost use Rattle.std.specs.List.{All, IsDistinct, list_any, sum_by};
ghost use Rattle.std.specs.List.Sorted.{IsSortedBy};
ghost use Rattle.std.specs.Ordering.{is_lt};
ghost use Rattle.txn_rows.specs.declared.group.Group.{Group};
ghost use Rattle.vsl_select.specs.Showing.{Showing};
ghost use Rattle.vsl_select.specs.Shown.{shown};
ghost use Rattle.vsl_top.specs.Report.{Key, count_of, is_same, keys_of, line_order, lines_of};

/// A report has a line for each key that is counted, and for no other, once, with how often the key is counted; the
/// counts add up to the number of shown records; and no line comes before one that it follows in the report's order.
pub fn reports_add_up()
    ensures once { (keys : List Key) → IsDistinct is_same (map (λ l. l.key) (lines_of keys)) }
    ensures counted { (keys : List Key) →
        All (λ l. (0 < l.count) × (l.count ≡ count_of l.key keys)) (lines_of keys) }
    ensures every { (keys : List Key) (key : Key) → 0 < count_of key keys →
        list_any (λ l. is_same key l.key) (lines_of keys) ≡ true }
    ensures sum { (showing : Showing) (first_field : Bool) (groups : List Group) →
        sum_by (λ l. l.count) (lines_of (keys_of showing first_field groups)) ≡ sum_by
        (λ g. sum_by (λ m. length m.records) (shown showing g).members) groups }
    ensures ordered { (keys : List Key) →
        IsSortedBy (λ a b. is_lt (line_order a b)) (lines_of keys) }
{}

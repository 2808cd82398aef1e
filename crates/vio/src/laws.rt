//! What the calls of a list come to in the world. A law is a function that does nothing.

ghost use Rattle.std.specs.Prelude.{◌≡◌, ◌<◌, ℕ, true, false, List, [], ◌∷◌, Some};
ghost use Rattle.log_model.specs.Faults.{HasNewFault};
ghost use Rattle.vio.specs.World.{Seen, CallKind, Reading, Writing, Gains, Loses};
ghost use Rattle.vio.specs.declared.world.TheConstants.{ERRORS};
ghost use Rattle.vio.specs.Touches.{IsNewHandle, IsOneOf, Touches};
ghost use Rattle.vio.specs.Calls.{AreOn, AreWithin, Call, Did, FailedEach, IsFailed, OnlyOpen, Take, handles_given, has_read, is_end, taken_by, written_by};

/// What was written to a handle gained what calls write to it, and so did the file that it names, where they write no other
/// but standard error, which hasn't that name.
pub fn calls_write()
    ensures written { (h : ℕ) (calls : List Call) (s t : Seen) → Did calls s t → Gains (s.written h) (t.written h) (written_by h calls) }
    ensures held { (reads : List ℕ) (h : ℕ) (name : List ℕ) (calls : List Call) (s t : Seen) → AreOn reads (ERRORS ∷ h ∷ []) calls → 2 < h →
        s.names Writing h name ≡ true → s.names Writing ERRORS name ≡ false → Did calls s t → Gains (s.held name) (t.held name) (written_by h calls) }
{}

/// A given handle lost, of what it had left, what calls take from it; all of it, where a read met the end.
pub fn calls_take()
    ensures left { (h : ℕ) (calls : List Call) (s t : Seen) → s.given h ≡ true → Did calls s t → Loses (s.left h) (t.left h) (taken_by h calls) }
    ensures ended { (h : ℕ) (calls : List Call) (s t : Seen) (a : List ℕ) → s.given h ≡ true → Did calls s t → has_read is_end h calls ≡ true → s.left h ≡ Some a → a ≡ taken_by h calls }
{}

/// What calls aren't within stays as it was, and files keep their bytes where calls only open and read.
pub fn calls_touch_no_more()
    ensures touched { (reads writes : List ℕ) (opened created : List (List ℕ)) (calls : List Call) (s t : Seen) → AreWithin reads writes opened created calls → Did calls s t → Touches reads writes created s t }
    ensures kept { (names : List (List ℕ)) (calls : List Call) (s t : Seen) (name bytes : List ℕ) → OnlyOpen names calls → Did calls s t → s.held name ≡ Some bytes → t.held name ≡ Some bytes }
{}

/// A given handle stays given. A handle that is new was opened or created by one of the calls, under one of their names.
pub fn calls_give()
    ensures stays { (h : ℕ) (calls : List Call) (s t : Seen) → Did calls s t → s.given h ≡ true → t.given h ≡ true }
    ensures new { (calls : List Call) (s t : Seen) (h : ℕ) → Did calls s t → s.given h ≡ false → t.given h ≡ true → IsOneOf h (handles_given calls) }
    ensures named { (reads writes : List ℕ) (opened created : List (List ℕ)) (calls : List Call) (s t : Seen) (h : ℕ) → AreWithin reads writes opened created calls → Did calls s t →
        s.given h ≡ false → t.given h ≡ true → IsNewHandle opened created h t }
{}

/// Where a call failed under a name, the count of such calls rose for it; where a read failed under each name of a handle
/// that was given before, it rose for each of them.
pub fn failed_calls_are_counted()
    ensures one { (kind : CallKind) (name : List ℕ) (call : Call) (calls : List Call) (s t : Seen) → IsOneOf call calls → IsFailed kind name call → Did calls s t → HasNewFault (s.faults kind name) (t.faults kind name) }
    ensures each { (h : ℕ) (part name : List ℕ) (calls : List Call) (s t : Seen) → s.given h ≡ true → s.names Reading h name ≡ true → IsOneOf (Take h part FailedEach) calls → Did calls s t →
        HasNewFault (s.faults Reading name) (t.faults Reading name) }
{}

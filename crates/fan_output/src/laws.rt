//! Laws: functions that do nothing, for what their clauses say.

ghost use Rattle.std.specs.Prelude.{◌≡◌, ℕ, Bool, true, false, List, [], ◌∷◌, None};
ghost use Rattle.vio.specs.declared.world.TheConstants.{ERRORS};
ghost use Rattle.vio.specs.Calls.{Call, AreOn, last_failed};
ghost use Rattle.ring_layout.specs.declared.item.Item.{Item};
ghost use Rattle.fan_output.specs.declared.fan.FanEnding.{FanEnding};
ghost use Rattle.fan_output.specs.Ends.{TextShort, TextTook, TextWritten};
ghost use Rattle.fan_output.specs.Fan.{EndedAlone, FanEnded, FanShort, FansPrinted, FansTook, Outlet};
ghost use Rattle.fan_output.specs.Unwritten.{first_unwritten};

/// Of one sink, what a fan comes to is what an output comes to that is alone, by these very calls and with these very items.
pub fn a_fan_of_one_is_alone()
    ensures ended { (o : Outlet) (ending : FanEnding) (reads : List ℕ) (calls : List Call)
        (done last : List Item) (all : Bool) → AreOn reads (ERRORS ∷ o.sink ∷ []) calls →
        last_failed calls ≡ true → FanEnded (o ∷ []) ending calls done last all →
        EndedAlone o.sink o.due calls done last all }
    ensures printed { (o : Outlet) (reads : List ℕ) (calls : List Call) (done : List Item) →
        AreOn reads (ERRORS ∷ o.sink ∷ []) calls → FansPrinted (o ∷ []) calls done →
        TextWritten o.sink o.due calls done × (first_unwritten calls ≡ None) }
    ensures took { (o : Outlet) (reads : List ℕ) (calls : List Call) (done : List Item) →
        AreOn reads (ERRORS ∷ o.sink ∷ []) calls → FansTook false (o ∷ []) calls done →
        TextTook o.sink o.due calls done × (first_unwritten calls ≡ None) }
    ensures short { (o : Outlet) (calls : List Call) (met : List Item) (all : Bool) →
        FanShort (o ∷ []) calls met all → TextShort o.sink o.due calls met all }
{}

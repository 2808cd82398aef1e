//! What makes the texts.

ghost use Rattle.std.specs.Prelude.{◌≡◌, ◌≢◌, ℕ, ◌<◌, Bool, true, false, List, ◌∷◌, [], ◌++◌, OnOk};
ghost use Rattle.log_model.specs.Prefix.{IsPrefix};
ghost use Rattle.ring_layout.specs.declared.item.Item.{Item};

use log_model::NoMemory;
use ring_layout::Item;

/// Texts of the items of a log, each at its place, which grow with the items and are handed out in pieces.
pub trait Texts: Drop {
    /// The text at a place of these items, where they are all or not. No call changes this.
    ghost text: { Self → ℕ → List Item → Bool → List ℕ };

    /// Whether these items complete as many groups as are kept at a place. No call changes this.
    ghost filled: { Self → ℕ → List Item → Bool };

    /// At a place it was given these items, which are all or not, and of its text these bytes were taken.
    ghost holds: { Self → ℕ → List Item → Bool → List ℕ → Type 0 };

    /// How many places there are. No call changes this.
    ghost count: { Self → ℕ };

    /// Takes an item, at each place that has fewer groups than are kept and wasn't stopped.
    fn item(&mut self, item: &Item) -> Result<(), NoMemory>
        ensures same_text { text self.new ≡ text self.old }
        ensures same_filled { filled self.new ≡ filled self.old }
        ensures same_count { count self.new ≡ count self.old }
        ensures takes { OnOk result ((i : ℕ) (met : List Item) (taken : List ℕ) →
            holds self.old i met false taken → filled self.old i met ≡ false →
            holds self.new i (met ++ item.now ∷ []) false taken) };

    /// The log has ended.
    fn end(&mut self) -> Result<(), NoMemory>
        ensures same_text { text self.new ≡ text self.old }
        ensures same_filled { filled self.new ≡ filled self.old }
        ensures same_count { count self.new ≡ count self.old }
        ensures ends { OnOk result ((i : ℕ) (met : List Item) (taken : List ℕ) →
            holds self.old i met false taken → filled self.old i met ≡ false →
            holds self.new i met true taken) };

    /// The text at a place since it was last taken. It takes no memory.
    fn take_text(&mut self, place: usize) -> Vec<u8>
        requires place { place < count self.old }
        ensures same_text { text self.new ≡ text self.old }
        ensures same_filled { filled self.new ≡ filled self.old }
        ensures same_count { count self.new ≡ count self.old }
        ensures text { (met : List Item) (all : Bool) (taken : List ℕ) →
            holds self.old place met all taken → taken ++ result.items ≡ text self.old place met all }
        ensures taken { (met : List Item) (all : Bool) (taken : List ℕ) →
            holds self.old place met all taken →
            holds self.new place met all (taken ++ result.items) }
        ensures others { (i : ℕ) (met : List Item) (all : Bool) (taken : List ℕ) → i ≢ place →
            holds self.old i met all taken → holds self.new i met all taken };

    /// Whether a place has as many groups as are kept.
    fn is_filled(&self, place: usize) -> bool
        requires place { place < count self.now }
        ensures { (met : List Item) (taken : List ℕ) → holds self.now place met false taken →
            result ≡ filled self.now place met };

    /// How many bytes of the text at a place weren't taken. No promise rests on it.
    fn text_len(&self, place: usize) -> usize
        requires place { place < count self.now };

    /// Nothing more is wanted at a place.
    fn stop(&mut self, place: usize)
        requires place { place < count self.old }
        ensures same_text { text self.new ≡ text self.old }
        ensures same_filled { filled self.new ≡ filled self.old }
        ensures same_count { count self.new ≡ count self.old }
        ensures others { (i : ℕ) (met : List Item) (all : Bool) (taken : List ℕ) → i ≢ place →
            holds self.old i met all taken → holds self.new i met all taken };

    /// The text of items goes on in that of items and more items.
    ghost grows: { (texts : Self) (i : ℕ) (met : List Item) (all : Bool) (taken : List ℕ) →
        holds texts i met all taken → (list more : List Item) (ended : Bool) →
        IsPrefix (text texts i list false) (text texts i (list ++ more) ended) };
}

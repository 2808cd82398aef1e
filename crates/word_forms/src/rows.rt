//! What the rows of a command say.

ghost use Rattle.std.specs.Prelude.{◌≡◌, ◌<◌, OnSome};
ghost use Rattle.word_forms.specs.Items.{Table};

/// The rows of a command.
pub trait Rows: Copy {
    /// What an option is to the command.
    type Choice: Copy;

    /// What the rows say.
    ghost rows: { Table Self Self.Choice };

    /// The option that a letter is, where it is one.
    fn letter(&self, letter: u8) -> Option<Self::Choice>
        ensures choice { result ≡ rows.letter self.now letter }
        ensures ascii { OnSome result (letter < 128) };

    /// The option that a whole word is, where it is one.
    fn name(&self, word: &str) -> Option<Self::Choice>
        ensures { result ≡ rows.name self.now word.now };

    /// Whether an option has a value.
    fn wants(&self, choice: Self::Choice) -> bool
        ensures { result ≡ rows.wants choice };

    /// The rows that hold behind an operand, where it is taken.
    fn behind(&self, operand: &str) -> Option<Self>
        ensures { result ≡ rows.behind self.now operand.now };
}

//! Rows as tables.

ghost use Rattle.std.specs.Prelude.{◌≡◌};
ghost use Rattle.word_forms.specs.Lookup.{first_letter, first_name};

/// What a letter is by the first row that has it.
pub fn letter_in<C: Copy>(rows: &[(u8, C)], letter: u8) -> Option<C>
    ensures { result ≡ first_letter rows.now letter }
{
    for row in rows {
        if row.0 == letter {
            return Some(row.1);
        }
    }
    None
}

/// What a word is by the first row of this name.
pub fn name_in<C: Copy>(rows: &[(&str, C)], word: &str) -> Option<C>
    ensures { result ≡ first_name (λ row. row.0.now) (λ row. row.1) rows.now word.now }
{
    for row in rows {
        if row.0 == word {
            return Some(row.1);
        }
    }
    None
}

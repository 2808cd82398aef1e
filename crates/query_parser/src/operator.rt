//! The operators of a test.

ghost use Rattle.std.specs.Prelude.{◌≡◌, false, IfSome, IfNone};
ghost use Rattle.query_grammar.specs.Lexical.{is_one_of, operators};
ghost use Rattle.query_parser.specs.Operators.{operator_text};

/// How numbers are compared.
#[derive(Clone, Copy, Debug, PartialEq, Eq)]
pub enum Comparison {
    /// `==`
    Equal,
    /// `!=`
    NotEqual,
    /// `<`
    Less,
    /// `<=`
    LessOrEqual,
    /// `>`
    Greater,
    /// `>=`
    GreaterOrEqual,
}

/// An operator as it is written.
#[derive(Clone, Copy, Debug, PartialEq, Eq)]
pub enum Operator {
    /// One that compares numbers.
    Number(Comparison),
    /// `eq` where it is true, else `ne`.
    Text(bool),
    /// `~` where it is true, else `!~`.
    Pattern(bool),
}

/// The operator that these bytes are.
pub(crate) fn read_operator(text: &[u8]) -> Option<Operator>
    ensures found { IfSome result (λ operator. operator_text operator ≡ text.now) }
    ensures none { IfNone result (is_one_of operators text.now ≡ false) }
{
    let operator = match text {
        b"==" => Operator::Number(Comparison::Equal),
        b"!=" => Operator::Number(Comparison::NotEqual),
        b"<" => Operator::Number(Comparison::Less),
        b"<=" => Operator::Number(Comparison::LessOrEqual),
        b">" => Operator::Number(Comparison::Greater),
        b">=" => Operator::Number(Comparison::GreaterOrEqual),
        b"eq" => Operator::Text(true),
        b"ne" => Operator::Text(false),
        b"~" => Operator::Pattern(true),
        b"!~" => Operator::Pattern(false),
        _ => return None,
    };
    Some(operator)
}

//! Numbers and names in the values of options.

ghost use Rattle.std.specs.Prelude.{◌≡◌, ◌<◌, length, position, IfSome};
ghost use Rattle.tool_words.specs.Number.{both, count_and_seed, is_comma, grouping_named, number_in};

use txn_rows::Grouping;
use vsl_decimal::whole_number;

/// The number of a text of 1 to 9 digits, where it is in this range.
pub(crate) fn read_number(text: &[u8], low: u32, high: u32) -> Option<u32>
    ensures { result ≡ number_in low high text.now }
{
    if text.len() > 9 {
        return None;
    }
    whole_number(text, low, high)
}

/// The place of the first comma.
fn comma_in(text: &[u8]) -> Option<usize>
    ensures place { result ≡ position is_comma text.now }
    ensures within { IfSome result (λ at. at < length text.now) }
{
    text.iter().position(|b| *b == b',')
}

/// Two numbers, where both are there.
fn pair(count: Option<u32>, seed: Option<u32>) -> Option<(u32, u32)>
    ensures { result ≡ both count seed }
{
    match count {
        None => None,
        Some(count) => match seed {
            None => None,
            Some(seed) => Some((count, seed)),
        },
    }
}

/// A count of requests and a seed, round the first comma.
pub(crate) fn read_count_and_seed(text: &[u8]) -> Option<(u32, u32)>
    ensures { result ≡ count_and_seed text.now }
{
    match comma_in(text) {
        None => None,
        Some(at) => {
            let (count, _) = text.split_at(at);
            let (_, seed) = text.split_at(at + 1);
            pair(read_number(count, 1, 100_000), read_number(seed, 0, 65_536))
        }
    }
}

/// The grouping of this name.
pub(crate) fn read_grouping(text: &str) -> Option<Grouping>
    ensures { result ≡ grouping_named text.now }
{
    match text {
        "raw" => Some(Grouping::Raw),
        "vxid" => Some(Grouping::Vxid),
        "request" => Some(Grouping::Request),
        "session" => Some(Grouping::Session),
        _ => None,
    }
}

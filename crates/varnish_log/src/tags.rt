//! Varnish's tags, by the numbers that they have in its log.

ghost use Rattle.std.specs.Prelude.{◌≡◌, ◌+◌, ◌<◌, ◌≤◌};
ghost use Rattle.varnish_log.specs.Tags.{tag_at};
ghost use Rattle.varnish_log.specs.inside.Places.{past_one, place_of};

use crate::form::BinaryForm;
use vsl_tags::Tag;

/// This project's number of each of Varnish's tags, by its number in Varnish 7.1; 0 where this project has none.
static NUMBERS: [u8; 97] = [
    0, 1, 2, 3, 4, 5, 7, 0, 8, 10, 11, 12, 0, 13, 14, 53, 54, 57, 55, 56, 58, 59, 60, 61, 62, 65,
    63, 64, 66, 67, 68, 69, 70, 73, 71, 72, 74, 75, 76, 77, 78, 81, 79, 80, 82, 83, 84, 85, 86, 89,
    87, 88, 90, 91, 92, 16, 17, 18, 15, 19, 20, 21, 22, 26, 31, 33, 34, 35, 36, 37, 38, 9, 24, 25,
    39, 43, 42, 44, 45, 40, 41, 27, 29, 28, 30, 46, 0, 49, 50, 51, 52, 32, 47, 6, 23, 48, 0,
];

/// A place, where the tags before it were counted without the one at this place.
fn past_one(place: usize, lacked: u8) -> usize
    requires { place < 1000 }
    ensures past { result ≡ past_one place lacked }
    ensures few { result ≤ place + 1 }
{
    if usize::from(lacked) <= place {
        return place + 1;
    }
    place
}

/// The place in the table of the tag with this number in a log of this form.
fn place_of(form: BinaryForm, number: u8) -> usize
    ensures { result ≡ place_of form number }
{
    let mut place = usize::from(number);
    let mut left = form.lacked_places();
    while let Some((lacked, behind)) = left.split_first() {
        place = past_one(place, *lacked);
        left = behind;
    }
    place
}

/// The tag that has the name of the tag with this number in a log of this form.
pub(crate) fn tag_at(form: BinaryForm, number: u8) -> Option<Tag>
    ensures { result ≡ tag_at form number }
{
    let place = place_of(form, number);
    if place >= NUMBERS.len() {
        return None;
    }
    Tag::from_number(NUMBERS[place])
}

//! Reading a record of Varnish's binary log.

ghost use Rattle.std.specs.Prelude.{◌≡◌, ◌<◌, ◌≤◌, length, IfSome, IfNone};
ghost use Rattle.std.specs.Int.{byte_len, from_le_bytes};
ghost use Rattle.varnish_log.specs.Entries.{head_size};
ghost use Rattle.varnish_log.specs.Forms.{layout};
ghost use Rattle.varnish_log.specs.inside.Views.{AreWords, IsNext, mark_of_id};

use crate::form::BinaryForm;
use vsl_record::{Mark, Vxid};

/// The bytes of a word.
const WORD: usize = 4;

/// A record of Varnish's binary log.
#[derive(Clone, Copy)]
pub(crate) struct Entry<'a> {
    /// The number of its tag there.
    pub number: u8,
    pub vxid: Vxid,
    pub mark: Mark,
    /// Its bytes, with a text's zero byte at the end.
    pub bytes: &'a [u8],
}

/// What begins some bytes.
pub(crate) enum Next<'a> {
    /// A record, and what follows it.
    Entry(Entry<'a>, &'a [u8]),
    /// What may be a record's beginning, or fewer bytes than a head has.
    Short,
    /// No record's beginning.
    Damaged,
}

/// The numbers of a record's head: the first word, and that of VXID and mark.
#[derive(Clone, Copy)]
struct Words {
    first: u32,
    id: u64,
}

/// The number of VXID and mark that begins some bytes.
fn id_in(form: BinaryForm, bytes: &[u8]) -> Option<u64>
    ensures some { IfSome result (λ id. id ≡ from_le_bytes (layout form).width bytes.now) }
    ensures enough { IfSome result (λ id. byte_len (layout form).width ≤ length bytes.now) }
    ensures none { IfNone result (length bytes.now < byte_len (layout form).width) }
{
    match form {
        BinaryForm::Narrow => {
            let [a, b, c, d, ..] = bytes else {
                return None;
            };
            Some(u64::from(u32::from_le_bytes([*a, *b, *c, *d])))
        }
        BinaryForm::Wide => {
            let [a, b, c, d, e, f, g, h, ..] = bytes else {
                return None;
            };
            Some(u64::from_le_bytes([*a, *b, *c, *d, *e, *f, *g, *h]))
        }
    }
}

/// The numbers of the head that begins some bytes.
fn words_of(form: BinaryForm, bytes: &[u8]) -> Option<Words>
    ensures some { IfSome result (λ words. AreWords form words bytes.now) }
    ensures none { IfNone result (length bytes.now < head_size form) }
{
    let [a, b, c, d, behind @ ..] = bytes else {
        return None;
    };
    let id = id_in(form, behind)?;
    let first = u32::from_le_bytes([*a, *b, *c, *d]);
    Some(Words { first, id })
}

/// The mark of a number of VXID and mark, if it has no two, and a VXID in range.
#[tactic(auto, unfolding(crate::specs::inside::Views::mark_of_id))]
fn mark_of_id(form: BinaryForm, id: u64) -> Option<Mark>
    ensures { result ≡ mark_of_id form id }
{
    if id % form.client() >= form.vxid_end() {
        return None;
    }
    match id / form.client() {
        0 => Some(Mark::Plain),
        1 => Some(Mark::Client),
        2 => Some(Mark::Backend),
        _ => None,
    }
}

/// The record that begins the bytes.
pub(crate) fn next_entry(form: BinaryForm, bytes: &[u8]) -> Next<'_>
    ensures { IsNext form result bytes.now }
{
    let Some(words) = words_of(form, bytes) else {
        return Next::Short;
    };
    let Some(mark) = mark_of_id(form, words.id) else {
        return Next::Damaged;
    };
    if words.first / 65536 % 256 != form.version() {
        return Next::Damaged;
    }
    let head = WORD + form.id_size();
    let size = (words.first % 65536) as usize;
    let filling = (4 - size % 4) % 4;
    if bytes.len() < head + size + filling {
        return Next::Short;
    }
    let (_, behind) = bytes.split_at(head);
    let (content, behind) = behind.split_at(size);
    let (_, rest) = behind.split_at(filling);
    let entry = Entry {
        number: (words.first / 16_777_216) as u8,
        vxid: words.id % form.client(),
        mark,
        bytes: content,
    };
    Next::Entry(entry, rest)
}

//! The names of tags.

ghost use Rattle.std.specs.Prelude.{◌≡◌, ◌≢◌, ◌≤◌, ℕ, length, IfSome, IfNone};
ghost use Rattle.std.specs.Str.{str_to_ascii_lowercase};
ghost use Rattle.vsl_tags.specs.Tags.{IsTag, longest_name, name_columns, tag_name, tag_rank};

use crate::number::Tag;

/// The number of the last tag; the first is 1.
pub(crate) const LAST: u8 = 92;

/// The tags from 1 on, in this order: each one's name before spaces, in 15 columns, and its rank, which is how many of the
/// names come before it.
static ROWS: [(&str, u8); 92] = [
    ("Debug          ", 23),
    ("Error          ", 26),
    ("CLI            ", 22),
    ("SessOpen       ", 77),
    ("SessClose      ", 75),
    ("SessError      ", 76),
    ("BackendOpen    ", 1),
    ("BackendClose   ", 0),
    ("Backend_health ", 2),
    ("HttpGarbage    ", 41),
    ("Proxy          ", 55),
    ("ProxyGarbage   ", 56),
    ("Length         ", 42),
    ("FetchError     ", 29),
    ("Fetch_Body     ", 30),
    ("BogoHeader     ", 21),
    ("LostHeader     ", 44),
    ("TTL            ", 79),
    ("VCL_acl        ", 83),
    ("VCL_call       ", 84),
    ("VCL_trace      ", 86),
    ("VCL_return     ", 85),
    ("VCL_use        ", 87),
    ("VCL_Log        ", 82),
    ("VCL_Error      ", 81),
    ("ReqStart       ", 63),
    ("ReqAcct        ", 57),
    ("BereqAcct      ", 4),
    ("PipeAcct       ", 54),
    ("VfpAcct        ", 89),
    ("Hit            ", 38),
    ("HitMiss        ", 39),
    ("HitPass        ", 40),
    ("ExpBan         ", 27),
    ("ExpKill        ", 28),
    ("WorkThread     ", 91),
    ("ESI_xmlerror   ", 24),
    ("Hash           ", 37),
    ("Gzip           ", 32),
    ("Storage        ", 78),
    ("Timestamp      ", 80),
    ("Begin          ", 3),
    ("Link           ", 43),
    ("End            ", 25),
    ("VSL            ", 88),
    ("Witness        ", 90),
    ("Filters        ", 31),
    ("Notice         ", 45),
    ("H2RxHdr        ", 34),
    ("H2RxBody       ", 33),
    ("H2TxHdr        ", 36),
    ("H2TxBody       ", 35),
    ("ReqMethod      ", 60),
    ("ReqURL         ", 65),
    ("ReqStatus      ", 64),
    ("ReqReason      ", 62),
    ("ReqProtocol    ", 61),
    ("ReqHeader      ", 58),
    ("ReqUnset       ", 66),
    ("ReqLost        ", 59),
    ("RespMethod     ", 69),
    ("RespURL        ", 73),
    ("RespStatus     ", 72),
    ("RespReason     ", 71),
    ("RespProtocol   ", 70),
    ("RespHeader     ", 67),
    ("RespUnset      ", 74),
    ("RespLost       ", 68),
    ("BereqMethod    ", 7),
    ("BereqURL       ", 11),
    ("BereqStatus    ", 10),
    ("BereqReason    ", 9),
    ("BereqProtocol  ", 8),
    ("BereqHeader    ", 5),
    ("BereqUnset     ", 12),
    ("BereqLost      ", 6),
    ("BerespMethod   ", 15),
    ("BerespURL      ", 19),
    ("BerespStatus   ", 18),
    ("BerespReason   ", 17),
    ("BerespProtocol ", 16),
    ("BerespHeader   ", 13),
    ("BerespUnset    ", 20),
    ("BerespLost     ", 14),
    ("ObjMethod      ", 48),
    ("ObjURL         ", 52),
    ("ObjStatus      ", 51),
    ("ObjReason      ", 50),
    ("ObjProtocol    ", 49),
    ("ObjHeader      ", 46),
    ("ObjUnset       ", 53),
    ("ObjLost        ", 47),
];

/// The row of a tag.
fn row_of(tag: Tag) -> &'static (&'static str, u8)
    ensures columns { result.now.0.now ≡ name_columns tag }
    ensures rank { result.now.1 ≡ tag_rank tag }
    ensures tag { IsTag tag }
{
    &ROWS[usize::from(tag.number()) - 1]
}

/// The name of a tag in 15 columns, before spaces.
fn columns_of(tag: Tag) -> &'static str
    ensures columns { result.now ≡ name_columns tag }
    ensures tag { IsTag tag }
{
    row_of(tag).0
}

/// How many tags have names that come before that of the tag, by bytes, as 0 for `BackendClose`.
///
/// Source: this project's choice.
pub fn rank_of(tag: Tag) -> u8
    ensures rank { result ≡ tag_rank tag }
    ensures tag { IsTag tag }
{
    row_of(tag).1
}

/// The name of a tag as the manual writes it, as `ReqMethod` for 53.
///
/// Source: vsl(7), in this project's subset.
pub fn name_of(tag: Tag) -> &'static str
    ensures name { result.now ≡ tag_name tag }
    ensures nonempty { 1 ≤ length result.now }
    ensures longest { length result.now ≤ longest_name }
{
    columns_of(tag).trim_end()
}

/// The tag with this name, as 53 for `reqmethod`. Capitals don't count.
///
/// Source: vsl(7), in this project's subset.
pub fn tag_of(name: &str) -> Option<Tag>
    ensures named { IfSome result (λ tag. str_to_ascii_lowercase (tag_name tag) ≡ str_to_ascii_lowercase name.now) }
    ensures tag { IfSome result (λ tag. IsTag tag) }
    ensures refused { IfNone result ((n : ℕ) → IsTag n → str_to_ascii_lowercase (tag_name n) ≢ str_to_ascii_lowercase name.now) }
{
    for number in 1..=LAST {
        let tag = Tag::of(number);
        if name_of(tag).eq_ignore_ascii_case(name) {
            return Some(tag);
        }
    }
    None
}

/// The name of a tag at the left of 14 columns, and a space.
pub fn name_columns(tag: Tag) -> &'static [u8; 15]
    ensures { result.now ≡ name_columns tag }
{
    let Some(columns) = columns_of(tag).as_bytes().as_array() else {
        unreachable!()
    };
    columns
}

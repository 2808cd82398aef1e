//! Laws: functions that do nothing, for what their clauses say.

ghost use Rattle.std.specs.Prelude.{◌≡◌, ◌↔◌, ◌∷◌, [], Bool, IsTrue, List, codes, map, ℕ};
ghost use Rattle.std.specs.Cmp.Lexicographic.{slice_cmp};
ghost use Rattle.std.specs.Ordering.{nat_cmp};
ghost use Rattle.std.specs.Str.{str_to_ascii_lowercase};
ghost use Rattle.vsl_tags.specs.declared.named.TheConstants.{SESS_OPEN, SESS_CLOSE, BACKEND_OPEN, FETCH_ERROR, VCL_CALL, VCL_RETURN, VCL_LOG, REQ_START, REQ_ACCT, BEREQ_ACCT, HIT, HIT_MISS, HIT_PASS, TIMESTAMP, BEGIN, LINK, END, REQ_METHOD, REQ_URL, REQ_PROTOCOL, REQ_HEADER, RESP_STATUS, RESP_HEADER, BEREQ_METHOD, BEREQ_URL, BEREQ_PROTOCOL, BEREQ_HEADER, BERESP_STATUS, BERESP_HEADER};
ghost use Rattle.vsl_tags.specs.Glob.{IsFit, fits};
ghost use Rattle.vsl_tags.specs.Tags.{IsTag, begin_tag, end_tag, link_tag, number_of_lower, tag_name, tag_rank, timestamp_tag, vsl_tag};

use crate::number::Tag;

/// A name in lower case finds its tag, and so no two names are alike, also
/// without regard to case.
pub fn names_differ()
    ensures found { (n : ℕ) → IsTag n → number_of_lower (str_to_ascii_lowercase (tag_name n)) ≡ n }
    ensures differ { (m n : ℕ) → IsTag m → IsTag n → str_to_ascii_lowercase (tag_name m) ≡ str_to_ascii_lowercase (tag_name n) → m ≡ n }
{}

/// The ranks of tags compare as the names do, by bytes.
pub fn ranks_order_names()
    ensures { (m n : ℕ) → IsTag m → IsTag n → nat_cmp (tag_rank m) (tag_rank n) ≡ slice_cmp nat_cmp (tag_name m) (tag_name n) }
{}

/// The numbers that crates name are those of the tags that they are called after.
pub fn constants_are_named()
    ensures sessions { map tag_name (SESS_OPEN ∷ SESS_CLOSE ∷ BACKEND_OPEN ∷ []) ≡ codes "SessOpen" ∷ codes "SessClose" ∷ codes "BackendOpen" ∷ [] }
    ensures calls { map tag_name (FETCH_ERROR ∷ VCL_CALL ∷ VCL_RETURN ∷ VCL_LOG ∷ []) ≡ codes "FetchError" ∷ codes "VCL_call" ∷ codes "VCL_return" ∷ codes "VCL_Log" ∷ [] }
    ensures accounts { map tag_name (REQ_START ∷ REQ_ACCT ∷ BEREQ_ACCT ∷ []) ≡ codes "ReqStart" ∷ codes "ReqAcct" ∷ codes "BereqAcct" ∷ [] }
    ensures hits { map tag_name (HIT ∷ HIT_MISS ∷ HIT_PASS ∷ []) ≡ codes "Hit" ∷ codes "HitMiss" ∷ codes "HitPass" ∷ [] }
    ensures transactions { map tag_name (TIMESTAMP ∷ BEGIN ∷ LINK ∷ END ∷ []) ≡ codes "Timestamp" ∷ codes "Begin" ∷ codes "Link" ∷ codes "End" ∷ [] }
    ensures requests { map tag_name (REQ_METHOD ∷ REQ_URL ∷ REQ_PROTOCOL ∷ REQ_HEADER ∷ []) ≡ codes "ReqMethod" ∷ codes "ReqURL" ∷ codes "ReqProtocol" ∷ codes "ReqHeader" ∷ [] }
    ensures responses { map tag_name (RESP_STATUS ∷ RESP_HEADER ∷ []) ≡ codes "RespStatus" ∷ codes "RespHeader" ∷ [] }
    ensures fetches { map tag_name (BEREQ_METHOD ∷ BEREQ_URL ∷ BEREQ_PROTOCOL ∷ BEREQ_HEADER ∷ []) ≡ codes "BereqMethod" ∷ codes "BereqURL" ∷ codes "BereqProtocol" ∷ codes "BereqHeader" ∷ [] }
    ensures answers { map tag_name (BERESP_STATUS ∷ BERESP_HEADER ∷ []) ≡ codes "BerespStatus" ∷ codes "BerespHeader" ∷ [] }
{}

/// The tags that are constants of `Tag`, in the order of their numbers, are those that they are called after.
pub fn constants_of_tag() -> [Tag; 5]
    ensures tags { result ≡ timestamp_tag ∷ begin_tag ∷ link_tag ∷ end_tag ∷ vsl_tag ∷ [] }
    ensures names { map tag_name (timestamp_tag ∷ begin_tag ∷ link_tag ∷ end_tag ∷ vsl_tag ∷ []) ≡ codes "Timestamp" ∷ codes "Begin" ∷ codes "Link" ∷ codes "End" ∷ codes "VSL" ∷ [] }
{
    [Tag::TIMESTAMP, Tag::BEGIN, Tag::LINK, Tag::END, Tag::VSL]
}

/// A glob matches a name just where the name is its text with some bytes before and after it, each
/// only where there is a star, without regard to case.
pub fn stars_stand_for_any_bytes()
    ensures { (any_before any_after : Bool) (text name : List ℕ) → IsTrue (fits any_before any_after text name) ↔ IsFit any_before any_after text name }
{}

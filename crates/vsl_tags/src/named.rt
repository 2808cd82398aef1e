//! The numbers of the tags that crates name, each under its name. Contracts cite them.

/// `SessOpen`.
pub const SESS_OPEN: u8 = 4;

/// `SessClose`.
pub const SESS_CLOSE: u8 = 5;

/// `BackendOpen`.
pub const BACKEND_OPEN: u8 = 7;

/// `FetchError`.
pub const FETCH_ERROR: u8 = 14;

/// `VCL_call`.
pub const VCL_CALL: u8 = 20;

/// `VCL_return`.
pub const VCL_RETURN: u8 = 22;

/// `VCL_Log`.
pub const VCL_LOG: u8 = 24;

/// `ReqStart`.
pub const REQ_START: u8 = 26;

/// `ReqAcct`.
pub const REQ_ACCT: u8 = 27;

/// `BereqAcct`.
pub const BEREQ_ACCT: u8 = 28;

/// `Hit`.
pub const HIT: u8 = 31;

/// `HitMiss`.
pub const HIT_MISS: u8 = 32;

/// `HitPass`.
pub const HIT_PASS: u8 = 33;

/// `Timestamp`.
pub const TIMESTAMP: u8 = 41;

/// `Begin`.
pub const BEGIN: u8 = 42;

/// `Link`.
pub const LINK: u8 = 43;

/// `End`.
pub const END: u8 = 44;

/// `ReqMethod`.
pub const REQ_METHOD: u8 = 53;

/// `ReqURL`.
pub const REQ_URL: u8 = 54;

/// `ReqProtocol`.
pub const REQ_PROTOCOL: u8 = 57;

/// `ReqHeader`.
pub const REQ_HEADER: u8 = 58;

/// `RespStatus`.
pub const RESP_STATUS: u8 = 63;

/// `RespHeader`.
pub const RESP_HEADER: u8 = 66;

/// `BereqMethod`.
pub const BEREQ_METHOD: u8 = 69;

/// `BereqURL`.
pub const BEREQ_URL: u8 = 70;

/// `BereqProtocol`.
pub const BEREQ_PROTOCOL: u8 = 73;

/// `BereqHeader`.
pub const BEREQ_HEADER: u8 = 74;

/// `BerespStatus`.
pub const BERESP_STATUS: u8 = 79;

/// `BerespHeader`.
pub const BERESP_HEADER: u8 = 82;

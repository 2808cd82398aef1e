//! What single-byte changes do to a log file of each version. Printed by tools/byte_table.py, which has a decoder of
//! its own.

/// A log file, and what a change of one of its bytes does.
#[derive(Clone, Copy)]
pub struct ChangedBytes {
    pub name: &'static str,
    /// The file: a backend's unit (VXID 3: Begin `bereq 2 fetch`, End) and a client's (VXID 2: Begin `req 1 rxreq`, Link
    /// `bereq 3 fetch`, End).
    pub bytes: &'static [u8],
    /// Where the backend's unit ends.
    pub first_end: usize,
    /// The places of each kind of byte.
    pub kinds: &'static [&'static [usize]],
    /// For each place the least value of the range round its own byte with which the file stays whole and has two units.
    pub first_whole: &'static [u8],
    /// The greatest value of that range.
    pub last_whole: &'static [u8],
    /// A place, and another range of values with which the file stays whole and has two units: both ends.
    pub also_whole: &'static [(usize, u8, u8)],
    /// A place, a value, how many units it leaves, and the byte at which no unit begins then: the header of a unit counts
    /// fewer words, up to the end of a record, so that the unit is whole and no unit follows it; or that of the file is
    /// another version's. The values that stand nowhere here leave the units before the changed one, or a wrong header.
    pub ends_early: &'static [(usize, u8, usize, u64)],
}

/// The bytes of the file of version 2.
pub const REQUEST_WITH_FETCH: [u8; 120] = [
    0x56, 0x53, 0x4c, 0x4f, 0x47, 0x2d, 0x32, 0x0a, 0x0b, 0x00, 0x00, 0xfe, 0x0d, 0x00, 0x00, 0x2a,
    0x03, 0x00, 0x00, 0x00, 0x00, 0x00, 0x00, 0x80, 0x62, 0x65, 0x72, 0x65, 0x71, 0x20, 0x32, 0x20,
    0x66, 0x65, 0x74, 0x63, 0x68, 0x00, 0x00, 0x00, 0x00, 0x00, 0x00, 0x2c, 0x03, 0x00, 0x00, 0x00,
    0x00, 0x00, 0x00, 0x80, 0x11, 0x00, 0x00, 0xfe, 0x0b, 0x00, 0x00, 0x2a, 0x02, 0x00, 0x00, 0x00,
    0x00, 0x00, 0x00, 0x40, 0x72, 0x65, 0x71, 0x20, 0x31, 0x20, 0x72, 0x78, 0x72, 0x65, 0x71, 0x00,
    0x0d, 0x00, 0x00, 0x2b, 0x02, 0x00, 0x00, 0x00, 0x00, 0x00, 0x00, 0x40, 0x62, 0x65, 0x72, 0x65,
    0x71, 0x20, 0x33, 0x20, 0x66, 0x65, 0x74, 0x63, 0x68, 0x00, 0x00, 0x00, 0x00, 0x00, 0x00, 0x2c,
    0x02, 0x00, 0x00, 0x00, 0x00, 0x00, 0x00, 0x40,
];

/// That file and its changes.
pub const CHANGES: ChangedBytes = ChangedBytes {
    name: "version 2",
    bytes: &REQUEST_WITH_FETCH,
    first_end: 52,
    kinds: &[
        // what is the same in each file: its header, and the mark of a unit's header
        &[0, 1, 2, 3, 4, 5, 6, 7, 11, 55],
        // the low byte of the words that a unit's header counts
        &[8, 52],
        // the low byte of the length of a payload
        &[12, 40, 56, 80, 108],
        // the other bytes of such a count or length
        &[9, 10, 13, 14, 41, 42, 53, 54, 57, 58, 81, 82, 109, 110],
        // a tag
        &[15, 43, 59, 83, 111],
        // a VXID
        &[
            16, 17, 18, 19, 20, 21, 22, 44, 45, 46, 47, 48, 49, 50, 60, 61, 62, 63, 64, 65, 66, 84,
            85, 86, 87, 88, 89, 90, 112, 113, 114, 115, 116, 117, 118,
        ],
        // the mark of a record, in the byte of its VXID's highest bits
        &[23, 51, 67, 91, 119],
        // a payload
        &[
            24, 25, 26, 27, 28, 29, 30, 31, 32, 33, 34, 35, 36, 68, 69, 70, 71, 72, 73, 74, 75, 76,
            77, 78, 92, 93, 94, 95, 96, 97, 98, 99, 100, 101, 102, 103, 104,
        ],
        // what fills its last word
        &[37, 38, 39, 79, 105, 106, 107],
    ],
    first_whole: &[
        86, 83, 76, 79, 71, 45, 50, 10, 11, 0, 0, 254, 13, 0, 0, 1, 3, 0, 0, 0, 0, 0, 0, 128, 0, 0,
        0, 0, 0, 0, 0, 0, 0, 0, 0, 0, 0, 0, 0, 0, 0, 0, 0, 1, 3, 0, 0, 0, 0, 0, 0, 128, 17, 0, 0,
        254, 11, 0, 0, 1, 2, 0, 0, 0, 0, 0, 0, 64, 0, 0, 0, 0, 0, 0, 0, 0, 0, 0, 0, 0, 13, 0, 0, 1,
        2, 0, 0, 0, 0, 0, 0, 64, 0, 0, 0, 0, 0, 0, 0, 0, 0, 0, 0, 0, 0, 0, 0, 0, 0, 0, 0, 1, 2, 0,
        0, 0, 0, 0, 0, 64,
    ],
    last_whole: &[
        86, 83, 76, 79, 71, 45, 50, 10, 11, 0, 0, 254, 16, 0, 0, 92, 3, 0, 0, 0, 0, 0, 0, 128, 255,
        255, 255, 255, 255, 255, 255, 255, 255, 255, 255, 255, 255, 0, 0, 0, 0, 0, 0, 92, 3, 0, 0,
        0, 0, 0, 0, 128, 17, 0, 0, 254, 12, 0, 0, 92, 2, 0, 0, 0, 0, 0, 0, 64, 255, 255, 255, 255,
        255, 255, 255, 255, 255, 255, 255, 0, 16, 0, 0, 92, 2, 0, 0, 0, 0, 0, 0, 64, 255, 255, 255,
        255, 255, 255, 255, 255, 255, 255, 255, 255, 255, 0, 0, 0, 0, 0, 0, 92, 2, 0, 0, 0, 0, 0,
        0, 64,
    ],
    also_whole: &[(12, 28, 28), (56, 37, 40), (56, 52, 52), (80, 28, 28)],
    ends_early: &[
        (6, 49, 0, 8),
        (8, 8, 1, 40),
        (52, 7, 2, 80),
        (52, 14, 2, 108),
    ],
};

/// The bytes of the file of version 1.
pub const OLD_REQUEST_WITH_FETCH: [u8; 100] = [
    0x56, 0x53, 0x4c, 0x4f, 0x47, 0x2d, 0x31, 0x0a, 0x09, 0x00, 0x00, 0xfe, 0x0d, 0x00, 0x00, 0x2a,
    0x03, 0x00, 0x00, 0x80, 0x62, 0x65, 0x72, 0x65, 0x71, 0x20, 0x32, 0x20, 0x66, 0x65, 0x74, 0x63,
    0x68, 0x00, 0x00, 0x00, 0x00, 0x00, 0x00, 0x2c, 0x03, 0x00, 0x00, 0x80, 0x0e, 0x00, 0x00, 0xfe,
    0x0b, 0x00, 0x00, 0x2a, 0x02, 0x00, 0x00, 0x40, 0x72, 0x65, 0x71, 0x20, 0x31, 0x20, 0x72, 0x78,
    0x72, 0x65, 0x71, 0x00, 0x0d, 0x00, 0x00, 0x2b, 0x02, 0x00, 0x00, 0x40, 0x62, 0x65, 0x72, 0x65,
    0x71, 0x20, 0x33, 0x20, 0x66, 0x65, 0x74, 0x63, 0x68, 0x00, 0x00, 0x00, 0x00, 0x00, 0x00, 0x2c,
    0x02, 0x00, 0x00, 0x40,
];

/// That file and its changes.
pub const OLD_CHANGES: ChangedBytes = ChangedBytes {
    name: "version 1",
    bytes: &OLD_REQUEST_WITH_FETCH,
    first_end: 44,
    kinds: &[
        // what is the same in each file: its header, and the mark of a unit's header
        &[0, 1, 2, 3, 4, 5, 6, 7, 11, 47],
        // the low byte of the words that a unit's header counts
        &[8, 44],
        // the low byte of the length of a payload
        &[12, 36, 48, 68, 92],
        // the other bytes of such a count or length
        &[9, 10, 13, 14, 37, 38, 45, 46, 49, 50, 69, 70, 93, 94],
        // a tag
        &[15, 39, 51, 71, 95],
        // a VXID
        &[16, 17, 18, 40, 41, 42, 52, 53, 54, 72, 73, 74, 96, 97, 98],
        // the mark of a record, in the byte of its VXID's highest bits
        &[19, 43, 55, 75, 99],
        // a payload
        &[
            20, 21, 22, 23, 24, 25, 26, 27, 28, 29, 30, 31, 32, 56, 57, 58, 59, 60, 61, 62, 63, 64,
            65, 66, 76, 77, 78, 79, 80, 81, 82, 83, 84, 85, 86, 87, 88,
        ],
        // what fills its last word
        &[33, 34, 35, 67, 89, 90, 91],
    ],
    first_whole: &[
        86, 83, 76, 79, 71, 45, 49, 10, 9, 0, 0, 254, 13, 0, 0, 1, 3, 0, 0, 128, 0, 0, 0, 0, 0, 0,
        0, 0, 0, 0, 0, 0, 0, 0, 0, 0, 0, 0, 0, 1, 3, 0, 0, 128, 14, 0, 0, 254, 11, 0, 0, 1, 2, 0,
        0, 64, 0, 0, 0, 0, 0, 0, 0, 0, 0, 0, 0, 0, 13, 0, 0, 1, 2, 0, 0, 64, 0, 0, 0, 0, 0, 0, 0,
        0, 0, 0, 0, 0, 0, 0, 0, 0, 0, 0, 0, 1, 2, 0, 0, 64,
    ],
    last_whole: &[
        86, 83, 76, 79, 71, 45, 49, 10, 9, 0, 0, 254, 16, 0, 0, 92, 3, 0, 0, 128, 255, 255, 255,
        255, 255, 255, 255, 255, 255, 255, 255, 255, 255, 0, 0, 0, 0, 0, 0, 92, 3, 0, 0, 128, 14,
        0, 0, 254, 12, 0, 0, 92, 2, 0, 0, 64, 255, 255, 255, 255, 255, 255, 255, 255, 255, 255,
        255, 0, 16, 0, 0, 92, 2, 0, 0, 64, 255, 255, 255, 255, 255, 255, 255, 255, 255, 255, 255,
        255, 255, 0, 0, 0, 0, 0, 0, 92, 2, 0, 0, 64,
    ],
    also_whole: &[(12, 24, 24), (48, 33, 36), (48, 44, 44), (68, 24, 24)],
    ends_early: &[
        (6, 50, 0, 8),
        (8, 7, 1, 36),
        (44, 6, 2, 68),
        (44, 12, 2, 92),
    ],
};

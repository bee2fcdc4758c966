//! Decimals, and the numbers of faults.

use entry_codec::{LineError, Place, read_decimal};

/// Texts, the least and the greatest number that are permitted, and the number that is read. Among them are the
/// greatest numbers of one digit, of ten, of as many as are always safe, and of all.
const DECIMALS: [(&str, u64, u64, Option<u64>); 27] = [
    ("0", 0, u64::MAX, Some(0)),
    ("9", 0, u64::MAX, Some(9)),
    ("1000000000", 0, u64::MAX, Some(1_000_000_000)),
    (
        "9999999999999999999",
        0,
        u64::MAX,
        Some(9_999_999_999_999_999_999),
    ),
    (
        "10000000000000000000",
        0,
        u64::MAX,
        Some(10_000_000_000_000_000_000),
    ),
    ("18446744073709551615", 0, u64::MAX, Some(u64::MAX)),
    ("18446744073709551616", 0, u64::MAX, None),
    ("20000000000000000000", 0, u64::MAX, None),
    ("99999999999999999999", 0, u64::MAX, None),
    ("100000000000000000000", 0, u64::MAX, None),
    ("00000000000000000000005", 0, u64::MAX, None),
    ("", 0, u64::MAX, None),
    ("00", 0, u64::MAX, None),
    ("05", 0, u64::MAX, None),
    ("+5", 0, u64::MAX, None),
    ("-0", 0, u64::MAX, None),
    ("5 ", 0, u64::MAX, None),
    (" 5", 0, u64::MAX, None),
    ("5x", 0, u64::MAX, None),
    ("1000000000000000000x", 0, u64::MAX, None),
    ("1844674407370955161x", 0, u64::MAX, None),
    ("18446744073709551615x", 0, u64::MAX, None),
    ("0", 1, 16, None),
    ("1", 1, 16, Some(1)),
    ("16", 1, 16, Some(16)),
    ("17", 1, 16, None),
    ("18446744073709551615", 0, u64::MAX - 1, None),
];

#[test]
fn decimals(rt: HostRuntime) {
    for (text, least, most, wanted) in &DECIMALS {
        assert!(rt;
            read_decimal(text.as_bytes(), *least, *most) == *wanted,
            "{text}"
        );
    }
}

const PLACE: Place = Place { part: 1, field: 2 };

// The faults by their numbers.
const FAULTS: [LineError; 8] = [
    LineError::TooLong,
    LineError::NoEnd,
    LineError::BadKind,
    LineError::BadField(PLACE),
    LineError::BadMove(PLACE),
    LineError::CountWrong,
    LineError::TrailingBytes,
    LineError::OutOfMemory,
];

#[test]
fn numbers_of_faults(rt: HostRuntime) {
    for (index, fault) in FAULTS.iter().enumerate() {
        assert!(rt; fault.number() == index as u64 + 1);
    }
}

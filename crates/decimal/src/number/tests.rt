//! Numbers of each length, at the end of the bytes and before it.

use super::*;
use std::process::Abort;

/// The digits at a place, with enough bytes after them for a word and without.
fn assert_reads(rt: &impl Abort, bytes: &[u8], from: usize, wanted: (u64, usize)) {
    if from <= bytes.len() {
        assert_eq!(rt; digits(bytes, from), wanted);
    }
}

#[test]
fn reads_numbers_of_each_length(rt: HostRuntime) {
    let all = b"1234567890123456789 0 7 99 18446744073709551615";
    assert_reads(&rt, all, 0, (1234567890123456789, 19));
    assert_reads(&rt, b"18446744073709551615 ", 0, (18446744073709551615, 20));
    assert_reads(&rt, b"18446744073709551616 ", 0, (1844674407370955161, 19));
    assert_reads(&rt, b"000000000000000000007 ", 0, (0, 20));
    assert_reads(&rt, b"-9999999999999999999 ", 1, (9999999999999999999, 20));
    assert_reads(
        &rt,
        b"18446744073709551615 1234567",
        0,
        (18446744073709551615, 20),
    );
    assert_reads(
        &rt,
        b"18446744073709551616 1234567",
        0,
        (1844674407370955161, 19),
    );
    assert_reads(
        &rt,
        b"-1234567890123456789 1234567",
        1,
        (1234567890123456789, 20),
    );
    assert_reads(&rt, b"000000000000000000007 1234567", 0, (0, 20));
    assert_reads(&rt, b"123456789012 12345678", 0, (123456789012, 12));
    assert_reads(&rt, b"-234567 ", 1, (234567, 7));
    assert_reads(&rt, b"-2345678 ", 1, (2345678, 8));
    assert_reads(&rt, b"-23456789 ", 1, (23456789, 9));
    assert_reads(&rt, all, 12, (3456789, 19));
    assert_reads(&rt, all, 11, (23456789, 19));
    assert_reads(&rt, all, 18, (9, 19));
    assert_reads(&rt, all, 19, (0, 19));
    assert_reads(&rt, all, 20, (0, 21));
    assert_reads(&rt, all, 22, (7, 23));
    assert_reads(&rt, all, 24, (99, 26));
    assert_reads(&rt, all, 40, (9551615, 47));
    assert_reads(&rt, all, 46, (5, 47));
    assert_reads(&rt, all, 47, (0, 47));
    assert_reads(&rt, b"", 0, (0, 0));
    assert_reads(&rt, b"/:12345", 0, (0, 0));
    assert_reads(&rt, b"/:12345", 1, (0, 1));
    assert_reads(&rt, b"/:12345", 2, (12345, 7));
}

//! Numbers of each length and sign in each place of a row, and each byte in each place of a number.

use super::*;
use std::process::Abort;

/// The four numbers from the place 8 on, and which of them are zero.
fn assert_reads(rt: &impl Abort, bytes: &[u8], ends: [usize; 4], wanted: Option<([i32; 4], u64)>) {
    let found = match four_numbers(bytes, 8, ends) {
        Some(four) => Some((four.values.to_array(), four.zeros)),
        None => None,
    };
    assert_eq!(rt; found, wanted);
}

#[test]
fn reads_each_length_in_each_place(rt: HostRuntime) {
    assert_reads(
        &rt,
        b"        1 22 333 4444 ",
        [9, 12, 16, 21],
        Some(([1, 22, 333, 4444], 0)),
    );
    assert_reads(
        &rt,
        b"        55555 -1 0 666666 ",
        [13, 16, 18, 25],
        Some(([55555, -1, 0, 666666], 4)),
    );
    assert_reads(
        &rt,
        b"        7777777 88888888 0 0\n",
        [15, 24, 26, 28],
        Some(([7777777, 88888888, 0, 0], 12)),
    );
    assert_reads(
        &rt,
        b"        -22 -333 -4444 -55555 ",
        [11, 16, 22, 29],
        Some(([-22, -333, -4444, -55555], 0)),
    );
    assert_reads(
        &rt,
        b"        0 -666666 -7777777 0\t",
        [9, 17, 26, 28],
        Some(([0, -666666, -7777777, 0], 9)),
    );
    assert_reads(
        &rt,
        b"        00000000 -0000001 007 -10 ",
        [16, 25, 29, 33],
        Some(([0, -1, 7, -10], 1)),
    );
    assert_reads(
        &rt,
        b"        99999999 -9999999 1 2 ",
        [16, 25, 27, 29],
        Some(([99999999, -9999999, 1, 2], 0)),
    );
}

#[test]
fn leaves_all_else(rt: HostRuntime) {
    assert_reads(&rt, b"        123456789 1 1 1 ", [17, 19, 21, 23], None);
    assert_reads(&rt, b"        1 -12345678 1 1 ", [9, 19, 21, 23], None);
    assert_reads(&rt, b"        1 1 -0 1 ", [9, 11, 14, 16], None);
    assert_reads(&rt, b"        1 1 1 - ", [9, 11, 13, 15], None);
    assert_reads(&rt, b"        1 1 1 -00 ", [9, 11, 13, 17], None);
    assert_reads(&rt, b"        1 1 --1 1 ", [9, 11, 15, 17], None);
    assert_reads(&rt, b"        1 1 1 1", [9, 11, 13, 15], None);
    assert_reads(&rt, b"        1 1 1  1 ", [9, 11, 13, 14], None);
    assert_reads(&rt, b"        1 1 1 1 ", [8, 11, 13, 15], None);
    assert_reads(&rt, b"        1 1 1 1 ", [7, 11, 13, 15], None);
    assert_reads(&rt, b"        1 1 1 1 ", [9, 11, 13, 16], None);
    assert_reads(&rt, b"        1 1 1 1 ", [9, 13, 11, 15], None);
    assert_reads(
        &rt,
        b"        1 1 1 1 ",
        [9, 18446744073709551615, 0, 2],
        None,
    );
}

/// The four numbers between these places, and which of them are zero.
fn assert_reads_between(
    rt: &impl Abort,
    starts: [usize; 4],
    ends: [usize; 4],
    wanted: Option<([i32; 4], u64)>,
) {
    let bytes = b"        1  22\r\n333   -4444 00";
    let found = match four_numbers_between(bytes, starts, ends) {
        Some(four) => Some((four.values.to_array(), four.zeros)),
        None => None,
    };
    assert_eq!(rt; found, wanted);
}

#[test]
fn reads_between_places(rt: HostRuntime) {
    let wanted = Some(([1, 22, 333, -4444], 0));
    assert_reads_between(&rt, [8, 11, 15, 21], [9, 13, 18, 26], wanted);
    let wanted = Some(([0, 333, 2, 33], 1));
    assert_reads_between(&rt, [27, 15, 12, 15], [28, 18, 13, 17], wanted);
}

#[test]
fn leaves_what_is_not_between_places(rt: HostRuntime) {
    assert_reads_between(&rt, [8, 10, 15, 21], [9, 13, 18, 26], None);
    assert_reads_between(&rt, [8, 11, 15, 21], [9, 13, 18, 27], None);
    assert_reads_between(&rt, [8, 11, 15, 27], [9, 13, 18, 29], None);
    assert_reads_between(&rt, [8, 11, 15, 21], [9, 13, 15, 26], None);
    assert_reads_between(&rt, [9, 11, 15, 21], [8, 13, 18, 26], None);
    assert_reads_between(&rt, [6, 11, 15, 21], [7, 13, 18, 26], None);
    let far = 18446744073709551615;
    assert_reads_between(&rt, [far, 11, 15, 21], [9, 13, 18, 26], None);
    assert_reads_between(&rt, [8, 11, 15, 21], [9, 13, 18, far], None);
}

#[test]
fn reads_digits_alone(rt: HostRuntime) {
    for lane in 0..4usize {
        for place in 0..8usize {
            for byte in 0..=255u8 {
                let mut bytes = *b"        11111111 11111111 11111111 11111111 ";
                bytes[8 + 9 * lane + place] = byte;
                let read = four_numbers(&bytes, 8, [16, 25, 34, 43]).is_some();
                let wanted = byte.is_ascii_digit() || (place == 0 && byte == b'-');
                assert_eq!(&rt; read, wanted);
            }
        }
    }
}

//! The digits of a number, written into capacity that is already reserved.

ghost use Rattle.std.specs.Prelude.{◌≡◌, ◌+◌, ◌*◌, ◌/◌, ◌%◌, ◌<◌, ◌≤◌, ◌++◌, ◌∷◌, [], ℕ, length, take, codes, decimal};
ghost use Rattle.std.specs.Fmt.{signed_decimal};
ghost use Rattle.wasm_types.specs.Texts.{spaced};
ghost use Rattle.plan_lines.specs.Room.{Puts};

use crate::room::{put, put_byte};
use itoa::Buffer;

/// The most bytes of a number.
pub(crate) const MOST_NUMBER: usize = 20;

/// The most bytes of a number and of a space or a sign before it.
pub(crate) const MOST_SPACED: usize = 1 + MOST_NUMBER;

// The two digits of each number below 100.
static PAIRS: [u8; 200] = *b"\
    00010203040506070809\
    10111213141516171819\
    20212223242526272829\
    30313233343536373839\
    40414243444546474849\
    50515253545556575859\
    60616263646566676869\
    70717273747576777879\
    80818283848586878889\
    90919293949596979899";

// Writes two digits.
#[inline(always)]
fn put_pair(room: &mut [u8], used: usize, pair: u64) -> usize
    requires { (pair < 100) × (used + 2 ≤ length room.old) }
    ensures written { take result room.new ≡ take used room.old ++ (48 + pair / 10) ∷ (48 + pair % 10) ∷ [] }
    ensures end { result ≡ used + 2 }
{
    let from = pair as usize * 2;
    put(room, used, &[PAIRS[from], PAIRS[from + 1]])
}

// Writes a number of one or two digits.
#[inline(always)]
fn put_below_hundred(room: &mut [u8], used: usize, number: u64) -> usize
    requires { (number < 100) × (used + 2 ≤ length room.old) }
    ensures { Puts 2 (decimal number) room.old used room.new result }
{
    if number < 10 {
        return put_byte(room, used, b'0' + number as u8);
    }
    put_pair(room, used, number)
}

// Writes a number of at most four digits.
#[inline(always)]
fn put_short(room: &mut [u8], used: usize, number: u64) -> usize
    requires { (number < 10000) × (used + 4 ≤ length room.old) }
    ensures { Puts 4 (decimal number) room.old used room.new result }
{
    if number < 100 {
        return put_below_hundred(room, used, number);
    }
    let hundreds = put_below_hundred(room, used, number / 100);
    put_pair(room, hundreds, number % 100)
}

// Writes a number of more than four digits.
fn put_long(room: &mut [u8], used: usize, number: u64) -> usize
    requires { (10000 ≤ number) × (used + MOST_NUMBER ≤ length room.old) }
    ensures { Puts MOST_NUMBER (decimal number) room.old used room.new result }
{
    if number >= 100_000_000 {
        return put(room, used, Buffer::new().format(number).as_bytes());
    }
    let first = put_short(room, used, number / 10_000);
    let middle = put_pair(room, first, number % 10_000 / 100);
    put_pair(room, middle, number % 100)
}

// Writes a number.
#[inline(always)]
pub(crate) fn put_number(room: &mut [u8], used: usize, number: u64) -> usize
    requires { used + MOST_NUMBER ≤ length room.old }
    ensures { Puts MOST_NUMBER (decimal number) room.old used room.new result }
{
    if number < 10_000 {
        return put_short(room, used, number);
    }
    put_long(room, used, number)
}

// Writes a space and a number.
#[inline(always)]
pub(crate) fn put_spaced(room: &mut [u8], used: usize, number: u64) -> usize
    requires { used + MOST_SPACED ≤ length room.old }
    ensures { Puts MOST_SPACED (codes " " ++ decimal number) room.old used room.new result }
{
    let first = put_byte(room, used, b' ');
    put_number(room, first, number)
}

// Writes numbers, a space before each.
#[inline(always)]
pub(crate) fn put_numbers(room: &mut [u8], used: usize, numbers: &[u64]) -> usize
    requires { used + MOST_SPACED * length numbers.now ≤ length room.old }
    ensures { Puts (MOST_SPACED * length numbers.now) (spaced decimal numbers.now) room.old used room.new result }
{
    let mut end = used;
    for number in numbers {
        end = put_spaced(room, end, *number);
    }
    end
}

// Writes a number with its sign, if it is below 0.
#[inline(always)]
pub(crate) fn put_signed(room: &mut [u8], used: usize, number: i64) -> usize
    requires { used + MOST_SPACED ≤ length room.old }
    ensures { Puts MOST_SPACED (signed_decimal number) room.old used room.new result }
{
    if number >= 0 {
        return put_number(room, used, number.unsigned_abs());
    }
    let first = put_byte(room, used, b'-');
    put_number(room, first, number.unsigned_abs())
}

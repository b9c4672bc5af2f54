// Buffers to start from. Of the shape 2 by 1 with two tracers a field has 42 numbers, a wind 4 and a load 18.
// The buffers have 62, 5 and 26: longer, and one number short of three tracers (63) or three elements (6 and 27).
use super::calls;
use rules::Shape;

// The shape of most cases.
pub(crate) fn pair() -> Shape {
    calls::shape(2, 1, 2)
}

// For this shape a field buffer of 62 numbers is one too short.
pub(crate) fn three_tracers() -> Shape {
    calls::shape(2, 1, 3)
}

// For this shape 5 winds are one too few, and 26 numbers to load.
pub(crate) fn three_elements() -> Shape {
    calls::shape(3, 1, 1)
}

// Tracer 0: masses 77 (centre 3, remainder 29) and 42 (a corner 7, remainder 35). Tracer 1: 16 and 0. Their totals come after their elements.
// The surplus has 777 where a third tracer would have a remainder.
pub(crate) fn sample() -> [u32; 62] {
    let mut numbers = two_elements();
    numbers[25] = 1;
    numbers[41] = 16;
    numbers[51] = 777;
    numbers
}

// One tracer of one element: mass 77.
pub(crate) fn one_element() -> [u32; 62] {
    let mut numbers = [0u32; 62];
    numbers[4] = 3;
    numbers[9] = 29;
    numbers[10] = 77;
    numbers
}

// One tracer of two elements: masses 77 and 42.
fn two_elements() -> [u32; 62] {
    let mut numbers = one_element();
    numbers[10] = 7;
    numbers[19] = 35;
    numbers[20] = 119;
    numbers
}

// One tracer of three elements: masses 77, 42 and 16.
pub(crate) fn three() -> [u32; 62] {
    let mut numbers = two_elements();
    numbers[20] = 16;
    numbers[30] = 135;
    numbers
}

// Element (1, 0) of tracer 0 has a remainder 36.
pub(crate) fn remainder_36() -> [u32; 62] {
    let mut numbers = sample();
    numbers[19] = 36;
    numbers
}

// Tracer 0, which holds 119, has another stored total.
pub(crate) fn stored(total: u32) -> [u32; 62] {
    let mut numbers = sample();
    numbers[20] = total;
    numbers
}

// Tracer 0 has the total 99,999,984 + rest.
pub(crate) fn total_of(rest: u8) -> [u32; 62] {
    let rest = u32::from(rest);
    let mut numbers = [0u32; 62];
    numbers[4] = 6_249_999;
    numbers[19] = rest;
    numbers[20] = 99_999_984 + rest;
    numbers
}

pub(crate) fn winds() -> [i16; 5] {
    [7, -7, 1, 1024, 99]
}

// Numbers to load: twos, and the first element's centre 9. Masses 184 and 72.
pub(crate) fn numbers() -> [u32; 26] {
    let mut numbers = [2u32; 26];
    numbers[4] = 9;
    numbers
}

// Numbers to load with the total 100,000,000 + rest. Like `total_of` it sets two numbers of an empty buffer: one function for both would take these
// two, their places and the length, which is all that either is.
pub(crate) fn full_numbers(rest: u32) -> [u32; 26] {
    let mut numbers = [0u32; 26];
    numbers[4] = 6_250_000;
    numbers[9] = rest;
    numbers
}

// Imports of wind records at and beside the edges of document 02, 2026-01. The bytes of a number are those of an f64, the lowest first.
use super::buffers;
use super::calls::{self, Case};
use std::io;

pub(crate) fn run(rt: &impl Print) -> io::Result<()> {
    kinds(rt)?;
    halves(rt)?;
    sizes(rt)?;
    faults(rt)?;
    two_faults(rt)?;
    refused_before_records(rt)
}

// The imports of rows of a text and its records.
fn each(rt: &impl Print, rows: &[(&str, &[u8])]) -> io::Result<()> {
    for &(edge, records) in rows {
        Case::new(rt, edge, buffers::pair()).import(buffers::winds(), records)?;
    }
    Ok(())
}

// Each kind, with its winds where the old ones stood.
fn kinds(rt: &impl Print) -> io::Result<()> {
    each(
        rt,
        &[
            ("calm and calm", b"\x00\x00"),
            (
                "both and east alone",
                b"\x01\x00\x00\x00\x00\x00\x00\xd0\x3f\x00\x00\x00\x00\x00\x00\xb0\xbf\x02\x00\x00\x00\x00\x00\x00\xc0\x3f",
            ),
            (
                "east alone and calm",
                b"\x02\x00\x00\x00\x00\x00\x00\xd0\xbf\x00",
            ),
        ],
    )
}

// At a half the even one, of either sign.
fn halves(rt: &impl Print) -> io::Result<()> {
    each(
        rt,
        &[
            (
                "0.5 and -0.5, 1.5 and -1.5",
                b"\x01\x00\x00\x00\x00\x00\x00\x20\x3f\x00\x00\x00\x00\x00\x00\x20\xbf\x01\x00\x00\x00\x00\x00\x00\x38\x3f\x00\x00\x00\x00\x00\x00\x38\xbf",
            ),
            (
                "2.5 and -2.5, 1023.5 and -1023.5",
                b"\x01\x00\x00\x00\x00\x00\x00\x44\x3f\x00\x00\x00\x00\x00\x00\x44\xbf\x01\x00\x00\x00\x00\x00\xfc\xcf\x3f\x00\x00\x00\x00\x00\xfc\xcf\xbf",
            ),
            (
                "1024.5 and -1024.5, then calm",
                b"\x01\x00\x00\x00\x00\x00\x02\xd0\x3f\x00\x00\x00\x00\x00\x02\xd0\xbf\x00",
            ),
            (
                "next above 1024.5",
                b"\x02\x01\x00\x00\x00\x00\x02\xd0\x3f\x00",
            ),
            (
                "next below -1024.5",
                b"\x01\x00\x00\x00\x00\x00\x00\x00\x00\x01\x00\x00\x00\x00\x02\xd0\xbf\x00",
            ),
        ],
    )
}

// Small and large numbers, and what is no finite number.
fn sizes(rt: &impl Print) -> io::Result<()> {
    each(
        rt,
        &[
            (
                "-0 and the smallest, then -smallest",
                b"\x01\x00\x00\x00\x00\x00\x00\x00\x80\x01\x00\x00\x00\x00\x00\x00\x00\x02\x01\x00\x00\x00\x00\x00\x00\x80",
            ),
            (
                "2 to the power 1023",
                b"\x02\x00\x00\x00\x00\x00\x00\xe0\x7f\x00",
            ),
            ("infinity", b"\x02\x00\x00\x00\x00\x00\x00\xf0\x7f\x00"),
            (
                "calm and a NaN",
                b"\x00\x01\x00\x00\x00\x00\x00\x00\x00\x00\x01\x00\x00\x00\x00\x00\xf8\x7f",
            ),
        ],
    )
}

// Records that are not whole, or too many.
fn faults(rt: &impl Print) -> io::Result<()> {
    each(
        rt,
        &[
            ("no byte", b""),
            ("one record of two", b"\x00"),
            ("kind 3", b"\x03\x00"),
            ("a byte missing", b"\x00\x02\x00\x00\x00\x00\x00\x00\xd0"),
            ("a byte left over", b"\x00\x00\x00"),
        ],
    )
}

// Two faults: the earlier record first, and within a record 11, 12, 5.
fn two_faults(rt: &impl Print) -> io::Result<()> {
    each(
        rt,
        &[
            (
                "out of range, then kind 3",
                b"\x02\x00\x00\x00\x00\x00\x00\xe0\x3f\x03",
            ),
            (
                "kind 3, then out of range",
                b"\x03\x02\x00\x00\x00\x00\x00\x00\xe0\x3f",
            ),
            (
                "out of range and infinite in one",
                b"\x01\x00\x00\x00\x00\x00\x00\xe0\x3f\x00\x00\x00\x00\x00\x00\xf0\x7f\x00",
            ),
            (
                "a NaN in a record that is cut",
                b"\x00\x01\x01\x00\x00\x00\x00\x00\xf8\x7f\x00",
            ),
            (
                "out of range in the last, and a byte left over",
                b"\x00\x02\x00\x00\x00\x00\x00\x00\xe0\x3f\x00",
            ),
        ],
    )
}

// The shape and the buffer come before the records.
fn refused_before_records(rt: &impl Print) -> io::Result<()> {
    let winds = buffers::winds();
    let elements = buffers::three_elements();
    Case::new(rt, "nx 0, no byte", calls::shape(0, 1, 2)).import(winds, b"")?;
    Case::new(rt, "one wind too few, no byte", elements).import(winds, b"")
}

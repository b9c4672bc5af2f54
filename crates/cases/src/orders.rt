// Two reasons to refuse: the one with the lower number is told. And what is not looked at.
use super::buffers;
use super::calls::{self, Case, Change};
use rules::Way;
use std::io;

pub(crate) fn run(rt: &impl Print) -> io::Result<()> {
    unsound(rt)?;
    unsound_elsewhere(rt)?;
    winds(rt)?;
    loads(rt)?;
    amounts(rt)
}

// An unsound tracer 0, and no such tracer.
fn unsound(rt: &impl Print) -> io::Result<()> {
    let odd = buffers::remainder_36();
    let shape = buffers::pair();
    let place = calls::at(2, 0, 0);
    let case = Case::new(rt, "remainder 36, tracer 2", shape);
    case.on_element(odd, place)?;
    case.total(odd, 2)?;
    let over = buffers::total_of(17);
    let case = Case::new(rt, "a stored total of 100000001, tracer 2", shape);
    case.on_element(over, place)?;
    case.total(over, 2)
}

// Tracer 0 is unsound, and the call is on tracer 1 or is a load.
fn unsound_elsewhere(rt: &impl Print) -> io::Result<()> {
    let odd = buffers::remainder_36();
    let shape = buffers::pair();
    let place = calls::at(1, 0, 0);
    let case = Case::new(rt, "remainder 36 in the other tracer", shape);
    case.on_element(odd, place)?;
    case.total(odd, 1)?;
    let numbers = buffers::numbers();
    Case::new(rt, "over a remainder 36", shape).load(odd, numbers, 0)
}

// A wind number out of range, with a lower reason and with a higher one.
fn winds(rt: &impl Print) -> io::Result<()> {
    for (edge, shape, i) in [
        ("1025, nx 0", calls::shape(0, 1, 2), 0),
        ("1025, 5 winds for 6", buffers::three_elements(), 0),
        ("1025, element (2, 0)", buffers::pair(), 2),
    ] {
        let face = calls::face(Way::East, i, 0, 1025);
        Case::new(rt, edge, shape).wind(buffers::winds(), face)?;
    }
    Ok(())
}

// Loads: a buffer too short, no such tracer, a total above the limit.
fn loads(rt: &impl Print) -> io::Result<()> {
    let short = buffers::three_elements();
    for (edge, shape, tracer) in [
        ("26 loaded for 27, tracer 1 of 1", short, 1),
        ("26 loaded for 27, total 100000001", short, 0),
        ("tracer 2, total 100000001", buffers::pair(), 2),
    ] {
        let over = buffers::full_numbers(1);
        Case::new(rt, edge, shape).load(buffers::sample(), over, tracer)?;
    }
    Ok(())
}

// A field too short with a higher reason; no such element with an amount too large.
fn amounts(rt: &impl Print) -> io::Result<()> {
    let sample = buffers::sample();
    let odd = buffers::remainder_36();
    let short = buffers::three_tracers();
    let shape = buffers::pair();
    let off = calls::at(0, 2, 0);
    let lost = calls::at(3, 2, 0);
    let five = Change::Emission(5);
    Case::new(rt, "62 numbers for 63, remainder 36", short).apply(odd, off, five)?;
    Case::new(rt, "62 numbers for 63, tracer 3", short).apply(sample, lost, five)?;
    Case::new(rt, "tracer 3, element (2, 0)", shape).apply(sample, lost, five)?;
    let case = Case::new(rt, "element (2, 0), u64 maximum", shape);
    case.apply(sample, off, Change::Emission(u64::MAX))?;
    case.apply(sample, off, Change::Withdrawal(u64::MAX))
}

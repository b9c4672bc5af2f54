// Each refusal of each call.
use super::buffers;
use super::calls::{self, Case, Change};
use rules::Way;
use std::io;

pub(crate) fn run(rt: &impl Print) -> io::Result<()> {
    shapes(rt)?;
    short_buffers(rt)?;
    unsound_tracers(rt)?;
    sums_and_stored_totals(rt)?;
    tracers(rt)?;
    elements(rt)
}

// The calls on an element and on a tracer, at a tracer and its first element.
fn on_first_element(case: &Case<impl Print>, field: [u32; 62], tracer: usize) -> io::Result<()> {
    case.on_element(field, calls::at(tracer, 0, 0))?;
    case.total(field, tracer)
}

// Every call with a shape.
fn with_shape(case: &Case<impl Print>) -> io::Result<()> {
    let sample = buffers::sample();
    let winds = buffers::winds();
    case.wind(winds, calls::face(Way::East, 0, 0, 5))?;
    case.fresh(sample, winds)?;
    case.load(sample, buffers::numbers(), 0)?;
    on_first_element(case, sample, 0)
}

// 2: a shape out of its ranges; and 4 for the largest shape.
fn shapes(rt: &impl Print) -> io::Result<()> {
    for (edge, shape) in [
        ("nx 0", calls::shape(0, 1, 2)),
        ("nx 65", calls::shape(65, 1, 2)),
        ("nx usize maximum", calls::shape(usize::MAX, 1, 2)),
        ("ny 0", calls::shape(2, 0, 2)),
        ("ny 65", calls::shape(2, 65, 2)),
        ("ny usize maximum", calls::shape(2, usize::MAX, 2)),
        ("no tracers", calls::shape(2, 1, 0)),
        ("9 tracers", calls::shape(2, 1, 9)),
        ("usize maximum of tracers", calls::shape(2, 1, usize::MAX)),
        ("64 by 64, 8 tracers", calls::shape(64, 64, 8)),
    ] {
        with_shape(&Case::new(rt, edge, shape))?;
    }
    Ok(())
}

// 4: a buffer is one number too short.
fn short_buffers(rt: &impl Print) -> io::Result<()> {
    let sample = buffers::sample();
    let winds = buffers::winds();
    let numbers = buffers::numbers();
    let tracers = buffers::three_tracers();
    let elements = buffers::three_elements();
    let face = calls::face(Way::East, 0, 0, 5);
    Case::new(rt, "5 winds for 6", elements).wind(winds, face)?;
    Case::new(rt, "62 numbers for 63", tracers).fresh(sample, winds)?;
    Case::new(rt, "5 winds for 6", elements).fresh(sample, winds)?;
    Case::new(rt, "62 numbers for 63", tracers).load(sample, numbers, 0)?;
    Case::new(rt, "26 loaded for 27", elements).load(sample, numbers, 0)?;
    on_first_element(&Case::new(rt, "62 numbers for 63", tracers), sample, 0)
}

// 6: the named element's remainder above 35, a stored total above the limit, or an element that holds more.
fn unsound_tracers(rt: &impl Print) -> io::Result<()> {
    let pair = buffers::pair();
    let first = calls::at(0, 0, 0);
    let second = calls::at(0, 1, 0);
    let off = calls::at(0, 2, 0);
    let odd = buffers::remainder_36();
    let over = buffers::total_of(17);
    let less = buffers::stored(76);
    for (edge, field, place) in [
        ("remainder 36", odd, second),
        ("remainder 36 in the other element", odd, first),
        ("remainder 36, element (2, 0)", odd, off),
        ("a stored total of 100000001", over, second),
        ("a stored total of 100000001, element (2, 0)", over, off),
        ("77 of a stored total of 76", less, first),
        ("42 of a stored total of 76", less, second),
        ("a stored total of 76, element (2, 0)", less, off),
    ] {
        Case::new(rt, edge, pair).on_element(field, place)?;
    }
    Case::new(rt, "remainder 36", pair).total(odd, 0)?;
    Case::new(rt, "100000001", pair).total(over, 0)?;
    Case::new(rt, "76 stored of 119", pair).total(less, 0)
}

// A stored total that is not the sum: only the stored one counts for 9, and nothing else is refused.
fn sums_and_stored_totals(rt: &impl Print) -> io::Result<()> {
    let pair = buffers::pair();
    let place = calls::at(0, 0, 0);
    let more = buffers::stored(99_999_990);
    let case = Case::new(rt, "99999990 stored of 119", pair);
    case.on_element(more, place)?;
    case.total(more, 0)?;
    case.load(more, buffers::numbers(), 0)?;
    for (edge, q) in [("10 to 99999990 stored", 10), ("11 to 99999990 stored", 11)] {
        Case::new(rt, edge, pair).apply(more, place, Change::Emission(q))?;
    }
    Ok(())
}

// 7: no such tracer; after one that is there.
fn tracers(rt: &impl Print) -> io::Result<()> {
    for (edge, tracer) in [
        ("tracer 1 of 2", 1),
        ("tracer 2 of 2", 2),
        ("tracer usize maximum", usize::MAX),
    ] {
        with_tracer(&Case::new(rt, edge, buffers::pair()), tracer)?;
    }
    Ok(())
}

fn with_tracer(case: &Case<impl Print>, tracer: usize) -> io::Result<()> {
    let sample = buffers::sample();
    case.load(sample, buffers::numbers(), tracer)?;
    on_first_element(case, sample, tracer)
}

// 8: no such element; after one that is there.
fn elements(rt: &impl Print) -> io::Result<()> {
    for (edge, i, j) in [
        ("element (1, 0)", 1, 0),
        ("element (2, 0)", 2, 0),
        ("element (0, 1)", 0, 1),
        ("i usize maximum", usize::MAX, 0),
        ("j usize maximum", 0, usize::MAX),
    ] {
        with_element(&Case::new(rt, edge, buffers::pair()), i, j)?;
    }
    Ok(())
}

fn with_element(case: &Case<impl Print>, i: usize, j: usize) -> io::Result<()> {
    for way in [Way::East, Way::North] {
        case.wind(buffers::winds(), calls::face(way, i, j, 5))?;
    }
    case.on_element(buffers::sample(), calls::at(0, i, j))
}

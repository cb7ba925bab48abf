// Limits of opening and adding: at each edge and one beyond it.
use crate::requests::{flow, timing};
use schedule::draft::Draft;
use schedule::draft::add::FlowRequest;
use schedule::draft::open::Timing;
use schedule::refusal::OpenRefusal;
use std::alloc::Global;
use std::test::Fail;

// The number with which opening is refused, if it is.
fn opening(heap: Global, timing: Timing, delays: &[u64]) -> Result<Option<u8>, Fail> {
    match Draft::open(heap, timing, delays) {
        Ok(_) => Ok(None),
        Err(OpenRefusal::OutOfMemory) => Err(Fail::new("out of memory")),
        Err(refusal) => Ok(refusal.number()),
    }
}

// The number with which adding is refused, if it is.
fn adding(draft: &mut Draft, request: FlowRequest<'_>, offsets: &[u64]) -> Option<u8> {
    let refusal = draft.add(request, offsets).err()?;
    Some(refusal.number())
}

#[test]
fn timing_at_its_edges(rt: HostRuntime) -> Result<(), Fail> {
    let heap = rt.alloc();
    for (cycle, error, extension, number) in [
        (1_000, 0, 0, None),
        (999, 0, 0, Some(6)),
        (1_250_000, 125, 1_249_999, None),
        (1_250_001, 0, 0, Some(6)),
        (1_000, 126, 0, Some(6)),
        (1_000, 0, 999, None),
        (1_000, 0, 1_000, Some(6)),
        (u64::MAX, u64::MAX, u64::MAX, Some(6)),
    ] {
        assert_eq!(rt;
            opening(heap, timing(cycle, error, extension), &[0])?,
            number
        );
    }
    Ok(())
}

#[test]
fn ports_at_their_edges(rt: HostRuntime) -> Result<(), Fail> {
    let heap = rt.alloc();
    assert_eq!(rt; opening(heap, timing(1_000, 0, 0), &[])?, Some(7));
    assert_eq!(rt; opening(heap, timing(1_000, 0, 0), &[25_000; 16])?, None);
    assert_eq!(rt; opening(heap, timing(1_000, 0, 0), &[0; 17])?, Some(7));
    assert_eq!(rt; opening(heap, timing(1_000, 0, 0), &[0, 25_001])?, Some(7));
    // the timing is looked at first
    assert_eq!(rt; opening(heap, timing(999, 0, 0), &[])?, Some(6));
    Ok(())
}

#[test]
fn flows_at_their_edges(rt: HostRuntime) -> Result<(), Fail> {
    let heap = rt.alloc();
    let mut draft = Draft::open(heap, timing(1_000, 0, 0), &[0; 8])?;
    for (release, octets, deadline, number) in [
        (999, 64, 1, None),
        (1_000, 64, 1, Some(2)),
        (0, 63, 1, Some(2)),
        (0, 1_522, 1_250_000, None),
        (0, 1_523, 1, Some(2)),
        (0, 64, 0, Some(2)),
        (0, 64, 1_250_001, Some(2)),
        (u64::MAX, 64, 1, Some(2)),
    ] {
        assert_eq!(rt;
            adding(&mut draft, flow(release, octets, deadline, &[0]), &[0]),
            number
        );
    }
    Ok(())
}

#[test]
fn routes_and_offsets_at_their_edges(rt: HostRuntime) -> Result<(), Fail> {
    let heap = rt.alloc();
    let mut draft = Draft::open(heap, timing(1_000, 0, 0), &[0; 8])?;
    assert_eq!(rt; adding(&mut draft, flow(0, 64, 1, &[]), &[]), Some(3));
    assert_eq!(rt;
        adding(&mut draft, flow(0, 64, 1, &[7, 0, 1, 2, 3, 4]), &[0; 6]),
        None
    );
    assert_eq!(rt;
        adding(&mut draft, flow(0, 64, 1, &[0, 1, 2, 3, 4, 5, 6]), &[0; 7]),
        Some(3)
    );
    assert_eq!(rt; adding(&mut draft, flow(0, 64, 1, &[8]), &[0]), Some(3));
    assert_eq!(rt;
        adding(&mut draft, flow(0, 64, 1, &[0, 1, 0]), &[0; 3]),
        Some(3)
    );
    assert_eq!(rt; adding(&mut draft, flow(0, 64, 1, &[0, 1]), &[0]), Some(5));
    assert_eq!(rt; adding(&mut draft, flow(0, 64, 1, &[0]), &[0, 0]), Some(5));
    assert_eq!(rt; adding(&mut draft, flow(0, 64, 1, &[0]), &[999]), None);
    assert_eq!(rt; adding(&mut draft, flow(0, 64, 1, &[0]), &[1_000]), Some(5));
    // the flow is looked at before its route, the route before its offsets
    assert_eq!(rt; adding(&mut draft, flow(0, 63, 1, &[8]), &[1_000]), Some(2));
    assert_eq!(rt; adding(&mut draft, flow(0, 64, 1, &[8]), &[1_000]), Some(3));
    Ok(())
}

#[test]
fn a_full_draft_takes_no_more(rt: HostRuntime) -> Result<(), Fail> {
    let heap = rt.alloc();
    let mut draft = Draft::open(heap, timing(10_000, 0, 0), &[0])?;
    // by number: a `usize` has 64 bits, so that the cast loses none
    for n in 0..16u64 {
        assert_eq!(rt;
            draft.add(flow(n * 100, 64, 1_000, &[0]), &[n * 100])?,
            n as usize
        );
    }
    assert_eq!(rt; adding(&mut draft, flow(0, 0, 0, &[]), &[]), Some(1));
    Ok(())
}

// Placing: the least offsets there are, beside flows that may break rules among themselves.
use crate::requests::{flow, timing};
use schedule::draft::Draft;
use schedule::draft::add::FlowRequest;
use std::process::Abort;
use std::test::Fail;

// The number with which placing is refused, if it is.
fn placing(draft: &mut Draft, request: FlowRequest<'_>) -> Option<u8> {
    let refusal = draft.place(request).err()?;
    Some(refusal.number())
}

fn has_offsets(rt: &impl Abort, draft: &Draft, flow: usize, wanted: &[u32]) {
    assert_eq!(rt; draft.hops(flow).len(), wanted.len());
    for (window, offset) in draft.hops(flow).iter().zip(wanted) {
        assert_eq!(rt; window.offset, *offset);
    }
}

// The earliest offset at hop 0 alone would be 180, and then hop 1 comes too early for the window there: the raising goes back.
#[test]
fn a_later_hop_raises_an_earlier_one(rt: HostRuntime) -> Result<(), Fail> {
    let mut draft = Draft::open(rt.alloc(), timing(10_000, 10, 200), &[50, 30])?;
    assert_eq!(rt; draft.place(flow(0, 100, 400, &[0, 1]))?, 0);
    has_offsets(&rt, &draft, 0, &[20, 210]);
    assert_eq!(rt; placing(&mut draft, flow(169, 64, 400, &[0, 1])), Some(4));
    assert_eq!(rt; draft.hops(1).len(), 0);
    assert_eq!(rt; draft.place(flow(170, 64, 400, &[0, 1]))?, 1);
    has_offsets(&rt, &draft, 1, &[236, 390]);
    assert!(rt; draft.check().is_ok());
    Ok(())
}

#[test]
fn refusals_in_their_order(rt: HostRuntime) -> Result<(), Fail> {
    let mut draft = Draft::open(rt.alloc(), timing(10_000, 0, 0), &[0])?;
    assert_eq!(rt; placing(&mut draft, flow(10_000, 64, 1, &[])), Some(2));
    assert_eq!(rt; placing(&mut draft, flow(0, 64, 1, &[])), Some(3));
    assert_eq!(rt; placing(&mut draft, flow(0, 64, 83, &[0])), Some(4));
    assert_eq!(rt; placing(&mut draft, flow(0, 64, 84, &[0])), None);
    // by number: a `usize` has 64 bits, so that the cast loses none
    for n in 1..16u64 {
        assert_eq!(rt; draft.place(flow(n * 84, 64, 84, &[0]))?, n as usize);
    }
    assert_eq!(rt; placing(&mut draft, flow(0, 0, 0, &[])), Some(1));
    Ok(())
}

// A window ends at the very tick at which the frame of the next can come, or one tick after it.
#[test]
fn room_to_the_tick(rt: HostRuntime) -> Result<(), Fail> {
    let heap = rt.alloc();
    for (release, number) in [(84, None), (83, Some(4))] {
        let mut draft = Draft::open(heap, timing(1_000, 0, 0), &[0])?;
        assert_eq!(rt; draft.add(flow(release, 64, 1_000, &[0]), &[84])?, 0);
        assert_eq!(rt; placing(&mut draft, flow(0, 64, 84, &[0])), number);
    }
    Ok(())
}

// Two old flows at one offset break a rule between them; a third is placed beside both.
#[test]
fn beside_flows_that_break_rules(rt: HostRuntime) -> Result<(), Fail> {
    let mut draft = Draft::open(rt.alloc(), timing(1_000, 10, 0), &[0, 0])?;
    assert_eq!(rt; draft.add(flow(500, 64, 1, &[0]), &[300])?, 0);
    assert_eq!(rt; draft.add(flow(300, 64, 1, &[0]), &[300])?, 1);
    assert_eq!(rt; draft.place(flow(0, 64, 1_000, &[1, 0]))?, 2);
    has_offsets(&rt, &draft, 2, &[20, 124]);
    assert!(rt; draft.check().is_err());
    Ok(())
}

// A short frame behind a long one: each hop waits until the long one has gone, and raises the hop before it.
#[test]
fn six_hops(rt: HostRuntime) -> Result<(), Fail> {
    let mut draft = Draft::open(rt.alloc(), timing(20_000, 125, 0), &[0; 6])?;
    let route = [5, 4, 3, 2, 1, 0];
    assert_eq!(rt; draft.place(flow(0, 1_522, 20_000, &route))?, 0);
    has_offsets(&rt, &draft, 0, &[250, 2_042, 3_834, 5_626, 7_418, 9_210]);
    assert_eq!(rt;
        placing(&mut draft, flow(2_166, 64, 20_000, &route)),
        Some(4)
    );
    assert_eq!(rt; draft.place(flow(2_167, 64, 20_000, &route))?, 1);
    has_offsets(
        &rt,
        &draft,
        1,
        &[4_000, 5_792, 7_584, 9_376, 11_168, 11_502],
    );
    assert!(rt; draft.check().is_ok());
    Ok(())
}

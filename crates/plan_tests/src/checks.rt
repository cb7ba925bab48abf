// The check: each fault in its place and order, and drafts that a refusal leaves as they were.
use crate::requests::{flow, timing};
use schedule::draft::Draft;
use std::alloc::Global;
use std::test::Fail;

// A draft of two ports with delays 50 and 30, and the flow of the worked example at these offsets.
fn drafted(heap: Global, deadline: u64, offsets: &[u64]) -> Result<Draft, Fail> {
    let mut draft = Draft::open(heap, timing(10_000, 10, 200), &[50, 30])?;
    draft.add(flow(0, 100, deadline, &[0, 1]), offsets)?;
    Ok(draft)
}

// The number, the flow and the hop of the first fault, if there is one.
fn fault_of(draft: Draft) -> Option<(u8, usize, usize)> {
    let (fault, _) = draft.check().err()?;
    let (flow, hop) = fault.place();
    Some((fault.number(), flow, hop))
}

#[test]
fn each_rule_at_its_edge(rt: HostRuntime) -> Result<(), Fail> {
    let heap = rt.alloc();
    for (deadline, first, second, fault) in [
        (400, 20, 210, None),
        (370, 20, 210, None),
        (369, 20, 210, Some((15, 0, 1))),
        (400, 19, 210, Some((11, 0, 0))),
        (400, 20, 209, Some((13, 0, 1))),
        (10_000, 20, 9_840, Some((14, 0, 1))),
        (10_000, 20, 9_839, None),
        (10_000, 20, 9_841, Some((12, 0, 1))),
        // the hop before the rule: hop 0 breaks the second, hop 1 the first
        (400, 9_841, 0, Some((12, 0, 0))),
        // the rules in order: the third and the fifth are broken
        (1, 20, 209, Some((13, 0, 1))),
    ] {
        assert_eq!(rt; fault_of(drafted(heap, deadline, &[first, second])?), fault);
    }
    Ok(())
}

#[test]
fn windows_of_one_port_stand_apart(rt: HostRuntime) -> Result<(), Fail> {
    let heap = rt.alloc();
    for (release, first, second, fault) in [
        (170, 236, 390, None),
        (169, 236, 390, Some((16, 1, 0))),
        (170, 236, 389, Some((13, 1, 1))),
        (170, 20, 390, Some((13, 1, 0))),
        // one offset for two windows
        (10, 20, 390, Some((16, 1, 0))),
    ] {
        let mut draft = drafted(heap, 400, &[20, 210])?;
        assert_eq!(rt;
            draft.add(flow(release, 64, 400, &[0, 1]), &[first, second])?,
            1
        );
        assert_eq!(rt; fault_of(draft), fault);
    }
    Ok(())
}

#[test]
fn the_lower_flow_comes_first(rt: HostRuntime) -> Result<(), Fail> {
    let heap = rt.alloc();
    let mut draft = drafted(heap, 369, &[20, 210])?;
    assert_eq!(rt; draft.add(flow(0, 64, 400, &[1]), &[0])?, 1);
    assert_eq!(rt; fault_of(draft), Some((15, 0, 1)));
    Ok(())
}

#[test]
fn refusals_leave_the_draft(rt: HostRuntime) -> Result<(), Fail> {
    let heap = rt.alloc();
    let mut draft = drafted(heap, 369, &[20, 210])?;
    for (octets, port, offset) in [(63, 0, 0), (64, 2, 0), (64, 0, 10_000)] {
        assert!(rt; draft.add(flow(0, octets, 400, &[port]), &[offset]).is_err());
    }
    let Err((_, draft)) = draft.check() else {
        return Err(Fail::new("passed"));
    };
    assert_eq!(rt; fault_of(draft), Some((15, 0, 1)));
    Ok(())
}

#[test]
fn certificates_and_reaches(rt: HostRuntime) -> Result<(), Fail> {
    let heap = rt.alloc();
    let Ok(plan) = drafted(heap, 400, &[20, 210])?.check() else {
        return Err(Fail::new("refused"));
    };
    assert_eq!(rt; plan.certificate(0)?, (350, 370));
    assert!(rt; plan.certificate(1).is_err());
    assert_eq!(rt; plan.reach(0, 0), Some((0, 0)));
    assert_eq!(rt; plan.reach(0, 1), Some((180, 200)));
    assert!(rt; plan.reach(0, 2).is_none());
    assert!(rt; plan.reach(1, 0).is_none());
    assert_eq!(rt; plan.flows().len(), 1);
    assert_eq!(rt; plan.windows().len(), 2);
    assert_eq!(rt; plan.ports().len(), 2);
    assert_eq!(rt;
        (plan.cycle(), plan.error(), plan.extension()),
        (10_000, 10, 200)
    );
    Ok(())
}

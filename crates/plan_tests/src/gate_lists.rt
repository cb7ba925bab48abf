// Gate lists: touching windows, a port with no window, the worked example.
use crate::requests::{flow, timing};
use gates::entry::GateEntry;
use gates::list::GateList;
use schedule::checked::CheckedPlan;
use schedule::draft::Draft;
use std::alloc::Global;
use std::process::Abort;
use std::test::Fail;

// Flows of 100 octets over port 0 of two, at these releases and offsets.
fn planned(heap: Global, error: u64, flows: &[(u64, u64)]) -> Result<CheckedPlan, Fail> {
    let mut draft = Draft::open(heap, timing(1_000, error, 0), &[0, 0])?;
    for (release, offset) in flows {
        draft.add(flow(*release, 100, 1_000, &[0]), &[*offset])?;
    }
    draft.check().map_err(|_| Fail::new("refused"))
}

fn has_entries(rt: &impl Abort, list: &GateList, wanted: &[(u8, u32)]) {
    assert_eq!(rt; list.entries().len(), wanted.len());
    for (entry, (octet, ticks)) in list.entries().iter().zip(wanted) {
        assert_eq!(rt; (entry.octet, entry.ticks), (*octet, *ticks));
    }
}

#[test]
fn touching_windows_are_one_entry(rt: HostRuntime) -> Result<(), Fail> {
    let heap = rt.alloc();
    let plan = planned(heap, 0, &[(0, 0), (120, 120)])?;
    has_entries(
        &rt,
        &GateList::of_port(heap, &plan, 0)?,
        &[(0x80, 240), (0x7F, 760)],
    );
    let plan = planned(heap, 0, &[(0, 879)])?;
    has_entries(
        &rt,
        &GateList::of_port(heap, &plan, 0)?,
        &[(0x7F, 879), (0x80, 120), (0x7F, 1)],
    );
    Ok(())
}

#[test]
fn a_port_with_no_window_is_open_to_ordinary_traffic(rt: HostRuntime) -> Result<(), Fail> {
    let heap = rt.alloc();
    let plan = planned(heap, 10, &[(0, 20)])?;
    has_entries(&rt, &GateList::of_port(heap, &plan, 1)?, &[(0x7F, 1_000)]);
    assert!(rt; GateList::of_port(heap, &plan, 2).is_err());
    Ok(())
}

#[test]
fn guard_bands_stand_before_windows(rt: HostRuntime) -> Result<(), Fail> {
    let heap = rt.alloc();
    let plan = planned(heap, 10, &[(0, 20), (290, 300)])?;
    let list = GateList::of_port(heap, &plan, 0)?;
    has_entries(
        &rt,
        &list,
        &[
            (0x00, 20),
            (0x80, 140),
            (0x7F, 120),
            (0x00, 20),
            (0x80, 140),
            (0x7F, 560),
        ],
    );
    let window = GateEntry {
        octet: 0x80,
        ticks: 1,
    };
    assert!(rt; window.is_open(7) && !window.is_open(0) && !window.is_open(8));
    Ok(())
}

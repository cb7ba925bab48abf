// What is asked of a draft, by position.
use schedule::draft::add::FlowRequest;
use schedule::draft::open::Timing;

pub(crate) fn timing(cycle: u64, error: u64, extension: u64) -> Timing {
    Timing {
        cycle,
        error,
        extension,
    }
}

pub(crate) fn flow(release: u64, octets: u64, deadline: u64, route: &[u64]) -> FlowRequest<'_> {
    FlowRequest {
        release,
        octets,
        deadline,
        route,
    }
}

//! What each trusted file says of itself.

ghost use Rattle.std.specs.Prelude.{◌≡◌, option_map};
ghost use Rattle.rolechain.specs.Headers as spec;

use crate::end::Step;
use crate::state::Trusted;
use meta::Header;

/// Returns the step of each file, with its header if the file is trusted (TUF 1.0 section 4.3).
pub fn headers(trusted: &Trusted) -> [(Step, Option<Header>); 4]
    ensures files { result ≡ spec.headers trusted.now }
{
    [
        (Step::Root, Some(*trusted.root().reading().header())),
        (Step::Timestamp, timestamp_header(trusted)),
        (Step::Snapshot, snapshot_header(trusted)),
        (Step::Targets, targets_header(trusted)),
    ]
}

fn timestamp_header(trusted: &Trusted) -> Option<Header>
    ensures { result ≡ option_map (λ p. p.reading.header) trusted.now.timestamp }
{
    match trusted.timestamp() {
        Some(part) => Some(*part.reading().header()),
        None => None,
    }
}

fn snapshot_header(trusted: &Trusted) -> Option<Header>
    ensures { result ≡ option_map (λ p. p.reading.header) trusted.now.snapshot }
{
    match trusted.snapshot() {
        Some(part) => Some(*part.reading().header()),
        None => None,
    }
}

fn targets_header(trusted: &Trusted) -> Option<Header>
    ensures { result ≡ option_map (λ p. p.reading.header) trusted.now.targets }
{
    match trusted.targets() {
        Some(part) => Some(*part.reading().header()),
        None => None,
    }
}

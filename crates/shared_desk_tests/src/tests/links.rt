//! The input from other sites: lines into an intake, and their lanes.
ghost use Rattle.std.specs.Prelude.{◌≡◌, ◌≤◌, [], false, IfOk};

use apply_lanes::{Intake, Outlet, lane};
use inbound::Inbound;
use rights_types::{OutOfMemory, SiteId};
use std::alloc::{Allocator, Global};
use std::process::Abort;
use std::sync::Wait;

/// The intake of site 1 for that origin, and the outlet of its lane.
pub(crate) fn link_in<A: Allocator + Copy>(
    alloc: A,
    origin: u64,
    sites: u64,
) -> Result<(Intake<A>, Outlet<A>), OutOfMemory>
    requires sites { (2 ≤ sites) × (sites ≤ 16) }
    requires origin { (2 ≤ origin) × (origin ≤ sites) }
    ensures fresh { IfOk result (λ r. (r.0.finished ≡ false) × (r.1.taken ≡ [])) }
    ensures lane { IfOk result (λ r. r.1.lane ≡ r.0.inlet.lane) }
{
    let inbound = Inbound::new(alloc, SiteId::known(1), SiteId::known(origin), sites)?;
    let (inlet, outlet) = lane(alloc, 32)?;
    Ok((Intake::new(inbound, inlet), outlet))
}

/// The same, with ample memory.
pub(crate) fn link<R: Abort>(rt: &R, alloc: Global, origin: u64, sites: u64) -> (Intake, Outlet)
    requires sites { (2 ≤ sites) × (sites ≤ 16) }
    requires origin { (2 ≤ origin) × (origin ≤ sites) }
    ensures fresh { (result.0.finished ≡ false) × (result.1.taken ≡ []) }
    ensures lane { result.1.lane ≡ result.0.inlet.lane }
{
    link_in(alloc, origin, sites).expect(rt, "a link")
}

/// The intake with that line taken in, and End put.
pub(crate) fn feed<R: Wait + Abort>(rt: &R, mut intake: Intake, line: &str) -> Intake
    requires { intake.finished ≡ false }
    ensures { result.inlet.lane ≡ intake.inlet.lane }
{
    assert!(rt; intake.on_line(rt, line.as_bytes()).is_ok());
    assert!(rt; intake.finish(rt).is_ok());
    intake
}

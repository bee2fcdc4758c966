//! The effect of a tick at the desk, before anything is sent.
ghost use Rattle.std.specs.Prelude.{◌≡◌, List, [], length, IfOk, IfErr};
ghost use Rattle.request_queue.specs.declared.request.Request.{Request};
ghost use Rattle.request_queue.specs.declared.queue.TheConstants.{SLOTS};
ghost use Rattle.site_node.specs.Ticking.{ServesAll, ServesNextIf, ServingFails, Ticks, TicksBeside};
ghost use Rattle.transfer_manager.specs.SiteSets.{has_site};

use apply_lanes::{DeskNames, Kept, Seat};
use request_queue::SLOTS;
use site_core::DeskError;
use transfer_manager::SiteSet;

/// What a tick did at the desk.
#[derive(Clone, Copy)]
pub struct Ticked {
    /// Waiting spends that expired.
    pub expired: u64,
    /// Waiting spends that were served.
    pub served: u64,
    /// Peers that were newly asked for rights.
    pub asks: u64,
}

/// Expires the spends whose deadlines have passed, serves waiting spends as long as enough rights are held, and plans
/// asks for the rest. If the time is refused, nothing is done. If a serve is refused, what was served before it
/// remains, and nothing is planned.
pub fn serve_due<D: DeskNames>(
    kept: &mut Kept<D>,
    seat: &mut Seat<D>,
    time: u64,
) -> Result<Ticked, DeskError>
    ensures { (served : List Request) × Ticks kept.old seat.old time served result kept.new seat.new }
{
    serve_due_beside(kept, seat, time, &SiteSet::new())
}

/// The same beside silent peers: none of them is asked anew, and what they were asked for is asked of the others. Their
/// outstanding asks are sent as ever.
pub fn serve_due_beside<D: DeskNames>(
    kept: &mut Kept<D>,
    seat: &mut Seat<D>,
    time: u64,
    silent: &SiteSet,
) -> Result<Ticked, DeskError>
    ensures { (served : List Request)
        × TicksBeside (has_site silent.now) kept.old seat.old time served result kept.new seat.new }
{
    let expired = kept.expire(time)?;
    let served = serve_all(kept, seat)?;
    let asks = kept.plan_beside(silent);
    Ok(Ticked {
        expired,
        served,
        asks,
    })
}

/// Serves from the front until no request can be served, and returns how many were served.
fn serve_all<D: DeskNames>(kept: &mut Kept<D>, seat: &mut Seat<D>) -> Result<u64, DeskError>
    ensures ok { IfOk result (λ count. (served : List Request) × ServesAll kept.old seat.old served kept.new seat.new
        × (count ≡ length served)) }
    ensures err { IfErr result (λ fault. (served : List Request)
        × ServingFails kept.old seat.old served fault kept.new seat.new) }
{
    // For the proof: at most `SLOTS` requests wait.
    let _ = kept.desk();
    let mut count = 0;
    'requests: while serve_next(kept, seat)? {
        count += 1;
    }
    Ok(count)
}

/// Serves the request at the front. False if none waits, or if fewer rights are held than it needs.
fn serve_next<D: DeskNames>(kept: &mut Kept<D>, seat: &mut Seat<D>) -> Result<bool, DeskError>
    ensures ok { IfOk result (λ served. ServesNextIf served kept.old seat.old kept.new seat.new) }
    ensures err { IfErr result (λ fault. ServingFails kept.old seat.old [] fault kept.new seat.new) }
{
    let Some((ticket, number, amount)) = kept.serve(seat)? else {
        return Ok(false);
    };
    kept.serve_key(ticket, number, amount);
    Ok(true)
}

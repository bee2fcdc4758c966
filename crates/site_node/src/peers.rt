//! What a tick sends to all peers.
ghost use Rattle.std.specs.Prelude.{◌≡◌, ℕ, ◌+◌, ◌<◌, ◌≤◌, IfOk, OnErr};
ghost use Rattle.rights_types.specs.declared.limits.TheConstants.{MAX_NUMBER, MAX_SITES};
ghost use Rattle.site_node.specs.ToPeers.{SendsToFirst, StopsAtPeer};

use rights_types::{MAX_NUMBER, MAX_SITES, OutOfMemory};

/// The peers of a site, in the order of their numbers, with what a call needs to reach each of them.
pub trait Peers {
    /// How many peers there are, which never changes.
    ghost size: { Self → ℕ };

    /// `sends before index sent after`: the peer at this index was offered what is due to it, `sent` lines found
    /// space, and the peers changed from `before` to `after`.
    ghost sends: { Self → ℕ → ℕ → Self → Type 0 };

    /// `stops before index after`: memory ran out at the peer at this index, and the peers changed from `before` to
    /// `after`.
    ghost stops: { Self → ℕ → Self → Type 0 };

    fn count(&self) -> usize
        ensures value { result ≡ size self.now }
        ensures few { result ≤ MAX_SITES };

    /// Offers everything that is due to the peer at this index, from 0, and returns how many lines found space.
    fn send_due(&mut self, index: usize) -> Result<u64, OutOfMemory>
        requires { index < size self.old }
        ensures ok { IfOk result (λ sent. sends self.old index sent self.new) }
        ensures err { OnErr result (stops self.old index self.new) }
        ensures range { IfOk result (λ sent. sent ≤ MAX_NUMBER + 2) }
        ensures same { size self.new ≡ size self.old };
}

/// Offers to each peer, one after another, everything that is due to it, and returns how many lines found space. Stops
/// at the first peer for which memory runs out.
pub fn send_to_all<P: Peers>(peers: &mut P) -> Result<u64, OutOfMemory>
    ensures ok { IfOk result (λ sent. SendsToFirst P.sends (P.size peers.old) peers.old sent peers.new) }
    ensures err { OnErr result (StopsAtPeer P.sends P.stops (P.size peers.old) peers.old peers.new) }
{
    let mut sent = 0;
    for index in 0..peers.count() {
        sent += peers.send_due(index)?;
    }
    Ok(sent)
}

//! What of a site's log was sent to no peer.
ghost use Rattle.std.specs.Prelude.{◌≡◌};
ghost use Rattle.site_metrics.specs.Unsent.{most_sent, numbers_unsent};

/// The first and the last number of a log that was sent to no peer, where the log ends at `last` and was sent to each
/// peer up to the number in `sent`. None where all of it was sent to some peer.
pub fn unsent_numbers(last: u64, sent: &[u64]) -> Option<(u64, u64)>
    ensures { result ≡ numbers_unsent last sent.now }
{
    let most = greatest(sent);
    if last <= most {
        None
    } else {
        Some((most + 1, last))
    }
}

fn greatest(sent: &[u64]) -> u64
    ensures { result ≡ most_sent sent.now }
{
    let mut most = 0;
    for number in sent {
        most = most.max(*number);
    }
    most
}

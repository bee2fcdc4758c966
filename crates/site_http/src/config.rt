//! The limits of a connection.
ghost use Rattle.std.specs.Prelude.{◌≡◌};

use http_server::Config;
use http1::Limits;

const SERVICE: Config = Config {
    limits: Limits {
        max_head_len: 16_384,
        max_extensions_len: 1_024,
        max_trailers_len: 1_024,
    },
    max_body_len: 1_048_576,
    max_pending: 65_536,
    read_size: 4_096,
};

/// The limits of a connection: a head of 16 KiB, a body of 1 MiB, and no request is read while more than 64 KiB of
/// responses wait. An idle connection that had no large body keeps some 12 KiB.
pub fn service_config() -> Config
    ensures head { result.limits.max_head_len ≡ 16384 }
    ensures body { result.max_body_len ≡ 1048576 }
    ensures pending { result.max_pending ≡ 65536 }
{
    SERVICE
}

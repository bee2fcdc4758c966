//! The fields of a request.
ghost use Rattle.std.specs.Prelude.{◌↔◌, IsTrue};
ghost use Rattle.http.specs.Request.{head_of};
ghost use Rattle.http.specs.HeaderMap.{ContainsKey};

use bytes::Bytes;
use http::Request;

/// Whether the request has a field with this name, in lower case. A request has few fields: to compare their names takes
/// less time than the hash of one.
pub(crate) fn has_field(request: &Request<Bytes>, name: &str) -> bool
    ensures { IsTrue result ↔ ContainsKey (head_of request.now).headers name.now }
{
    request.headers().keys().any(|it| it.as_str() == name)
}

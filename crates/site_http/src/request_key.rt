//! What a request says of a key for its command.
ghost use Rattle.std.specs.Prelude.{◌≡◌, codes};
ghost use Rattle.command_keys.specs.Key.{key_in};
ghost use Rattle.site_http.specs.Keys.{key_of, key_said};

use crate::fields::has_field;
use bytes::Bytes;
use command_keys::Key;
use http::{HeaderName, Request};

/// The field that gives a command its key.
const KEY_FIELD: &str = "idempotency-key";

/// What the fields `Idempotency-Key` of a request say.
#[derive(Clone, Copy)]
pub enum RequestKey {
    /// There is no such field.
    Absent,
    /// There are several, or the value of the one is no key: it is empty, longer than 64 bytes, or has a byte outside
    /// 0x21 to 0x7e.
    Bad,
    /// There is one, and its value is this key.
    Given(Key),
}

/// What the request says of a key.
pub(crate) fn key_of(request: &Request<Bytes>) -> RequestKey
    ensures { result ≡ key_of request.now }
{
    if has_field(request, KEY_FIELD) {
        key_in_fields(request)
    } else {
        RequestKey::Absent
    }
}

/// The same, where there may be such fields.
#[inline(never)]
fn key_in_fields(request: &Request<Bytes>) -> RequestKey
    ensures { result ≡ key_of request.now }
{
    let field = HeaderName::from_static(KEY_FIELD);
    let mut values = request.headers().get_all(&field).into_iter();
    let first = values.next();
    let second = values.next();
    match (first, second) {
        (None, _) => RequestKey::Absent,
        (Some(value), None) => key_said(value.as_bytes()),
        (Some(_), Some(_)) => RequestKey::Bad,
    }
}

/// What the value of a single field says.
fn key_said(value: &[u8]) -> RequestKey
    ensures { result ≡ key_said (key_in value.now) }
{
    match Key::read(value) {
        Some(key) => RequestKey::Given(key),
        None => RequestKey::Bad,
    }
}

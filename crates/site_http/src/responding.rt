//! The responses to requests.
ghost use Rattle.std.specs.Prelude.{◌≡◌, ◌≤◌, ℕ, Bool, List, [], ◌∷◌, ◌++◌, codes, map, OnOk, OnErr};
ghost use Rattle.std.specs.String.{string_bytes};
ghost use Rattle.http.specs.Request.{body_of};
ghost use Rattle.http_server.specs.Response.{IsBlank, IsResponse, fields_of};
ghost use Rattle.site_http.specs.Keys.{key_of};
ghost use Rattle.site_http.specs.Replying.{RepliesToBody};
ghost use Rattle.site_http.specs.declared.page.TheConstants.{PAGE};
ghost use Rattle.site_http.specs.Responding.{headers_for, plain, methods_of, IsHealth, IsReplied, Tells, TellsLine};
ghost use Rattle.site_http.specs.Responding.{Responds};

use crate::backend::{Backend, LONGEST_REPLY};
use crate::page::page;
use crate::replying::{LAST_ROOM, answer_body};
use crate::request_key::key_of;
use crate::route::{Allowed, Route, route_of};
use bytes::{BufMut, Bytes};
use http::{HeaderValue, Request, StatusCode, header};
use http_server::Response;
use line_streams::Replies;
use std::alloc::{AllocError, Global};

/// Responds to a request, at a site whose host has these names.
pub(crate) fn respond<C: Backend>(
    names: &[String],
    client: &mut C,
    replies: &mut Replies<Global>,
    request: &Request<Bytes>,
    response: &mut Response,
) -> Result<(), AllocError>
    requires blank { IsBlank response.old }
    ensures ok { OnOk result (Responds C.answers C.status C.queue C.known C.listed C.metrics C.closed (map string_bytes names.now)
        client.old request.now response.new client.new) }
    ensures err { OnErr result (client.new ≡ client.old) }
{
    match route_of(names, request) {
        Route::Commands => reply_to_lines(client, false, replies, request, response),
        Route::Wait => reply_to_lines(client, true, replies, request, response),
        Route::Status => tell_status(client, replies, response),
        Route::Queue => tell_queue(client, replies, response),
        Route::Peers => tell_peers(client, replies, response),
        Route::Log(first) => tell_log(client, first, replies, response),
        Route::Metrics => tell_metrics(client, replies, response),
        Route::Health => tell_health(client, response),
        Route::Page => show_page(response),
        Route::Foreign => say(response, StatusCode::FORBIDDEN, b"error Origin\n"),
        Route::Misdirected => say(response, StatusCode::MISDIRECTED_REQUEST, b"error Host\n"),
        Route::NotAllowed(allowed) => refuse_method(response, allowed),
        Route::NotFound => say(response, StatusCode::NOT_FOUND, b"error Target\n"),
        Route::BadQuery => say(response, StatusCode::BAD_REQUEST, b"error Query\n"),
    }
}

/// Responds with the replies to the lines of the body.
fn reply_to_lines<C: Backend>(
    client: &mut C,
    waits: bool,
    replies: &mut Replies<Global>,
    request: &Request<Bytes>,
    response: &mut Response,
) -> Result<(), AllocError>
    requires blank { IsBlank response.old }
    ensures ok { OnOk result (IsReplied (RepliesToBody C.answers (key_of request.now) waits) client.old (body_of request.now)
        response.new client.new) }
    ensures err { OnErr result (client.new ≡ client.old) }
{
    begin_reply(response)?;
    let key = key_of(request);
    let body = request.body().as_slice();
    response.status = answer_body(client, key, waits, body, replies, &mut response.body);
    Ok(())
}

fn tell_status<C: Backend>(
    client: &C,
    replies: &mut Replies<Global>,
    response: &mut Response,
) -> Result<(), AllocError>
    requires { IsBlank response.old }
    ensures { OnOk result (TellsLine C.status (codes "application/json") client.now response.new) }
{
    replies.clear();
    let Ok(()) = client.put_status(replies) else {
        return Err(AllocError);
    };
    tell(
        response,
        HeaderValue::from_static("application/json"),
        replies,
    )
}

fn tell_queue<C: Backend>(
    client: &C,
    replies: &mut Replies<Global>,
    response: &mut Response,
) -> Result<(), AllocError>
    requires { IsBlank response.old }
    ensures { OnOk result (TellsLine C.queue (codes "application/json") client.now response.new) }
{
    replies.clear();
    let Ok(()) = client.put_queue(replies) else {
        return Err(AllocError);
    };
    tell(
        response,
        HeaderValue::from_static("application/json"),
        replies,
    )
}

fn tell_peers<C: Backend>(
    client: &C,
    replies: &mut Replies<Global>,
    response: &mut Response,
) -> Result<(), AllocError>
    requires { IsBlank response.old }
    ensures { OnOk result (TellsLine C.known (codes "application/json") client.now response.new) }
{
    replies.clear();
    let Ok(()) = client.put_peers(replies) else {
        return Err(AllocError);
    };
    tell(
        response,
        HeaderValue::from_static("application/json"),
        replies,
    )
}

fn tell_log<C: Backend>(
    client: &C,
    first: u64,
    replies: &mut Replies<Global>,
    response: &mut Response,
) -> Result<(), AllocError>
    requires { IsBlank response.old }
    ensures { OnOk result (Tells (λ s text. C.listed s first text) (codes "text/plain; charset=utf-8") client.now
        response.new) }
{
    replies.clear();
    let Ok(()) = client.put_log(first, replies) else {
        return Err(AllocError);
    };
    tell(response, HeaderValue::from_static(PLAIN), replies)
}

fn tell_metrics<C: Backend>(
    client: &C,
    replies: &mut Replies<Global>,
    response: &mut Response,
) -> Result<(), AllocError>
    requires { IsBlank response.old }
    ensures { OnOk result (Tells C.metrics (codes "text/plain; version=0.0.4") client.now response.new) }
{
    replies.clear();
    let Ok(()) = client.put_metrics(replies) else {
        return Err(AllocError);
    };
    tell(
        response,
        HeaderValue::from_static("text/plain; version=0.0.4"),
        replies,
    )
}

fn tell_health<C: Backend>(client: &C, response: &mut Response) -> Result<(), AllocError>
    requires { IsBlank response.old }
    ensures { OnOk result ((is_closed : Bool) × C.closed client.now is_closed × IsHealth is_closed response.new) }
{
    if client.is_closed() {
        say(response, StatusCode::SERVICE_UNAVAILABLE, b"closed\n")
    } else {
        say(response, StatusCode::OK, b"ok\n")
    }
}

fn show_page(response: &mut Response) -> Result<(), AllocError>
    requires { IsBlank response.old }
    ensures { OnOk result (IsResponse 200 (headers_for (codes "text/html; charset=utf-8")) PAGE.now response.new) }
{
    add_headers(
        response,
        HeaderValue::from_static("text/html; charset=utf-8"),
    )?;
    response.body.push(page())
}

fn refuse_method(response: &mut Response, allowed: Allowed) -> Result<(), AllocError>
    requires { IsBlank response.old }
    ensures { OnOk result (IsResponse 405 (plain ++ (codes "allow", methods_of allowed) ∷ [])
        (codes "error Method" ++ 10 ∷ []) response.new) }
{
    say(response, StatusCode::METHOD_NOT_ALLOWED, b"error Method\n")?;
    response.add_header(header::ALLOW, methods_of(allowed))
}

fn methods_of(allowed: Allowed) -> HeaderValue
    ensures { result.bytes ≡ methods_of allowed }
{
    match allowed {
        Allowed::Get => HeaderValue::from_static("GET, HEAD"),
        Allowed::Post => HeaderValue::from_static("POST"),
        Allowed::GetAndPost => HeaderValue::from_static("GET, HEAD, POST"),
    }
}

/// Responds with the whole replies.
fn tell(
    response: &mut Response,
    content_type: HeaderValue,
    replies: &Replies<Global>,
) -> Result<(), AllocError>
    requires { IsBlank response.old }
    ensures { OnOk result (IsResponse 200 (headers_for content_type.bytes) replies.now.whole response.new) }
{
    add_headers(response, content_type)?;
    response.body.put_slice(replies.whole())
}

/// Responds with a short text.
pub(crate) fn say(
    response: &mut Response,
    status: StatusCode,
    text: &[u8],
) -> Result<(), AllocError>
    requires { IsBlank response.old }
    ensures { OnOk result (IsResponse status plain text.now response.new) }
{
    add_headers(response, HeaderValue::from_static(PLAIN))?;
    response.status = status;
    response.body.put_slice(text)
}

/// Adds the headers of replies, and reserves memory for the first reply. After that only a line can fail.
fn begin_reply(response: &mut Response) -> Result<(), AllocError>
    requires { IsBlank response.old }
    ensures headers { OnOk result (fields_of response.new ≡ plain) }
    ensures body { response.new.body.items ≡ [] }
    ensures room { OnOk result (LAST_ROOM ≤ response.new.body.spare) }
{
    add_headers(response, HeaderValue::from_static(PLAIN))?;
    response.body.reserve(LONGEST_REPLY + LAST_ROOM)
}

const PLAIN: &str = "text/plain; charset=utf-8";

fn add_headers(response: &mut Response, content_type: HeaderValue) -> Result<(), AllocError>
    requires { fields_of response.old ≡ [] }
    ensures headers { OnOk result (fields_of response.new ≡ headers_for content_type.bytes) }
    ensures status { response.new.status ≡ response.old.status }
    ensures body { response.new.body ≡ response.old.body }
{
    response.add_header(header::CONTENT_TYPE, content_type)?;
    response.add_header(header::CACHE_CONTROL, HeaderValue::from_static("no-store"))
}

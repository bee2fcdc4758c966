//! The report of the spends that wait.
ghost use Rattle.std.specs.Prelude.{◌≡◌, ◌++◌, [], OnOk, OnErr};
ghost use Rattle.line_streams.specs.Waiting.{AddsReply};
ghost use Rattle.site_node.specs.Texts.{queue_text, request_text, requests_text, more_requests};

use line_streams::Replies;
use request_queue::Request;
use rights_types::OutOfMemory;
use std::alloc::Allocator;

/// Appends the report of a queue: the requests that wait, in order, and how many outcomes nobody has read. On `Err` the
/// current reply may have a part of it.
pub fn answer_queue<A: Allocator>(
    replies: &mut Replies<A>,
    requests: &[Request],
    unread: u64,
) -> Result<(), OutOfMemory>
    requires { replies.old.part ≡ [] }
    ensures ok { OnOk result (AddsReply replies.old replies.new (queue_text requests.now unread)) }
    ensures kept { OnErr result (replies.new.whole ≡ replies.old.whole) }
{
    replies.put(b"{\"requests\":[")?;
    put_requests(replies, requests)?;
    replies.put_field(b"],\"unread\":", unread)?;
    replies.put(b"}")?;
    replies.finish()
}

/// Appends the requests, separated by commas.
fn put_requests<A: Allocator>(
    replies: &mut Replies<A>,
    requests: &[Request],
) -> Result<(), OutOfMemory>
    ensures ok { OnOk result (replies.new.part ≡ replies.old.part ++ requests_text requests.now) }
    ensures kept { replies.new.whole ≡ replies.old.whole }
{
    match requests {
        [] => Ok(()),
        [first, others @ ..] => {
            put_request(replies, first)?;
            put_more(replies, others)
        }
    }
}

/// Appends the requests, each after a comma.
fn put_more<A: Allocator>(replies: &mut Replies<A>, requests: &[Request]) -> Result<(), OutOfMemory>
    ensures ok { OnOk result (replies.new.part ≡ replies.old.part ++ more_requests requests.now) }
    ensures kept { replies.new.whole ≡ replies.old.whole }
{
    for request in requests {
        replies.put(b",")?;
        put_request(replies, request)?;
    }
    Ok(())
}

/// Appends a request as an object.
fn put_request<A: Allocator>(replies: &mut Replies<A>, request: &Request) -> Result<(), OutOfMemory>
    ensures ok { OnOk result (replies.new.part ≡ replies.old.part ++ request_text request.now) }
    ensures kept { replies.new.whole ≡ replies.old.whole }
{
    replies.put_field(b"{\"amount\":", request.amount.value())?;
    replies.put_field(b",\"deadline\":", request.deadline)?;
    replies.put_field(b",\"ticket\":", request.ticket)?;
    replies.put(b"}")
}

//! Appending one metric. Each line has its line feed before it, so that the last line of the text is left to
//! `Replies::finish`. On `Err` the current reply may have a part of it, and the whole replies are unchanged.
ghost use Rattle.std.specs.Prelude.{◌≡◌, ℕ, List, ◌++◌, ◌∷◌, [], codes, flat_map, length, ◌≤◌, ◌+◌, ◌*◌, OnOk, IsOk};
ghost use Rattle.std.specs.List.{zip};
ghost use Rattle.site_metrics.specs.Format.{help_line, type_line, sample_line, led_lines};
ghost use Rattle.site_metrics.specs.Table.{kind_word, family, alone, peer_sample, peer_metric, name_sample, by_name};
ghost use Rattle.refusals.specs.Refusals.{refusal_names};
ghost use Rattle.site_metrics.specs.PeerValues.{peer_value};

use crate::kind::Kind;
use crate::metrics::PeerMetrics;
use crate::names::refusal_name;
use crate::peer_value::PeerValue;
use line_streams::Replies;
use refusals::REFUSAL_COUNT;
use rights_types::OutOfMemory;
use std::alloc::Allocator;

/// The longest name and the longest help text, in bytes.
pub(crate) const MAX_NAME: usize = 40;

pub(crate) const MAX_HELP: usize = 120;

/// The most bytes of the two lines that a metric begins with, and of the line of one value, line feeds included.
pub(crate) const HEAD_ROOM: usize = 226;

pub(crate) const SAMPLE_ROOM: usize = 96;

/// A metric with one value.
pub(crate) fn put_alone<A: Allocator>(
    replies: &mut Replies<A>,
    kind: Kind,
    name: &[u8],
    help: &[u8],
    value: u64,
) -> Result<(), OutOfMemory>
    requires name { length name.now ≤ MAX_NAME }
    requires help { length help.now ≤ MAX_HELP }
    ensures ok { OnOk result (replies.new.part
        ≡ replies.old.part ++ led_lines (family kind name.now help.now (alone value))) }
    ensures kept { replies.new.whole ≡ replies.old.whole }
    ensures room { HEAD_ROOM + SAMPLE_ROOM ≤ replies.old.room → IsOk result }
    ensures left { replies.old.room ≤ replies.new.room + (HEAD_ROOM + SAMPLE_ROOM) }
{
    put_led_head(replies, kind, name, help)?;
    put_value(replies, name, value)
}

/// The metric with this value of each peer.
pub(crate) fn put_by_peer<A: Allocator>(
    replies: &mut Replies<A>,
    peers: &[PeerMetrics],
    value: PeerValue,
) -> Result<(), OutOfMemory>
    ensures ok { OnOk result (replies.new.part ≡ replies.old.part ++ led_lines (peer_metric value peers.now)) }
    ensures kept { replies.new.whole ≡ replies.old.whole }
    ensures room { HEAD_ROOM + SAMPLE_ROOM * length peers.now ≤ replies.old.room → IsOk result }
    ensures left { replies.old.room ≤ replies.new.room + (HEAD_ROOM + SAMPLE_ROOM * length peers.now) }
{
    let name = value.name();
    put_led_head(replies, value.kind(), name, value.help())?;
    put_peer_values(replies, name, peers, value)
}

/// A metric with a count for each name of a refusal.
pub(crate) fn put_by_name<A: Allocator>(
    replies: &mut Replies<A>,
    kind: Kind,
    name: &[u8],
    help: &[u8],
    counts: &[u64; REFUSAL_COUNT],
) -> Result<(), OutOfMemory>
    requires name { length name.now ≤ MAX_NAME }
    requires help { length help.now ≤ MAX_HELP }
    ensures ok { OnOk result (replies.new.part
        ≡ replies.old.part ++ led_lines (family kind name.now help.now (by_name counts.now))) }
    ensures kept { replies.new.whole ≡ replies.old.whole }
    ensures room { HEAD_ROOM + SAMPLE_ROOM * REFUSAL_COUNT ≤ replies.old.room → IsOk result }
    ensures left { replies.old.room ≤ replies.new.room + (HEAD_ROOM + SAMPLE_ROOM * REFUSAL_COUNT) }
{
    put_led_head(replies, kind, name, help)?;
    put_name_counts(replies, name, counts)
}

fn put_led_head<A: Allocator>(
    replies: &mut Replies<A>,
    kind: Kind,
    name: &[u8],
    help: &[u8],
) -> Result<(), OutOfMemory>
    requires name { length name.now ≤ MAX_NAME }
    requires help { length help.now ≤ MAX_HELP }
    ensures ok { OnOk result (replies.new.part
        ≡ replies.old.part ++ (10 ∷ help_line name.now help.now ++ 10 ∷ type_line name.now (kind_word kind))) }
    ensures kept { replies.new.whole ≡ replies.old.whole }
    ensures room { HEAD_ROOM ≤ replies.old.room → IsOk result }
    ensures left { replies.old.room ≤ replies.new.room + HEAD_ROOM }
{
    replies.put(b"\n")?;
    put_head(replies, kind, name, help)
}

/// The two lines that a metric begins with, with no line feed before them.
pub(crate) fn put_head<A: Allocator>(
    replies: &mut Replies<A>,
    kind: Kind,
    name: &[u8],
    help: &[u8],
) -> Result<(), OutOfMemory>
    requires name { length name.now ≤ MAX_NAME }
    requires help { length help.now ≤ MAX_HELP }
    ensures ok { OnOk result (replies.new.part
        ≡ replies.old.part ++ (help_line name.now help.now ++ 10 ∷ type_line name.now (kind_word kind))) }
    ensures kept { replies.new.whole ≡ replies.old.whole }
    ensures room { 225 ≤ replies.old.room → IsOk result }
    ensures left { replies.old.room ≤ replies.new.room + 225 }
{
    put_words(replies, b"# HELP ", name, help)?;
    put_words(replies, b"\n# TYPE ", name, kind.word())
}

fn put_words<A: Allocator>(
    replies: &mut Replies<A>,
    begin: &[u8],
    name: &[u8],
    text: &[u8],
) -> Result<(), OutOfMemory>
    ensures ok { OnOk result (replies.new.part ≡ replies.old.part ++ (begin.now ++ name.now ++ codes " " ++ text.now)) }
    ensures kept { replies.new.whole ≡ replies.old.whole }
    ensures room { length begin.now + length name.now + length text.now + 1 ≤ replies.old.room → IsOk result }
    ensures left { replies.old.room ≤ replies.new.room + (length begin.now + length name.now + length text.now + 1) }
{
    replies.put(begin)?;
    replies.put(name)?;
    replies.put(b" ")?;
    replies.put(text)
}

/// The line of a value that has no labels.
pub(crate) fn put_value<A: Allocator>(
    replies: &mut Replies<A>,
    name: &[u8],
    value: u64,
) -> Result<(), OutOfMemory>
    requires { length name.now ≤ MAX_NAME }
    ensures ok { OnOk result (replies.new.part
        ≡ replies.old.part ++ (10 ∷ sample_line name.now (record { labels = []; value = value }))) }
    ensures kept { replies.new.whole ≡ replies.old.whole }
    ensures room { SAMPLE_ROOM ≤ replies.old.room → IsOk result }
    ensures left { replies.old.room ≤ replies.new.room + SAMPLE_ROOM }
{
    replies.put(b"\n")?;
    replies.put(name)?;
    replies.put_field(b" ", value)
}

fn put_peer_values<A: Allocator>(
    replies: &mut Replies<A>,
    name: &[u8],
    peers: &[PeerMetrics],
    value: PeerValue,
) -> Result<(), OutOfMemory>
    requires { length name.now ≤ MAX_NAME }
    ensures ok { OnOk result (replies.new.part
        ≡ replies.old.part ++ flat_map (λ p. 10 ∷ sample_line name.now (peer_sample (peer_value value) p)) peers.now) }
    ensures kept { replies.new.whole ≡ replies.old.whole }
    ensures room { SAMPLE_ROOM * length peers.now ≤ replies.old.room → IsOk result }
    ensures left { replies.old.room ≤ replies.new.room + (SAMPLE_ROOM * length peers.now) }
{
    for peer in peers {
        put_peer_value(replies, name, peer, value)?;
    }
    Ok(())
}

fn put_peer_value<A: Allocator>(
    replies: &mut Replies<A>,
    name: &[u8],
    peer: &PeerMetrics,
    value: PeerValue,
) -> Result<(), OutOfMemory>
    requires { length name.now ≤ MAX_NAME }
    ensures ok { OnOk result (replies.new.part
        ≡ replies.old.part ++ (10 ∷ sample_line name.now (peer_sample (peer_value value) peer.now))) }
    ensures kept { replies.new.whole ≡ replies.old.whole }
    ensures room { SAMPLE_ROOM ≤ replies.old.room → IsOk result }
    ensures left { replies.old.room ≤ replies.new.room + SAMPLE_ROOM }
{
    replies.put(b"\n")?;
    replies.put(name)?;
    replies.put_field(b"{peer=\"", peer.site.number())?;
    replies.put_field(b"\"} ", value.of(peer))
}

fn put_name_counts<A: Allocator>(
    replies: &mut Replies<A>,
    name: &[u8],
    counts: &[u64; REFUSAL_COUNT],
) -> Result<(), OutOfMemory>
    requires { length name.now ≤ MAX_NAME }
    ensures ok { OnOk result
        (replies.new.part ≡ replies.old.part
        ++ flat_map (λ e. 10 ∷ sample_line name.now (name_sample e)) (zip refusal_names counts.now)) }
    ensures kept { replies.new.whole ≡ replies.old.whole }
    ensures room { SAMPLE_ROOM * REFUSAL_COUNT ≤ replies.old.room → IsOk result }
    ensures left { replies.old.room ≤ replies.new.room + (SAMPLE_ROOM * REFUSAL_COUNT) }
{
    for index in 0..REFUSAL_COUNT {
        put_name_count(replies, name, refusal_name(index), counts[index])?;
    }
    Ok(())
}

fn put_name_count<A: Allocator>(
    replies: &mut Replies<A>,
    name: &[u8],
    refusal: &[u8],
    count: u64,
) -> Result<(), OutOfMemory>
    requires name { length name.now ≤ MAX_NAME }
    requires refusal { length refusal.now ≤ 16 }
    ensures ok { OnOk result (replies.new.part
        ≡ replies.old.part ++ (10 ∷ sample_line name.now (name_sample (refusal.now, count)))) }
    ensures kept { replies.new.whole ≡ replies.old.whole }
    ensures room { SAMPLE_ROOM ≤ replies.old.room → IsOk result }
    ensures left { replies.old.room ≤ replies.new.room + SAMPLE_ROOM }
{
    replies.put(b"\n")?;
    replies.put(name)?;
    replies.put(b"{name=\"")?;
    replies.put(refusal)?;
    replies.put_field(b"\"} ", count)
}

//! The first words of commands.
ghost use Rattle.std.specs.Prelude.{◌≡◌, IfSome};
ghost use Rattle.entry_codec.specs.Parts.{Finds};
ghost use Rattle.line_streams.specs.Words.{words_of, words_left};
ghost use Rattle.transfer_world.specs.Commands.{site_word, link_word, plain_word, word_of, word_in, Spells, IsWordIn};

use line_streams::{named, split_word};

/// The meaning of the first word of a line.
#[derive(Clone, Copy)]
pub(crate) enum Word {
    Sites,
    Post,
    AtSite(SiteWord),
    OnLink(LinkWord),
    Noise,
    Report,
}

/// An event at one site, which has few values.
#[derive(Clone, Copy)]
pub(crate) enum SiteWord {
    Issue,
    Give,
    Spend,
    Serve,
    Expire,
    Status,
    Plan,
    Arrive,
    Close,
}

/// An event between two sites, which are its only values.
#[derive(Clone, Copy)]
pub(crate) enum LinkWord {
    Ask,
    Publish,
    Beat,
    Query,
    Requery,
    Take,
}

/// The words of events at one site.
const SITE_WORDS: [(&[u8], SiteWord); 9] = [
    (b"issue", SiteWord::Issue),
    (b"give", SiteWord::Give),
    (b"spend", SiteWord::Spend),
    (b"serve", SiteWord::Serve),
    (b"expire", SiteWord::Expire),
    (b"status", SiteWord::Status),
    (b"plan", SiteWord::Plan),
    (b"arrive", SiteWord::Arrive),
    (b"close", SiteWord::Close),
];

/// The words of events between two sites.
const LINK_WORDS: [(&[u8], LinkWord); 6] = [
    (b"ask", LinkWord::Ask),
    (b"publish", LinkWord::Publish),
    (b"beat", LinkWord::Beat),
    (b"query", LinkWord::Query),
    (b"requery", LinkWord::Requery),
    (b"take", LinkWord::Take),
];

/// The other words.
const PLAIN_WORDS: [(&[u8], Word); 4] = [
    (b"sites", Word::Sites),
    (b"post", Word::Post),
    (b"noise", Word::Noise),
    (b"report", Word::Report),
];

#[tactic(auto, unfolding(crate::specs::Commands::site_word))]
fn site_word(text: &[u8]) -> Option<SiteWord>
    ensures { result ≡ site_word text.now }
{
    named(&SITE_WORDS, text)
}

#[tactic(auto, unfolding(crate::specs::Commands::link_word))]
fn link_word(text: &[u8]) -> Option<LinkWord>
    ensures { result ≡ link_word text.now }
{
    named(&LINK_WORDS, text)
}

#[tactic(auto, unfolding(crate::specs::Commands::plain_word))]
fn plain_word(text: &[u8]) -> Option<Word>
    ensures { result ≡ plain_word text.now }
{
    named(&PLAIN_WORDS, text)
}

/// The meaning of a text as the first word of a line.
#[tactic(auto, unfolding(crate::specs::Commands::word_of))]
fn word_of(text: &[u8]) -> Option<Word>
    ensures { result ≡ word_of text.now }
{
    if let Some(word) = site_word(text) {
        return Some(Word::AtSite(word));
    }
    if let Some(word) = link_word(text) {
        return Some(Word::OnLink(word));
    }
    plain_word(text)
}

/// The word of a line that begins with this text, and what comes after it. The length is known to the compiler, so an
/// inlined call is a comparison or two: hence a function for each letter that several words share.
#[inline(always)]
fn behind<'a, const N: usize>(
    text: &'a [u8],
    begins: &[u8; N],
    word: Word,
) -> Option<(Word, &'a [u8])>
    requires { Spells begins.now word }
    ensures { IfSome result (IsWordIn text.now) }
{
    let (first, values) = text.split_first_chunk::<N>()?;
    if *first == *begins {
        Some((word, values))
    } else {
        None
    }
}

#[tactic(auto, unfolding(crate::specs::Commands::word_of, crate::specs::Commands::site_word, crate::specs::Commands::link_word))]
fn arrive_or_ask(text: &[u8]) -> Option<(Word, &[u8])>
    ensures { IfSome result (IsWordIn text.now) }
{
    if let Some(found) = behind(text, b"arrive ", Word::AtSite(SiteWord::Arrive)) {
        return Some(found);
    }
    behind(text, b"ask ", Word::OnLink(LinkWord::Ask))
}

#[tactic(auto, unfolding(crate::specs::Commands::word_of, crate::specs::Commands::site_word, crate::specs::Commands::link_word))]
fn publish_or_plan(text: &[u8]) -> Option<(Word, &[u8])>
    ensures { IfSome result (IsWordIn text.now) }
{
    if let Some(found) = behind(text, b"publish ", Word::OnLink(LinkWord::Publish)) {
        return Some(found);
    }
    behind(text, b"plan ", Word::AtSite(SiteWord::Plan))
}

#[tactic(auto, unfolding(crate::specs::Commands::word_of, crate::specs::Commands::site_word))]
fn spend_serve_or_status(text: &[u8]) -> Option<(Word, &[u8])>
    ensures { IfSome result (IsWordIn text.now) }
{
    if let Some(found) = behind(text, b"spend ", Word::AtSite(SiteWord::Spend)) {
        return Some(found);
    }
    if let Some(found) = behind(text, b"serve ", Word::AtSite(SiteWord::Serve)) {
        return Some(found);
    }
    behind(text, b"status ", Word::AtSite(SiteWord::Status))
}

/// The word of a line that begins with one of the words that are frequent in long scripts.
#[tactic(auto, unfolding(crate::specs::Commands::word_of, crate::specs::Commands::site_word, crate::specs::Commands::link_word))]
fn frequent_word(text: &[u8]) -> Option<(Word, &[u8])>
    ensures { IfSome result (IsWordIn text.now) }
{
    match text.first()? {
        b'a' => arrive_or_ask(text),
        b'g' => behind(text, b"give ", Word::AtSite(SiteWord::Give)),
        b'p' => publish_or_plan(text),
        b'q' => behind(text, b"query ", Word::OnLink(LinkWord::Query)),
        b's' => spend_serve_or_status(text),
        b't' => behind(text, b"take ", Word::OnLink(LinkWord::Take)),
        _ => None,
    }
}

/// The word at the beginning of a line, and the text of the words after it.
pub(crate) fn first_word(text: &[u8]) -> Option<(Word, Option<&[u8]>)>
    ensures { Finds (λ x. (x.0, words_left x.1)) result (word_in (words_of text.now)) }
{
    if let Some((word, values)) = frequent_word(text) {
        return Some((word, Some(values)));
    }
    let (first, values) = split_word(text);
    Some((word_of(first)?, values))
}

//! Words, help texts, commands and statuses; outboxes, connections without sockets, and log lines; exit statuses, with
//! streams that fail.

mod commands;
mod conversation;
mod endings;
mod links;
mod log;
mod options;
mod outbox;
mod status;
mod words;

//! The site's input, which may stay silent.

use site_sockets::SiteSockets;
use std::io;
use std::io::{Error, ErrorKind, Read};

/// Reads the site's input. A read of it that fails with `WouldBlock` is tried again, unless the site cannot continue
/// for lack of memory. So if each read returns after some time, that ends the site even if no command comes.
#[derive(Drop)]
pub(crate) struct CommandReader<'a, I> {
    site: &'a SiteSockets,
    input: I,
}

impl<'a, I: Read> CommandReader<'a, I> {
    pub(crate) fn new(site: &'a SiteSockets, input: I) -> CommandReader<'a, I> {
        CommandReader { site, input }
    }

    /// Whether a read that failed with this error is tried again.
    fn tries_again(&self, error: &Error) -> bool {
        error.kind() == ErrorKind::WouldBlock && !self.site.has_failed()
    }
}

impl<I: Read> Read for CommandReader<'_, I> {
    ghost remaining = { λ r. I.remaining r.input };

    fn read(&mut self, buf: &mut [u8]) -> io::Result<usize> {
        'tries: for _ in 0..u64::MAX {
            match self.input.read(buf) {
                Err(error) if self.tries_again(&error) => {}
                done => return done,
            }
        }
        Err(Error::from(ErrorKind::TimedOut))
    }
}

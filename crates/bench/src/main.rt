//! Measures the parts of a site. Without an argument it lists them.
#![tactic(auto)]

mod buffer;
mod codec;
mod desk;
mod lane;
mod log;
mod rate;

use std::io::ErrorKind;
use std::{env, io};

fn main(rt: HostRuntime) -> io::Result<()> {
    let word = env::args(&rt)?.nth(1);
    let measured = match word.as_deref() {
        Some("codec") => codec::measure_all(&rt),
        Some("buffer") => buffer::measure_all(&rt),
        Some("log") => log::measure_all(&rt),
        Some("lane") => lane::measure_all(&rt),
        Some("desk") => desk::measure_all(&rt),
        _ => return println!(rt; "usage: bench codec|buffer|log|lane|desk"),
    };
    // Calls that may fail: memory requests, the clock, the output, and the calls that are measured.
    measured.ok_or(io::Error::from(ErrorKind::Other))
}

//! The program `rights-site`, on the words and the streams of its process.
#![tactic(auto)]

use journal_check::{check_device, open_journal};
use journal_file::Unknown;
use rights_program::run_given;
use site_server::run_site;
use site_words::SiteFault;
use std::io::IsTerminal;
use std::process::ExitCode;
use std::sync::atomic::{AtomicBool, Ordering};
use timed_streams::TimedStream;
use word_notes::{explain_listening, explain_refusal, note_peers};

/// How many milliseconds a running site waits for input before it looks whether it can continue.
const INPUT_MILLISECONDS: u16 = 200;

/// How many milliseconds each write of a running site's log waits for whoever reads standard error.
const LOG_MILLISECONDS: u16 = 50;

/// How many milliseconds the line that says why the program stops waits for that.
const CAUSE_MILLISECONDS: u16 = 500;

fn main(rt: HostRuntime) -> ExitCode {
    let is_terminal = rt.stderr().is_terminal();
    let cannot_listen = AtomicBool::new(false);
    let ended = run_given(
        rt.alloc(),
        |config, reader, writer| {
            let mut reader = TimedStream::new(*reader, INPUT_MILLISECONDS);
            let log = TimedStream::new(rt.stderr(), LOG_MILLISECONDS);
            if is_terminal || config.log() {
                note_peers(
                    rt.alloc(),
                    &config,
                    &mut TimedStream::new(rt.stderr(), CAUSE_MILLISECONDS),
                );
            }
            let ended = run_site(&rt, config, &mut reader, writer, log);
            if matches!(ended, Err(SiteFault::CannotListen)) {
                cannot_listen.store(true, Ordering::Relaxed);
            }
            ended
        },
        |check, writer| {
            let mut errors = TimedStream::new(rt.stderr(), CAUSE_MILLISECONDS);
            let mut journal = open_journal(&rt, Unknown, check.path(), &mut errors)?;
            check_device(rt.alloc(), &mut journal, check.json(), writer, &mut errors)
        },
        &rt,
        &mut rt.stdin(),
        &mut rt.stdout(),
        &mut TimedStream::new(rt.stderr(), CAUSE_MILLISECONDS),
    );
    let mut errors = TimedStream::new(rt.stderr(), CAUSE_MILLISECONDS);
    if ended.status == 2 {
        explain_refusal(&rt, is_terminal, &mut errors);
    } else if cannot_listen.load(Ordering::Relaxed) {
        explain_listening(&rt, is_terminal, &mut errors);
    }
    ExitCode::from(ended.status)
}

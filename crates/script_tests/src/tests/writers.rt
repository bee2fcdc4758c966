//! Replies that are longer than one write, through writers that take more or fewer bytes at a time.
use std::alloc::{AllocError, Global};
use test_kit::Slow;
use transfer_world::{ScriptFault, run_script};

/// This number of reports is more than a run keeps before it writes.
const REPORTS: usize = 25;

/// A line, followed by another text as often as there are reports.
fn with_reports(alloc: Global, line: &[u8], text: &[u8]) -> Result<Vec<u8>, AllocError> {
    let mut all = Vec::from_slice(alloc, line)?;
    for _ in 0..REPORTS {
        all.extend_from_slice(text)?;
    }
    Ok(all)
}

/// The reply to many reports, from that to one.
fn many_replies(alloc: Global) -> Result<Option<Vec<u8>>, ScriptFault> {
    let mut once = Vec::new(alloc);
    run_script(alloc, &mut b"sites 16\nreport\n".as_slice(), &mut once)?;
    match once.as_slice().strip_prefix(b"ok\n") {
        Some(report) => Ok(with_reports(alloc, b"ok\n", report).ok()),
        None => Ok(None),
    }
}

/// Whether a writer that takes at most this number of bytes at a time gets these replies.
fn is_written(alloc: Global, script: &[u8], step: usize, replies: &[u8]) -> bool {
    let mut writer = Slow {
        text: Vec::new(alloc),
        step,
    };
    let mut reader = script;
    let result = run_script(alloc, &mut reader, &mut writer);
    result.is_ok() && writer.text.as_slice() == replies
}

/// All replies are written, however few bytes a write takes.
#[test]
fn long_replies(rt: HostRuntime) {
    let script = with_reports(rt.alloc(), b"sites 16\n", b"report\n").expect(&rt, "memory");
    let expected = many_replies(rt.alloc()).expect(&rt, "a run");
    let expected = expected.expect(&rt, "the reply to sites");
    assert!(rt; expected.len() > 200_000);
    for step in [7, 65536, 1_000_000] {
        assert!(rt;
            is_written(rt.alloc(), &script, step, &expected),
            "with {step} at a time"
        );
    }
}

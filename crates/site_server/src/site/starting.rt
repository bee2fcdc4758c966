//! A site is started once only.

use site_words::SiteFault;
use std::fs::{File, Files};
use std::io::ErrorKind;

/// Creates the file that records that the site was started, if the configuration names one.
pub(crate) fn start_once<R: Files>(rt: &R, path: Option<&str>) -> Result<(), SiteFault> {
    let Some(path) = path else {
        return Ok(());
    };
    match File::create_new(rt, path) {
        Ok(_) => Ok(()),
        Err(error) => Err(start_fault(error.kind())),
    }
}

fn start_fault(kind: ErrorKind) -> SiteFault {
    match kind {
        ErrorKind::AlreadyExists => SiteFault::StartedBefore,
        _ => SiteFault::CannotCreateStartFile,
    }
}

//! What is promised of each check of a journal, apart from any program.
ghost use Rattle.journal_check.specs.Checks.{ReadsRecords};

/// Of a file that stands for records no damage is reported, nor that it cannot be read, unless the disk fails.
pub fn reads_records()
    ensures { ReadsRecords }
{}

//! The text of the metrics of `text`. tests/metrics.prom has the same text, with that of a journal.

pub(crate) const EXPECTED: &[u8] = b"# HELP rights_held Rights that the site holds.\n\
# TYPE rights_held gauge\n\
rights_held 7\n\
# HELP rights_queued Rights that waiting spends are for.\n\
# TYPE rights_queued gauge\n\
rights_queued 5\n\
# HELP rights_issued_total Rights that the site issued.\n\
# TYPE rights_issued_total counter\n\
rights_issued_total 100\n\
# HELP rights_spent_total Rights that the site spent.\n\
# TYPE rights_spent_total counter\n\
rights_spent_total 40\n\
# HELP rights_received_total Rights that came from other sites.\n\
# TYPE rights_received_total counter\n\
rights_received_total 12\n\
# HELP rights_given_total Rights that went to other sites, taken back or not.\n\
# TYPE rights_given_total counter\n\
rights_given_total 60\n\
# HELP rights_taken_back_total Rights taken back after the site they were given to closed.\n\
# TYPE rights_taken_back_total counter\n\
rights_taken_back_total 3\n\
# HELP rights_log_moves_total Moves in the site's log: the number of its last entry.\n\
# TYPE rights_log_moves_total counter\n\
rights_log_moves_total 21\n\
# HELP rights_closed 1 once the site has closed, else 0.\n\
# TYPE rights_closed gauge\n\
rights_closed 1\n\
# HELP rights_requests_waiting Slots of the queue taken by spends that wait.\n\
# TYPE rights_requests_waiting gauge\n\
rights_requests_waiting 2\n\
# HELP rights_outcomes_unread Slots of the queue taken by outcomes that nobody has read.\n\
# TYPE rights_outcomes_unread gauge\n\
rights_outcomes_unread 4\n\
# HELP rights_clock_behind_seconds How far the wall clock is behind the site's time, rounded up.\n\
# TYPE rights_clock_behind_seconds gauge\n\
rights_clock_behind_seconds 11\n\
# HELP rights_clients HTTP connections that stand.\n\
# TYPE rights_clients gauge\n\
rights_clients 6\n\
# HELP rights_commands_total Commands answered, of all clients and standard input.\n\
# TYPE rights_commands_total counter\n\
rights_commands_total 1000\n\
# HELP rights_commands_refused_total Commands refused, by the name of the refusal.\n\
# TYPE rights_commands_refused_total counter\n\
rights_commands_refused_total{name=\"Closed\"} 0\n\
rights_commands_refused_total{name=\"BadCount\"} 0\n\
rights_commands_refused_total{name=\"BadMove\"} 0\n\
rights_commands_refused_total{name=\"BadAmount\"} 8\n\
rights_commands_refused_total{name=\"NoSuchSite\"} 0\n\
rights_commands_refused_total{name=\"SameSite\"} 0\n\
rights_commands_refused_total{name=\"PeerClosed\"} 0\n\
rights_commands_refused_total{name=\"LogFull\"} 0\n\
rights_commands_refused_total{name=\"Short\"} 17\n\
rights_commands_refused_total{name=\"OutOfMemory\"} 1\n\
rights_commands_refused_total{name=\"QueueFull\"} 0\n\
rights_commands_refused_total{name=\"QueueBusy\"} 0\n\
rights_commands_refused_total{name=\"HeldTooMuch\"} 0\n\
rights_commands_refused_total{name=\"TimeWentBack\"} 0\n\
rights_commands_refused_total{name=\"BadCommand\"} 9\n\
rights_commands_refused_total{name=\"BadDeadline\"} 6\n\
rights_commands_refused_total{name=\"OwnClock\"} 0\n\
rights_commands_refused_total{name=\"BadKey\"} 0\n\
rights_commands_refused_total{name=\"KeyRefused\"} 0\n\
rights_commands_refused_total{name=\"KeyReused\"} 0\n\
# HELP rights_log_lines_dropped_total Log lines that were not written, since the log was not read.\n\
# TYPE rights_log_lines_dropped_total counter\n\
rights_log_lines_dropped_total 22\n\
# HELP rights_peer_moves_applied_total Moves of the peer's log that are applied.\n\
# TYPE rights_peer_moves_applied_total counter\n\
rights_peer_moves_applied_total{peer=\"2\"} 382\n\
rights_peer_moves_applied_total{peer=\"16\"} 0\n\
# HELP rights_peer_buffering 1 while entries of the peer wait for one that is missing, else 0.\n\
# TYPE rights_peer_buffering gauge\n\
rights_peer_buffering{peer=\"2\"} 1\n\
rights_peer_buffering{peer=\"16\"} 0\n\
# HELP rights_peer_entries_held Entries of the peer that wait for one that is missing.\n\
# TYPE rights_peer_entries_held gauge\n\
rights_peer_entries_held{peer=\"2\"} 11\n\
rights_peer_entries_held{peer=\"16\"} 0\n\
# HELP rights_peer_receiving 1 while a connection from the peer stands, else 0.\n\
# TYPE rights_peer_receiving gauge\n\
rights_peer_receiving{peer=\"2\"} 1\n\
rights_peer_receiving{peer=\"16\"} 0\n\
# HELP rights_peer_sending 1 while a connection to the peer stands, else 0.\n\
# TYPE rights_peer_sending gauge\n\
rights_peer_sending{peer=\"2\"} 0\n\
rights_peer_sending{peer=\"16\"} 1\n\
# HELP rights_peer_silent_seconds How long nothing has come from the peer, once that makes it silent; else 0.\n\
# TYPE rights_peer_silent_seconds gauge\n\
rights_peer_silent_seconds{peer=\"2\"} 0\n\
rights_peer_silent_seconds{peer=\"16\"} 13\n\
# HELP rights_peer_lines_total Lines that came from the peer.\n\
# TYPE rights_peer_lines_total counter\n\
rights_peer_lines_total{peer=\"2\"} 500\n\
rights_peer_lines_total{peer=\"16\"} 18446744073709551615\n\
# HELP rights_peer_lines_refused_total Lines from the peer that were skipped.\n\
# TYPE rights_peer_lines_refused_total counter\n\
rights_peer_lines_refused_total{peer=\"2\"} 13\n\
rights_peer_lines_refused_total{peer=\"16\"} 0\n\
# HELP rights_peer_lines_dropped_total Lines for the peer that found no room in the outbox, or were lost by a failed connection or write.\n\
# TYPE rights_peer_lines_dropped_total counter\n\
rights_peer_lines_dropped_total{peer=\"2\"} 14\n\
rights_peer_lines_dropped_total{peer=\"16\"} 0\n\
# HELP rights_peer_lines_waiting Lines that wait in the peer's outbox.\n\
# TYPE rights_peer_lines_waiting gauge\n\
rights_peer_lines_waiting{peer=\"2\"} 15\n\
rights_peer_lines_waiting{peer=\"16\"} 256\n\
# HELP rights_peer_number_went_back_total Beats of the peer below what was applied of its log: it was started anew, or runs twice.\n\
# TYPE rights_peer_number_went_back_total counter\n\
rights_peer_number_went_back_total{peer=\"2\"} 1\n\
rights_peer_number_went_back_total{peer=\"16\"} 0\n";

/// The text of a journal's metrics.
pub(crate) const JOURNAL: &[u8] =
    b"# HELP rights_journal_records_total Records made for the journal, those of earlier processes among them.\n\
# TYPE rights_journal_records_total counter\n\
rights_journal_records_total 31\n\
# HELP rights_journal_records_durable_total Records of the journal that are on its disk.\n\
# TYPE rights_journal_records_durable_total counter\n\
rights_journal_records_durable_total 30\n\
# HELP rights_journal_bytes Bytes of the journal up to its last sync.\n\
# TYPE rights_journal_bytes gauge\n\
rights_journal_bytes 2048\n\
# HELP rights_journal_synced_timestamp_seconds When the journal was last synced, in seconds since 1970.\n\
# TYPE rights_journal_synced_timestamp_seconds gauge\n\
rights_journal_synced_timestamp_seconds 1764390000\n";

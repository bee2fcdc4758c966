//! The types of metrics.
ghost use Rattle.std.specs.Prelude.{◌≡◌, ◌≤◌, length};
ghost use Rattle.site_metrics.specs.Table.{kind_word};

/// The type of a metric.
#[derive(Clone, Copy)]
pub(crate) enum Kind {
    Gauge,
    Counter,
}

impl Kind {
    /// The word for it in the text.
    pub(crate) fn word(self) -> &'static [u8]
        ensures word { result.now ≡ kind_word self }
        ensures short { length result.now ≤ 7 }
    {
        match self {
            Kind::Gauge => b"gauge",
            Kind::Counter => b"counter",
        }
    }
}

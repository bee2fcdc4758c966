//! Replaying the journal of a site that starts again. Entries of other sites go through their appliers.
ghost use Rattle.std.specs.Prelude.{◌≡◌, [], ◌∷◌, ◌++◌, IfErr, OnOk, OnErr};
ghost use Rattle.rights_types.specs.Rights.{issued, spent};
ghost use Rattle.rights_protocol.specs.Schedules.{LocalChange};
ghost use Rattle.rights_protocol.specs.Schedules.LocalChange.{Other};
ghost use Rattle.rights_protocol.specs.Crashes.Record.{Wrote as IsWritten, Asked as IsAsked};
ghost use Rattle.origin_log.specs.Logs.{entry_text};
ghost use Rattle.site_core.specs.Replaying.{Replays, RefusesOwn, RefusesAsk};
ghost use Rattle.apply_lanes.specs.Steps.{StepsBy};

use crate::kept::Kept;
use crate::names::DeskNames;
use crate::records::Again;
use crate::seat::Seat;
use rights_types::{Ask, Entry};
use site_core::ReplayError;
use std::alloc::Allocator;

impl<D: DeskNames, A: Allocator + Copy> Kept<D, A> {
    ghost use Rattle.apply_lanes.specs.Kepts.{raised};
    ghost use Rattle.apply_lanes.specs.Journals.{told_again};

    /// Writes an entry of this site again, as `Desk::replay_own`, with its errors. Its text is its line without the line
    /// feed. What it issued and spent counts for this seat, as if its calls had reported it.
    pub fn replay_own<B: Allocator>(
        &mut self,
        seat: &mut Seat<D>,
        entry: &Entry<B>,
        text: &[u8],
    ) -> Result<(), ReplayError>
        requires { text.now ≡ entry_text entry.now }
        ensures replays { OnOk result (Replays self.old.desk (IsWritten entry.now) self.new.desk) }
        ensures step { OnOk result ((change : LocalChange) × StepsBy D.id self.old.desk change self.new.desk) }
        ensures counters { OnOk result
            (self.new ≡ record self.old {
              desk = self.new.desk;
              issued = raised self.old.issued (issued entry.now.moves);
              spent = raised self.old.spent (spent entry.now.moves);
              records = self.old.records ++ IsWritten entry.now ∷ [];
            }) }
        ensures told { OnOk result (seat.new ≡ told_again seat.old entry.now.moves) }
        ensures refused { IfErr result (RefusesOwn self.old.desk entry.now) }
        ensures err { OnErr result ((self.new ≡ self.old) × (seat.new ≡ seat.old)) }
    {
        let (issued, spent) = (self.desk.issued(), self.desk.spent());
        self.desk.replay_own(entry, text)?;
        let more = self.desk.issued() - issued;
        let used = self.desk.spent() - spent;
        self.issued.add(&mut seat.issued, more);
        self.spent.add(&mut seat.used, used);
        seat.spent += used;
        self.records.note(&Again { entry });
        Ok(())
    }

    /// Makes an ask of this site again, as `Desk::replay_ask`.
    pub fn replay_ask(&mut self, ask: &Ask) -> Result<(), ReplayError>
        ensures replays { OnOk result (Replays self.old.desk (IsAsked ask.now) self.new.desk) }
        ensures step { OnOk result (StepsBy D.id self.old.desk Other self.new.desk) }
        ensures rest { OnOk result (self.new
            ≡ record self.old { desk = self.new.desk; records = self.old.records ++ IsAsked ask.now ∷ [] }) }
        ensures refused { IfErr result (RefusesAsk self.old.desk ask.now) }
        ensures err { OnErr result (self.new ≡ self.old) }
    {
        self.desk.replay_ask(ask)?;
        self.records.note(ask);
        Ok(())
    }
}

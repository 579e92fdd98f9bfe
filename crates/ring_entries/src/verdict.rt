// The verdict on an announced address, and for whom a bad announcement is counted.
ghost use Rattle.std.specs.Prelude.{◌≡◌};
ghost use Rattle.row_entry.specs.View.{row_of};
ghost use Rattle.ring_entries.specs.Verdicts.{verdict_of, is_conflict, counts_for};

use row_entry::NodeEntry;
use wire_address::LogicalNodeAddress;

// The first that applies: an IGNORED entry bars the address; it is out of range; another entry keeps it; this entry keeps another one; or
// it is fine.
#[derive(Clone, Copy)]
pub enum Verdict {
    Barred,
    Outside,
    Duplicate,
    Changed,
    Fine,
}

impl Verdict {
    // The announcement is a bad one, and counted.
    #[tactic(auto, unfolding(crate::specs::Verdicts::is_conflict))]
    pub fn conflicts(self) -> bool
        ensures { result ≡ is_conflict (verdict_of self) }
    {
        match self {
            Verdict::Outside | Verdict::Duplicate | Verdict::Changed => true,
            Verdict::Barred | Verdict::Fine => false,
        }
    }

    // The announcement is counted for another entry too: for one that keeps the address.
    #[tactic(auto, unfolding(crate::specs::Verdicts::counts_for, rules::specs::Step::nobody))]
    pub fn counts_for(self, entry: &NodeEntry, address: LogicalNodeAddress) -> bool
        ensures { result ≡ counts_for (verdict_of self) address.0 (row_of entry.now) }
    {
        match self {
            Verdict::Duplicate => entry.keeps(address),
            Verdict::Barred | Verdict::Outside | Verdict::Changed | Verdict::Fine => false,
        }
    }
}

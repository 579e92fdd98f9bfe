// Who claims an address: the entries that bar it, and those that keep it.
ghost use Rattle.std.specs.Prelude.{◌≡◌, ◌||◌};
ghost use Rattle.rules.specs.Picture.{bars, in_range, keeps, keeps_other};
ghost use Rattle.rules.specs.Step.{first_that_applies};
ghost use Rattle.row_entry.specs.View.{row_of};
ghost use Rattle.ring_entries.specs.Verdicts.{verdict_of};

use super::verdict::Verdict;
use row_entry::NodeEntry;
use wire_address::LogicalNodeAddress;

// An entry bars the address; an entry keeps it.
#[derive(Clone, Copy)]
pub struct Claims {
    pub barred: bool,
    pub kept: bool,
}

impl Claims {
    // The claims with one entry more.
    pub fn with(self, entry: &NodeEntry, address: LogicalNodeAddress) -> Claims
        ensures { (result.barred ≡ self.barred || bars address.0 (row_of entry.now)) × (result.kept ≡ self.kept || keeps address.0 (row_of entry.now)) }
    {
        Claims {
            barred: self.barred || entry.bars(address),
            kept: self.kept || entry.keeps(address),
        }
    }

    // The verdict on the address that the node of this entry announces, where these are the claims of the others.
    #[tactic(auto, unfolding(rules::specs::Step::first_that_applies))]
    pub fn verdict(self, entry: &NodeEntry, address: LogicalNodeAddress) -> Verdict
        ensures { verdict_of result ≡ first_that_applies self.barred (in_range address.0) self.kept (keeps_other address.0 (row_of entry.now)) }
    {
        if self.barred {
            Verdict::Barred
        } else if !address.in_range() {
            Verdict::Outside
        } else if self.kept {
            Verdict::Duplicate
        } else if entry.keeps_other(address) {
            Verdict::Changed
        } else {
            Verdict::Fine
        }
    }
}

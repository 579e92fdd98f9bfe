// What a picture shows: its state, its rows, its listing, and where a pair is listed.
ghost use Rattle.std.specs.Prelude.{◌≡◌, ◌≤◌, length};
ghost use Rattle.laws.specs.Lists.{select};
ghost use Rattle.laws.specs.Views.{firsts};
ghost use Rattle.rules.specs.House.{max_entries};
ghost use Rattle.rules.specs.Picture.{is_open, row_at, nodes};
ghost use Rattle.rules.specs.Listing.{listing, look_up};
ghost use Rattle.rules_diff.specs.Differences.{listed_rows};
ghost use Rattle.wire_pairs.specs.View.{pair_in};
ghost use Rattle.row_entry.specs.declared.NodeEntry as code;
ghost use Rattle.row_entry.specs.View.{row_of};
ghost use Rattle.row_entry.specs.Marks.{Marked};
ghost use Rattle.ring_listing.specs.View.{flat_of};
ghost use Rattle.ring_lookup.specs.View.{lookup_of};
ghost use Rattle.ring_rows.specs.View.{listed_entries, filled_rows, node_rows_in};
ghost use Rattle.ring_state.specs.State.{state_number};
ghost use Rattle.registry.specs.View.{view_of};
ghost use Rattle.registry.specs.Outcome.{Marks};

use super::image::RegistryImage;
use numbers::Refusal;
use ring_entries::outlook;
use ring_listing::Listing;
use ring_lookup::Place;
use ring_rows::ListedRows;
use ring_state::{NOTOK, OFF, OK, RegistryState, STOPPED};
use row_entry::NodeEntry;
use wire_address::NodePosition;
use wire_pairs::Pair;

impl RegistryImage {
    // The state: OFF, NOTOK or OK.
    #[tactic(auto, unfolding(crate::specs::View::view_of, ring_state::specs::State::state_of, ring_state::specs::State::state_number))]
    pub fn current_state(&self) -> RegistryState
        ensures { result.0 ≡ state_number (view_of self.now).state }
    {
        match self.state.0 {
            OFF | NOTOK => self.state,
            _ => RegistryState(OK),
        }
    }

    // The pass.
    #[tactic(auto, unfolding(crate::specs::View::view_of))]
    pub fn current_pass(&self) -> u32
        ensures { result ≡ (view_of self.now).pass }
    {
        self.pass
    }

    // L.
    #[tactic(auto, unfolding(crate::specs::View::view_of))]
    pub fn payload_size(&self) -> u8
        ensures { result ≡ (view_of self.now).size }
    {
        self.size
    }

    // N, the number of nodes: 0 where the ring does not run.
    pub fn nodes(&self) -> usize
        ensures { result ≡ nodes (view_of self.now) }
    {
        if self.state.0 == OFF {
            return 0;
        }
        self.ring().len() + 1
    }

    // How many questions are open.
    pub fn open_questions(&self) -> usize
        ensures { result ≡ length (select is_open (view_of self.now).rows) }
    {
        outlook::open_count(self.ring())
    }

    // A delay runs.
    #[tactic(auto, unfolding(crate::specs::View::view_of, ring_state::specs::State::runs))]
    pub fn delay_runs(&self) -> bool
        ensures { result ≡ (view_of self.now).delay }
    {
        self.delay.0 != STOPPED
    }

    // The entry of a position; an absent one where the ring has no such position.
    pub fn entry_at(&self, position: NodePosition) -> NodeEntry
        ensures { (row_of result ≡ row_at (view_of self.now).rows position.0) × (Marks self.now → Marked result) }
    {
        let x = position.0 as usize;
        if x == 0 || self.unit_count() < x {
            return NodeEntry::absent();
        }
        self.entries[x - 1]
    }

    // The whole listing, by position and announced order.
    pub fn listing(&self) -> Listing
        ensures { (result ≡ flat_of (listing (view_of self.now))) × (length (listing (view_of self.now)) ≤ max_entries) }
    {
        ring_listing::listing_of(self.ring())
    }

    // The rows of the LISTED and SETTING nodes, by position.
    pub fn listed_rows(&self) -> ListedRows
        ensures { (result ≡ filled_rows (listed_entries 1 (firsts (λ (e : code.NodeEntry). e) self.now.units self.now.entries)))
            × (node_rows_in result ≡ listed_rows (view_of self.now)) }
    {
        ring_rows::rows_of(self.ring())
    }

    // Where a pair is listed; 18 where the state is not OK, 17 where it is listed nowhere.
    pub fn look_up(&self, pair: Pair) -> Result<Place, Refusal>
        ensures { lookup_of result ≡ look_up (view_of self.now) (pair_in pair) }
    {
        if !self.state.is_ok() {
            return Err(Refusal::NotOk);
        }
        ring_lookup::find(self.ring(), pair)
    }
}

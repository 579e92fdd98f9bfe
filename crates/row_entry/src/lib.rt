// The registry's entry of a node, and what happens to one entry.
#![tactic(auto)]

ghost use Rattle.std.specs.Prelude.{◌≡◌, [], ◌≤◌, min};
ghost use Rattle.rules.specs.House.{max_units};
ghost use Rattle.rules.specs.Picture as picture;
ghost use Rattle.rules.specs.Picture.{Row, is_open, is_silent, is_ignored, keeps, keeps_other, bars, pairs_in, new_row, no_row};
ghost use Rattle.rules.specs.Renumber.{place_of, tries_of};
ghost use Rattle.rules.specs.Step.{silenced, asked, ignored, counted, at_limit, emptied};
ghost use Rattle.wire_pairs.specs.View.{pairs_of};
ghost use Rattle.row_entry.specs.View.{status_of, row_of, is_listed};
ghost use Rattle.row_entry.specs.Marks.{waiting_mark, setting_mark, listed_mark, silent_mark, ignored_mark, Marked};

use sizes::{MAX_PAIRS, MAX_UNITS};
use wire_address::LogicalNodeAddress;
use wire_pairs::Pairs;

// The status of a node by its number.
// C interface: a number.
#[repr(C)]
#[derive(Clone, Copy)]
pub struct NodeStatus(pub u8);

// Asked, and no answer yet.
pub const WAITING: u8 = 0;

// A renumbering is sent.
pub const SETTING: u8 = 1;

// Registered.
pub const LISTED: u8 = 2;

// Did not answer.
pub const SILENT: u8 = 3;

// Ignored, with the address that caused it.
pub const IGNORED: u8 = 4;

// A bad announcement counts up to here, where the node is IGNORED.
pub const MAX_BAD: u8 = 3;

// A silence counts up to here, where the wait is a long one.
pub const MAX_SILENCES: u8 = 20;

// The paper's row: a node's address, its marks, and its pairs. Address and pairs count while the node is SETTING or LISTED, the
// address alone while it is IGNORED, place and tries while it is SETTING.
// C interface: fields that count by the status, in place of an enum, and a count beside two arrays.
#[repr(C)]
#[derive(Clone, Copy)]
pub struct NodeEntry {
    pub address: LogicalNodeAddress,
    pub status: NodeStatus,
    pub bad: u8,
    pub silences: u8,
    pub place: u8,
    pub tries: u8,
    pub count: u8,
    pub blocks: [u8; MAX_PAIRS],
    pub numbers: [u8; MAX_PAIRS],
}

// How many entries count: as many as are said, and no more than there are.
pub fn clamp(count: usize) -> usize
    ensures { result ≡ min count max_units }
{
    count.min(MAX_UNITS)
}

impl NodeEntry {
    // An entry that keeps no pairs.
    fn bare(status: u8, address: LogicalNodeAddress, bad: u8, silences: u8) -> Self
        ensures { (◌≡◌ {A = Row} (row_of result) (record { status = status_of status address.0 [] 0 0; bad = bad; silences = silences }))
            × (status ≤ ignored_mark → (status ≡ waiting_mark → address.0 ≡ 0) → (status ≡ silent_mark → address.0 ≡ 0) → Marked result) }
    {
        NodeEntry {
            address,
            status: NodeStatus(status),
            bad,
            silences,
            place: 0,
            tries: 0,
            count: 0,
            blocks: [0u8; MAX_PAIRS],
            numbers: [0u8; MAX_PAIRS],
        }
    }

    // An asked entry with these counts.
    fn waiting(bad: u8, silences: u8) -> Self
        ensures { (◌≡◌ {A = Row} (row_of result) (record { status = picture.WAITING; bad = bad; silences = silences })) × Marked result }
    {
        NodeEntry::bare(WAITING, LogicalNodeAddress(0), bad, silences)
    }

    // An asked entry that counts nothing yet.
    pub fn new() -> Self
        ensures { (row_of result ≡ new_row) × Marked result }
    {
        NodeEntry::waiting(0, 0)
    }

    // What stands for a position that the ring does not have: IGNORED, for address 0.
    pub fn absent() -> Self
        ensures { (row_of result ≡ no_row) × Marked result }
    {
        NodeEntry::bare(IGNORED, LogicalNodeAddress(0), 0, 0)
    }

    // An entry that keeps an address and pairs.
    fn keeping(
        status: u8,
        address: LogicalNodeAddress,
        pairs: &Pairs,
        place: u8,
        tries: u8,
        bad: u8,
    ) -> Self
        ensures { (◌≡◌ {A = Row} (row_of result) (record { status = status_of status address.0 (pairs_of pairs.now) place tries; bad = bad; silences = 0 }))
            × (status ≡ setting_mark → Marked result) × (status ≡ listed_mark → place ≡ 0 → tries ≡ 0 → Marked result) }
    {
        NodeEntry {
            address,
            status: NodeStatus(status),
            bad,
            silences: 0,
            place,
            tries,
            count: pairs.len() as u8,
            blocks: pairs.blocks,
            numbers: pairs.numbers,
        }
    }

    // A LISTED entry.
    pub fn listed(address: LogicalNodeAddress, pairs: &Pairs, bad: u8) -> Self
        ensures { (◌≡◌ {A = Row} (row_of result) (record { status = picture.LISTED address.0 (pairs_of pairs.now); bad = bad; silences = 0 })) × Marked result }
    {
        NodeEntry::keeping(LISTED, address, pairs, 0, 0, bad)
    }

    // A SETTING entry, with the place and the tries of its renumbering.
    pub fn setting(
        address: LogicalNodeAddress,
        pairs: &Pairs,
        place: u8,
        tries: u8,
        bad: u8,
    ) -> Self
        ensures { (◌≡◌ {A = Row} (row_of result)
            (record { status = picture.SETTING address.0 (pairs_of pairs.now) place tries; bad = bad; silences = 0 })) × Marked result }
    {
        NodeEntry::keeping(SETTING, address, pairs, place, tries, bad)
    }

    // The question for this node is open.
    pub fn is_open(&self) -> bool
        ensures { result ≡ is_open (row_of self.now) }
    {
        matches!(self.status.0, WAITING | SETTING)
    }

    pub fn is_silent(&self) -> bool
        ensures { result ≡ is_silent (row_of self.now) }
    {
        self.status.0 == SILENT
    }

    pub fn is_ignored(&self) -> bool
        ensures { result ≡ is_ignored (row_of self.now) }
    {
        !matches!(self.status.0, WAITING | SETTING | LISTED | SILENT)
    }

    // The entry keeps an address and pairs.
    pub fn is_listed(&self) -> bool
        ensures { result ≡ is_listed (row_of self.now) }
    {
        matches!(self.status.0, SETTING | LISTED)
    }

    // The entry keeps this address.
    pub fn keeps(&self, address: LogicalNodeAddress) -> bool
        ensures { result ≡ keeps address.0 (row_of self.now) }
    {
        self.is_listed() && address == self.address
    }

    // The entry keeps another address.
    pub fn keeps_other(&self, address: LogicalNodeAddress) -> bool
        ensures { result ≡ keeps_other address.0 (row_of self.now) }
    {
        self.is_listed() && address != self.address
    }

    // The entry is IGNORED and bars this address.
    pub fn bars(&self, address: LogicalNodeAddress) -> bool
        ensures { result ≡ bars address.0 (row_of self.now) }
    {
        self.is_ignored() && address == self.address && address.in_range()
    }

    // The pairs that the entry keeps.
    pub fn pairs(&self) -> Pairs
        ensures { pairs_of result ≡ pairs_in (row_of self.now) }
    {
        if self.is_listed() {
            Pairs {
                count: usize::from(self.count),
                blocks: self.blocks,
                numbers: self.numbers,
            }
        } else {
            Pairs::none()
        }
    }

    // The place of the renumbering: 0 unless SETTING.
    pub fn place(&self) -> u8
        ensures { result ≡ place_of (row_of self.now).status }
    {
        if self.status.0 == SETTING {
            self.place
        } else {
            0
        }
    }

    // The tries of the renumbering: 0 unless SETTING.
    pub fn tries(&self) -> u8
        ensures { result ≡ tries_of (row_of self.now).status }
    {
        if self.status.0 == SETTING {
            self.tries
        } else {
            0
        }
    }

    // NONE: the entry is SILENT and counts a silence.
    pub fn silenced(self) -> Self
        ensures { (row_of result ≡ silenced (row_of self)) × Marked result }
    {
        let silences = self.silences.saturating_add(1).min(MAX_SILENCES);
        NodeEntry::bare(SILENT, LogicalNodeAddress(0), self.bad, silences)
    }

    // DELAY: a SILENT entry is asked.
    pub fn asked(self) -> Self
        ensures { (row_of result ≡ asked (row_of self)) × (Marked self → Marked result) }
    {
        if self.is_silent() {
            return NodeEntry::waiting(self.bad, self.silences);
        }
        self
    }

    // A restart: an entry that is not IGNORED is emptied and asked.
    pub fn emptied(self) -> Self
        ensures { (row_of result ≡ emptied (row_of self)) × (Marked self → Marked result) }
    {
        if self.is_ignored() {
            return self;
        }
        NodeEntry::waiting(self.bad, self.silences)
    }

    // The entry is IGNORED for this address.
    pub fn ignored(self, address: LogicalNodeAddress) -> Self
        ensures { (row_of result ≡ ignored address.0 (row_of self)) × Marked result }
    {
        NodeEntry::bare(IGNORED, address, self.bad, self.silences)
    }

    // A bad announcement is counted.
    pub fn counted(self) -> Self
        ensures { (row_of result ≡ counted (row_of self)) × (Marked self → Marked result) }
    {
        NodeEntry {
            bad: self.bad.saturating_add(1).min(MAX_BAD),
            ..self
        }
    }

    // The entry has counted as many bad announcements as it may.
    pub fn at_limit(&self) -> bool
        ensures { result ≡ at_limit (row_of self.now) }
    {
        self.bad == MAX_BAD
    }
}

// The ring picture, and how it is made for L.
ghost use Rattle.std.specs.Prelude.{◌≡◌, false, [], map, min, length, take};
ghost use Rattle.laws.specs.Alls.{All};
ghost use Rattle.rules.specs.House.{max_units};
ghost use Rattle.rules.specs.Picture.{Picture, Off, fresh};
ghost use Rattle.row_entry.specs.View.{row_of};
ghost use Rattle.row_entry.specs.Marks.{Marked};
ghost use Rattle.registry.specs.View.{view_of, AllNew, make_answer};
ghost use Rattle.registry.specs.Outcome.{Marks, HandedOut};

use numbers::Refusal;
use ring_state::{CfgDelay, OFF, RegistryState, STOPPED};
use row_entry::NodeEntry;
use sizes::{MAX_UNITS, MIN_SIZE};

// The paper's ring picture: the pass, the state, whether a delay runs, L, and an entry for each unit of the ring, the first `units` of
// the array.
// C interface: these fields in this order, with a count beside the entries.
#[repr(C)]
#[derive(Clone, Copy)]
pub struct RegistryImage {
    pub pass: u32,
    pub state: RegistryState,
    pub delay: CfgDelay,
    pub size: u8,
    pub units: u8,
    pub entries: [NodeEntry; MAX_UNITS],
}

// Whether the picture is for the L that was asked for, and a fresh picture.
#[derive(Clone, Copy)]
pub struct MadeImage {
    pub answer: Result<(), Refusal>,
    pub picture: RegistryImage,
}

// Entries that are asked and count nothing yet.
pub(crate) fn new_entries() -> [NodeEntry; MAX_UNITS]
    ensures { AllNew result × All Marked result }
{
    [NodeEntry::new(); MAX_UNITS]
}

impl RegistryImage {
    // A picture whose ring does not run.
    pub(crate) fn stopped(pass: u32, size: u8) -> Self
        ensures { (◌≡◌ {A = Picture} (view_of result) (record { state = Off; pass = pass; size = size; delay = false; rows = [] })) × Marks result }
    {
        RegistryImage {
            pass,
            state: RegistryState(OFF),
            delay: CfgDelay(STOPPED),
            size,
            units: 0,
            entries: new_entries(),
        }
    }

    // A fresh picture for L; 10 where L is outside 12 to 45, and then one for 12.
    pub fn fresh(l: usize) -> MadeImage
        ensures { (result.answer ≡ make_answer l) × (view_of result.picture ≡ fresh l) × HandedOut result.picture }
    {
        if sizes::illegal(l) {
            return MadeImage {
                answer: Err(Refusal::IllegalSize),
                picture: RegistryImage::stopped(0, MIN_SIZE as u8),
            };
        }
        MadeImage {
            answer: Ok(()),
            picture: RegistryImage::stopped(0, l as u8),
        }
    }

    // How many units the ring has: as many as are said, and no more than there are entries.
    pub(crate) fn unit_count(&self) -> usize
        ensures { result ≡ min self.now.units max_units }
    {
        row_entry::clamp(self.units as usize)
    }

    // The entries of the ring.
    pub(crate) fn ring(&self) -> &[NodeEntry]
        ensures entries { result.now ≡ take (min self.now.units max_units) self.now.entries }
        ensures length { length result.now ≡ min self.now.units max_units }
        ensures rows { map row_of result.now ≡ (view_of self.now).rows }
    {
        &self.entries[..self.unit_count()]
    }
}

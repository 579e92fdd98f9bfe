// What the entries leave open: questions, and silent nodes.
ghost use Rattle.std.specs.Prelude.{◌≡◌, map, length};
ghost use Rattle.laws.specs.Lists.{any, select};
ghost use Rattle.rules.specs.Picture.{is_open, is_silent};
ghost use Rattle.row_entry.specs.View.{row_of};
ghost use Rattle.ring_entries.specs.Tests.{is_short};

use row_entry::{MAX_SILENCES, NodeEntry};

// A question is open; a node is SILENT; a SILENT node counts fewer silences than the most.
#[derive(Clone, Copy)]
pub struct Outlook {
    pub open: bool,
    pub silent: bool,
    pub short: bool,
}

// The node is SILENT and counts fewer silences than the most.
#[tactic(auto, unfolding(crate::specs::Tests::is_short, row_entry::specs::View::row_of))]
fn is_short(entry: &NodeEntry) -> bool
    ensures { result ≡ is_short (row_of entry.now) }
{
    entry.is_silent() && entry.silences < MAX_SILENCES
}

// The outlook of the entries.
pub fn outlook_of(entries: &[NodeEntry]) -> Outlook
    ensures { (result.open ≡ any is_open (map row_of entries.now)) × (result.silent ≡ any is_silent (map row_of entries.now))
        × (result.short ≡ any is_short (map row_of entries.now)) }
{
    Outlook {
        open: entries.iter().any(|entry| entry.is_open()),
        silent: entries.iter().any(|entry| entry.is_silent()),
        short: entries.iter().any(is_short),
    }
}

// How many questions of the entries are open.
pub fn open_count(entries: &[NodeEntry]) -> usize
    ensures { result ≡ length (select is_open (map row_of entries.now)) }
{
    entries.iter().filter(|entry| entry.is_open()).count()
}

// Two lists of rows, the first and the second.
ghost use Rattle.std.specs.Prelude.{◌≡◌, IfErr};

use diff_rows::Rows;
use registry::image::RegistryImage;
use row_entry::NodeEntry;
use row_node::NodeRow;
use sizes::MAX_UNITS;
use text_arguments::Reason;
use text_lists::MAX_PAIR_WORDS;
use text_out::Output;
use wire_address::{LogicalNodeAddress, NodePosition};
use wire_pairs::PAIR;

// The most rows of a list.
const MAX_ROWS: usize = 64;

// One of the two.
#[derive(Clone, Copy, Debug, PartialEq, Eq)]
pub enum Which {
    First,
    Second,
}

// Rows as they were gathered, and how many they are.
#[derive(Drop)]
pub struct RowList {
    pub rows: Rows,
    pub count: usize,
}

#[derive(Drop)]
pub struct Lists {
    pub first: RowList,
    pub second: RowList,
}

impl RowList {
    // No row.
    fn none() -> Self {
        RowList {
            rows: Rows::none(),
            count: 0,
        }
    }

    // One row more, where there is a place for it.
    fn add(&mut self, row: NodeRow) -> Result<(), Reason> {
        if MAX_ROWS <= self.count {
            return Err(Reason::TooMany);
        }
        self.rows.push(row);
        self.count += 1;
        Ok(())
    }

    // The listed rows of a picture.
    fn listed(picture: &RegistryImage) -> Self {
        let listed = picture.listed_rows();
        let mut list = RowList::none();
        for row in &listed.rows[..listed.count.min(MAX_UNITS)] {
            // There is a place for each unit of a ring.
            let _ = list.add(*row);
        }
        list
    }
}

impl Lists {
    // Both are empty.
    pub(crate) fn none() -> Self {
        Lists {
            first: RowList::none(),
            second: RowList::none(),
        }
    }

    // The list of this name.
    fn named(&mut self, which: Which) -> &mut RowList {
        match which {
            Which::First => &mut self.first,
            Which::Second => &mut self.second,
        }
    }

    // A list is the picture's listed rows.
    pub(crate) fn take(&mut self, output: &mut Output, which: Which, picture: &RegistryImage) {
        name(output, which);
        output.line_end();
        *self.named(which) = RowList::listed(picture);
    }

    // A list is empty.
    pub(crate) fn clear(&mut self, output: &mut Output, which: Which) {
        name(output, which);
        output.line(b" none");
        *self.named(which) = RowList::none();
    }

    // One row more at the end of a list, where that has a place for it.
    pub(crate) fn add(
        &mut self,
        output: &mut Output,
        which: Which,
        position: u8,
        address: u16,
        pairs: &[u8],
    ) -> Result<(), Reason>
        ensures { IfErr result (λ reason. output.new ≡ output.old) }
    {
        self.named(which).add(typed(position, address, pairs))?;
        name(output, which);
        output.form(b" %d %w", &[usize::from(position), usize::from(address)]);
        text_records::pairs(output, pairs);
        output.line_end();
        Ok(())
    }
}

// The name of a list.
fn name(output: &mut Output, which: Which) {
    match which {
        Which::First => output.bytes(b"first"),
        Which::Second => output.bytes(b"second"),
    }
}

// A row as it is typed: it counts all its pairs, and has the first of them.
fn typed(position: u8, address: u16, bytes: &[u8]) -> NodeRow {
    let all = (bytes.len() / PAIR).min(MAX_PAIR_WORDS);
    let pairs = wire_events::read_pairs(bytes);
    let mut entry = NodeEntry::listed(LogicalNodeAddress(address), &pairs, 0);
    entry.count = all as u8;
    NodeRow {
        position: NodePosition(position),
        entry,
    }
}

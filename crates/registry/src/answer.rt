// What an ANSWER or a NONE changes: one entry, or all that a conflict of addresses counts.
ghost use Rattle.std.specs.Prelude.{◌≤◌, ◌<◌, length, Ok};
ghost use Rattle.rules.specs.House.{max_pass};
ghost use Rattle.rules.specs.Run.{written};
ghost use Rattle.row_entry.specs.View.{row_of};
ghost use Rattle.row_entry.specs.Marks.{Marked};
ghost use Rattle.row_renumber.specs.Marks.{renumbering_of};
ghost use Rattle.registry.specs.View.{view_of};
ghost use Rattle.registry.specs.Outcome.{Does, given, Seat, reply_outcome, conflict_outcome, ignore_outcome, restart_outcome};
ghost use Rattle.ring_entries.specs.Verdicts.{verdict_of};

use super::image::RegistryImage;
use super::scan::MAX_PASS;
use numbers::Refusal;
use ring_entries::verdict::Verdict;
use ring_entries::{changes, limit};
use row_entry::NodeEntry;
use row_renumber::renumber::Offer;
use wire_address::{LogicalNodeAddress, NodePosition};
use wire_orders::Notice;

impl RegistryImage {
    // The entry of a position becomes another, and a renumbering is sent: what is told of the entry, the SET, and the ending.
    pub(crate) fn reply(
        &mut self,
        out: &mut [u8],
        position: NodePosition,
        address: LogicalNodeAddress,
        next: NodeEntry,
        step: Option<Offer>,
    ) -> usize
        requires { Seat self.old position.0 × (3 ≤ self.old.size) × Marked next
            × (length (written (reply_outcome (view_of self.old) position.0 address.0 (row_of next) (renumbering_of step))) ≤ length out.old) }
        ensures { Does self.old (reply_outcome (view_of self.old) position.0 address.0 (row_of next) (renumbering_of step))
            out.old (given self.new (Ok result)) out.new }
    {
        let seat = position.0 as usize - 1;
        let before = self.entries[seat];
        let at = ring_tell::told::tell_reply(
            out, self.pass, self.state, self.size, &before, &next, position, address, step,
        );
        self.entries[seat] = next;
        self.finish(out, at)
    }

    // A counted entry stands at the limit: all that are counted are IGNORED for the announced address.
    fn ignore(
        &mut self,
        out: &mut [u8],
        position: NodePosition,
        address: LogicalNodeAddress,
        verdict: Verdict,
    ) -> usize
        requires { Seat self.old position.0 × (3 ≤ self.old.size)
            × (length (written (ignore_outcome (verdict_of verdict) (view_of self.old) position.0 address.0)) ≤ length out.old) }
        ensures { Does self.old (ignore_outcome (verdict_of verdict) (view_of self.old) position.0 address.0) out.old (given self.new (Ok result)) out.new }
    {
        let seat = position.0 as usize - 1;
        let n = self.unit_count();
        let before = self.entries;
        let mut after = before;
        changes::all_counted(&mut after[..n], seat, verdict, true, address);
        let at = ring_tell::told::tell_entries(
            out,
            self.pass,
            self.state,
            self.size,
            &before[..n],
            &after[..n],
        );
        self.entries = after;
        self.finish(out, at)
    }

    // A restart: all that are counted count one more, and every entry that is not IGNORED is asked.
    fn restart(
        &mut self,
        out: &mut [u8],
        position: NodePosition,
        address: LogicalNodeAddress,
        verdict: Verdict,
    ) -> usize
        requires { Seat self.old position.0 × (self.old.pass < max_pass)
            × (length (written (restart_outcome (verdict_of verdict) (view_of self.old) position.0 address.0)) ≤ length out.old) }
        ensures { Does self.old (restart_outcome (verdict_of verdict) (view_of self.old) position.0 address.0) out.old (given self.new (Ok result)) out.new }
    {
        let seat = position.0 as usize - 1;
        let n = self.unit_count();
        let mut entries = self.entries;
        changes::all_counted(&mut entries[..n], seat, verdict, false, address);
        changes::all_emptied(&mut entries[..n]);
        self.entries = entries;
        let at = wire_orders::write_notice(out, 0, self.pass + 1, Notice::NotOk);
        self.scan(out, at)
    }

    // A bad announcement, counted for the position, and where another entry keeps the address for that one too.
    pub(crate) fn conflict(
        &mut self,
        out: &mut [u8],
        position: NodePosition,
        address: LogicalNodeAddress,
        verdict: Verdict,
    ) -> Result<usize, Refusal>
        requires { Seat self.old position.0 × (3 ≤ self.old.size)
            × (length (written (conflict_outcome (verdict_of verdict) (view_of self.old) position.0 address.0)) ≤ length out.old) }
        ensures { Does self.old (conflict_outcome (verdict_of verdict) (view_of self.old) position.0 address.0) out.old (given self.new result) out.new }
    {
        let seat = position.0 as usize - 1;
        if limit::reaches_limit(self.ring(), seat, verdict, address) {
            return Ok(self.ignore(out, position, address, verdict));
        }
        if MAX_PASS <= self.pass {
            return Err(Refusal::NoPassLeft);
        }
        Ok(self.restart(out, position, address, verdict))
    }
}

// Scans of the ring: START, NCE and restarts; SHUTDOWN; DELAY.
ghost use Rattle.std.specs.Prelude.{◌≡◌, true, suc, ◌+◌, ◌≤◌, ◌<◌, length, Ok};
ghost use Rattle.rules.specs.House.{max_pass, max_nodes};
ghost use Rattle.rules.specs.Picture.{is_ok};
ghost use Rattle.rules.specs.Event.{START, NCE, SHUTDOWN, DELAY};
ghost use Rattle.rules.specs.Order.{encode_all};
ghost use Rattle.rules.specs.Step.{respond};
ghost use Rattle.rules.specs.Run.{concluded, written};
ghost use Rattle.registry.specs.View.{view_of};
ghost use Rattle.registry.specs.Outcome.{scan_orders, Scans, rescan_outcome, Does, given, Marks};

use super::image;
use super::image::RegistryImage;
use numbers::Refusal;
use ring_entries::changes;
use ring_state::{CfgDelay, NOTOK, RegistryState, STOPPED};
use ring_tell::asks::Which;
use wire_orders::Notice;

// The last pass.
pub const MAX_PASS: u32 = u32::MAX;

impl RegistryImage {
    // A scan of these entries, behind the orders written up to `at`: the next pass, NOTOK, no delay, an ASK for each open question.
    pub(crate) fn scan(&mut self, out: &mut [u8], at: usize) -> usize
        requires { (self.old.pass < max_pass) × (at + length (encode_all (suc self.old.pass) (scan_orders (view_of self.old))) ≤ length out.old) }
        ensures { Scans (view_of self.old) out.old at (given self.new (Ok result)) out.new × (Marks self.old → Marks self.new) }
    {
        self.pass += 1;
        self.state = RegistryState(NOTOK);
        self.delay = CfgDelay(STOPPED);
        let end = ring_tell::asks::write_asks(out, at, self.pass, self.ring(), Which::Open);
        self.finish(out, end)
    }

    // START: the ring has `nodes` nodes, and its units are asked.
    pub(crate) fn start(&mut self, out: &mut [u8], nodes: u8) -> Result<usize, Refusal>
        requires { (1 ≤ nodes) × (nodes ≤ max_nodes)
            × (length (written (concluded (view_of self.old) (respond (view_of self.old) (START nodes)))) ≤ length out.old) }
        ensures { Does self.old (concluded (view_of self.old) (respond (view_of self.old) (START nodes))) out.old (given self.new result) out.new }
    {
        if MAX_PASS <= self.pass {
            return Err(Refusal::NoPassLeft);
        }
        self.units = nodes - 1;
        self.entries = image::new_entries();
        Ok(self.scan(out, 0))
    }

    // NCE in OK: OK stays. The new units are asked, every pair listed so far is told INVALID, and a running delay ends.
    fn rescan(&mut self, out: &mut [u8], nodes: u8) -> usize
        requires { (1 ≤ nodes) × (nodes ≤ max_nodes) × (length (written (rescan_outcome (view_of self.old) nodes)) ≤ length out.old)
            × (3 ≤ self.old.size) × (self.old.pass < max_pass) × (is_ok (view_of self.old).state ≡ true) }
        ensures { Does self.old (rescan_outcome (view_of self.old) nodes) out.old (given self.new (Ok result)) out.new }
    {
        let listed = self.listing();
        self.pass += 1;
        self.units = nodes - 1;
        self.entries = image::new_entries();
        self.delay = CfgDelay(STOPPED);
        let told = ring_tell::told::tell_ring_change(
            out,
            self.pass,
            self.size,
            self.ring(),
            &listed.blocks[..listed.count],
            &listed.numbers[..listed.count],
        );
        self.finish(out, told)
    }

    // NCE: in NOTOK as START, with the order NOTOK first; in OK it keeps OK.
    pub(crate) fn network_change(&mut self, out: &mut [u8], nodes: u8) -> Result<usize, Refusal>
        requires { (1 ≤ nodes) × (nodes ≤ max_nodes) × (3 ≤ self.old.size)
            × (length (written (concluded (view_of self.old) (respond (view_of self.old) (NCE nodes)))) ≤ length out.old) }
        ensures { Does self.old (concluded (view_of self.old) (respond (view_of self.old) (NCE nodes))) out.old (given self.new result) out.new }
    {
        if MAX_PASS <= self.pass {
            return Err(Refusal::NoPassLeft);
        }
        if self.state.is_ok() {
            return Ok(self.rescan(out, nodes));
        }
        let at = wire_orders::write_notice(out, 0, self.pass + 1, Notice::NotOk);
        self.units = nodes - 1;
        self.entries = image::new_entries();
        Ok(self.scan(out, at))
    }

    // SHUTDOWN: everything is emptied but the pass and L.
    pub(crate) fn shut_down(&mut self, out: &mut [u8]) -> usize
        ensures { Does self.old (concluded (view_of self.old) (respond (view_of self.old) SHUTDOWN)) out.old (given self.new (Ok result)) out.new }
    {
        *self = RegistryImage::stopped(self.pass, self.size);
        0
    }

    // DELAY: the delay ends, and every SILENT node is asked.
    pub(crate) fn delay_expired(&mut self, out: &mut [u8], pass: u32) -> Result<usize, Refusal>
        requires { length (written (concluded (view_of self.old) (respond (view_of self.old) (DELAY pass)))) ≤ length out.old }
        ensures { Does self.old (concluded (view_of self.old) (respond (view_of self.old) (DELAY pass))) out.old (given self.new result) out.new }
    {
        if pass != self.pass {
            return Err(Refusal::WrongPass);
        }
        if self.delay.0 == STOPPED {
            return Err(Refusal::NotAsked);
        }
        let n = self.unit_count();
        let end = ring_tell::asks::write_asks(out, 0, pass, self.ring(), Which::Silent);
        let mut entries = self.entries;
        changes::all_asked(&mut entries[..n]);
        self.entries = entries;
        self.delay = CfgDelay(STOPPED);
        Ok(self.finish(out, end))
    }
}

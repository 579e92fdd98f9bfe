// The ending of every event, on the picture that its steps left.
ghost use Rattle.std.specs.Prelude.{◌+◌, ◌≤◌, length, Ok};
ghost use Rattle.rules.specs.Order.{encode_all};
ghost use Rattle.rules.specs.Ending.{end_orders};
ghost use Rattle.registry.specs.View.{view_of};
ghost use Rattle.registry.specs.Outcome.{Ends, Marks, given};

use super::image::RegistryImage;
use ring_entries::outlook;

impl RegistryImage {
    // The ending of an event whose steps left this picture and wrote orders up to `at`; how many bytes the orders have is handed back.
    pub(crate) fn finish(&mut self, out: &mut [u8], at: usize) -> usize
        requires { at + length (encode_all self.old.pass (end_orders (view_of self.old))) ≤ length out.old }
        ensures { Ends (view_of self.old) out.old at (given self.new (Ok result)) out.new × (Marks self.old → Marks self.new) }
    {
        let seen = outlook::outlook_of(self.ring());
        let closed = ring_ending::close(out, at, self.pass, self.state, self.delay, seen);
        self.state = closed.state;
        self.delay = closed.delay;
        closed.end
    }
}

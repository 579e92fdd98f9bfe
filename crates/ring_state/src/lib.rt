// The registry's marks: its state, and whether a delay runs.
#![tactic(auto)]

ghost use Rattle.std.specs.Prelude.{◌≡◌};
ghost use Rattle.rules.specs.Picture.{is_ok};
ghost use Rattle.ring_state.specs.State.{state_of};

// The registry's state by its number.
// C interface: a number.
#[repr(C)]
#[derive(Clone, Copy)]
pub struct RegistryState(pub u8);

// The ring does not run.
pub const OFF: u8 = 0;

// The ring is being scanned.
pub const NOTOK: u8 = 1;

// The ring is registered.
pub const OK: u8 = 2;

impl RegistryState {
    // The state is OK.
    #[tactic(auto, unfolding(rules::specs::Picture::is_ok, crate::specs::State::state_of))]
    pub fn is_ok(self) -> bool
        ensures { result ≡ is_ok (state_of self.0) }
    {
        self.0 != OFF && self.0 != NOTOK
    }
}

// Whether a delay runs, by its number.
// C interface: a number.
#[repr(C)]
#[derive(Clone, Copy)]
pub struct CfgDelay(pub u8);

pub const STOPPED: u8 = 0;

pub const RUNNING: u8 = 1;

// Where a node sits, and what it announces: two types, so that neither stands in for the other.
#![tactic(auto)]

ghost use Rattle.std.specs.Prelude.{◌≡◌};
ghost use Rattle.rules.specs.Picture.{in_range};

// A node position: where a unit sits in the ring.
#[repr(C)]
#[derive(Clone, Copy, PartialEq, Eq)]
pub struct NodePosition(pub u8);

// A logical node address: what a unit announces.
#[repr(C)]
#[derive(Clone, Copy, PartialEq, Eq)]
pub struct LogicalNodeAddress(pub u16);

// The addresses that a unit may announce.
pub const NODE_ADDRESS_MIN: u16 = 0x0101;

pub const NODE_ADDRESS_MAX: u16 = 0x02FF;

impl LogicalNodeAddress {
    // The address is one that a unit may announce.
    pub fn in_range(self) -> bool
        ensures { result ≡ in_range self.0 }
    {
        NODE_ADDRESS_MIN <= self.0 && self.0 <= NODE_ADDRESS_MAX
    }
}

// The ring picture: made, taken a record further, listed and looked up. C interface: a picture goes in and comes back, and a number
// stands beside it.
ghost use Rattle.std.specs.Prelude.{◌≡◌, length, ◌≤◌};
ghost use Rattle.rules.specs.House.{max_entries};
ghost use Rattle.rules.specs.Picture.{fresh, fresh_number};
ghost use Rattle.rules.specs.Run.{step};
ghost use Rattle.rules.specs.Listing.{listing, look_up, lookup_number, lookup_position, lookup_address};
ghost use Rattle.wire_pairs.specs.View.{pair_of};
ghost use Rattle.ring_listing.specs.View.{flat_of};
ghost use Rattle.registry.specs.View.{view_of};
ghost use Rattle.registry.specs.Outcome.{Does, HandedOut};

use numbers::number_in;
use registry::image::RegistryImage;
use registry::record::Recorded;
use ring_listing::Listing;
use ring_lookup::number_and_place;
use wire_pairs::Pair;

// A fresh picture, and 0 where it is for the L that was asked for.
#[repr(C)]
#[derive(Clone, Copy)]
pub struct FreshOutcome {
    pub number: u8,
    pub picture: RegistryImage,
}

// The number of a refusal or 0, and where the pair is listed.
#[repr(C)]
#[derive(Clone, Copy)]
pub struct LookupOutcome {
    pub number: u8,
    pub position: u8,
    pub address: u16,
}

// A fresh picture for L; 10 where L is outside 12 to 45, and then one for 12.
#[unsafe(no_mangle)]
#[tactic(auto, unfolding(registry::specs::View::make_answer, rules::specs::Picture::fresh_number))]
pub extern "C" fn lathepetal_fresh(l: usize) -> FreshOutcome
    ensures { (result.number ≡ fresh_number l) × (view_of result.picture ≡ fresh l) × HandedOut result.picture }
{
    let made = RegistryImage::fresh(l);
    FreshOutcome {
        number: number_in(made.answer),
        picture: made.picture,
    }
}

// Takes one record, and writes its orders from the start of `out`; or 1 to 9, which change nothing.
#[unsafe(no_mangle)]
pub extern "C" fn lathepetal_record(
    picture: RegistryImage,
    bytes: &[u8],
    out: &mut [u8],
) -> Recorded
    requires { HandedOut picture }
    ensures { Does picture (step (view_of picture) bytes.now (length out.old)) out.old result out.new
        × HandedOut result.picture }
{
    picture.record(bytes, out)
}

// The whole listing, by position and announced order.
#[unsafe(no_mangle)]
pub extern "C" fn lathepetal_listing(picture: RegistryImage) -> Listing
    ensures { (result ≡ flat_of (listing (view_of picture))) × (length (listing (view_of picture)) ≤ max_entries) }
{
    picture.listing()
}

// Where a pair is listed; 18 where the state is not OK, 17 where it is listed nowhere.
#[unsafe(no_mangle)]
pub extern "C" fn lathepetal_look_up(picture: RegistryImage, block: u8, number: u8) -> LookupOutcome
    ensures { (result.number ≡ lookup_number (look_up (view_of picture) (pair_of block number)))
        × (result.position ≡ lookup_position (look_up (view_of picture) (pair_of block number)))
        × (result.address ≡ lookup_address (look_up (view_of picture) (pair_of block number))) }
{
    let (refusal, place) = number_and_place(picture.look_up(Pair { block, number }));
    LookupOutcome {
        number: refusal,
        position: place.position.0,
        address: place.address.0,
    }
}

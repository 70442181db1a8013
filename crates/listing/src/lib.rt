// What the listing program prints: the repairs of a loss, the cycle of a fatal one, or a refusal.
#![tactic(auto)]

ghost use Rattle.std.specs.Prelude.{◌≡◌, ◌-◌, ◌≤◌, length, take, drop, get_or, replicate};
ghost use Rattle.model.specs.Grid.{rectangle};
ghost use Rattle.model.specs.Listing.{listing};

use model::Size;

// The text stands in the first `len` bytes, with zeros behind it.
#[derive(Clone, Copy)]
pub struct Text {
    pub bytes: [u8; 320],
    pub len: usize,
}

// The byte at a place of the input. A missing byte counts as 0.
fn byte_at(input: &[u8], place: usize) -> usize
    ensures { result ≡ get_or input.now place 0 }
{
    match input.get(place) {
        Some(&byte) => byte as usize,
        None => 0,
    }
}

// The size that the first two bytes of the input give.
fn size_of(input: &[u8]) -> Size
    ensures { result ≡ rectangle (get_or input.now 0 0) (get_or input.now 1 0) }
{
    Size {
        rows: byte_at(input, 0),
        columns: byte_at(input, 1),
    }
}

// The map that follows them.
fn map_of(input: &[u8]) -> &[u8]
    ensures { result.now ≡ drop 2 input.now }
{
    match input.get(2..) {
        Some(map) => map,
        None => &[],
    }
}

// The text for an input: a byte for the data rows, one for the data columns, then the map.
pub fn listing_of(input: &[u8]) -> Text
    ensures text { take result.len result.bytes ≡ listing input.now }
    ensures rest { drop result.len result.bytes ≡ replicate (320 - result.len) 0 }
    ensures within { result.len ≤ 320 }
    ensures size { length result.bytes ≡ 320 }
{
    let mut bytes = [0u8; 320];
    let len = report::report(&mut bytes, size_of(input), map_of(input));
    Text { bytes, len }
}

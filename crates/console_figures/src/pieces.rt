// Pieces of a list: each is the field of an order's length, and the order.
ghost use Rattle.std.specs.Prelude.{◌≡◌, take, drop};
ghost use Rattle.rules.specs.Records.{num4};
ghost use Rattle.rules.specs.Listing.{length_size};

// The bytes of that field: the order begins behind them.
pub const LENGTH_FIELD: usize = record_walk::HEADER + record_walk::NUMBER;

// The order of the piece that these bytes begin with: so many behind its length as that says, or all where there are fewer.
pub fn first_order(list: &[u8]) -> &[u8]
    ensures { result.now ≡ take (num4 list.now 3) (drop length_size list.now) }
{
    if list.len() < LENGTH_FIELD {
        return &list[0..0];
    }
    let n = record_walk::number_at(list, record_walk::HEADER) as usize;
    crate::front(&list[LENGTH_FIELD..], n)
}

// Lists with a place for each of at most seven seats.
ghost use Rattle.std.specs.Prelude.{◌≡◌, slice_set};

// Puts an item in a seat's place. There is no seat above 6, so there nothing changes. By value, as an entry and a takeover go; and by place,
// since `get_mut` does not promise what the places hold once the loan is over.
pub(crate) fn with_seat<T: Copy>(mut places: [T; 7], seat: u32, item: T) -> [T; 7]
    ensures { result ≡ slice_set places seat item }
{
    if seat < 7 {
        places[seat as usize] = item;
    }
    places
}

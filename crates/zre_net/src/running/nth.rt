ghost use Rattle.std.specs.Prelude.{◌≡◌, ◌+◌, ◌<◌, length, is_some, option_map, IfSome};
ghost use Rattle.zre_net.specs.Lists.{nth};

/// What stands under a number of a list that is counted from 1.
pub(crate) fn nth<T>(items: &[T], number: u64) -> Option<&T>
    ensures { option_map (λ r. r.now) result ≡ nth number items.now }
{
    let place = number.checked_sub(1)?;
    items.get(place as usize)
}

/// The place of what stands under a number of a list that is counted from 1, if anything does.
pub(crate) fn place_of<T>(items: &[T], number: u64) -> Option<usize>
    ensures there { is_some result ≡ is_some (nth number items.now) }
    ensures place { IfSome result (λ place. (number ≡ place + 1) × (place < length items.now)) }
{
    let place = number.checked_sub(1)? as usize;
    if place < items.len() {
        Some(place)
    } else {
        None
    }
}

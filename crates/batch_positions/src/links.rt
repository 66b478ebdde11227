ghost use Rattle.std.specs.Prelude.{◌≡◌};
ghost use Rattle.batch_positions.specs.Links.{at_position};

/// The element at a position, from 1, or `None` at 0 and past the end.
pub fn at_position<T: Copy>(items: &[T], position: u32) -> Option<T>
    ensures value { result ≡ at_position items.now position }
{
    if position == 0 {
        return None;
    }
    let index = position as usize - 1;
    if index >= items.len() {
        return None;
    }
    Some(items[index])
}

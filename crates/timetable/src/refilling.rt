// Replacing what a list holds, within the room that it has.
ghost use Rattle.std.specs.Prelude.{◌≡◌, ◌≤◌, length, vec_capacity};

// Holds these items in place of what the list held.
pub(crate) fn refill<T: Copy>(list: &mut Vec<T>, items: &[T])
    requires { length items.now ≤ vec_capacity list.old }
    ensures after { list.new.items ≡ items.now }
    ensures room { vec_capacity list.old ≤ vec_capacity list.new }
{
    list.clear();
    list.extend_from_slice(items).unwrap();
}

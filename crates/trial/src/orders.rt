// An order of tasks, and its first faulty place.
ghost use Rattle.std.specs.Prelude.{◌≡◌, cond, ltb, length, Some, None};
ghost use Rattle.model.specs.Below.{lowest};
ghost use Rattle.model.specs.Trial.{faulty};

// The first place that names an absent task or is past the longest order.
pub(crate) fn first_fault(order: &[u8], tasks: usize) -> Option<usize>
    ensures { let place = lowest (length order.now) (faulty tasks order.now) in
        result ≡ cond (ltb place (length order.now)) (Some place) None }
{
    for (place, &task) in order.iter().enumerate() {
        if model::MAX_ORDER <= place {
            return Some(place);
        }
        if tasks <= task as usize {
            return Some(place);
        }
    }
    None
}

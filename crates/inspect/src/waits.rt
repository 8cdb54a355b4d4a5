ghost use Rattle.inspect.specs.Verdicts.{IsVerdict};

use crate::edges::{clients_that_want, edges_of};
use crate::peeling::Peeling;
use crate::trail::cycle_from;
use crate::verdict::Blocking;
use lock_table::Picture;

/// Whether the clients of a picture block one another in a circle. It takes no memory.
pub fn blocking(picture: &Picture) -> Blocking
    ensures { IsVerdict picture.now.locks result }
{
    let locks = picture.locks();
    let edges = edges_of(locks);
    let peeling = Peeling::of(&edges, &clients_that_want(locks));
    match peeling.first_left() {
        None => Blocking::Ranked(peeling.ranks),
        Some(first) => Blocking::Cycle(cycle_from(&edges, &peeling.left, first)),
    }
}

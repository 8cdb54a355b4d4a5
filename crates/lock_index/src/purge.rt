ghost use Rattle.std.specs.Prelude.{◌≡◌, ◌+◌, ◌<◌, ◌≤◌, ◌||◌, [], ℕ, List, length, filter, not, vec_len, vec_capacity};
ghost use Rattle.std.specs.List.{list_any};
ghost use Rattle.lock_command.specs.Name.{same_name};
ghost use Rattle.lock_command.specs.Locks.{is_through};
ghost use Rattle.lock_command.specs.Locks.{is_on};

use crate::by_printed_order::ByPrintedOrder;
use crate::keys::SpelledName;
use lock_command::{HostNumber, LOCKS};

/// Takes out the locks that were enqueued through a host, lists their names, and counts them. It looks at each lock once. A name is
/// listed once, since its locks are side by side.
pub fn take_through(
    locks: &mut ByPrintedOrder,
    host: HostNumber,
    names: &mut Vec<SpelledName>,
) -> u16
    requires room { LOCKS ≤ vec_capacity names.old }
    requires empty { names.old.items ≡ [] }
    ensures left { locks.new ≡ filter (λ r. not (is_through host r)) locks.old }
    ensures count { result ≡ length (filter (is_through host) locks.old) }
    ensures names { (name : List ℕ) → list_any (λ n. same_name n name) names.new.items ≡ list_any (is_on name) (filter (is_through host) locks.old) }
    ensures room { vec_capacity names.old ≤ vec_capacity names.new }
{
    let mut count = 0;
    let mut end = locks.through_end(locks.len(), host);
    while end > 0 {
        add_name(names, locks.name(end - 1));
        locks.remove(end - 1);
        count += 1;
        end = locks.through_end(end - 1, host);
    }
    count
}

/// Lists a name, unless it is the last that is listed.
fn add_name(names: &mut Vec<SpelledName>, name: SpelledName)
    requires { vec_len names.old < vec_capacity names.old }
    ensures names { (other : List ℕ) → list_any (λ n. same_name n other) names.new.items ≡ (list_any (λ n. same_name n other) names.old.items || same_name name other) }
    ensures len { vec_len names.new ≤ vec_len names.old + 1 }
    ensures room { vec_capacity names.old ≤ vec_capacity names.new }
{
    if let Some(last) = names.last() {
        if last.is_same(&name) {
            return;
        }
    }
    let _ = names.push(name);
}

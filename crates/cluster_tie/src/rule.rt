use crate::view::View;
use atomic_table::{Join, Play, Split, TableRule};

/// The rule of the table: each seat shows its parts of one list.
pub struct Law;

impl TableRule<u64, View, u8> for Law {
    ghost use Rattle.std.specs.Prelude.{[]};
    ghost use Rattle.cluster_tie.specs.Rules.{Tied};
    ghost use Rattle.cluster_tie.specs.View.{keeper, all_parts};

    ghost holds = { λ _ s. Tied s };

    ghost first = { λ disks. keeper [] (all_parts disks) };
}

// The journal's seat looks at the parts that it holds.
pub struct Sees;

impl Play<u64, View> for Sees {
    ghost use Rattle.cluster_tie.specs.Rules.{seen};

    ghost then = { seen };
}

// A seat gives its first part to a new one.
pub struct Front;

impl Split<View> for Front {
    ghost use Rattle.cluster_tie.specs.View.{kept_back, handed};

    ghost left = { kept_back };

    ghost right = { handed };
}

// The journal's seat takes another's parts in.
pub struct Lends;

impl Join<View> for Lends {
    ghost use Rattle.std.specs.Prelude.{[]};
    ghost use Rattle.cluster_tie.specs.View.{lent, holder};

    ghost both = { lent };

    ghost spent = { holder [] };
}

use std::marker::Model;

// What a table seat knows. No value of this type is made.
pub struct View(());

impl Model for View {
    ghost use Rattle.cluster_tie.specs.View.{Known, holder};
    ghost use Rattle.std.specs.Prelude.{[]};

    ghost Value = { Known };

    ghost view = { λ _. holder [] };
}

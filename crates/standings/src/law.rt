// How numbers of an area and epochs belong together.
ghost use Rattle.standings.specs.Laws.{NumbersTellEpochs, EpochsHaveTheirNumbers, NumbersRise};

/// A number of an area tells the epoch to which it belongs.
pub fn numbers_tell_epochs()
    ensures belongs { NumbersTellEpochs }
    // So each epoch is found by its number, and by the odd one below it.
    ensures found { EpochsHaveTheirNumbers }
    // Of two epochs of an area the later one has the greater number, and a greater number belongs to no earlier epoch.
    ensures rise { NumbersRise }
{}

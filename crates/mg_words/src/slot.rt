ghost use Rattle.std.specs.Prelude.{◌≡◌};
ghost use Rattle.mg_words.specs.Forms.{fits};
ghost use Rattle.mg_words.specs.Texts.{name_text, right_text};

use crate::keyword::Keyword;
use lock_script::number_in;

/// What may stand at a place of a line.
#[derive(Clone, Copy, Debug, PartialEq, Eq)]
pub enum Slot {
    /// This word itself.
    Word(Keyword),
    /// The path of a folder.
    Folder,
    /// The path of a script.
    Script,
    /// The number of a cluster. It and those below are spelled as in a script.
    Cluster,
    /// How many disks a set has.
    Disks,
    /// How many slots a log has that ends.
    Slots,
    /// The number of a disk.
    Disk,
    /// The number of a host.
    Host,
    /// The first word of a command, which is no option. Others may follow.
    Command,
}

impl Slot {
    /// Whether this word may stand there.
    pub fn fits(self, word: &str) -> bool
        ensures { result ≡ fits self word.now }
    {
        let bytes = word.as_bytes();
        match self {
            Slot::Word(keyword) => bytes == keyword.text().as_bytes(),
            Slot::Cluster => number_in(bytes, 0, u64::MAX).is_some(),
            Slot::Disks => number_in(bytes, 1, 7).is_some(),
            Slot::Slots => number_in(bytes, 1, 4096).is_some(),
            Slot::Disk => number_in(bytes, 0, 6).is_some(),
            Slot::Host => number_in(bytes, 0, 15).is_some(),
            Slot::Command => bytes != Keyword::Json.text().as_bytes(),
            Slot::Folder | Slot::Script => true,
        }
    }

    /// What the word there is called.
    pub fn name(self) -> &'static str
        ensures { result.now ≡ name_text self }
    {
        match self {
            Slot::Word(keyword) if keyword.is_option() => "OPTION",
            Slot::Word(_) => "WORD",
            Slot::Folder => "FOLDER",
            Slot::Script => "SCRIPT",
            Slot::Cluster => "CLUSTER",
            Slot::Disks => "DISKS",
            Slot::Slots => "SLOTS",
            Slot::Disk => "DISK",
            Slot::Host => "HOST",
            Slot::Command => "COMMAND",
        }
    }

    /// What would be right there.
    pub fn right(self) -> &'static str
        ensures { result.now ≡ right_text self }
    {
        match self {
            Slot::Word(keyword) if keyword.is_option() => keyword.text(),
            Slot::Word(_) => "create, submit, table, mark, check, migrate, replace, run, sweep",
            Slot::Folder => "a folder",
            Slot::Script => "a script",
            Slot::Cluster => "0 to 18446744073709551615",
            Slot::Disks => "1 to 7",
            Slot::Slots => "1 to 4096",
            Slot::Disk => "0 to 6",
            Slot::Host => "0 to 15",
            Slot::Command => "enqueue, convert, release, cancel, status, purge, forget",
        }
    }
}

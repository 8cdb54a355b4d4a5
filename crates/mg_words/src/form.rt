ghost use Rattle.std.specs.Prelude.{◌≡◌};
ghost use Rattle.mg_words.specs.Forms.{may_go_on, slots};

use crate::keyword::Keyword;
use crate::slot::Slot;

/// A form that a line may have: what is asked, and which options are given.
#[derive(Clone, Copy, Debug, PartialEq, Eq)]
pub enum Form {
    Create,
    CreateDisks,
    CreateSlots,
    CreateBoth,
    CreateJson,
    CreateDisksJson,
    CreateSlotsJson,
    CreateBothJson,
    Submit,
    SubmitJson,
    Table,
    TableJson,
    Mark,
    MarkJson,
    Check,
    CheckJson,
    Migrate,
    MigrateJson,
    Replace,
    ReplaceJson,
    Run,
    Sweep,
}

impl Form {
    /// All forms. Of two that have room for as many words, the first says what is wanted behind them.
    pub const ALL: [Form; 22] = [
        Form::Create,
        Form::CreateDisks,
        Form::CreateSlots,
        Form::CreateBoth,
        Form::CreateJson,
        Form::CreateDisksJson,
        Form::CreateSlotsJson,
        Form::CreateBothJson,
        Form::Submit,
        Form::SubmitJson,
        Form::Table,
        Form::TableJson,
        Form::Mark,
        Form::MarkJson,
        Form::Check,
        Form::CheckJson,
        Form::Migrate,
        Form::MigrateJson,
        Form::Replace,
        Form::ReplaceJson,
        Form::Run,
        Form::Sweep,
    ];

    /// Whether further words may follow, which are a command's.
    pub fn may_go_on(self) -> bool
        ensures { result ≡ may_go_on self }
    {
        matches!(self, Form::Submit | Form::SubmitJson)
    }

    /// What stands at each place of such a line.
    pub fn slots(self) -> &'static [Slot]
        ensures { result.now ≡ slots self }
    {
        match self {
            Form::Create => &[
                Slot::Word(Keyword::Create),
                Slot::Folder,
                Slot::Word(Keyword::Cluster),
                Slot::Cluster,
            ],
            Form::CreateDisks => &[
                Slot::Word(Keyword::Create),
                Slot::Folder,
                Slot::Word(Keyword::Cluster),
                Slot::Cluster,
                Slot::Word(Keyword::Disks),
                Slot::Disks,
            ],
            Form::CreateSlots => &[
                Slot::Word(Keyword::Create),
                Slot::Folder,
                Slot::Word(Keyword::Cluster),
                Slot::Cluster,
                Slot::Word(Keyword::Slots),
                Slot::Slots,
            ],
            Form::CreateBoth => &[
                Slot::Word(Keyword::Create),
                Slot::Folder,
                Slot::Word(Keyword::Cluster),
                Slot::Cluster,
                Slot::Word(Keyword::Disks),
                Slot::Disks,
                Slot::Word(Keyword::Slots),
                Slot::Slots,
            ],
            Form::CreateJson => &[
                Slot::Word(Keyword::Create),
                Slot::Folder,
                Slot::Word(Keyword::Cluster),
                Slot::Cluster,
                Slot::Word(Keyword::Json),
            ],
            Form::CreateDisksJson => &[
                Slot::Word(Keyword::Create),
                Slot::Folder,
                Slot::Word(Keyword::Cluster),
                Slot::Cluster,
                Slot::Word(Keyword::Disks),
                Slot::Disks,
                Slot::Word(Keyword::Json),
            ],
            Form::CreateSlotsJson => &[
                Slot::Word(Keyword::Create),
                Slot::Folder,
                Slot::Word(Keyword::Cluster),
                Slot::Cluster,
                Slot::Word(Keyword::Slots),
                Slot::Slots,
                Slot::Word(Keyword::Json),
            ],
            Form::CreateBothJson => &[
                Slot::Word(Keyword::Create),
                Slot::Folder,
                Slot::Word(Keyword::Cluster),
                Slot::Cluster,
                Slot::Word(Keyword::Disks),
                Slot::Disks,
                Slot::Word(Keyword::Slots),
                Slot::Slots,
                Slot::Word(Keyword::Json),
            ],
            Form::Submit => &[
                Slot::Word(Keyword::Submit),
                Slot::Folder,
                Slot::Word(Keyword::Host),
                Slot::Host,
                Slot::Command,
            ],
            Form::SubmitJson => &[
                Slot::Word(Keyword::Submit),
                Slot::Folder,
                Slot::Word(Keyword::Host),
                Slot::Host,
                Slot::Word(Keyword::Json),
                Slot::Command,
            ],
            Form::Table => &[
                Slot::Word(Keyword::Table),
                Slot::Folder,
                Slot::Word(Keyword::Host),
                Slot::Host,
            ],
            Form::TableJson => &[
                Slot::Word(Keyword::Table),
                Slot::Folder,
                Slot::Word(Keyword::Host),
                Slot::Host,
                Slot::Word(Keyword::Json),
            ],
            Form::Mark => &[
                Slot::Word(Keyword::Mark),
                Slot::Folder,
                Slot::Word(Keyword::Host),
                Slot::Host,
            ],
            Form::MarkJson => &[
                Slot::Word(Keyword::Mark),
                Slot::Folder,
                Slot::Word(Keyword::Host),
                Slot::Host,
                Slot::Word(Keyword::Json),
            ],
            Form::Check => &[Slot::Word(Keyword::Check), Slot::Folder],
            Form::CheckJson => &[
                Slot::Word(Keyword::Check),
                Slot::Folder,
                Slot::Word(Keyword::Json),
            ],
            Form::Migrate => &[Slot::Word(Keyword::Migrate), Slot::Folder],
            Form::MigrateJson => &[
                Slot::Word(Keyword::Migrate),
                Slot::Folder,
                Slot::Word(Keyword::Json),
            ],
            Form::Replace => &[Slot::Word(Keyword::Replace), Slot::Folder, Slot::Disk],
            Form::ReplaceJson => &[
                Slot::Word(Keyword::Replace),
                Slot::Folder,
                Slot::Disk,
                Slot::Word(Keyword::Json),
            ],
            Form::Run => &[Slot::Word(Keyword::Run), Slot::Script],
            Form::Sweep => &[Slot::Word(Keyword::Sweep), Slot::Script],
        }
    }
}

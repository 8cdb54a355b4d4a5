ghost use Rattle.std.specs.Prelude.{◌≡◌};
ghost use Rattle.mg_words.specs.Forms.{is_option, keyword_text};

/// A word that stands in a line as it is.
#[derive(Clone, Copy, Debug, PartialEq, Eq)]
pub enum Keyword {
    Create,
    Submit,
    Table,
    Mark,
    Check,
    Migrate,
    Replace,
    Run,
    Sweep,
    Cluster,
    Disks,
    Slots,
    Host,
    Json,
}

impl Keyword {
    /// Whether it begins with two dashes.
    pub fn is_option(self) -> bool
        ensures { result ≡ is_option self }
    {
        matches!(
            self,
            Keyword::Cluster | Keyword::Disks | Keyword::Slots | Keyword::Host | Keyword::Json
        )
    }

    pub fn text(self) -> &'static str
        ensures { result.now ≡ keyword_text self }
    {
        match self {
            Keyword::Create => "create",
            Keyword::Submit => "submit",
            Keyword::Table => "table",
            Keyword::Mark => "mark",
            Keyword::Check => "check",
            Keyword::Migrate => "migrate",
            Keyword::Replace => "replace",
            Keyword::Run => "run",
            Keyword::Sweep => "sweep",
            Keyword::Cluster => "--cluster",
            Keyword::Disks => "--disks",
            Keyword::Slots => "--slots",
            Keyword::Host => "--host",
            Keyword::Json => "--json",
        }
    }
}

/// How a migration ended.
#[derive(Clone, Copy, Debug, PartialEq, Eq)]
pub enum End {
    /// Every disk holds its complete image, its gate open.
    Migrated,
    /// A call failed, or was refused. No disk's gate is open, or all disks are complete except perhaps for their gates.
    MigrationFailed,
}

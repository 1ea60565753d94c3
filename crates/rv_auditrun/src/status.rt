//! How an audit ended, and its exit code.
ghost use Rattle.std.specs.Prelude.{◌≡◌};
ghost use Rattle.rv_auditrun.specs.Verdicts.{audit_code};

/// How an audit ended.
#[derive(Clone, Copy, PartialEq, Eq)]
pub enum AuditStatus {
    /// The transcript is of a legal history that has every call of the script.
    Legal,
    /// There is a word, and none is accepted.
    Usage,
    /// The script is none: a line has no session, or its bytes are not UTF-8.
    Script,
    /// A limit is passed, of the script or of the input.
    Limit,
    /// Memory was refused, and nothing is said.
    Memory,
    /// A read failed, and nothing is said.
    ReadFault,
    /// A write failed; what was written is a front of the verdict.
    WriteFault,
    /// There is no mark, or no transcript behind it.
    BadText,
    /// An entry is not legal, or does not follow the script.
    BadEntry,
    /// A call of the script has no entry.
    Missing,
}

impl AuditStatus {
    /// The program's exit code, from 0 where the transcript is legal to 9; docs/AUDIT.md has them all.
    pub fn code(&self) -> u8
        ensures { result ≡ audit_code self.now }
    {
        match self {
            AuditStatus::Legal => 0,
            AuditStatus::Usage => 1,
            AuditStatus::Script => 2,
            AuditStatus::Limit => 3,
            AuditStatus::Memory => 4,
            AuditStatus::ReadFault => 5,
            AuditStatus::WriteFault => 6,
            AuditStatus::BadText => 7,
            AuditStatus::BadEntry => 8,
            AuditStatus::Missing => 9,
        }
    }
}

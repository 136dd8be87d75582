//! The first line of an interface text.

ghost use Rattle.std.specs.Prelude.{◌≡◌, ◌≤◌, length};
ghost use Rattle.lx_annot_expressions.specs.Reading.{Gives};
ghost use Rattle.lx_annot_read.specs.Head.{head_at, may_lend, version_at};

use lx_annot_expressions::{FaultKind, ReadError, Reader};

/// The versions of interface texts.
#[derive(Clone, Copy)]
pub enum Version {
    /// No action lends.
    One,
    /// Actions before the body may lend.
    Two,
}

impl Version {
    /// Whether texts of this version may lend.
    pub fn may_lend(self) -> bool
        ensures { result ≡ may_lend self }
    {
        match self {
            Version::One => false,
            Version::Two => true,
        }
    }
}

/// The number of a version.
fn version_number(reader: &mut Reader<'_>) -> Result<Version, ReadError>
    ensures reads { Gives result reader.new (version_at reader.old) }
    ensures shrinks { length reader.new ≤ length reader.old }
{
    if reader.takes(b"1") {
        return Ok(Version::One);
    }
    if reader.takes(b"2") {
        return Ok(Version::Two);
    }
    Err(reader.fault(FaultKind::Statement))
}

/// The version of the text that begins with these tokens.
#[tactic(auto, unfolding(crate::specs::Head::head_at))]
pub fn read_head(reader: &mut Reader<'_>) -> Result<Version, ReadError>
    ensures reads { Gives result reader.new (head_at reader.old) }
    ensures shrinks { length reader.new ≤ length reader.old }
{
    reader.expect(b"interface")?;
    let version = version_number(reader)?;
    Ok(version)
}

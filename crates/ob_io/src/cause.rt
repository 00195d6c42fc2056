//! Why the outside refused a call, as far as the system told it.
ghost use Rattle.std.specs.Prelude.{◌≡◌, IfSome, string_bytes};

use std::alloc::Global;

/// Why the outside refused a call, as far as the system told it.
#[derive(Clone, Copy, Debug, PartialEq, Eq)]
pub enum Cause {
    /// None of those below.
    Untold,
    /// Somebody else listens there.
    InUse,
    /// The process may not.
    NotAllowed,
    /// The address is none of this machine's.
    NotHere,
    /// Another handle has locked the file, of this process or another.
    Locked,
    /// There is no room left where the file is, or none for its owner.
    Full,
    /// No file has the name.
    NoFile,
    /// The folder that the file was to be in isn't there.
    NoFolder,
    /// The name is that of a folder.
    IsFolder,
}

impl Cause {
    ghost use Rattle.ob_io.specs.Causes.{cause_words};

    /// The words that are printed for it; none for `Untold`.
    pub fn words(self) -> &'static str
        ensures { result.now ≡ cause_words self }
    {
        match self {
            Cause::Untold => "",
            Cause::InUse => "in use",
            Cause::NotAllowed => "not allowed",
            Cause::NotHere => "not this machine's",
            Cause::Locked => "locked",
            Cause::Full => "full",
            Cause::NoFile => "no such file",
            Cause::NoFolder => "no such folder",
            Cause::IsFolder => "is a folder",
        }
    }
}

/// A file that could not be read, and why.
#[derive(Drop)]
pub struct RefusedFile {
    pub name: String,
    pub cause: Cause,
}

impl RefusedFile {
    /// The file of this name; none where there is no memory for it.
    pub fn new(alloc: Global, name: &str, cause: Cause) -> Option<RefusedFile>
        ensures { IfSome result (λ file. (string_bytes file.name ≡ name.now) × (file.cause ≡ cause)) }
    {
        match String::from_str(alloc, name) {
            Ok(name) => Some(RefusedFile { name, cause }),
            Err(_) => None,
        }
    }
}

//! What holds of audits. The functions do nothing: each is the proof of what its clause says.
ghost use Rattle.std.specs.Prelude.{ℕ, List};
ghost use Rattle.sw_json_verdicts.specs.AuditLaws.{FreeIsShown, ZeroIsFree, ZeroIsFreeOfPaths};
ghost use Rattle.sw_json_verdicts.specs.Names.{NamesDiffer};

use crate::stores::Storage;
use sw_cert::laws::one_text;
use sw_engine::FileSystem;
use sw_file::laws::read_networks_are_valid;
use sw_search::laws::free_is_accepted;

/// A file whose verdict is told as `free` declares a network that never locks up: the certificate that is kept of it, or whose SHA-256
/// is told, is accepted for it.
pub fn free_is_shown<S: Storage>()
    ensures { (storage : S) → FreeIsShown (S.gives storage) (S.keeps storage) }
{
    read_networks_are_valid();
    free_is_accepted();
    one_text();
}

/// Status 0 of an audit says that so does each file; and where certificates are kept, that each stands under its name.
pub fn zero_is_free<S: Storage>()
    ensures { (storage : S) → ZeroIsFree (S.gives storage) (S.keeps storage) }
{
    read_networks_are_valid();
    free_is_accepted();
    one_text();
}

/// The same over the files of a file system: what each path gives declares a network that never locks up; and where certificates are
/// kept, all of each was put into the file of its name.
pub fn zero_is_free_of_paths<F: FileSystem>()
    ensures { (files : F) (folder : List ℕ) → ZeroIsFreeOfPaths (F.gives files) (F.keeps files) folder }
{
    read_networks_are_valid();
    free_is_accepted();
    one_text();
}

/// No two files of an audit have certificates of one name.
pub fn names_differ()
    ensures { NamesDiffer }
{}

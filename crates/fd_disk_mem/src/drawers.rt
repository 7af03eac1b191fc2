// The files that shelves kept, the newest first.
ghost use Rattle.std.specs.Prelude.{◌≡◌, if◌then◌else◌, ◌∷◌, true, false, Some, None, OnOk, OnErr, IfOk, MatchOption, option_map};
ghost use Rattle.fd_disk.specs.Names.{same_name};
ghost use Rattle.fd_disk_mem.specs.Drawers.{below, bytes_among, is_named, bytes_in};

use fd_disk::{FileName, is_same};
use std::alloc::{AllocError, Global};
use std::mem;

/// A file that a shelf created, with its bytes where the shelf kept it.
#[derive(Drop)]
pub(crate) struct Kept {
    pub(crate) name: FileName,
    pub(crate) bytes: Option<Vec<u8>>,
}

/// What each shelf kept, the last that was put back first.
#[derive(Drop)]
pub(crate) enum Drawers {
    Empty,
    More(Vec<Kept>, Box<Drawers>),
}

/// Puts a file before the others.
pub(crate) fn put(files: &mut Vec<Kept>, file: Kept) -> Result<(), AllocError>
    ensures ok { OnOk result (files.new.items ≡ file ∷ files.old.items) }
    ensures err { OnErr result (files.new.items ≡ files.old.items) }
{
    files.insert(0, file)?;
    Ok(())
}

/// Puts two files before the others, or neither.
pub(crate) fn put_both(files: &mut Vec<Kept>, first: Kept, second: Kept) -> Result<(), AllocError>
    ensures ok { OnOk result (files.new.items ≡ second ∷ first ∷ files.old.items) }
    ensures err { OnErr result (files.new.items ≡ files.old.items) }
{
    files.reserve(2)?;
    files.insert(0, first)?;
    files.insert(0, second)?;
    Ok(())
}

/// One file, with these bytes or none.
pub(crate) fn drawer_of(
    alloc: Global,
    name: FileName,
    bytes: Option<&[u8]>,
) -> Result<Vec<Kept>, AllocError>
    ensures named { IfOk result (λ v. (n : FileName) → is_named v.items n ≡ same_name name n) }
    ensures bytes { IfOk result (λ v. (n : FileName) → same_name name n ≡ true → bytes_among v.items n ≡ option_map (λ b. b.now) bytes.entry) }
{
    let bytes = match bytes {
        Some(bytes) => Some(bytes.to_vec(alloc)?),
        None => None,
    };
    let mut files = Vec::new(alloc);
    put(&mut files, Kept { name, bytes })?;
    Ok(files)
}

/// Lays a drawer upon the others.
pub(crate) fn lay(drawers: &mut Drawers, files: Vec<Kept>, place: Box<Drawers>)
    ensures bytes { (n : FileName) → bytes_in drawers.new n ≡ (if is_named files.items n then bytes_among files.items n else bytes_in drawers.old n) }
    ensures below { below drawers.new ≡ drawers.old }
{
    let mut place = place;
    *place = mem::replace(drawers, Drawers::Empty);
    *drawers = Drawers::More(files, place);
}

/// The first file of this name.
pub(crate) fn among(files: &[Kept], name: FileName) -> Option<&Kept>
    ensures { MatchOption result (is_named files.now name ≡ false) (λ k. (is_named files.now name ≡ true) × (bytes_among files.now name ≡ option_map (λ v. v.items) k.now.bytes)) }
{
    match files {
        [] => None,
        [file, rest @ ..] => {
            if is_same(file.name, name) {
                Some(file)
            } else {
                among(rest, name)
            }
        }
    }
}

/// The bytes of the file with this name.
pub(crate) fn bytes_of(files: &Drawers, name: FileName) -> Option<&Vec<u8>>
    ensures { MatchOption result (bytes_in files.now name ≡ None) (λ v. bytes_in files.now name ≡ Some v.now.items) }
{
    match files {
        Drawers::Empty => None,
        Drawers::More(kept, rest) => match among(kept, name) {
            Some(file) => file.bytes.as_ref(),
            None => bytes_of(rest, name),
        },
    }
}

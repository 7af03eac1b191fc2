// The names of files as a plan has them, read back.
ghost use Rattle.std.specs.Prelude.{◌≡◌, ◌≢◌, ◌<◌, ◌^◌, List, ℕ, IfOk, MatchOption, decimal};
ghost use Rattle.fd_disk.specs.{declared.folders.FileKind.{FileKind}, declared.folders.FileName.{FileName}};
ghost use Rattle.fd_file_mem.specs.Plans.{ending, file_text, table_text};
ghost use Rattle.fd_disk_mem.specs.Naming.{IsRead, end_text};

use fd_disk::{FileKind, FileName};
use fd_file_mem::text_of;
use std::alloc::{AllocError, Global};

/// The dataset of a table's name, or none where the name is no table's.
pub(crate) fn table_name(file: &str) -> Option<&str>
    ensures { MatchOption result ((dataset : List ℕ) → file.now ≢ table_text dataset) (λ dataset. file.now ≡ table_text dataset.now) }
{
    file.strip_suffix("/toc")
}

/// The dataset and the name of a file, or none where the name is no file's.
pub(crate) fn file_name(alloc: Global, file: &str) -> Result<Option<(&str, FileName)>, AllocError>
    ensures { IfOk result (λ o. MatchOption o ((dataset : List ℕ) (n : FileName) → n.writer < 2 ^ 32 → n.seq < 2 ^ 32 → file.now ≢ file_text dataset n) (λ p. file.now ≡ file_text p.0.now p.1)) }
{
    let Some((dataset, name)) = likely_name(file) else {
        return Ok(None);
    };
    let text = text_of(alloc, dataset, name)?;
    if text.as_str() == file {
        return Ok(Some((dataset, name)));
    }
    Ok(None)
}

// The dataset and the name of a file, where the text is that of a file, and else any or none.
fn likely_name(file: &str) -> Option<(&str, FileName)>
    ensures { (dataset : List ℕ) (n : FileName) → n.writer < 2 ^ 32 → n.seq < 2 ^ 32 → file.now ≡ file_text dataset n → MatchOption result ⊥ (λ p. (p.0.now ≡ dataset) × (p.1 ≡ n)) }
{
    let (dataset, rest) = file.rsplit_once('/')?;
    let name = likely_end(rest)?;
    Some((dataset, name))
}

// The name of a file, where the text is what stands behind the dataset, and else any or none.
fn likely_end(text: &str) -> Option<FileName>
    ensures { (n : FileName) → n.writer < 2 ^ 32 → n.seq < 2 ^ 32 → text.now ≡ end_text n → IsRead result n }
{
    let (writer, rest) = text.split_once('-')?;
    let (seq, ending) = rest.split_once('.')?;
    let writer = number(writer)?;
    let seq = number(seq)?;
    let kind = kind_of(ending)?;
    Some(FileName { writer, seq, kind })
}

// The number that the text is, if any.
fn number(text: &str) -> Option<u32>
    ensures { (n : ℕ) → n < 2 ^ 32 → text.now ≡ decimal n → IsRead result n }
{
    match text.parse::<u32>() {
        Ok(number) => Some(number),
        Err(_) => None,
    }
}

// The kind of file that ends so.
fn kind_of(text: &str) -> Option<FileKind>
    ensures { (kind : FileKind) → text.now ≡ ending kind → IsRead result kind }
{
    match text {
        "fields" => Some(FileKind::Fields),
        "index" => Some(FileKind::Index),
        _ => None,
    }
}

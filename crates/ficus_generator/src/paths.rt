ghost use Rattle.std.specs.Prelude.{◌≡◌, ◌<◌, ◌≤◌, ◌∷◌, IfOk};
ghost use Rattle.std.specs.Fmt.{decimal};
ghost use Rattle.ficus_generator.specs.Commands.{dir_path, file_path, part_of, written};
ghost use Rattle.ficus_path.specs.declared.path.Base.TheVariants.{Root};

use ficus_ids::{Listed, Memory, Name};
use ficus_path::{Base, Part, Path};
use std::alloc::Global;

/// The path of the directory of this number, at the root.
pub(crate) fn dir_path(alloc: Global, dir: u8) -> Result<Path, Memory>
    requires { dir < 10 }
    ensures { IfOk result (λ path. path ≡ dir_path dir) }
{
    let mut parts = Vec::with_capacity(alloc, 1)?;
    parts.push(part(b'd', dir))?;
    Ok(at_root(parts))
}

/// The path of the file of this number, in that directory.
pub(crate) fn file_path(alloc: Global, dir: u8, file: u8) -> Result<Path, Memory>
    requires dir { dir < 10 }
    requires file { file < 10 }
    ensures { IfOk result (λ path. path ≡ file_path dir file) }
{
    let mut parts = Vec::with_capacity(alloc, 2)?;
    parts.push(part(b'd', dir))?;
    parts.push(part(b'f', file))?;
    Ok(at_root(parts))
}

/// What the step of this number writes.
pub(crate) fn text_of(alloc: Global, number: u32) -> Result<Listed<u8>, Memory>
    ensures { IfOk result (λ text. text ≡ written number) }
{
    Ok(Listed::of(format!(in alloc; "s{number}\n")?.into_bytes()))
}

fn at_root(parts: Vec<Part>) -> Path
    ensures { result ≡ record { base = Root; parts = parts.items } }
{
    Path {
        base: Base::Root,
        parts: Listed::of(parts),
    }
}

fn part(letter: u8, number: u8) -> Part
    requires letter { 97 ≤ letter }
    requires number { number < 10 }
    ensures { result ≡ part_of letter number }
{
    Part {
        name: name(letter, number),
        target: None,
    }
}

fn name(letter: u8, number: u8) -> Name
    requires letter { 97 ≤ letter }
    requires number { number < 10 }
    ensures { result ≡ letter ∷ decimal number }
{
    match Name::new(&[letter, b'0' + number]) {
        Ok(name) => name,
        Err(_) => unreachable!(),
    }
}

// Methods upward of a class, and their code.
ghost use Rattle.std.specs.Prelude.{◌≡◌};
ghost use Rattle.definition.specs.Lists.{index_of};
ghost use Rattle.definition.specs.Classes.{alike, selected};
ghost use Rattle.classfile.specs.Reading.{quick_methods};
ghost use Rattle.cells.specs.Optional.{optional};
ghost use Rattle.resolution.specs.Quick.{base_of, file_in};
ghost use Rattle.resolution.specs.Lookups.{code_in, selection};

use crate::{Base, Selection};
use definition::Signature;

impl Base<'_> {
    // The place of the first method alike among those that a class declares.
    fn method_index(&self, c: u32, s: Signature) -> Option<u32>
        ensures { result ≡ optional (index_of (alike s) (quick_methods (file_in self.now.counts.now self.now.classes.now self.now.kept.now c))) }
    {
        let found = classfile::find_method(self.file_of(c), s)?;
        Some(u32::from(found.number))
    }

    // The one search for a method: the nearest class upward of c, c included, that declares a method alike, and the method's place there.
    pub fn select_method(&self, c: u32, s: Signature) -> Option<Selection>
        ensures { result ≡ selection (selected (base_of self.now) s c) }
    {
        let mut at = c;
        loop {
            if let Some(place) = self.method_index(at, s) {
                return Some(Selection { class: at, place });
            }
            at = self.super_of(at)?;
        }
    }
}

// The code of a file's method, as the part of the file's bytes that it is; no bytes if there is no such method. A file counts its methods by a byte, so that none
// has a number past that.
pub fn code_of<'a>(file: &'a [u8], j: u32) -> &'a [u8]
    ensures { result.now ≡ code_in (quick_methods file.now) j }
{
    let Ok(number) = u8::try_from(j) else {
        return &file[0..0];
    };
    match classfile::method_place(file, number) {
        Some(place) => classfile::code(file, place),
        None => &file[0..0],
    }
}

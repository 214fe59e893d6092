// The direct superclass of a class that is to be defined.
ghost use Rattle.std.specs.Prelude.{◌≡◌};
ghost use Rattle.definition.specs.File.{class_of};
ghost use Rattle.classfile.specs.Reading.{quick_file};
ghost use Rattle.resolution.specs.Quick.{base_of};
ghost use Rattle.cells.specs.Optional.{resulting};
ghost use Rattle.loading.specs.Stages.{super_for};

use definition::Refusal;
use definition::numbers::WORD_TAKEN;
use resolution::Base;

// The class that the file's superclass name is cached as, under the file's loader.
pub(crate) fn find_super(base: &Base, loader: u8, file: &[u8]) -> Result<u32, Refusal>
    ensures { result ≡ resulting (super_for (class_of loader (quick_file file.now)) (base_of base.now)) }
{
    let under = u16::from(loader);
    let own = base.find(under, classfile::class_name(file));
    let None = own else {
        return Err(Refusal::Word(WORD_TAKEN));
    };
    let name = classfile::super_name(file);
    let Some(p) = base.find(under, name) else {
        return Err(Refusal::Wanted(loader, name));
    };
    Ok(p)
}

// A file's version, a class's names and its fields, by their number.
ghost use Rattle.std.specs.Prelude.{◌≡◌, ◌≤◌};
ghost use Rattle.definition.specs.Lists.{any, index_of};
ghost use Rattle.classfile.specs.Reading.{file_version, class_name, super_name, field_count, field_place, field_in, quick_fields, fields_from};
ghost use Rattle.classfile.specs.Reading.{field_is, field_named};
ghost use Rattle.cells.specs.Optional.{optional};

pub fn version(bytes: &[u8]) -> u8
    ensures { result ≡ file_version bytes.now }
{
    cells::at(bytes, 0)
}

pub fn class_name(bytes: &[u8]) -> u16
    ensures { result ≡ class_name bytes.now }
{
    cells::short_at(bytes, 3)
}

pub fn super_name(bytes: &[u8]) -> u16
    ensures { result ≡ super_name bytes.now }
{
    cells::short_at(bytes, 5)
}

pub fn field_count(bytes: &[u8]) -> u8
    ensures { result ≡ field_count bytes.now }
{
    cells::at(bytes, 7)
}

pub(crate) fn field_place(i: u8) -> usize
    ensures { (result ≡ field_place i) × (result ≤ 1028) }
{
    8 + 4 * usize::from(i)
}

pub(crate) fn field_name(bytes: &[u8], i: u8) -> u16
    ensures { result ≡ (field_in bytes.now i).name }
{
    cells::short_at(bytes, field_place(i))
}

pub fn field_type(bytes: &[u8], i: u8) -> u16
    ensures { result ≡ (field_in bytes.now i).type }
{
    cells::short_at(bytes, field_place(i) + 2)
}

fn is_field(bytes: &[u8], i: u8, name: u16, type_name: u16) -> bool
    ensures { result ≡ field_is name type_name (field_in bytes.now i) }
{
    if field_name(bytes, i) != name {
        return false;
    }
    field_type(bytes, i) == type_name
}

// The number of the first field of that name and type.
pub fn find_field(bytes: &[u8], name: u16, type_name: u16) -> Option<u8>
    ensures { result ≡ optional (index_of (field_is name type_name) (quick_fields bytes.now)) }
{
    for i in 0..field_count(bytes) {
        if is_field(bytes, i, name, type_name) {
            return Some(i);
        }
    }
    None
}

// A field of that name, from field `first` on.
pub(crate) fn named_from(bytes: &[u8], first: u8, name: u16) -> bool
    ensures { result ≡ any (field_named name) (fields_from bytes.now first) }
{
    for i in first..field_count(bytes) {
        if field_name(bytes, i) == name {
            return true;
        }
    }
    false
}

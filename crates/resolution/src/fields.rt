// Fields upward of a class, and the fields of its objects.
ghost use Rattle.std.specs.Prelude.{◌≡◌, map, ◌<◌, ◌≤◌, length, set};
ghost use Rattle.definition.specs.Numbers.{byte_range};
ghost use Rattle.definition.specs.Lists.{any, index_of, write_rows};
ghost use Rattle.definition.specs.Superclasses.{nearest};
ghost use Rattle.definition.specs.Classes.{super_of, slots, slot_is, has_field};
ghost use Rattle.classfile.specs.Reading.{field_is, field_count, quick_fields};
ghost use Rattle.cells.specs.Optional.{optional};
ghost use Rattle.resolution.specs.Quick.{base_of, file_in};
ghost use Rattle.resolution.specs.Slots.{inherited_in, field_type, slot_type};

use crate::Base;

// The types of a file's fields, written from a place on.
fn write_types(types: &mut [u16], start: u32, file: &[u8])
    ensures { types.new ≡ write_rows set (map field_type (quick_fields file.now)) start types.old }
{
    for i in (0..classfile::field_count(file)).rev() {
        cells::put(
            types,
            start as usize + usize::from(i),
            classfile::field_type(file, i),
        );
    }
}

impl Base<'_> {
    fn declares_field(&self, c: u32, name: u16, type_name: u16) -> bool
        ensures { result ≡ any (field_is name type_name) (quick_fields (file_in self.now.counts.now self.now.classes.now self.now.kept.now c)) }
    {
        classfile::find_field(self.file_of(c), name, type_name).is_some()
    }

    // The nearest class upward of c, c included, that declares a field of that name and type.
    pub fn nearest_field(&self, c: u32, name: u16, type_name: u16) -> Option<u32>
        ensures { result ≡ optional (nearest (super_of (base_of self.now)) (has_field (base_of self.now) name type_name) c) }
    {
        let mut at = c;
        loop {
            if self.declares_field(at, name, type_name) {
                return Some(at);
            }
            at = self.super_of(at)?;
        }
    }

    // How many fields a class itself declares.
    fn own_size(&self, c: u32) -> u32
        ensures { (result ≡ field_count (file_in self.now.counts.now self.now.classes.now self.now.kept.now c)) × (result < byte_range) }
    {
        u32::from(classfile::field_count(self.file_of(c)))
    }

    // How many fields an object of a class has, the inherited ones included.
    pub fn size_of(&self, c: u32) -> u32
        ensures { (result ≡ length (slots (base_of self.now) c)) × (result ≤ 16711680) }
    {
        if u32::from(self.class_count()) <= c {
            return 0;
        }
        let mut at = c;
        let mut total: u32 = 0;
        loop {
            total += self.own_size(at);
            let Some(p) = self.super_of(at) else {
                return total;
            };
            at = p;
        }
    }

    // How many of them are inherited.
    pub fn inherited(&self, c: u32) -> u32
        ensures { (result ≡ inherited_in (base_of self.now) c) × (result ≤ 16711680) }
    {
        match self.super_of(c) {
            Some(p) => self.size_of(p),
            None => 0,
        }
    }

    // The place of a field that class d declares, among the fields of an object.
    pub fn slot_of(&self, d: u32, name: u16, type_name: u16) -> Option<u32>
        ensures { result ≡ optional (index_of (slot_is d name type_name) (slots (base_of self.now) d)) }
    {
        let i = classfile::find_field(self.file_of(d), name, type_name)?;
        Some(self.inherited(d) + u32::from(i))
    }

    // The types of an object's fields, written from place 0 on. Answers how many they are.
    pub fn slot_types(&self, types: &mut [u16], c: u32) -> u32
        ensures { (result ≡ length (slots (base_of self.now) c)) × (types.new ≡ write_rows set (map slot_type (slots (base_of self.now) c)) 0 types.old) }
    {
        let size = self.size_of(c);
        let mut at = c;
        let mut end = size;
        loop {
            end -= self.own_size(at);
            write_types(types, end, self.file_of(at));
            let Some(p) = self.super_of(at) else {
                return size;
            };
            at = p;
        }
    }
}
